// The cause of an added clause that is refused with 19, from its last try. (02, 8/14)
#![tactic(auto)]

ghost use Rattle.std.specs.Prelude.{◌≡◌, ◌≤◌, length, take};
ghost use Rattle.table.specs.Indexed.{table_of, nodes_of};
ghost use Rattle.walks.specs.Readable.{Roomy};
ghost use Rattle.conflict.specs.Marks.{unmarked};
ghost use Rattle.judge.specs.Lines.{Negatable};
ghost use Rattle.verdict.specs.Check.{zeros};
ghost use Rattle.verdict.specs.Steps.{unstruck};
ghost use Rattle.state.specs.States.{lent_of, state_of, Held};
ghost use Rattle.tries.specs.Tries.{PivotFits};
ghost use Rattle.causes.specs.Causes.{clause_cause};
ghost use Rattle.causes.specs.Answers.{told};
ghost use Rattle.clause_causes.specs.Clauses.{ClauseRefused, told_of, TryFails, TryTold};

use commands::DratClause;
use state::State;
use table::NodeNo;

// The rounds of the last propagation, and the member that was not shown, where the last try has turns.
#[derive(Clone, Copy)]
pub struct Failed {
    pub rounds: usize,
    pub has_member: bool,
    pub member: usize,
}

// The cause of the last try, node g being the clause's: a PR line with the clause's witness; without a pivot a RUP line. Table and marks
// are then as before.
fn tried_cause(
    vars: &mut [u8],
    lows: &mut [u16],
    highs: &mut [u16],
    heads: &mut [u16],
    links: &mut [u16],
    memo: &mut [u64],
    marks: &mut [u8],
    members: &[u16],
    scratch: &mut [u16],
    struck: &[u8],
    fixed: &mut [u64],
    count: usize,
    many: usize,
    clause: DratClause,
    g: NodeNo,
) -> Failed
    requires fact { let before = table_of vars.old lows.old highs.old heads.old links.old count in
        let live = unstruck (take many struck.now) (take many members.now) in
        Negatable before (take many members.now) memo.old g.0
        × (marks.old ≡ unmarked (length vars.old))
        × (many ≤ 2048)
        × (2048 ≤ length members.now)
        × (4096 ≤ length scratch.old)
        × (length struck.now ≡ length members.now)
        × PivotFits clause.pivot
        × TryFails before live g.0 clause.literals clause.pivot }
    requires in_bounds { (128 ≤ length fixed.old) × (fixed.old ≡ zeros (length fixed.old)) }
    ensures fact_2 { let before = table_of vars.old lows.old highs.old heads.old links.old count in
        let after = table_of vars.new lows.new highs.new heads.new links.new count in
        (after ≡ before)
        × TryTold (nodes_of before) members.now struck.now many g.0 clause.literals clause.pivot result
        fixed.new }
    ensures marks_after { marks.new ≡ unmarked (length vars.old) }
{
    let literals = clause.literals;
    let pivot = clause.pivot;
    match pivot {
        None => {
            let rounds = tell::rup::rup_cause(
                vars, lows, highs, heads, links, memo, members, scratch, struck, fixed, count,
                many, g,
            );
            Failed {
                rounds,
                has_member: false,
                member: 0,
            }
        }
        Some(l) => {
            let w = tries::witness(literals, l.variable, l.positive);
            let t = tell::pr::pr_cause(
                vars, lows, highs, heads, links, memo, marks, members, scratch, struck, fixed,
                count, many, g, w,
            );
            Failed {
                rounds: t.rounds,
                has_member: true,
                member: t.member,
            }
        }
    }
}

// The cause of an added clause that is refused with 19 in the state held; the literals go into `fixed`. The clause's diagram is made again
// and dropped: table and marks are then as before.
pub fn clause_cause(
    vars: &mut [u8],
    lows: &mut [u16],
    highs: &mut [u16],
    heads: &mut [u16],
    links: &mut [u16],
    memo: &mut [u64],
    marks: &mut [u8],
    members: &[u16],
    scratch: &mut [u16],
    struck: &[u8],
    fixed: &mut [u64],
    st: State,
    clause: DratClause,
) -> Failed
    requires { let lent = lent_of vars.old lows.old highs.old heads.old links.old members.now scratch.old
        struck.now in
        Held 64 lent st
        × (marks.old ≡ unmarked (length vars.old))
        × Roomy vars.old memo.old
        × PivotFits clause.pivot
        × (128 ≤ length fixed.old)
        × (fixed.old ≡ zeros (length fixed.old))
        × ClauseRefused lent st clause }
    ensures st_value { let lent = lent_of vars.old lows.old highs.old heads.old links.old
        members.now scratch.old struck.now in
        (R : ClauseRefused lent st clause) →
        told (length fixed.old) (clause_cause R.profile R.n (state_of lent st) R.literals)
        ≡ told_of result fixed.new }
    ensures count_unchanged { table_of vars.new lows.new highs.new heads.new links.new st.count
        ≡ table_of vars.old lows.old highs.old heads.old links.old st.count }
    ensures marks_after { marks.new ≡ unmarked (length vars.old) }
{
    let made = clause::make(vars, lows, highs, heads, links, st.count, clause.literals);
    let failed = tried_cause(
        vars, lows, highs, heads, links, memo, marks, members, scratch, struck, fixed, made.count,
        st.members, clause, made.node,
    );
    table::drop_to(vars, lows, highs, heads, links, made.count, st.count);
    failed
}
