// The cause of a line that is refused with 19, by its rule.
ghost use Rattle.std.specs.Prelude.{◌≡◌, ◌≤◌, length};
ghost use Rattle.table.specs.Indexed.{table_of};
ghost use Rattle.walks.specs.Readable.{Roomy};
ghost use Rattle.conflict.specs.Marks.{unmarked};
ghost use Rattle.verdict.specs.Check.{zeros};
ghost use Rattle.verdict.specs.Steps.{entry_node, diagram_in};
ghost use Rattle.state.specs.States.{lent_of, state_of};
ghost use Rattle.causes.specs.Causes.{line_cause};
ghost use Rattle.causes.specs.Answers.{told};
ghost use Rattle.command_causes.specs.Causes.{told_by, LineRefused};

use crate::Cause;
use records::{EntryNo, Rule};
use state::State;

// The literals are told in `fixed`. What is made is dropped: table and marks are then as before; the scratch list is then anything.
pub fn line_cause(
    vars: &mut [u8],
    lows: &mut [u16],
    highs: &mut [u16],
    heads: &mut [u16],
    links: &mut [u16],
    memo: &mut [u64],
    marks: &mut [u8],
    members: &[u16],
    scratch: &mut [u16],
    struck: &[u8],
    fixed: &mut [u64],
    st: State,
    rule: Rule,
    root: EntryNo,
) -> Cause
    requires { let lent = lent_of vars.old lows.old highs.old heads.old links.old members.now scratch.old
        struck.now in
        LineRefused lent st rule root.0
        × (marks.old ≡ unmarked (length vars.old))
        × Roomy vars.old memo.old
        × (128 ≤ length fixed.old)
        × (fixed.old ≡ zeros (length fixed.old)) }
    ensures fixed_after { let lent = lent_of vars.old lows.old highs.old heads.old links.old
        members.now scratch.old struck.now in
        let g = diagram_in (state_of lent st) (entry_node (state_of lent st) root.0) in
        (R : LineRefused lent st rule root.0) →
        told_by result fixed.new ≡ told (length fixed.old) (line_cause R.n 19 (state_of lent st) rule g) }
    ensures count_unchanged { table_of vars.new lows.new highs.new heads.new links.new st.count
        ≡ table_of vars.old lows.old highs.old heads.old links.old st.count }
    ensures marks_after { marks.new ≡ unmarked (length vars.old) }
{
    let count = st.count;
    let many = st.members;
    let g = entries::node::entry_node(scratch, st.entries, root);
    match rule {
        Rule::Rup => {
            let rounds = tell::rup::rup_cause(
                vars, lows, highs, heads, links, memo, members, scratch, struck, fixed, count,
                many, g,
            );
            crate::of_rounds(rounds, false, 0)
        }
        Rule::Pr => {
            let t = tell::pr::pr_cause(
                vars, lows, highs, heads, links, memo, marks, members, scratch, struck, fixed,
                count, many, g, st.witness,
            );
            crate::of_rounds(t.rounds, true, t.member)
        }
        Rule::Path => {
            let rounds = path_causes::path_cause(
                vars, lows, highs, heads, links, memo, marks, members, scratch, struck, fixed,
                count, many, g,
            );
            crate::of_rounds(rounds, false, 0)
        }
    }
}
