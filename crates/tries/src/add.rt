// A clause added: its diagram is made, then it is tried as a RUP line and, failing with 19, as a PR line. (02, 4/14)
ghost use Rattle.std.specs.Prelude.{◌≡◌, Bool, List, ℕ, ◌≤◌, length, take};
ghost use Rattle.meaning.specs.Operations.{Literal};
ghost use Rattle.table.specs.Indexed.{table_of};
ghost use Rattle.walks.specs.Readable.{Roomy};
ghost use Rattle.conflict.specs.Marks.{unmarked};
ghost use Rattle.judge.specs.Lines.{Negatable};
ghost use Rattle.commands.specs.Inner.{clause_words};
ghost use Rattle.verdict.specs.Clausal.{add_step};
ghost use Rattle.profile.specs.Admitted.{tried_as};
ghost use Rattle.state.specs.States.{lent_of, state_of, Held, Stepped};
ghost use Rattle.tries.specs.Tries.{live_in, PivotFits, SecondTried, decided, BothTried, kept_by};
ghost use Rattle.meaning.specs.Literals.{OfVariables};

use commands::DratClause;
use judge::Judged;
use records::Rule;
use state::{State, Step};
use table::{NodeNo, Placed};

// Whether no try follows.
fn is_decided(j: Judged) -> bool
    ensures { result ≡ decided j }
{
    if j.full {
        return true;
    }
    j.shown
}

// How many nodes stay, of those before the clause's and with them.
fn kept_count(j: Judged, before: usize, after: usize) -> usize
    ensures { result ≡ kept_by j before after }
{
    if j.full {
        return before;
    }
    if !j.shown {
        return before;
    }
    after
}

// The second try: by PR with the clause's witness; none without a pivot. Table and marks are then as before.
fn second_try(
    vars: &mut [u8],
    lows: &mut [u16],
    highs: &mut [u16],
    heads: &mut [u16],
    links: &mut [u16],
    memo: &mut [u64],
    marks: &mut [u8],
    members: &[u16],
    scratch: &mut [u16],
    struck: &[u8],
    st: State,
    clause: DratClause,
    g: NodeNo,
) -> Judged
    requires { let before = table_of vars.old lows.old highs.old heads.old links.old st.count in
        Negatable before (take st.members members.now) memo.old g.0
        × (marks.old ≡ unmarked (length vars.old))
        × (st.members ≤ 2048)
        × (2048 ≤ length members.now)
        × (4096 ≤ length scratch.old)
        × (length struck.now ≡ length members.now)
        × PivotFits clause.pivot }
    ensures fact { let before = table_of vars.old lows.old highs.old heads.old links.old
        st.count in
        let after = table_of vars.new lows.new highs.new heads.new links.new st.count in
        let live = live_in members.now struck.now st in
        (after ≡ before) × SecondTried before live g.0 clause.literals clause.pivot result }
    ensures marks_after { marks.new ≡ unmarked (length vars.old) }
{
    let literals = clause.literals;
    let pivot = clause.pivot;
    match pivot {
        None => Judged {
            full: false,
            shown: false,
            rounds: 0,
            count: 0,
            peak: 0,
        },
        Some(l) => {
            let w = crate::witness(literals, l.variable, l.positive);
            steps::line::try_line(
                vars,
                lows,
                highs,
                heads,
                links,
                memo,
                marks,
                members,
                scratch,
                struck,
                steps::with_witness(st, w),
                Rule::Pr,
                g,
            )
        }
    }
}

// The clause's tries, once its diagram is made: none where that found no room. Table and marks are then as before.
fn both_tries(
    vars: &mut [u8],
    lows: &mut [u16],
    highs: &mut [u16],
    heads: &mut [u16],
    links: &mut [u16],
    memo: &mut [u64],
    marks: &mut [u8],
    members: &[u16],
    scratch: &mut [u16],
    struck: &[u8],
    st: State,
    clause: DratClause,
    made: Placed,
) -> Judged
    requires { let before = table_of vars.old lows.old highs.old heads.old links.old st.count in
        Negatable before (take st.members members.now) memo.old made.node.0
        × (marks.old ≡ unmarked (length vars.old))
        × (st.members ≤ 2048)
        × (2048 ≤ length members.now)
        × (4096 ≤ length scratch.old)
        × (length struck.now ≡ length members.now)
        × PivotFits clause.pivot }
    ensures fact { let before = table_of vars.old lows.old highs.old heads.old links.old
        st.count in
        let after = table_of vars.new lows.new highs.new heads.new links.new st.count in
        (after ≡ before) × BothTried before (live_in members.now struck.now st) clause made result }
    ensures marks_after { marks.new ≡ unmarked (length vars.old) }
{
    if made.full {
        return Judged {
            full: true,
            shown: false,
            rounds: 0,
            count: 0,
            peak: 0,
        };
    }
    let g = made.node;
    let first = steps::line::try_line(
        vars,
        lows,
        highs,
        heads,
        links,
        memo,
        marks,
        members,
        scratch,
        struck,
        st,
        Rule::Rup,
        g,
    );
    if is_decided(first) {
        return first;
    }
    let second = second_try(
        vars, lows, highs, heads, links, memo, marks, members, scratch, struck, st, clause, g,
    );
    let peak = table::greater(first.peak, second.peak);
    Judged {
        full: second.full,
        shown: second.shown,
        rounds: second.rounds,
        count: second.count,
        peak,
    }
}

// The clause is refused, or it is the next member. The nodes that its tries make are dropped, a refused clause's own too.
pub fn clause_step(
    vars: &mut [u8],
    lows: &mut [u16],
    highs: &mut [u16],
    heads: &mut [u16],
    links: &mut [u16],
    memo: &mut [u64],
    marks: &mut [u8],
    members: &mut [u16],
    scratch: &mut [u16],
    struck: &[u8],
    st: State,
    clause: DratClause,
) -> Step
    requires { let lent = lent_of vars.old lows.old highs.old heads.old links.old members.old scratch.old
        struck.now in
        Held 64 lent st
        × (marks.old ≡ unmarked (length vars.old))
        × Roomy vars.old memo.old
        × PivotFits clause.pivot }
    ensures stepped { let lent = lent_of vars.old lows.old highs.old heads.old links.old
        members.old scratch.old struck.now in
        let returned = lent_of vars.new lows.new highs.new heads.new links.new
        members.new scratch.new struck.now in
        (profile : Bool) (n : ℕ) (ls : List Literal) → Held n lent st → OfVariables n ls → tried_as profile (clause_words ls) ≡ clause →
        Stepped n lent returned st (add_step profile n (length vars.old) (state_of lent st) ls) result }
    ensures marks_after { marks.new ≡ unmarked (length vars.old) }
{
    let literals = clause.literals;
    if 1024 <= st.lines {
        return Step::Stop {
            number: 22,
            offset: 0,
        };
    }
    if words::shared(literals.positive, literals.negative) {
        return Step::Stop {
            number: 17,
            offset: 0,
        };
    }
    let made = clause::make(vars, lows, highs, heads, links, st.count, literals);
    let peak = table::greater(st.peak, made.count);
    let witness = st.witness;
    let with = State {
        count: made.count,
        kept: st.kept,
        members: st.members,
        entries: st.entries,
        witness,
        lines: st.lines,
        rounds: st.rounds,
        peak,
        refuted: st.refuted,
    };
    let g = made.node;
    let j = both_tries(
        vars, lows, highs, heads, links, memo, marks, members, scratch, struck, with, clause, made,
    );
    let keep = kept_count(j, st.count, made.count);
    table::drop_to(vars, lows, highs, heads, links, made.count, keep);
    steps::line::ended(members, with, j, g)
}
