// Proof lines: by RUP, by PR, and over paths.
ghost use Rattle.std.specs.Prelude.{◌≡◌, ◌||◌, List, ℕ, ◌+◌, ◌*◌, ◌≤◌, ◌<◌, length, take, eqb};
ghost use Rattle.table.specs.Nodes.{diagram_at};
ghost use Rattle.table.specs.Indexed.{table_of, nodes_of};
ghost use Rattle.walks.specs.Readable.{Readable, Roomy};
ghost use Rattle.verdict.specs.Steps.{line_step};
ghost use Rattle.verdict.specs.Taken.{line_by, line_of};
ghost use Rattle.table.specs.Lists.{Inside, diagrams_of};
ghost use Rattle.conflict.specs.Marks.{unmarked};
ghost use Rattle.judge.specs.Lines.{Negatable, LineSays};
ghost use Rattle.state.specs.States.{lent_of, state_of, Held, Stepped};
ghost use Rattle.paths.specs.Rounds.{most_rounds};
ghost use Rattle.steps.specs.NextStates.{with_line};
ghost use Rattle.steps.specs.Tests.{LineTested, FewPaths};
ghost use Rattle.steps.specs.Tried.{Tried, step_by, members_by};

use judge::Judged;
use records::{EntryNo, Rule};
use state::{State, Step};
use table::NodeNo;
use words::Literals;

// What the tests of a line come to: 13, 16, 22 or 17 of a RUP line, 13, 22, 17 or 18 of a PR line, a RUP line's or 34 of a path line; or
// its root's node, to be judged.
#[derive(Clone, Copy)]
pub enum LineTest {
    Refused(u8),
    Fits(NodeNo),
}

// The tests of a line, in the order of its rule.
fn line_test(
    vars: &[u8],
    lows: &[u16],
    highs: &[u16],
    memo: &mut [u64],
    scratch: &[u16],
    st: State,
    rule: Rule,
    root: EntryNo,
) -> LineTest
    requires { Readable vars.now lows.now highs.now st.count
        × Inside st.count (take st.entries scratch.now)
        × (st.entries ≤ 4096)
        × (4096 ≤ length scratch.now)
        × Roomy vars.now memo.old }
    ensures { (ds ks ms ss : List ℕ) → (
        let lent = lent_of vars.now lows.now highs.now ds ks ms scratch.now ss in
        LineTested 64 (state_of lent st) rule root.0 result) }
{
    let entries = st.entries;
    if !entries::node::is_entry(entries, root) {
        return LineTest::Refused(13);
    }
    let g = entries::node::entry_node(scratch, entries, root);
    match rule {
        Rule::Rup => {
            if crate::witness::waits(st.witness) {
                return LineTest::Refused(16);
            }
            if 1024 <= st.lines {
                return LineTest::Refused(22);
            }
            if g.0 == 1 {
                return LineTest::Refused(17);
            }
            LineTest::Fits(g)
        }
        Rule::Pr => {
            if 1024 <= st.lines {
                return LineTest::Refused(22);
            }
            if g.0 == 1 {
                return LineTest::Refused(17);
            }
            if !walks::is_one(vars, lows, highs, memo, st.count, g, st.witness) {
                return LineTest::Refused(18);
            }
            LineTest::Fits(g)
        }
        Rule::Path => {
            if crate::witness::waits(st.witness) {
                return LineTest::Refused(16);
            }
            if 1024 <= st.lines {
                return LineTest::Refused(22);
            }
            if g.0 == 1 {
                return LineTest::Refused(17);
            }
            if paths::paths_left(vars, lows, highs, st.count, g, 4097) == 0 {
                return LineTest::Refused(34);
            }
            LineTest::Fits(g)
        }
    }
}

// Judges the line by its rule over the members whose nodes are in `live`; the entries are gone. Its nodes stay.
fn judge_line(
    vars: &mut [u8],
    lows: &mut [u16],
    highs: &mut [u16],
    heads: &mut [u16],
    links: &mut [u16],
    memo: &mut [u64],
    marks: &mut [u8],
    live: &[u16],
    scratch: &mut [u16],
    st: State,
    rule: Rule,
    g: NodeNo,
) -> Judged
    requires { let before = table_of vars.old lows.old highs.old heads.old links.old st.count in
        Negatable before live.now memo.old g.0
        × (marks.old ≡ unmarked (length vars.old))
        × (length live.now ≤ 2048)
        × (4096 ≤ length scratch.old)
        × FewPaths rule (diagram_at (nodes_of before) g.0) }
    ensures fact { let before = table_of vars.old lows.old highs.old heads.old links.old
        st.count in
        let after = table_of vars.new lows.new highs.new heads.new links.new result.count in
        let diagrams = diagrams_of (nodes_of before) live.now in
        let line = line_by 64 rule st.witness.positive st.witness.negative diagrams (diagram_at (nodes_of before) g.0) in
        LineSays before line most_rounds result after }
    ensures marks_after { marks.new ≡ unmarked (length vars.old) }
{
    let m = live.len();
    let mut memberwords = [0u64; 2048];
    let mut words = [0u64; 2048];
    match rule {
        Rule::Rup => judge::rup::rup(
            vars,
            lows,
            highs,
            heads,
            links,
            memo,
            marks,
            live,
            &mut memberwords[..m],
            &mut scratch[..m],
            &mut words[..m],
            st.count,
            g,
        ),
        Rule::Pr => {
            // Two parts of the scratch list cannot be lent at once.
            let mut second = [0u16; 2048];
            let mut secondwords = [0u64; 2048];
            pr_lines::pr(
                vars,
                lows,
                highs,
                heads,
                links,
                memo,
                marks,
                live,
                &mut memberwords[..m],
                &mut scratch[..m],
                &mut words[..m],
                &mut second[..m],
                &mut secondwords[..m],
                st.count,
                g,
                st.witness,
            )
        }
        Rule::Path => path_lines::path(
            vars,
            lows,
            highs,
            heads,
            links,
            memo,
            marks,
            live,
            &mut memberwords[..m],
            &mut scratch[..m],
            &mut words[..m],
            st.count,
            g,
        ),
    }
}

// Judges the line by its rule over the members that are not struck; the entries are gone. Its nodes stay.
fn judge_live(
    vars: &mut [u8],
    lows: &mut [u16],
    highs: &mut [u16],
    heads: &mut [u16],
    links: &mut [u16],
    memo: &mut [u64],
    marks: &mut [u8],
    members: &[u16],
    scratch: &mut [u16],
    struck: &[u8],
    st: State,
    rule: Rule,
    g: NodeNo,
) -> Judged
    requires { let before = table_of vars.old lows.old highs.old heads.old links.old st.count in
        Negatable before (take st.members members.now) memo.old g.0
        × (marks.old ≡ unmarked (length vars.old))
        × (st.members ≤ 2048)
        × (2048 ≤ length members.now)
        × (4096 ≤ length scratch.old)
        × (length struck.now ≡ length members.now)
        × FewPaths rule (diagram_at (nodes_of before) g.0) }
    ensures fact { let before = table_of vars.old lows.old highs.old heads.old links.old
        st.count in
        let lent = lent_of vars.old lows.old highs.old heads.old links.old
        members.now scratch.old struck.now in
        let after = table_of vars.new lows.new highs.new heads.new links.new result.count in
        LineSays before (line_of 64 (state_of lent st) rule g.0) most_rounds result after }
    ensures marks_after { marks.new ≡ unmarked (length vars.old) }
{
    let mut live = [0u16; 2048];
    let m = crate::strike::live_members(members, struck, st.members, &mut live);
    judge_line(
        vars,
        lows,
        highs,
        heads,
        links,
        memo,
        marks,
        &live[..m],
        scratch,
        st,
        rule,
        g,
    )
}

// Judges the line by its rule over the members that are not struck; the entries are gone. The nodes that judging makes are dropped.
pub fn try_line(
    vars: &mut [u8],
    lows: &mut [u16],
    highs: &mut [u16],
    heads: &mut [u16],
    links: &mut [u16],
    memo: &mut [u64],
    marks: &mut [u8],
    members: &[u16],
    scratch: &mut [u16],
    struck: &[u8],
    st: State,
    rule: Rule,
    g: NodeNo,
) -> Judged
    requires { let before = table_of vars.old lows.old highs.old heads.old links.old st.count in
        Negatable before (take st.members members.now) memo.old g.0
        × (marks.old ≡ unmarked (length vars.old))
        × (st.members ≤ 2048)
        × (2048 ≤ length members.now)
        × (4096 ≤ length scratch.old)
        × (length struck.now ≡ length members.now)
        × FewPaths rule (diagram_at (nodes_of before) g.0) }
    ensures fact { let before = table_of vars.old lows.old highs.old heads.old links.old
        st.count in
        let lent = lent_of vars.old lows.old highs.old heads.old links.old
        members.now scratch.old struck.now in
        let after = table_of vars.new lows.new highs.new heads.new links.new st.count in
        (after ≡ before) × Tried before (line_of 64 (state_of lent st) rule g.0) result }
    ensures marks_after { marks.new ≡ unmarked (length vars.old) }
{
    let j = judge_live(
        vars, lows, highs, heads, links, memo, marks, members, scratch, struck, st, rule, g,
    );
    table::drop_to(vars, lows, highs, heads, links, j.count, st.count);
    j
}

// Whether a line is 0, or one before it was.
fn refutes(before: bool, g: NodeNo) -> bool
    ensures { result ≡ (before || eqb g.0 0) }
{
    if before {
        return true;
    }
    g.0 == 0
}

// The state after a line that is shown.
fn with_line(st: State, rounds: u64, peak: usize, g: NodeNo) -> State
    requires { (st.members ≤ 2048) × (st.lines ≤ 1024) × (st.rounds + rounds ≤ 1025 * most_rounds) }
    ensures { result ≡ with_line st rounds peak g.0 }
{
    let refuted = refutes(st.refuted, g);
    State {
        count: st.count,
        kept: st.count,
        members: st.members + 1,
        entries: 0,
        witness: Literals {
            positive: 0,
            negative: 0,
        },
        lines: st.lines + 1,
        rounds: st.rounds + rounds,
        peak,
        refuted,
    }
}

// What a judged line comes to: it is refused, or its root is the next member.
pub fn ended(members: &mut [u16], st: State, j: Judged, g: NodeNo) -> Step
    requires { (st.members < 2048)
        × (2048 ≤ length members.old)
        × (st.lines ≤ 1024)
        × (st.rounds + j.rounds ≤ 1025 * most_rounds) }
    ensures value { result ≡ step_by st j g.0 }
    ensures members_after { members.new ≡ members_by members.old st j g.0 }
{
    let peak = table::greater(st.peak, j.peak);
    if j.full {
        return Step::Spent { number: 23, peak };
    }
    if !j.shown {
        return Step::Spent { number: 19, peak };
    }
    let m = st.members;
    members[m] = g.0;
    Step::Next(with_line(st, j.rounds, peak, g))
}

// The line is refused, or its root is the next member. The nodes that judging makes are dropped.
pub fn line_step(
    vars: &mut [u8],
    lows: &mut [u16],
    highs: &mut [u16],
    heads: &mut [u16],
    links: &mut [u16],
    memo: &mut [u64],
    marks: &mut [u8],
    members: &mut [u16],
    scratch: &mut [u16],
    struck: &[u8],
    st: State,
    rule: Rule,
    root: EntryNo,
) -> Step
    requires { let lent = lent_of vars.old lows.old highs.old heads.old links.old members.old scratch.old
        struck.now in
        Held 64 lent st × (marks.old ≡ unmarked (length vars.old)) × Roomy vars.old memo.old }
    ensures stepped { let lent = lent_of vars.old lows.old highs.old heads.old links.old
        members.old scratch.old struck.now in
        let returned = lent_of vars.new lows.new highs.new heads.new links.new
        members.new scratch.new struck.now in
        (n : ℕ) → Held n lent st →
        Stepped n lent returned st (line_step n (length vars.old) (state_of lent st) rule root.0) result }
    ensures marks_after { marks.new ≡ unmarked (length vars.old) }
{
    match line_test(vars, lows, highs, memo, scratch, st, rule, root) {
        LineTest::Refused(number) => Step::Stop { number, offset: 0 },
        LineTest::Fits(g) => {
            let j = try_line(
                vars, lows, highs, heads, links, memo, marks, members, scratch, struck, st, rule, g,
            );
            ended(members, st, j, g)
        }
    }
}
