// Node records, and the entries that they make.
ghost use Rattle.std.specs.Prelude.{◌≡◌, List, ◌∷◌, ℕ, ◌+◌, ◌≤◌, ◌<◌, length, get_or, take, ltb};
ghost use Rattle.table.specs.Indexed.{table_of};
ghost use Rattle.walks.specs.Readable.{Readable};
ghost use Rattle.verdict.specs.Steps.{node_step};
ghost use Rattle.table.specs.Lists.{Inside};
ghost use Rattle.state.specs.States.{lent_of, state_of, state_with_entry, EntriesHeld, Held, Stepped};
ghost use Rattle.entries.specs.Tests.{NodeTested};

use records::{EntryNo, NodeBody};
use state::{State, Step};
use table::NodeNo;

// Whether there is such an entry: 0, 1 or one of the line's.
pub fn is_entry(entries: usize, e: EntryNo) -> bool
    requires { entries ≤ 4096 }
    ensures { result ≡ ltb e.0 (entries + 2) }
{
    let k = e.0 as usize;
    k < entries + 2
}

// The node of an entry that is there.
pub fn entry_node(scratch: &[u16], entries: usize, e: EntryNo) -> NodeNo
    requires { (entries ≤ length scratch.now) × (e.0 < entries + 2) }
    ensures { result.0 ≡ get_or (0 ∷ 1 ∷ take entries scratch.now) e.0 0 }
{
    let k = e.0 as usize;
    if k < 2 {
        return NodeNo(e.0);
    }
    NodeNo(scratch[k - 2])
}

// What the tests of a node record come to: 21, 12, 13 or 14, or the nodes of its two entries.
#[derive(Clone, Copy)]
pub enum NodeTest {
    Refused(u8),
    Fits { low: NodeNo, high: NodeNo },
}

// The tests of a node record, in their order.
fn node_test(
    vars: &[u8],
    lows: &[u16],
    highs: &[u16],
    scratch: &[u16],
    st: State,
    variables: u8,
    b: NodeBody,
) -> NodeTest
    requires { Readable vars.now lows.now highs.now st.count
        × Inside st.count (take st.entries scratch.now)
        × (st.entries ≤ 4096)
        × (4096 ≤ length scratch.now) }
    ensures { (ds ks ms ss : List ℕ) → (
        let lent = lent_of vars.now lows.now highs.now ds ks ms scratch.now ss in
        NodeTested variables (state_of lent st) b result) }
{
    let entries = st.entries;
    if 4096 <= entries {
        return NodeTest::Refused(21);
    }
    let v = b.variable;
    if v < 1 {
        return NodeTest::Refused(12);
    }
    if variables < v {
        return NodeTest::Refused(12);
    }
    if !is_entry(entries, b.low) {
        return NodeTest::Refused(13);
    }
    if !is_entry(entries, b.high) {
        return NodeTest::Refused(13);
    }
    let low = entry_node(scratch, entries, b.low);
    let high = entry_node(scratch, entries, b.high);
    if !table::test::stands_above(vars, lows, highs, v, low.0) {
        return NodeTest::Refused(14);
    }
    if !table::test::stands_above(vars, lows, highs, v, high.0) {
        return NodeTest::Refused(14);
    }
    NodeTest::Fits { low, high }
}

// The state with one entry more.
pub fn with_entry(st: State, count: usize, peak: usize) -> State
    requires { st.entries ≤ 4096 }
    ensures { result ≡ state_with_entry st count peak }
{
    let witness = st.witness;
    State {
        count,
        kept: st.kept,
        members: st.members,
        entries: st.entries + 1,
        witness,
        lines: st.lines,
        rounds: st.rounds,
        peak,
        refuted: st.refuted,
    }
}

// The node record makes the next entry, its node in the scratch list; or is refused.
pub fn node_step(
    vars: &mut [u8],
    lows: &mut [u16],
    highs: &mut [u16],
    heads: &mut [u16],
    links: &mut [u16],
    scratch: &mut [u16],
    st: State,
    variables: u8,
    b: NodeBody,
) -> Step
    requires { let before = table_of vars.old lows.old highs.old heads.old links.old st.count in
        EntriesHeld variables before scratch.old st.entries }
    ensures { (ms ss : List ℕ) → (
        let lent = lent_of vars.old lows.old highs.old heads.old links.old ms
        scratch.old ss in
        let returned = lent_of vars.new lows.new highs.new heads.new links.new ms
        scratch.new ss in
        Held variables lent st →
        Stepped variables lent returned st (node_step variables (length vars.old) (state_of lent st) b) result) }
{
    match node_test(vars, lows, highs, scratch, st, variables, b) {
        NodeTest::Refused(number) => Step::Stop { number, offset: 0 },
        NodeTest::Fits { low, high } => {
            let p = table::put(
                vars, lows, highs, heads, links, st.count, b.variable, low, high,
            );
            let peak = table::greater(st.peak, p.count);
            if p.full {
                return Step::Spent { number: 23, peak };
            }
            let k = p.node;
            let entries = st.entries;
            scratch[entries] = k.0;
            Step::Next(with_entry(st, p.count, peak))
        }
    }
}
