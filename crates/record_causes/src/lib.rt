// The cause of 14 and of 18, from the record that is refused. (02, 8/14)
#![tactic(auto)]

ghost use Rattle.std.specs.Prelude.{◌≡◌, false, List, ◌∷◌, ℕ, ◌+◌, ◌≤◌, ◌<◌, length, get_or, take};
ghost use Rattle.meaning.specs.Words.{in_word, assignment_of};
ghost use Rattle.table.specs.Nodes.{diagram_at};
ghost use Rattle.table.specs.Lists.{Inside};
ghost use Rattle.walks.specs.Readable.{nodes_in, Readable, Roomy};
ghost use Rattle.records.specs.declared.Rule.TheVariants.{Pr};
ghost use Rattle.verdict.specs.Steps.{entry_node, diagram_in};
ghost use Rattle.state.specs.States.{lent_of, state_of};
ghost use Rattle.causes.specs.Causes as causes;
ghost use Rattle.causes.specs.Causes.{variables_of, line_cause};
ghost use Rattle.why.specs.Greedy.{Shut};

use records::{EntryNo, NodeBody};
use state::State;

// Of a node record that is refused with 14: the variable of the child that its own is not before.
pub fn node_cause(
    vars: &[u8],
    lows: &[u16],
    highs: &[u16],
    scratch: &[u16],
    st: State,
    b: NodeBody,
) -> u8
    requires { Readable vars.now lows.now highs.now st.count
        × Inside st.count (take st.entries scratch.now)
        × (st.entries ≤ length scratch.now)
        × (b.low.0 < st.entries + 2)
        × (b.high.0 < st.entries + 2) }
    ensures { (ds ks ms ss : List ℕ) → (
        let lent = lent_of vars.now lows.now highs.now ds ks ms scratch.now ss in
        variables_of (state_of lent st) b ≡ causes.variables b.variable result) }
{
    let entries = st.entries;
    let low = entries::node::entry_node(scratch, entries, b.low);
    let high = entries::node::entry_node(scratch, entries, b.high);
    why::child::child_variable(vars, lows, highs, st.count, b.variable, low, high)
}

// Of a PR line that is refused with 18: the word of the smallest assignment that agrees with the witness and makes the line false.
pub fn shut_cause(
    vars: &[u8],
    lows: &[u16],
    highs: &[u16],
    memo: &mut [u64],
    scratch: &[u16],
    st: State,
    variables: u8,
    root: EntryNo,
) -> u64
    requires readable { Readable vars.now lows.now highs.now st.count
        × Inside st.count (take st.entries scratch.now)
        × (st.entries ≤ length scratch.now)
        × (root.0 < st.entries + 2)
        × Roomy vars.now memo.old
        × (variables ≤ 64) }
    requires fact { let g = get_or (0 ∷ 1 ∷ take st.entries scratch.now) root.0 0 in
        Shut variables (diagram_at (nodes_in vars.now lows.now highs.now st.count) g) st.witness }
    ensures g_value { (ds ks ms ss : List ℕ) → (
        let lent = lent_of vars.now lows.now highs.now ds ks ms scratch.now ss in
        let g = entry_node (state_of lent st) root.0 in
        line_cause variables 18 (state_of lent st) Pr (diagram_in (state_of lent st) g)
        ≡ causes.assignment (assignment_of variables result)) }
    ensures by_index { (v : ℕ) → variables < v → in_word result v ≡ false }
{
    let g = entries::node::entry_node(scratch, st.entries, root);
    why::smallest::smallest_false(vars, lows, highs, memo, st.count, variables, g, st.witness)
}
