// The evaluation and the at-least call of `nodes`, over the node table as one lent slice of node structs, for Rust and C to link. Crate
// `node_check` has the check.
#![tactic(auto)]

ghost use Rattle.std.specs.Prelude.{◌≡◌};
ghost use Rattle.table.specs.Columns.{columns_made};
ghost use Rattle.single.specs.Single.{evaluation, counted_of, at_least_call};
ghost use Rattle.columns.specs.Slice.{vars_of, lows_of, highs_of};

use nodes::Node;
use single::Evaluated;
use single::least::AtLeast;
use table::NodeNo;

// The diagram of "at least k of the set's variables", and how many assignments of the set it excludes; or 7, 26, 23.
#[unsafe(no_mangle)]
pub extern "C" fn cablesalak_at_least_nodes(
    nodes: &mut [Node],
    heads: &mut [u16],
    links: &mut [u16],
    count: usize,
    set: u64,
    k: u8,
) -> AtLeast
    ensures { let lent = columns_made (vars_of nodes.old) (lows_of nodes.old) (highs_of nodes.old)
        heads.old links.old in
        let left = columns_made (vars_of nodes.new) (lows_of nodes.new) (highs_of nodes.new)
        heads.new links.new in
        counted_of left result ≡ at_least_call lent count set k }
{
    nodes::at_least(nodes, heads, links, count, set, k)
}

// Whether the node is 1 under the word's assignment; or 7, 26, 13.
#[unsafe(no_mangle)]
pub extern "C" fn cablesalak_evaluate_nodes(
    nodes: &[Node],
    heads: &[u16],
    links: &[u16],
    count: usize,
    node: NodeNo,
    word: u64,
) -> Evaluated
    ensures { let lent = columns_made (vars_of nodes.now) (lows_of nodes.now) (highs_of nodes.now)
        heads.now links.now in
        result ≡ evaluation lent count node.0 word }
{
    nodes::evaluate(nodes, heads, links, count, node, word)
}
