// The single calls over the node table as one lent slice of node structs, with its index; crate `node_check` has the check, and `nodes_c`
// offers two of these calls to C. Each tests for itself all that it needs, and none has a `requires`.
#![tactic(auto)]

mod within;

ghost use Rattle.std.specs.Prelude.{◌≡◌};
ghost use Rattle.table.specs.Columns.{columns_made};
ghost use Rattle.single.specs.Single.{evaluation, made_of, operation, counted_of, at_least_call};
ghost use Rattle.columns.specs.Slice.{vars_of, lows_of, highs_of};
ghost use Rattle.nodes.specs.Second.{second_of};

pub use columns::Node;
use operate::Operation;
use single::Evaluated;
use single::call::Single;
use single::least::AtLeast;
use table::NodeNo;
use table::test::MOST;

// Conjunction, negation and the two cofactors; an operation of one diagram looks at f alone. Or 7, 26, 13, 27, 15, 23.
pub fn operation(
    nodes: &mut [Node],
    heads: &mut [u16],
    links: &mut [u16],
    count: usize,
    op: Operation,
    f: NodeNo,
    g: NodeNo,
) -> Single
    ensures { let lent = columns_made (vars_of nodes.old) (lows_of nodes.old) (highs_of nodes.old)
        heads.old links.old in
        let left = columns_made (vars_of nodes.new) (lows_of nodes.new) (highs_of nodes.new)
        heads.new links.new in
        made_of left result ≡ operation op lent count f.0 (second_of op g.0) }
{
    let mut vars = [0u8; MOST];
    let mut lows = [0u16; MOST];
    let mut highs = [0u16; MOST];
    let n = columns::places(nodes.len());
    columns::load(nodes, n, &mut vars, &mut lows, &mut highs);
    let r = within::operation_within(
        &mut vars,
        &mut lows,
        &mut highs,
        heads,
        links,
        nodes.len(),
        count,
        op,
        f,
        g,
    );
    columns::save(nodes, n, &vars, &lows, &highs);
    r
}

// The diagram of "at least k of the set's variables", and how many assignments of the set it excludes; or 7, 26, 23.
pub fn at_least(
    nodes: &mut [Node],
    heads: &mut [u16],
    links: &mut [u16],
    count: usize,
    set: u64,
    k: u8,
) -> AtLeast
    ensures { let lent = columns_made (vars_of nodes.old) (lows_of nodes.old) (highs_of nodes.old)
        heads.old links.old in
        let left = columns_made (vars_of nodes.new) (lows_of nodes.new) (highs_of nodes.new)
        heads.new links.new in
        counted_of left result ≡ at_least_call lent count set k }
{
    let mut vars = [0u8; MOST];
    let mut lows = [0u16; MOST];
    let mut highs = [0u16; MOST];
    let n = columns::places(nodes.len());
    columns::load(nodes, n, &mut vars, &mut lows, &mut highs);
    let r = within::at_least_within(
        &mut vars,
        &mut lows,
        &mut highs,
        heads,
        links,
        nodes.len(),
        count,
        set,
        k,
    );
    columns::save(nodes, n, &vars, &lows, &highs);
    r
}

// Whether the node is 1 under the word's assignment; or 7, 26, 13.
pub fn evaluate(
    nodes: &[Node],
    heads: &[u16],
    links: &[u16],
    count: usize,
    node: NodeNo,
    word: u64,
) -> Evaluated
    ensures { let lent = columns_made (vars_of nodes.now) (lows_of nodes.now) (highs_of nodes.now)
        heads.now links.now in
        result ≡ evaluation lent count node.0 word }
{
    let mut vars = [0u8; MOST];
    let mut lows = [0u16; MOST];
    let mut highs = [0u16; MOST];
    let n = columns::places(nodes.len());
    columns::load(nodes, n, &mut vars, &mut lows, &mut highs);
    within::evaluate_within(
        &vars,
        &lows,
        &highs,
        heads,
        links,
        nodes.len(),
        count,
        node,
        word,
    )
}
