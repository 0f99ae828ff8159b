// The calls over arrays whose first n places are the columns; 7 where the slice has more nodes than a table can.
ghost use Rattle.std.specs.Prelude.{◌≡◌, length, take};
ghost use Rattle.table.specs.Columns.{columns_made};
ghost use Rattle.single.specs.Single.{made_of, counted_of};
ghost use Rattle.single.specs.Inner.{OneOperand};
ghost use Rattle.nodes.specs.Second.{second_of};
ghost use Rattle.nodes.specs.Within.{operation_within, at_least_within, evaluation_within};

use operate::Operation;
use single::Evaluated;
use single::call::Single;
use single::least::AtLeast;
use table::NodeNo;
use table::test::MOST;

// The second operand: node 1 where the operation is of one diagram.
fn second(op: Operation, g: NodeNo) -> NodeNo
    ensures { (result.0 ≡ second_of op g.0) × OneOperand op result.0 }
{
    match op {
        Operation::Conjunction => g,
        Operation::Negation => NodeNo(1),
        Operation::Cofactor => g,
        Operation::Literals { .. } => NodeNo(1),
    }
}

// Conjunction, negation and the two cofactors.
pub fn operation_within(
    vars: &mut [u8],
    lows: &mut [u16],
    highs: &mut [u16],
    heads: &mut [u16],
    links: &mut [u16],
    n: usize,
    count: usize,
    op: Operation,
    f: NodeNo,
    g: NodeNo,
) -> Single
    requires { (length vars.old ≡ 65536) × (length lows.old ≡ 65536) × (length highs.old ≡ 65536) }
    ensures { let left = columns_made (take n vars.new) (take n lows.new) (take n highs.new)
        heads.new links.new in
        made_of left result
        ≡ operation_within op n vars.old lows.old highs.old heads.old links.old count
        f.0 g.0 }
{
    if MOST < n {
        return Single {
            number: 7,
            node: NodeNo(0),
            count,
        };
    }
    let h = second(op, g);
    single::call::call(
        &mut vars[..n],
        &mut lows[..n],
        &mut highs[..n],
        heads,
        links,
        count,
        op,
        f,
        h,
    )
}

// The diagram of "at least k of the set's variables", and the count of what it excludes.
pub fn at_least_within(
    vars: &mut [u8],
    lows: &mut [u16],
    highs: &mut [u16],
    heads: &mut [u16],
    links: &mut [u16],
    n: usize,
    count: usize,
    set: u64,
    k: u8,
) -> AtLeast
    requires { (length vars.old ≡ 65536) × (length lows.old ≡ 65536) × (length highs.old ≡ 65536) }
    ensures { let left = columns_made (take n vars.new) (take n lows.new) (take n highs.new)
        heads.new links.new in
        counted_of left result
        ≡ at_least_within n vars.old lows.old highs.old heads.old links.old count set
        k }
{
    if MOST < n {
        return AtLeast {
            number: 7,
            node: NodeNo(0),
            count,
            counted: false,
            excluded: 0,
        };
    }
    checker::at_least(
        &mut vars[..n],
        &mut lows[..n],
        &mut highs[..n],
        heads,
        links,
        count,
        set,
        k,
    )
}

// Whether the node is 1 under the word's assignment.
pub fn evaluate_within(
    vars: &[u8],
    lows: &[u16],
    highs: &[u16],
    heads: &[u16],
    links: &[u16],
    n: usize,
    count: usize,
    node: NodeNo,
    word: u64,
) -> Evaluated
    requires { (length vars.now ≡ 65536) × (length lows.now ≡ 65536) × (length highs.now ≡ 65536) }
    ensures { result
        ≡ evaluation_within n vars.now lows.now highs.now heads.now links.now count
        node.0 word }
{
    if MOST < n {
        return Evaluated {
            number: 7,
            yes: false,
            count,
        };
    }
    checker::evaluate(
        &vars[..n],
        &lows[..n],
        &highs[..n],
        heads,
        links,
        count,
        node,
        word,
    )
}
