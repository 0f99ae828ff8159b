// The cofactor by a node that is a conjunction of literals, as a clause's negation is: it is that by the literals, which takes no second
// node.
ghost use Rattle.std.specs.Prelude.{◌≡◌, true, ◌<◌};
ghost use Rattle.table.specs.Nodes.{diagram_at};
ghost use Rattle.walks.specs.Readable.{Readable, Roomy, nodes_in};
ghost use Rattle.supports.specs.Supports.{Support};
ghost use Rattle.judge.specs.Cubes.{CubeOf, ByNode};

use operate::Operation;
use table::NodeNo;
use words::Literals;

// Whether a diagram is a conjunction of literals, and these.
#[derive(Clone, Copy)]
pub struct Cube {
    pub found: bool,
    pub literals: Literals,
}

// The literals of node f where it is a conjunction of some.
fn literals_of(vars: &[u8], lows: &[u16], highs: &[u16], count: usize, f: NodeNo) -> Cube
    requires { Readable vars.now lows.now highs.now count × (f.0 < count) }
    ensures { result.found ≡ true →
        CubeOf result.literals (diagram_at (nodes_in vars.now lows.now highs.now count) f.0) }
{
    let mut positive: u64 = 0;
    let mut negative: u64 = 0;
    let mut k = f.0 as usize;
    while 2 <= k {
        let x = vars[k];
        let low = lows[k] as usize;
        let high = highs[k] as usize;
        if low == 0 {
            positive = words::with_variable(positive, x);
            k = high;
        } else {
            if high != 0 {
                return Cube {
                    found: false,
                    literals: Literals { positive, negative },
                };
            }
            negative = words::with_variable(negative, x);
            k = low;
        }
    }
    Cube {
        found: k == 1,
        literals: Literals { positive, negative },
    }
}

// What a cofactor by a node is done by: the operation and its second node, the variables that the results may gain, and those that it sets.
#[derive(Clone, Copy)]
pub struct Cofactoring {
    pub op: Operation,
    pub g: NodeNo,
    pub gained: u64,
    pub touching: u64,
}

// What the cofactor by node n is done by, where `word` has n's variables: its literals where it is a conjunction of some. Else the memo,
// cleared, serves to find what it forces.
pub fn by_node(
    vars: &[u8],
    lows: &[u16],
    highs: &[u16],
    memo: &mut [u64],
    count: usize,
    n: NodeNo,
    word: u64,
) -> Cofactoring
    requires { Readable vars.now lows.now highs.now count
        × (n.0 < count)
        × Roomy vars.now memo.old
        × Support word (diagram_at (nodes_in vars.now lows.now highs.now count) n.0)
        × (n.0 ≡ 0 → ⊥) }
    ensures { ByNode (nodes_in vars.now lows.now highs.now count) count n.0 result }
{
    let cube = literals_of(vars, lows, highs, count, n);
    if cube.found {
        let by = cube.literals;
        return Cofactoring {
            op: Operation::Literals {
                positive: by.positive,
                negative: by.negative,
            },
            g: NodeNo(1),
            gained: 0,
            touching: by.positive | by.negative,
        };
    }
    let touching = supports::forced::forced_of(vars, lows, highs, memo, count, n, word);
    Cofactoring {
        op: Operation::Cofactor,
        g: n,
        gained: word,
        touching,
    }
}
