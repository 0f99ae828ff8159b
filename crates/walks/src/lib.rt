// Walks over the nodes of a table that place no node.
#![tactic(auto)]

ghost use Rattle.std.specs.Prelude.{◌≡◌, ◌≤◌, ◌<◌, length};
ghost use Rattle.walks.specs.Readable.{Readable, Roomy, Cleared, nodes_in, value_under};
ghost use Rattle.walks.specs.Constant.{sides_under, one_at, OneMemo};

use table::NodeNo;
use words::Literals;

// The value of a node under the word's assignment: the walk from it to a constant.
pub fn value_of(
    vars: &[u8],
    lows: &[u16],
    highs: &[u16],
    count: usize,
    node: NodeNo,
    word: u64,
) -> bool
    requires { Readable vars.now lows.now highs.now count × (node.0 < count) }
    ensures { result ≡ value_under (nodes_in vars.now lows.now highs.now count) node.0 word }
{
    let mut k = node.0 as usize;
    while k >= 2 {
        let v = vars[k] as u64;
        if (word >> (v - 1)) % 2 == 1 {
            k = highs[k] as usize;
        } else {
            k = lows[k] as usize;
        }
    }
    k == 1
}

// Empties the memo's cells for the first `count` nodes.
pub fn clear_cells(memo: &mut [u64], count: usize)
    requires { count ≤ length memo.old }
    ensures { Cleared count memo.new }
{
    let mut i: usize = 0;
    while i < count {
        memo[i] = 0;
        i += 1;
    }
}

// The two nodes that a node's cofactor by literals is made from; they are one where its variable has a literal.
#[derive(Clone, Copy)]
pub struct SidesUnder {
    pub low: NodeNo,
    pub high: NodeNo,
}

fn sides_under(
    vars: &[u8],
    lows: &[u16],
    highs: &[u16],
    count: usize,
    f: NodeNo,
    literals: Literals,
) -> SidesUnder
    requires { Readable vars.now lows.now highs.now count × (2 ≤ f.0) × (f.0 < count) }
    ensures { result
        ≡ sides_under vars.now lows.now highs.now f.0 literals.positive literals.negative }
{
    let i = f.0 as usize;
    let v = vars[i];
    let low = NodeNo(lows[i]);
    let high = NodeNo(highs[i]);
    if words::in_word(literals.positive, v) {
        return SidesUnder { low: high, high };
    }
    if words::in_word(literals.negative, v) {
        return SidesUnder { low, high: low };
    }
    SidesUnder { low, high }
}

// Whether the node's cofactor by the literals is 1. Stops at the first leaf that is not.
pub fn is_one(
    vars: &[u8],
    lows: &[u16],
    highs: &[u16],
    memo: &mut [u64],
    count: usize,
    f: NodeNo,
    literals: Literals,
) -> bool
    requires { Readable vars.now lows.now highs.now count × (f.0 < count) × Roomy vars.now memo.old }
    ensures { let nodes = nodes_in vars.now lows.now highs.now count in
        result ≡ one_at nodes literals.positive literals.negative f.0 }
{
    clear_cells(memo, count);
    one_from(vars, lows, highs, memo, count, f, literals)
}

// The same where the memo holds nodes whose cofactor is known to be 1; it stays so.
fn one_from(
    vars: &[u8],
    lows: &[u16],
    highs: &[u16],
    memo: &mut [u64],
    count: usize,
    f: NodeNo,
    literals: Literals,
) -> bool
    requires readable { Readable vars.now lows.now highs.now count × (f.0 < count) × Roomy vars.now memo.old }
    requires one_memo { OneMemo memo.old (nodes_in vars.now lows.now highs.now count) literals.positive literals.negative }
    ensures result_value { let nodes = nodes_in vars.now lows.now highs.now count in
        result ≡ one_at nodes literals.positive literals.negative f.0 }
    ensures fact { let nodes = nodes_in vars.now lows.now highs.now count in
        OneMemo memo.new nodes literals.positive literals.negative }
{
    if f.0 == 0 {
        return false;
    }
    if f.0 == 1 {
        return true;
    }
    let i = f.0 as usize;
    if memo[i] == f.0 as u64 {
        return true;
    }
    let sides = sides_under(vars, lows, highs, count, f, literals);
    let low = one_from(vars, lows, highs, memo, count, sides.low, literals);
    if !low {
        return false;
    }
    let high = one_from(vars, lows, highs, memo, count, sides.high, literals);
    if !high {
        return false;
    }
    memo[i] = f.0 as u64;
    true
}
