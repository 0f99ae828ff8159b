// The number of a node's negation where the table holds it, with a memo. Places no node.
#![tactic(auto)]

ghost use Rattle.std.specs.Prelude.{◌≡◌, true, ◌≤◌, ◌<◌, length};
ghost use Rattle.table.specs.Indexed.{table_of, Good};
ghost use Rattle.walks.specs.Readable.{Readable};
ghost use Rattle.negate.specs.Negations.{Negates, entry_of, found_in, NegationMemo, NegationReady};
ghost use Rattle.negate.specs.Thin.{further, OneConstant, PathTo, negated_sides};

use table::{Found, NodeNo};

// What an entry of the memo is made of: the node in the upper bits, then one bit whether its negation is there, then where.
const NODE: u64 = 131072;

const FOUND: u64 = 65536;

// The node that is f's negation, if the table has it, where the memo holds what is already known of nodes of this table; it stays so.
#[cycle(negation_from_negation_over)]
pub fn negation_from(
    vars: &[u8],
    lows: &[u16],
    highs: &[u16],
    heads: &[u16],
    links: &[u16],
    memo: &mut [u64],
    count: usize,
    f: NodeNo,
) -> Found
    requires { NegationReady memo.old (table_of vars.now lows.now highs.now heads.now links.now count) f.0 }
    ensures fact { let before = table_of vars.now lows.now highs.now heads.now links.now count in
        Negates before f.0 result }
    ensures fact_2 { let before = table_of vars.now lows.now highs.now heads.now links.now count in
        NegationMemo memo.new before }
{
    if f.0 == 0 {
        return Found::At(NodeNo(1));
    }
    if f.0 == 1 {
        return Found::At(NodeNo(0));
    }
    let i = f.0 as usize;
    let e = memo[i];
    if e / NODE == f.0 as u64 {
        return found_in(e);
    }
    let r = negation_over(vars, lows, highs, heads, links, memo, count, f);
    memo[i] = entry_of(f, r);
    r
}

// The negation's node from those of the two sides' negations.
#[cycle(negation_from_negation_over)]
fn negation_over(
    vars: &[u8],
    lows: &[u16],
    highs: &[u16],
    heads: &[u16],
    links: &[u16],
    memo: &mut [u64],
    count: usize,
    f: NodeNo,
) -> Found
    requires { NegationReady memo.old (table_of vars.now lows.now highs.now heads.now links.now count) f.0 × (2 ≤ f.0) }
    ensures fact { let before = table_of vars.now lows.now highs.now heads.now links.now count in
        Negates before f.0 result }
    ensures fact_2 { let before = table_of vars.now lows.now highs.now heads.now links.now count in
        NegationMemo memo.new before }
{
    let i = f.0 as usize;
    let v = vars[i];
    let low = NodeNo(lows[i]);
    let high = NodeNo(highs[i]);
    match negation_from(vars, lows, highs, heads, links, memo, count, low) {
        Found::At(l) => match negation_from(vars, lows, highs, heads, links, memo, count, high) {
            Found::At(h) => table::lookup(vars, lows, highs, heads, links, count, v, l, h),
            Found::Nothing => Found::Nothing,
        },
        Found::Nothing => Found::Nothing,
    }
}

// What a memo entry says.
fn found_in(e: u64) -> Found
    ensures { result ≡ found_in e }
{
    if e / FOUND % 2 == 1 {
        return Found::At(NodeNo((e % FOUND) as u16));
    }
    Found::Nothing
}

// The memo entry of a node.
fn entry_of(f: NodeNo, r: Found) -> u64
    ensures { result ≡ entry_of f.0 r }
{
    let a = f.0 as u64;
    match r {
        Found::At(k) => a * NODE + FOUND + k.0 as u64,
        Found::Nothing => a * NODE,
    }
}

// What a walk that gives up where both children are no constants says of a negation: nothing, unless it is known.
#[derive(Clone, Copy)]
pub struct Negated {
    pub known: bool,
    pub at: Found,
}

// The path from a node down to a constant: how many nodes are on it, and the constant. `thin` is false where a node has no constant child.
#[derive(Clone, Copy)]
pub struct ThinPath {
    pub thin: bool,
    pub end: NodeNo,
    pub depth: usize,
}

// The child with which a path goes on: the other one is a constant.
fn further(low: u16, high: u16) -> u16
    ensures { result ≡ further low high }
{
    if low < 2 {
        return high;
    }
    low
}

// Lists the nodes of the path from f down to a constant.
fn thin_path(
    vars: &[u8],
    lows: &[u16],
    highs: &[u16],
    path: &mut [u16],
    count: usize,
    f: NodeNo,
) -> ThinPath
    requires { Readable vars.now lows.now highs.now count × (f.0 < count) × (length path.old ≡ 64) }
    ensures { result.thin ≡ true →
        PathTo lows.now highs.now count path.new f.0 result.depth result.end.0
        × (result.depth ≤ 64)
        × (result.end.0 < 2) }
{
    let mut depth: usize = 0;
    let mut k = f.0;
    while 2 <= k {
        let i = k as usize;
        let low = lows[i];
        let high = highs[i];
        if 2 <= low && 2 <= high {
            return ThinPath {
                thin: false,
                end: NodeNo(k),
                depth,
            };
        }
        path[depth] = k;
        depth += 1;
        k = further(low, high);
    }
    ThinPath {
        thin: true,
        end: NodeNo(k),
        depth,
    }
}

// The two children's negations.
#[derive(Clone, Copy)]
pub struct NegatedSides {
    pub low: NodeNo,
    pub high: NodeNo,
}

// The negations of a node's children, where r is that of the one with which the path goes on.
fn negated_sides(low: u16, high: u16, r: u16) -> NegatedSides
    requires { OneConstant low high }
    ensures { result ≡ negated_sides low high r }
{
    if low < 2 {
        return NegatedSides {
            low: NodeNo(1 - low),
            high: NodeNo(r),
        };
    }
    NegatedSides {
        low: NodeNo(r),
        high: NodeNo(1 - high),
    }
}

// The node that is f's negation, if the table has it, by one look-up for each node of the path from f to a constant, the last first: where
// one is not there, f's is not.
fn negation_along(
    vars: &[u8],
    lows: &[u16],
    highs: &[u16],
    heads: &[u16],
    links: &[u16],
    path: &[u16],
    count: usize,
    f: NodeNo,
    end: NodeNo,
    depth: usize,
) -> Found
    requires { Good (table_of vars.now lows.now highs.now heads.now links.now count)
        × PathTo lows.now highs.now count path.now f.0 depth end.0
        × (end.0 < 2)
        × (depth ≤ length path.now) }
    ensures { let before = table_of vars.now lows.now highs.now heads.now links.now count in
        Negates before f.0 result }
{
    let mut r = 1 - end.0;
    let mut left = depth;
    while 0 < left {
        left -= 1;
        let i = path[left] as usize;
        let v = vars[i];
        let s = negated_sides(lows[i], highs[i], r);
        match table::lookup(vars, lows, highs, heads, links, count, v, s.low, s.high) {
            Found::At(n) => {
                r = n.0;
            }
            Found::Nothing => {
                return Found::Nothing;
            }
        }
    }
    Found::At(NodeNo(r))
}

// The node that is f's negation, if the table has it, where each node of f has a constant for a child, as in a clause; where one has
// none, nothing is known. Such a walk needs no memo.
pub fn negation_thin(
    vars: &[u8],
    lows: &[u16],
    highs: &[u16],
    heads: &[u16],
    links: &[u16],
    count: usize,
    f: NodeNo,
) -> Negated
    requires { Good (table_of vars.now lows.now highs.now heads.now links.now count) × (f.0 < count) }
    ensures { let before = table_of vars.now lows.now highs.now heads.now links.now count in
        result.known ≡ true → Negates before f.0 result.at }
{
    let mut path = [0u16; 64];
    let p = thin_path(vars, lows, highs, &mut path, count, f);
    if !p.thin {
        return Negated {
            known: false,
            at: Found::Nothing,
        };
    }
    Negated {
        known: true,
        at: negation_along(
            vars, lows, highs, heads, links, &path, count, f, p.end, p.depth,
        ),
    }
}
