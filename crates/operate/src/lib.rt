// Conjunction, negation and the two cofactors by one recursion over the nodes of a table, with a memo.
// The memo first; then the steps of one side down to a node that is told or to two sides; these by the recursion, and one store into the
// memo at the end.
#![tactic(auto)]

ghost use Rattle.std.specs.Prelude.{◌≡◌, ◌<◌};
ghost use Rattle.table.specs.Indexed.{table_of, outcome_of};
ghost use Rattle.operate.specs.Inner.{applied, joined_of, operation_of, Shared, MemoRight, Ready, SidesReady};

use crate::step::{Ahead, Kind, Sides};
use table::{Found, NodeNo, Placed};
use words::Literals;

pub mod step;

// An operation; an operation of one diagram has node 1 for its second operand.
#[derive(Clone, Copy)]
pub enum Operation {
    Conjunction,
    Negation,
    Cofactor,
    Literals { positive: u64, negative: u64 },
}

// The operation on the nodes f and g, or `full`. Places only nodes of the finished diagram.
pub fn apply(
    vars: &mut [u8],
    lows: &mut [u16],
    highs: &mut [u16],
    heads: &mut [u16],
    links: &mut [u16],
    memo: &mut [u64],
    count: usize,
    op: Operation,
    f: NodeNo,
    g: NodeNo,
) -> Placed
    requires { Ready op memo.old (table_of vars.old lows.old highs.old heads.old links.old count) f.0 g.0 }
    ensures result_after { let before = table_of vars.old lows.old highs.old heads.old links.old count in
        outcome_of vars.new lows.new highs.new heads.new links.new result
        ≡ applied before op f.0 g.0 }
    ensures fact { let after = table_of vars.new lows.new highs.new heads.new links.new result.count in
        MemoRight op memo.new after }
{
    apply_sharing(
        vars,
        lows,
        highs,
        heads,
        links,
        memo,
        count,
        op,
        f,
        g,
        words::ALL,
    )
}

// As `apply`, for who knows a word of what f has of the variables that g forces (`shared`). A cofactor by a diagram goes no deeper than the
// last of them.
pub fn apply_sharing(
    vars: &mut [u8],
    lows: &mut [u16],
    highs: &mut [u16],
    heads: &mut [u16],
    links: &mut [u16],
    memo: &mut [u64],
    count: usize,
    op: Operation,
    f: NodeNo,
    g: NodeNo,
    shared: u64,
) -> Placed
    requires { let before = table_of vars.old lows.old highs.old heads.old links.old count in
        Ready op memo.old before f.0 g.0 × Shared op shared before f.0 g.0 }
    ensures result_after { let before = table_of vars.old lows.old highs.old heads.old links.old count in
        outcome_of vars.new lows.new highs.new heads.new links.new result
        ≡ applied before op f.0 g.0 }
    ensures fact { let after = table_of vars.new lows.new highs.new heads.new links.new result.count in
        MemoRight op memo.new after }
{
    let kind = step::kind_of(op);
    let by = step::by_of(op, shared);
    let mix = memo::mixed(f, g);
    work_out(
        vars, lows, highs, heads, links, memo, count, kind, by, f, g, mix, 0,
    )
}

// The operation from its memo, from what the steps of one side lead to, or from two sides. The numbers of f and g are mixed
// to `mix`; `depth` is how many such calls it is below the first.
#[cycle(join_work_out)]
fn work_out(
    vars: &mut [u8],
    lows: &mut [u16],
    highs: &mut [u16],
    heads: &mut [u16],
    links: &mut [u16],
    memo: &mut [u64],
    count: usize,
    kind: Kind,
    by: Literals,
    f: NodeNo,
    g: NodeNo,
    mix: u64,
    depth: u64,
) -> Placed
    requires { let before = table_of vars.old lows.old highs.old heads.old links.old count in
        Ready (operation_of kind by) memo.old before f.0 g.0
        × Shared (operation_of kind by) by.positive before f.0 g.0
        × (mix < 4294967296) }
    ensures result_after { let before = table_of vars.old lows.old highs.old heads.old links.old count in
        outcome_of vars.new lows.new highs.new heads.new links.new result
        ≡ applied before (operation_of kind by) f.0 g.0 }
    ensures fact { let after = table_of vars.new lows.new highs.new heads.new links.new result.count in
        MemoRight (operation_of kind by) memo.new after }
{
    match memo::memo_find(memo, mix, f, g) {
        Found::At(r) => Placed {
            full: false,
            node: r,
            count,
        },
        Found::Nothing => match step::forced_down(vars, lows, highs, kind, by, f, g) {
            Ahead::Told(r) => Placed {
                full: false,
                node: r,
                count,
            },
            Ahead::Both(s) => {
                let below = memo::next_depth(depth);
                let p = join(
                    vars, lows, highs, heads, links, memo, count, kind, by, s, below,
                );
                if p.full {
                    return p;
                }
                memo::memo_put(memo, mix, depth, f, g, p.node);
                p
            }
        },
    }
}

// The low side's result, the high side's, and the node over both. A result that stands in its home in the memo is taken without a call.
#[cycle(join_work_out)]
fn join(
    vars: &mut [u8],
    lows: &mut [u16],
    highs: &mut [u16],
    heads: &mut [u16],
    links: &mut [u16],
    memo: &mut [u64],
    count: usize,
    kind: Kind,
    by: Literals,
    s: Sides,
    depth: u64,
) -> Placed
    requires { let before = table_of vars.old lows.old highs.old heads.old links.old count in
        SidesReady (operation_of kind by) memo.old before s
        × Shared (operation_of kind by) by.positive before s.f0.0 s.g0.0
        × Shared (operation_of kind by) by.positive before s.f1.0 s.g1.0 }
    ensures result_after { let before = table_of vars.old lows.old highs.old heads.old links.old count in
        outcome_of vars.new lows.new highs.new heads.new links.new result
        ≡ joined_of before (operation_of kind by) s }
    ensures fact { let after = table_of vars.new lows.new highs.new heads.new links.new result.count in
        MemoRight (operation_of kind by) memo.new after }
{
    let low = memo::mixed(s.f0, s.g0);
    let p = match memo::memo_home(memo, low, s.f0, s.g0) {
        Found::At(r) => Placed {
            full: false,
            node: r,
            count,
        },
        Found::Nothing => work_out(
            vars, lows, highs, heads, links, memo, count, kind, by, s.f0, s.g0, low, depth,
        ),
    };
    if p.full {
        return p;
    }
    let n = p.count;
    let high = memo::mixed(s.f1, s.g1);
    let q = match memo::memo_home(memo, high, s.f1, s.g1) {
        Found::At(r) => Placed {
            full: false,
            node: r,
            count: n,
        },
        Found::Nothing => work_out(
            vars, lows, highs, heads, links, memo, n, kind, by, s.f1, s.g1, high, depth,
        ),
    };
    if q.full {
        return q;
    }
    table::put(
        vars, lows, highs, heads, links, q.count, s.x, p.node, q.node,
    )
}
