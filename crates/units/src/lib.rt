// U(f) of a node: from all literals those are struck out, edge by edge, that some way to node 1 leaves open or makes false.
#![tactic(auto)]

ghost use Rattle.std.specs.Prelude.{◌≡◌, ◌+◌, ◌≤◌, ◌<◌};
ghost use Rattle.walks.specs.Readable.{Readable, Roomy, nodes_in};
ghost use Rattle.units.specs.Units.{UnitsAt, past, struck_to, Struck, Marked, MarksBelow, StrikeReady, KnownAt, literal_where};

use table::NodeNo;
use words::Literals;

// U(f): the literals that are true wherever f is. All literals for node 0, none for node 1. The stamp is above all marks in the memo, so
// that one clearing serves many walks.
pub fn units_from(
    vars: &[u8],
    lows: &[u16],
    highs: &[u16],
    memo: &mut [u64],
    count: usize,
    f: NodeNo,
    stamp: u64,
) -> Literals
    requires { Readable vars.now lows.now highs.now count
        × (f.0 < count)
        × Roomy vars.now memo.old
        × MarksBelow count memo.old stamp }
    ensures fact { let nodes = nodes_in vars.now lows.now highs.now count in
        UnitsAt 64 nodes f.0 result }
    ensures marks_below { MarksBelow count memo.new (stamp + 1) }
{
    let all = Literals {
        positive: words::ALL,
        negative: words::ALL,
    };
    strike(vars, lows, highs, memo, count, f, 1, stamp, all)
}

// What is left of the literals alive once those of variables from `from` on that are no units of f are struck: those of skipped
// variables and of f's own, then what each side strikes. A node with the stamp has none left to strike.
fn strike(
    vars: &[u8],
    lows: &[u16],
    highs: &[u16],
    memo: &mut [u64],
    count: usize,
    f: NodeNo,
    from: u8,
    stamp: u64,
    alive: Literals,
) -> Literals
    requires { StrikeReady vars.now lows.now highs.now memo.old count f.0 from stamp alive }
    ensures struck { Struck 64 (nodes_in vars.now lows.now highs.now count) f.0 from alive result }
    ensures marked { Marked 64 memo.new (nodes_in vars.now lows.now highs.now count) stamp result }
    ensures marks_below { MarksBelow count memo.new (stamp + 1) }
{
    if f.0 == 0 {
        return alive;
    }
    if f.0 == 1 {
        return strike_to(alive, from, 65, 65);
    }
    let i = f.0 as usize;
    let v = vars[i];
    let low = NodeNo(lows[i]);
    let high = NodeNo(highs[i]);
    let a = strike_to(alive, from, past(v, low), past(v, high));
    if a.positive | a.negative == 0 {
        return a;
    }
    if memo[i] == stamp {
        return a;
    }
    let b = strike(vars, lows, highs, memo, count, low, v + 1, stamp, a);
    let c = strike(vars, lows, highs, memo, count, high, v + 1, stamp, b);
    memo[i] = stamp;
    c
}

// The first variable past those that a node of v strikes: v's own literal stays where the side in which it is false is 0.
fn past(v: u8, side: NodeNo) -> u8
    requires { v ≤ 64 }
    ensures { result ≡ past v side.0 }
{
    if side.0 == 0 {
        return v;
    }
    v + 1
}

// The set without the variables from `from` on, positive ones below p and negative ones below n.
fn strike_to(alive: Literals, from: u8, p: u8, n: u8) -> Literals
    requires { (1 ≤ from) × (from ≤ 65) × (1 ≤ p) × (p ≤ 65) × (1 ≤ n) × (n ≤ 65) }
    ensures { result ≡ struck_to 64 alive from p n }
{
    Literals {
        positive: words::without(alive.positive, from, p),
        negative: words::without(alive.negative, from, n),
    }
}

// What a node alone tells of its units.
#[derive(Clone, Copy)]
pub enum AtTop {
    Known(Literals),
    Unknown,
}

// U(f) where the node alone tells it: node 1 has no unit, and a node with 1 for a child none but its own literal, where the other child
// is 0. Needs no memo.
pub fn units_at_top(vars: &[u8], lows: &[u16], highs: &[u16], count: usize, f: NodeNo) -> AtTop
    requires { Readable vars.now lows.now highs.now count × (f.0 < count) }
    ensures { KnownAt 64 (nodes_in vars.now lows.now highs.now count) f.0 result }
{
    if f.0 == 0 {
        return AtTop::Unknown;
    }
    if f.0 == 1 {
        return AtTop::Known(Literals {
            positive: 0,
            negative: 0,
        });
    }
    let i = f.0 as usize;
    let v = vars[i];
    let low = lows[i];
    let high = highs[i];
    if low == 1 || high == 1 {
        return AtTop::Known(Literals {
            positive: literal_where(v, low),
            negative: literal_where(v, high),
        });
    }
    AtTop::Unknown
}

// The variable alone where the side is 0, else none.
fn literal_where(v: u8, side: u16) -> u64
    requires { (1 ≤ v) × (v ≤ 64) }
    ensures { result ≡ literal_where v side }
{
    if side == 0 {
        let i = (v - 1) as u64;
        return 1 << i;
    }
    0
}
