// The operations without a memo, for thin diagrams, where each node has a constant for a child, as a clause's has. There one side of a step
// at most has more to come: the steps are written on the way down and the nodes put on the way up, without a call for each.
#![tactic(auto)]

ghost use Rattle.std.specs.Prelude.{◌≡◌, true, false, List, ℕ, ◌≤◌, ◌<◌, length};
ghost use Rattle.table.specs.Nodes.{diagram_at};
ghost use Rattle.table.specs.Indexed.{table_of, nodes_of, Good, outcome_of};
ghost use Rattle.operate.specs.Inner.{applied, operation_of, top, Shared, Operands};
ghost use Rattle.thin.specs.Thin.{Leveled, settled_of, SomeGiven, SidesGiven, SomeSides, Given};
ghost use Rattle.thin.specs.Thin.{result_at, joined_at, StepSays, Fitting, CameBy, built_up, cut_by, Cut};

use operate::Operation;
use operate::step::{Descent, Kind, Sides};
use table::{Found, NodeNo, Placed};
use words::Literals;

mod literals;

// The result where it can be told without a step: from the node numbers, or where f comes after all that is shared.
fn settled(vars: &[u8], kind: Kind, by: Literals, f: NodeNo, g: NodeNo) -> Found
    requires { Leveled (operation_of kind by) vars.now f.0 g.0 }
    ensures { result ≡ settled_of vars.now kind by f.0 g.0 }
{
    match operate::step::terminal(operate::step::operation_of(kind, by), f, g) {
        Found::At(k) => Found::At(k),
        Found::Nothing => {
            if operate::step::is_beyond(vars, kind, by, f) {
                return Found::At(f);
            }
            Found::Nothing
        }
    }
}

// A step down: the result is told; it is that of another pair; it is x over a node that is told, on the low side where `side` is 1, and
// over the result of another pair; or both sides have more to come.
#[derive(Clone, Copy)]
enum StepDown {
    Told(NodeNo),
    One {
        f: NodeNo,
        g: NodeNo,
    },
    Over {
        x: u8,
        told: NodeNo,
        side: u8,
        f: NodeNo,
        g: NodeNo,
    },
    Wide,
}

// The step where there are two sides.
fn one_side(vars: &[u8], kind: Kind, by: Literals, s: Sides) -> StepDown
    requires { SomeSides (operation_of kind by) by.positive vars.now s }
    ensures { (lows highs heads links : List ℕ) (count : ℕ) →
        let before = table_of vars.now lows highs heads links count in
        SidesGiven (operation_of kind by) by.positive before s →
        StepSays (operation_of kind by) by.positive before s.x (joined_at (operation_of kind by) before s) result }
{
    let f0 = s.f0;
    let g0 = s.g0;
    let f1 = s.f1;
    let g1 = s.g1;
    match settled(vars, kind, by, f0, g0) {
        Found::At(told) => StepDown::Over {
            x: s.x,
            told,
            side: 1,
            f: f1,
            g: g1,
        },
        Found::Nothing => match settled(vars, kind, by, f1, g1) {
            Found::At(told) => StepDown::Over {
                x: s.x,
                told,
                side: 0,
                f: f0,
                g: g0,
            },
            Found::Nothing => StepDown::Wide,
        },
    }
}

fn step_down(
    vars: &[u8],
    lows: &[u16],
    highs: &[u16],
    kind: Kind,
    by: Literals,
    f: NodeNo,
    g: NodeNo,
) -> StepDown
    requires { SomeGiven (operation_of kind by) by.positive vars.now lows.now highs.now f.0 g.0 }
    ensures { (heads links : List ℕ) (count : ℕ) →
        let before = table_of vars.now lows.now highs.now heads links count in
        Given (operation_of kind by) by.positive before f.0 g.0 →
        StepSays (operation_of kind by) by.positive before (top vars.now f.0 g.0)
        (result_at (operation_of kind by) before f.0 g.0) result }
{
    match settled(vars, kind, by, f, g) {
        Found::At(k) => StepDown::Told(k),
        Found::Nothing => {
            let s = operate::step::sides_of(vars, lows, highs, f, g);
            match operate::step::descent_of(operate::step::operation_of(kind, by), s) {
                Descent::One { f: a, g: b } => StepDown::One { f: a, g: b },
                Descent::Both(s) => one_side(vars, kind, by, s),
            }
        }
    }
}

// What the way down comes to: a node and how many steps are written to put over it, or a step with more to come on both sides.
#[derive(Clone, Copy)]
enum Came {
    Down { node: NodeNo, depth: usize },
    TooWide,
}

// The way down from two nodes. Of each step the variable, the node told and its side are written.
fn go_down(
    vars: &[u8],
    lows: &[u16],
    highs: &[u16],
    xs: &mut [u8],
    told: &mut [u16],
    sides: &mut [u8],
    kind: Kind,
    by: Literals,
    first: NodeNo,
    second: NodeNo,
) -> Came
    requires { SomeGiven (operation_of kind by) by.positive vars.now lows.now highs.now first.0 second.0
        × (length xs.old ≡ 64)
        × (length told.old ≡ 64)
        × (length sides.old ≡ 64) }
    ensures { (heads links : List ℕ) (count : ℕ) →
        let before = table_of vars.now lows.now highs.now heads links count in
        CameBy (operation_of kind by) by.positive before first.0 second.0 xs.new told.new sides.new
        result }
{
    let mut f = first;
    let mut g = second;
    let mut depth: usize = 0;
    loop {
        match step_down(vars, lows, highs, kind, by, f, g) {
            StepDown::Told(node) => {
                return Came::Down { node, depth };
            }
            StepDown::One { f: a, g: b } => {
                f = a;
                g = b;
            }
            StepDown::Over {
                x,
                told: k,
                side,
                f: a,
                g: b,
            } => {
                xs[depth] = x;
                told[depth] = k.0;
                sides[depth] = side;
                depth += 1;
                f = a;
                g = b;
            }
            StepDown::Wide => {
                return Came::TooWide;
            }
        }
    }
}

// The way down of an operation: a cofactor by literals has one of its own.
fn way_down(
    vars: &[u8],
    lows: &[u16],
    highs: &[u16],
    xs: &mut [u8],
    told: &mut [u16],
    sides: &mut [u8],
    kind: Kind,
    by: Literals,
    first: NodeNo,
    second: NodeNo,
) -> Came
    requires { SomeGiven (operation_of kind by) by.positive vars.now lows.now highs.now first.0 second.0
        × (length xs.old ≡ 64)
        × (length told.old ≡ 64)
        × (length sides.old ≡ 64) }
    ensures { (heads links : List ℕ) (count : ℕ) →
        let before = table_of vars.now lows.now highs.now heads links count in
        CameBy (operation_of kind by) by.positive before first.0 second.0 xs.new told.new sides.new
        result }
{
    match kind {
        Kind::ByLiterals => literals::go_down_by(vars, lows, highs, xs, told, sides, by, first),
        _ => go_down(vars, lows, highs, xs, told, sides, kind, by, first, second),
    }
}

// The way up: the steps written are put over the node, the last of them first, or it stops at `full`.
fn build_up(
    vars: &mut [u8],
    lows: &mut [u16],
    highs: &mut [u16],
    heads: &mut [u16],
    links: &mut [u16],
    xs: &[u8],
    told: &[u16],
    sides: &[u8],
    count: usize,
    node: NodeNo,
    depth: usize,
) -> Placed
    requires fact { let before = table_of vars.old lows.old highs.old heads.old links.old count in
        Good before
        × (node.0 < count)
        × Fitting before xs.now told.now sides.now depth (diagram_at (nodes_of before) node.0) }
    requires depth_in_bounds { (depth ≤ length xs.now) × (depth ≤ length told.now) × (depth ≤ length sides.now) }
    ensures { let before = table_of vars.old lows.old highs.old heads.old links.old count in
        outcome_of vars.new lows.new highs.new heads.new links.new result
        ≡ built_up before xs.now told.now sides.now depth node.0 }
{
    let mut n = count;
    let mut r = node;
    let mut d = depth;
    while 0 < d {
        d -= 1;
        let k = NodeNo(told[d]);
        let mut low = r;
        let mut high = k;
        if sides[d] == 1 {
            low = k;
            high = r;
        }
        let p = table::put(vars, lows, highs, heads, links, n, xs[d], low, high);
        if p.full {
            return p;
        }
        n = p.count;
        r = p.node;
    }
    Placed {
        full: false,
        node: r,
        count: n,
    }
}

// What the operation without a memo says: what it made, or `wide`, where it would take a memo and nothing was done.
#[derive(Clone, Copy)]
pub struct ThinResult {
    pub wide: bool,
    pub placed: Placed,
}

// The literals of the word's variables.
fn cut_to(by: Literals, word: u64) -> Literals
    ensures { result ≡ cut_by by word }
{
    Literals {
        positive: by.positive & word,
        negative: by.negative & word,
    }
}

// As `apply_sharing`, without a memo; or `wide` where both sides of a step have more to come. A cofactor by literals has those of the
// variables in `shared` alone. The steps are written into `xs`, `told` and `sides`.
pub fn apply_thin(
    vars: &mut [u8],
    lows: &mut [u16],
    highs: &mut [u16],
    heads: &mut [u16],
    links: &mut [u16],
    xs: &mut [u8],
    told: &mut [u16],
    sides: &mut [u8],
    count: usize,
    op: Operation,
    f: NodeNo,
    g: NodeNo,
    shared: u64,
) -> ThinResult
    requires fact { let before = table_of vars.old lows.old highs.old heads.old links.old count in
        Operands op before f.0 g.0 × Shared op shared before f.0 g.0 × Cut op shared before f.0 g.0 }
    requires xs_len { (length xs.old ≡ 64) × (length told.old ≡ 64) × (length sides.old ≡ 64) }
    ensures placed_after { let before = table_of vars.old lows.old highs.old heads.old links.old count in
        result.wide ≡ false →
        outcome_of vars.new lows.new highs.new heads.new links.new result.placed
        ≡ applied before op f.0 g.0 }
    ensures count_after { let before = table_of vars.old lows.old highs.old heads.old links.old count in
        result.wide ≡ true →
        table_of vars.new lows.new highs.new heads.new links.new count ≡ before }
{
    let kind = operate::step::kind_of(op);
    let by = cut_to(operate::step::by_of(op, shared), shared);
    match way_down(vars, lows, highs, xs, told, sides, kind, by, f, g) {
        Came::Down { node, depth } => {
            let placed = build_up(
                vars, lows, highs, heads, links, xs, told, sides, count, node, depth,
            );
            ThinResult {
                wide: false,
                placed,
            }
        }
        Came::TooWide => ThinResult {
            wide: true,
            placed: Placed {
                full: false,
                node: f,
                count,
            },
        },
    }
}
