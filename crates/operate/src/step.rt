// One step of the recursion: what is told from an operation and from numbers that are only read.
ghost use Rattle.std.specs.Prelude.{◌≡◌, List, ℕ, ◌≤◌, ◌<◌, length, get_or};
ghost use Rattle.table.specs.Indexed.{table_of};
ghost use Rattle.operate.specs.Inner.{kind_of, by_of, operation_of, terminal_of, level, top, child_or, sides_of, descent_of, beyond};
ghost use Rattle.operate.specs.Inner.{Given, SomeGiven, NextSays, AheadSays};

use crate::Operation;
use table::{Found, NodeNo};
use words::Literals;

// An operation without the literals of a cofactor by literals. The recursion hands the two on apart: a kind goes in a register, and
// copying an operation whole from call to call is slow.
#[derive(Clone, Copy)]
pub enum Kind {
    And,
    Not,
    ByDiagram,
    ByLiterals,
}

// The two sides of two nodes by the variable x.
#[derive(Clone, Copy)]
pub struct Sides {
    pub x: u8,
    pub f0: NodeNo,
    pub g0: NodeNo,
    pub f1: NodeNo,
    pub g1: NodeNo,
}

// What is left to do: the operation on one pair of nodes, or on both sides.
#[derive(Clone, Copy)]
pub enum Descent {
    One { f: NodeNo, g: NodeNo },
    Both(Sides),
}

pub fn kind_of(op: Operation) -> Kind
    ensures { result ≡ kind_of op }
{
    match op {
        Operation::Conjunction => Kind::And,
        Operation::Negation => Kind::Not,
        Operation::Cofactor => Kind::ByDiagram,
        Operation::Literals { .. } => Kind::ByLiterals,
    }
}

// What a cofactor sets: its literals; by a diagram, as `positive`, what f may have of the variables that g forces. None for another
// operation.
pub fn by_of(op: Operation, shared: u64) -> Literals
    ensures { result ≡ by_of op shared }
{
    let none = Literals {
        positive: 0,
        negative: 0,
    };
    match op {
        Operation::Conjunction => none,
        Operation::Negation => none,
        Operation::Cofactor => Literals {
            positive: shared,
            negative: 0,
        },
        Operation::Literals { positive, negative } => Literals { positive, negative },
    }
}

pub fn operation_of(kind: Kind, by: Literals) -> Operation
    ensures { result ≡ operation_of kind by }
{
    match kind {
        Kind::And => Operation::Conjunction,
        Kind::Not => Operation::Negation,
        Kind::ByDiagram => Operation::Cofactor,
        Kind::ByLiterals => Operation::Literals {
            positive: by.positive,
            negative: by.negative,
        },
    }
}

// The result where it can be told from the node numbers alone.
pub fn terminal(op: Operation, f: NodeNo, g: NodeNo) -> Found
    ensures { result ≡ terminal_of op f.0 g.0 }
{
    match op {
        Operation::Conjunction => terminal_conjunction(f, g),
        Operation::Negation => {
            if f.0 == 0 {
                return Found::At(NodeNo(1));
            }
            if f.0 == 1 {
                return Found::At(NodeNo(0));
            }
            Found::Nothing
        }
        Operation::Cofactor => {
            if f.0 < 2 || g.0 == 1 {
                return Found::At(f);
            }
            if f.0 == g.0 {
                return Found::At(NodeNo(1));
            }
            Found::Nothing
        }
        Operation::Literals { .. } => {
            if f.0 < 2 {
                return Found::At(f);
            }
            Found::Nothing
        }
    }
}

fn terminal_conjunction(f: NodeNo, g: NodeNo) -> Found
    ensures { result ≡ terminal_of Operation.Conjunction f.0 g.0 }
{
    if f.0 == 0 || g.0 == 0 {
        return Found::At(NodeNo(0));
    }
    if f.0 == 1 {
        return Found::At(g);
    }
    if g.0 == 1 || f.0 == g.0 {
        return Found::At(f);
    }
    Found::Nothing
}

// A node's variable; 65 for a constant.
fn level_of(vars: &[u8], f: NodeNo) -> u8
    requires { f.0 < length vars.now }
    ensures { result ≡ level vars.now f.0 }
{
    let i = f.0 as usize;
    if i < 2 {
        return 65;
    }
    vars[i]
}

// The lesser of two nodes' variables.
pub fn top_of(vars: &[u8], f: NodeNo, g: NodeNo) -> u8
    requires { (f.0 < length vars.now) × (g.0 < length vars.now) }
    ensures { result ≡ top vars.now f.0 g.0 }
{
    let v = level_of(vars, f);
    let w = level_of(vars, g);
    if w < v {
        return w;
    }
    v
}

// A node's child in a column where x is its variable, else the node itself.
fn child_or(vars: &[u8], column: &[u16], f: NodeNo, x: u8) -> NodeNo
    requires { (f.0 < length vars.now) × (f.0 < length column.now) }
    ensures { result.0 ≡ child_or vars.now column.now f.0 x }
{
    let i = f.0 as usize;
    if vars[i] == x {
        return NodeNo(column[i]);
    }
    f
}

pub fn sides_of(vars: &[u8], lows: &[u16], highs: &[u16], f: NodeNo, g: NodeNo) -> Sides
    requires { (f.0 < length vars.now)
        × (g.0 < length vars.now)
        × (length lows.now ≡ length vars.now)
        × (length highs.now ≡ length vars.now) }
    ensures { result ≡ sides_of vars.now lows.now highs.now f.0 g.0 }
{
    let x = top_of(vars, f, g);
    let f0 = child_or(vars, lows, f, x);
    let g0 = child_or(vars, lows, g, x);
    let f1 = child_or(vars, highs, f, x);
    let g1 = child_or(vars, highs, g, x);
    Sides { x, f0, g0, f1, g1 }
}

// What is left to do where neither the node numbers nor the memo tell the result.
pub fn descent_of(op: Operation, s: Sides) -> Descent
    requires { (1 ≤ s.x) × (s.x ≤ 64) }
    ensures { result ≡ descent_of op s }
{
    let f0 = s.f0;
    let g0 = s.g0;
    let f1 = s.f1;
    let g1 = s.g1;
    match op {
        Operation::Conjunction => Descent::Both(s),
        Operation::Negation => Descent::Both(s),
        Operation::Cofactor => {
            if g0.0 == 0 {
                return Descent::One { f: f1, g: g1 };
            }
            if g1.0 == 0 {
                return Descent::One { f: f0, g: g0 };
            }
            Descent::Both(s)
        }
        Operation::Literals { positive, negative } => {
            if words::in_word(positive, s.x) {
                return Descent::One { f: f1, g: g1 };
            }
            if words::in_word(negative, s.x) {
                return Descent::One { f: f0, g: g0 };
            }
            Descent::Both(s)
        }
    }
}

// Whether no variable that a cofactor is by is f's or after it: the result is f then.
pub fn is_beyond(vars: &[u8], kind: Kind, by: Literals, f: NodeNo) -> bool
    requires { (f.0 < length vars.now) × (1 ≤ get_or vars.now f.0 0) × (get_or vars.now f.0 0 ≤ 64) }
    ensures { result ≡ beyond kind by (get_or vars.now f.0 0) }
{
    let i = f.0 as usize;
    let before = words::ends_before(by.positive | by.negative, vars[i]);
    match kind {
        Kind::And => false,
        Kind::Not => false,
        Kind::ByDiagram => before,
        Kind::ByLiterals => before,
    }
}

// A step from two nodes: the result is told; it is that of another pair, where one side makes it; or both sides make it.
#[derive(Clone, Copy)]
pub enum Next {
    Told(NodeNo),
    One { f: NodeNo, g: NodeNo },
    Both(Sides),
}

fn next_of(
    vars: &[u8],
    lows: &[u16],
    highs: &[u16],
    kind: Kind,
    by: Literals,
    f: NodeNo,
    g: NodeNo,
) -> Next
    requires { SomeGiven (operation_of kind by) by.positive vars.now lows.now highs.now f.0 g.0 }
    ensures { (heads links : List ℕ) (count : ℕ) →
        let before = table_of vars.now lows.now highs.now heads links count in
        Given (operation_of kind by) by.positive before f.0 g.0 →
        NextSays (operation_of kind by) by.positive before f.0 g.0 result }
{
    match terminal(operation_of(kind, by), f, g) {
        Found::At(k) => Next::Told(k),
        Found::Nothing => {
            if is_beyond(vars, kind, by, f) {
                return Next::Told(f);
            }
            let s = sides_of(vars, lows, highs, f, g);
            match descent_of(operation_of(kind, by), s) {
                Descent::One { f: a, g: b } => Next::One { f: a, g: b },
                Descent::Both(s) => Next::Both(s),
            }
        }
    }
}

// What the steps of one side lead to: a node that is told, or two sides.
#[derive(Clone, Copy)]
pub enum Ahead {
    Told(NodeNo),
    Both(Sides),
}

// Goes on from two nodes while one side makes the result. No such step is held in the memo; there are at most 64 in a row.
pub fn forced_down(
    vars: &[u8],
    lows: &[u16],
    highs: &[u16],
    kind: Kind,
    by: Literals,
    first: NodeNo,
    second: NodeNo,
) -> Ahead
    requires { SomeGiven (operation_of kind by) by.positive vars.now lows.now highs.now first.0 second.0 }
    ensures { (heads links : List ℕ) (count : ℕ) →
        let before = table_of vars.now lows.now highs.now heads links count in
        Given (operation_of kind by) by.positive before first.0 second.0 →
        AheadSays (operation_of kind by) by.positive before first.0 second.0 result }
{
    let mut f = first;
    let mut g = second;
    loop {
        match next_of(vars, lows, highs, kind, by, f, g) {
            Next::Told(k) => {
                return Ahead::Told(k);
            }
            Next::One { f: a, g: b } => {
                f = a;
                g = b;
            }
            Next::Both(s) => {
                return Ahead::Both(s);
            }
        }
    }
}
