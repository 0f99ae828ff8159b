// The way down of a cofactor by literals: from one node, and no further than to where it has no variable of the literals left.
ghost use Rattle.std.specs.Prelude.{◌≡◌, cond, List, ℕ, length};
ghost use Rattle.table.specs.Indexed.{table_of};
ghost use Rattle.operate.specs.Inner.{found, top};
ghost use Rattle.thin.specs.Thin.{Leveled, by_literals, settled_by, SomeGiven, Given, result_at, StepSays, CameBy};
ghost use Rattle.table.specs.declared.Found.TheVariants.{Nothing};

use crate::{Came, StepDown};
use table::NodeNo;
use words::Literals;

// Whether f is its own cofactor by the literals: a constant, or without a variable of theirs.
fn is_settled(vars: &[u8], by: Literals, f: NodeNo) -> bool
    requires { Leveled (by_literals by) vars.now f.0 1 }
    ensures { cond result (found f.0) Nothing ≡ settled_by vars.now by f.0 }
{
    if f.0 < 2 {
        return true;
    }
    let i = f.0 as usize;
    words::ends_before(by.positive | by.negative, vars[i])
}

// A step down. The second node of a cofactor by literals is 1.
fn step_by(vars: &[u8], lows: &[u16], highs: &[u16], by: Literals, f: NodeNo) -> StepDown
    requires { SomeGiven (by_literals by) by.positive vars.now lows.now highs.now f.0 1 }
    ensures { (heads links : List ℕ) (count : ℕ) →
        let before = table_of vars.now lows.now highs.now heads links count in
        Given (by_literals by) by.positive before f.0 1 →
        StepSays (by_literals by) by.positive before (top vars.now f.0 1) (result_at (by_literals by) before f.0 1) result }
{
    if is_settled(vars, by, f) {
        return StepDown::Told(f);
    }
    let i = f.0 as usize;
    let x = vars[i];
    let low = NodeNo(lows[i]);
    let high = NodeNo(highs[i]);
    let g = NodeNo(1);
    if words::in_word(by.positive, x) {
        return StepDown::One { f: high, g };
    }
    if words::in_word(by.negative, x) {
        return StepDown::One { f: low, g };
    }
    if is_settled(vars, by, low) {
        return StepDown::Over {
            x,
            told: low,
            side: 1,
            f: high,
            g,
        };
    }
    if is_settled(vars, by, high) {
        return StepDown::Over {
            x,
            told: high,
            side: 0,
            f: low,
            g,
        };
    }
    StepDown::Wide
}

// The way down from one node. Of each step the variable, the node told and its side are written.
pub fn go_down_by(
    vars: &[u8],
    lows: &[u16],
    highs: &[u16],
    xs: &mut [u8],
    told: &mut [u16],
    sides: &mut [u8],
    by: Literals,
    first: NodeNo,
) -> Came
    requires { SomeGiven (by_literals by) by.positive vars.now lows.now highs.now first.0 1
        × (length xs.old ≡ 64)
        × (length told.old ≡ 64)
        × (length sides.old ≡ 64) }
    ensures { (heads links : List ℕ) (count : ℕ) →
        let before = table_of vars.now lows.now highs.now heads links count in
        CameBy (by_literals by) by.positive before first.0 1 xs.new told.new sides.new result }
{
    let mut f = first;
    let mut depth: usize = 0;
    loop {
        match step_by(vars, lows, highs, by, f) {
            StepDown::Told(node) => {
                return Came::Down { node, depth };
            }
            StepDown::One { f: a, .. } => {
                f = a;
            }
            StepDown::Over {
                x,
                told: k,
                side,
                f: a,
                ..
            } => {
                xs[depth] = x;
                told[depth] = k.0;
                sides[depth] = side;
                depth += 1;
                f = a;
            }
            StepDown::Wide => {
                return Came::TooWide;
            }
        }
    }
}
