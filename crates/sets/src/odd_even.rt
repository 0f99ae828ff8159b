// Builders of odd and even parity diagrams that call each other, the remaining variables falling. Each variable costs two nodes and no more
// calls than that: a builder is handed the other parity's node of the same variables where it is made already.
ghost use Rattle.std.specs.Prelude.{◌≡◌, true, false, ◌<◌, length, get_or};
ghost use Rattle.table.specs.Nodes.{put};
ghost use Rattle.table.specs.Indexed.{table_of, nodes_of, Good, outcome_of, written};
ghost use Rattle.sets.specs.Building.{remaining, placed_in, Buildable};

use crate::variables;
use table::{NodeNo, Placed};

// The node of variable w over the sides of `other` turned round, or `full`.
fn turned(
    vars: &mut [u8],
    lows: &mut [u16],
    highs: &mut [u16],
    heads: &mut [u16],
    links: &mut [u16],
    count: usize,
    w: u8,
    other: NodeNo,
) -> Placed
    requires { Good (table_of vars.old lows.old highs.old heads.old links.old count) × (other.0 < count) }
    ensures { let before = table_of vars.old lows.old highs.old heads.old links.old count in
        let low = get_or highs.old other.0 0 in
        let high = get_or lows.old other.0 0 in
        outcome_of vars.new lows.new highs.new heads.new links.new result
        ≡ written (length vars.old) (put (length vars.old) (nodes_of before) w low high) }
{
    let i = other.0 as usize;
    let low = NodeNo(highs[i]);
    let high = NodeNo(lows[i]);
    table::put(vars, lows, highs, heads, links, count, w, low, high)
}

// The odd-parity diagram of the set's variables from v on, or `full`. It has the even one of the remaining variables beneath it. Where
// `other` is a node it is the even one of the same variables, whose sides are turned round.
#[cycle(even_odd)]
pub fn odd(
    vars: &mut [u8],
    lows: &mut [u16],
    highs: &mut [u16],
    heads: &mut [u16],
    links: &mut [u16],
    count: usize,
    set: u64,
    v: u8,
    other: NodeNo,
) -> Placed
    requires { Buildable (table_of vars.old lows.old highs.old heads.old links.old count) set v true other.0 }
    ensures { let before = table_of vars.old lows.old highs.old heads.old links.old count in
        outcome_of vars.new lows.new highs.new heads.new links.new result
        ≡ placed_in before (remaining set v true) }
{
    let w = variables::next_in(set, v);
    if w == 65 {
        return Placed {
            full: false,
            node: NodeNo(0),
            count,
        };
    }
    if other.0 >= 2 {
        return turned(vars, lows, highs, heads, links, count, w, other);
    }
    let low = odd(
        vars,
        lows,
        highs,
        heads,
        links,
        count,
        set,
        w + 1,
        NodeNo(0),
    );
    if low.full {
        return low;
    }
    let high = even(
        vars,
        lows,
        highs,
        heads,
        links,
        low.count,
        set,
        w + 1,
        low.node,
    );
    if high.full {
        return high;
    }
    table::put(
        vars, lows, highs, heads, links, high.count, w, low.node, high.node,
    )
}

// The even-parity diagram, with the odd one of the remaining variables beneath it.
#[cycle(even_odd)]
pub fn even(
    vars: &mut [u8],
    lows: &mut [u16],
    highs: &mut [u16],
    heads: &mut [u16],
    links: &mut [u16],
    count: usize,
    set: u64,
    v: u8,
    other: NodeNo,
) -> Placed
    requires { Buildable (table_of vars.old lows.old highs.old heads.old links.old count) set v false other.0 }
    ensures { let before = table_of vars.old lows.old highs.old heads.old links.old count in
        outcome_of vars.new lows.new highs.new heads.new links.new result
        ≡ placed_in before (remaining set v false) }
{
    let w = variables::next_in(set, v);
    if w == 65 {
        return Placed {
            full: false,
            node: NodeNo(1),
            count,
        };
    }
    if other.0 >= 2 {
        return turned(vars, lows, highs, heads, links, count, w, other);
    }
    let low = even(
        vars,
        lows,
        highs,
        heads,
        links,
        count,
        set,
        w + 1,
        NodeNo(0),
    );
    if low.full {
        return low;
    }
    let high = odd(
        vars,
        lows,
        highs,
        heads,
        links,
        low.count,
        set,
        w + 1,
        low.node,
    );
    if high.full {
        return high;
    }
    table::put(
        vars, lows, highs, heads, links, high.count, w, low.node, high.node,
    )
}
