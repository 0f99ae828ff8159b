// At-least diagrams by diagonals, with no recursion and no memo: row j holds "at least j of the set's last d + j variables", and a diagonal
// raises d by one from the least row to the greatest. So each node is put once, after both of its sides.
ghost use Rattle.std.specs.Prelude.{◌≡◌, false, ◌+◌, ◌≤◌};
ghost use Rattle.meaning.specs.Words.{in_word};
ghost use Rattle.meaning.specs.Sets.{at_least};
ghost use Rattle.table.specs.Indexed.{table_of, Good, outcome_of};
ghost use Rattle.sets.specs.Variables.{nth, Deep, Members};
ghost use Rattle.sets.specs.Building.{placed_in, last_of, Row, FirstRow};

use crate::variables;
use table::{NodeNo, Placed};

// One diagonal: row j gets at least j of the last d + j variables, for j = 1 up to k; or `full`.
fn diagonal(
    vars: &mut [u8],
    lows: &mut [u16],
    highs: &mut [u16],
    heads: &mut [u16],
    links: &mut [u16],
    row: &mut [u16],
    count: usize,
    set: u64,
    d: usize,
    from: u8,
    k: usize,
) -> Placed
    requires { Row (table_of vars.old lows.old highs.old heads.old links.old count) set d k row.old
        × Deep set (d + k) × (from ≡ nth set d) }
    ensures result_after { let before = table_of vars.old lows.old highs.old heads.old links.old count in
        outcome_of vars.new lows.new highs.new heads.new links.new result
        ≡ placed_in before (last_of set (d + k) k) }
    ensures row { let after = table_of vars.new lows.new highs.new heads.new links.new result.count in
        result.full ≡ false → Row after set (d + 1) k row.new }
{
    let mut n = count;
    let mut v = from;
    let mut j: usize = 1;
    let mut node = NodeNo(row[0]);
    while j <= k {
        v = variables::lower_in(set, v);
        let low = NodeNo(row[j]);
        let p = table::put(vars, lows, highs, heads, links, n, v, low, node);
        if p.full {
            return p;
        }
        node = p.node;
        row[j] = node.0;
        n = p.count;
        j += 1;
    }
    Placed {
        full: false,
        node,
        count: n,
    }
}

// Diagonal after diagonal, until at least k of all m variables of the set is made; or `full`.
pub fn diagonals(
    vars: &mut [u8],
    lows: &mut [u16],
    highs: &mut [u16],
    heads: &mut [u16],
    links: &mut [u16],
    row: &mut [u16],
    count: usize,
    set: u64,
    k: usize,
    m: usize,
) -> Placed
    requires good { Good (table_of vars.old lows.old highs.old heads.old links.old count) × Members set m × (1 ≤ k) × (k ≤ m) }
    requires first_row { FirstRow k row.old }
    ensures { let before = table_of vars.old lows.old highs.old heads.old links.old count in
        outcome_of vars.new lows.new highs.new heads.new links.new result
        ≡ placed_in before (at_least 64 (in_word set) k) }
{
    let mut n = count;
    let mut v: u8 = 65;
    let mut d: usize = 0;
    let mut node = NodeNo(0);
    while d + k <= m {
        let p = diagonal(vars, lows, highs, heads, links, row, n, set, d, v, k);
        if p.full {
            return p;
        }
        node = p.node;
        n = p.count;
        v = variables::lower_in(set, v);
        d += 1;
    }
    Placed {
        full: false,
        node,
        count: n,
    }
}
