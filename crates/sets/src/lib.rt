// Either-or and at-least diagrams made in the table from the word of their set, and how much an at-least one excludes. (02, 5/14)
#![tactic(auto)]

mod diagonals;
mod odd_even;
mod variables;

ghost use Rattle.std.specs.Prelude.{◌≡◌};
ghost use Rattle.meaning.specs.Words.{in_word};
ghost use Rattle.meaning.specs.Sets.{parity, at_least};
ghost use Rattle.table.specs.Indexed.{table_of, Good, outcome_of};
ghost use Rattle.sets.specs.Building.{placed_in};
ghost use Rattle.sets.specs.Counts.{count_of};

use table::{NodeNo, Placed};

// How many assignments of its set an at-least diagram excludes, where that is counted; 0 where it is not.
#[derive(Clone, Copy)]
pub struct Count {
    pub counted: bool,
    pub excluded: u64,
}

// The diagram of "an odd number of the set's variables", or of "an even number"; or `full`.
pub fn parity(
    vars: &mut [u8],
    lows: &mut [u16],
    highs: &mut [u16],
    heads: &mut [u16],
    links: &mut [u16],
    count: usize,
    set: u64,
    odd: bool,
) -> Placed
    requires { Good (table_of vars.old lows.old highs.old heads.old links.old count) }
    ensures { let before = table_of vars.old lows.old highs.old heads.old links.old count in
        outcome_of vars.new lows.new highs.new heads.new links.new result
        ≡ placed_in before (parity 64 (in_word set) odd) }
{
    if odd {
        return odd_even::odd(vars, lows, highs, heads, links, count, set, 1, NodeNo(0));
    }
    odd_even::even(vars, lows, highs, heads, links, count, set, 1, NodeNo(0))
}

// The diagram of "at least k of the set's variables", or `full`.
pub fn at_least(
    vars: &mut [u8],
    lows: &mut [u16],
    highs: &mut [u16],
    heads: &mut [u16],
    links: &mut [u16],
    count: usize,
    set: u64,
    k: u8,
) -> Placed
    requires { Good (table_of vars.old lows.old highs.old heads.old links.old count) }
    ensures { let before = table_of vars.old lows.old highs.old heads.old links.old count in
        outcome_of vars.new lows.new highs.new heads.new links.new result
        ≡ placed_in before (at_least 64 (in_word set) k) }
{
    let m = variables::size_of(set);
    if k == 0 {
        return Placed {
            full: false,
            node: NodeNo(1),
            count,
        };
    }
    let least = k as usize;
    if m < least {
        return Placed {
            full: false,
            node: NodeNo(0),
            count,
        };
    }
    let mut row = [0u16; 65];
    row[0] = 1;
    diagonals::diagonals(
        vars, lows, highs, heads, links, &mut row, count, set, least, m,
    )
}

// How many assignments of its set "at least k of the set's variables" excludes; no count for sets of more than 32 variables.
pub fn excluded_by(set: u64, k: u8) -> Count
    ensures { result ≡ count_of set k }
{
    let m = variables::size_of(set);
    if 32 < m {
        return Count {
            counted: false,
            excluded: 0,
        };
    }
    let excluded = binomial::excluded(m, k);
    Count {
        counted: true,
        excluded,
    }
}
