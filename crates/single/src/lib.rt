// The five single calls, with the table and its index alone lent.
#![tactic(auto)]

pub mod call;
pub mod least;

ghost use Rattle.std.specs.Prelude.{◌≡◌};
ghost use Rattle.table.specs.Columns.{columns_made};
ghost use Rattle.single.specs.Single.{evaluation};

use table::NodeNo;

// What evaluation says: 01's number, yes or no, and the count as lent.
#[repr(C)]
#[derive(Clone, Copy)]
pub struct Evaluated {
    pub number: u8,
    pub yes: bool,
    pub count: usize,
}

// Whether the node is 1 under the word's assignment; or 7, 26, 13.
pub fn evaluate(
    vars: &[u8],
    lows: &[u16],
    highs: &[u16],
    heads: &[u16],
    links: &[u16],
    count: usize,
    node: NodeNo,
    word: u64,
) -> Evaluated
    ensures { let before = columns_made vars.now lows.now highs.now heads.now links.now in
        result ≡ evaluation before count node.0 word }
{
    if !table::test::size_fits(vars, lows, highs, heads, links) {
        return Evaluated {
            number: 7,
            yes: false,
            count,
        };
    }
    if !good_order::order_fits(vars, lows, highs, heads, links, count) {
        return Evaluated {
            number: 26,
            yes: false,
            count,
        };
    }
    if count <= node.0 as usize {
        return Evaluated {
            number: 13,
            yes: false,
            count,
        };
    }
    let yes = walks::value_of(vars, lows, highs, count, node, word);
    Evaluated {
        number: 0,
        yes,
        count,
    }
}
