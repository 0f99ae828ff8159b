// A clause's diagram made in the table from the set of its literals, or found there.
#![tactic(auto)]

mod search;

ghost use Rattle.std.specs.Prelude.{◌≡◌, cond, ◌≤◌, length};
ghost use Rattle.meaning.specs.Words.{in_word};
ghost use Rattle.table.specs.Nodes.{place};
ghost use Rattle.table.specs.Indexed.{table_of, nodes_of, Good, outcome_of, written};
ghost use Rattle.clause.specs.Words.{clause_of_words};

pub use search::find;
use table::{NodeNo, Placed};
use words::Literals;

// The side on which the literal of v, if the word has v, is true: node 1, else the clause's other literals.
fn side(word: u64, v: u8, rest: NodeNo) -> NodeNo
    requires { (1 ≤ v) × (v ≤ 64) }
    ensures { result.0 ≡ cond (in_word word v) 1 rest.0 }
{
    if words::in_word(word, v) {
        return NodeNo(1);
    }
    rest
}

// The clause's node, or `full`: from the greatest variable to the least, a node for each that has a literal.
// Both signs of a variable make it 1, and then no node is placed.
pub fn make(
    vars: &mut [u8],
    lows: &mut [u16],
    highs: &mut [u16],
    heads: &mut [u16],
    links: &mut [u16],
    count: usize,
    literals: Literals,
) -> Placed
    requires { Good (table_of vars.old lows.old highs.old heads.old links.old count) }
    ensures { let before = table_of vars.old lows.old highs.old heads.old links.old count in
        outcome_of vars.new lows.new highs.new heads.new links.new result
        ≡ written (length vars.old) (place (length vars.old) (nodes_of before) (clause_of_words literals)) }
{
    let positive = literals.positive;
    let negative = literals.negative;
    if words::shared(positive, negative) {
        return Placed {
            full: false,
            node: NodeNo(1),
            count,
        };
    }
    let mut made = Placed {
        full: false,
        node: NodeNo(0),
        count,
    };
    let mut v: u8 = 64;
    while 0 < v {
        let low = side(negative, v, made.node);
        let high = side(positive, v, made.node);
        made = table::put(vars, lows, highs, heads, links, made.count, v, low, high);
        if made.full {
            return made;
        }
        v -= 1;
    }
    made
}
