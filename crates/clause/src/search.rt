// A clause's node looked for in the table.
ghost use Rattle.std.specs.Prelude.{length};
ghost use Rattle.table.specs.Nodes.{put, place};
ghost use Rattle.table.specs.Indexed.{table_of, nodes_of, Good};
ghost use Rattle.clause.specs.Words.{clause_of_words, Stands};

use table::{Found, NodeNo};
use words::Literals;

// The node with these children, if it stands in the table: the child where they are equal.
fn over(
    vars: &[u8],
    lows: &[u16],
    highs: &[u16],
    heads: &[u16],
    links: &[u16],
    count: usize,
    v: u8,
    l: NodeNo,
    h: NodeNo,
) -> Found
    requires { Good (table_of vars.now lows.now highs.now heads.now links.now count) }
    ensures { let before = table_of vars.now lows.now highs.now heads.now links.now count in
        Stands (nodes_of before) (put (length vars.now) (nodes_of before) v l.0 h.0) result }
{
    if l.0 == h.0 {
        return Found::At(l);
    }
    table::lookup(vars, lows, highs, heads, links, count, v, l, h)
}

// The clause's node, if it stands in the table; no node is placed.
pub fn find(
    vars: &[u8],
    lows: &[u16],
    highs: &[u16],
    heads: &[u16],
    links: &[u16],
    count: usize,
    literals: Literals,
) -> Found
    requires { Good (table_of vars.now lows.now highs.now heads.now links.now count) }
    ensures { let before = table_of vars.now lows.now highs.now heads.now links.now count in
        Stands (nodes_of before) (place (length vars.now) (nodes_of before) (clause_of_words literals)) result }
{
    let positive = literals.positive;
    let negative = literals.negative;
    if words::shared(positive, negative) {
        return Found::At(NodeNo(1));
    }
    let mut node = NodeNo(0);
    let mut v: u8 = 64;
    while 0 < v {
        let low = crate::side(negative, v, node);
        let high = crate::side(positive, v, node);
        match over(vars, lows, highs, heads, links, count, v, low, high) {
            Found::At(k) => {
                node = k;
            }
            Found::Nothing => {
                return Found::Nothing;
            }
        }
        v -= 1;
    }
    Found::At(node)
}
