// A list's members replaced by an operation's results on them.
#![tactic(auto)]

ghost use Rattle.std.specs.Prelude.{◌≡◌, ◌<◌, length, get_or, false};
ghost use Rattle.table.specs.Nodes.{diagram_at};
ghost use Rattle.table.specs.Indexed.{table_of, nodes_of, outcome_of};
ghost use Rattle.walks.specs.Readable.{ListReady};
ghost use Rattle.operate.specs.Inner.{applied, Allowed, MemoRight, Ready};
ghost use Rattle.supports.specs.Supports.{Support, Supports};
ghost use Rattle.table.specs.Lists.{diagrams_of};
ghost use Rattle.members.specs.Made.{results, AllMade, differing};
ghost use Rattle.touched.specs.Places.{AllBut, Untouched};
ghost use Rattle.members.specs.Touching.{Touches, OneMade};

use operate::Operation;
use table::{NodeNo, Placed};

// What making diagrams in their order gives: `full` where one of them found no room; how many members of the list were written, which are
// those that changed; and the count.
#[derive(Clone, Copy)]
pub struct Made {
    pub full: bool,
    pub written: usize,
    pub count: usize,
}

// The operation on the nodes f and g, where `word` has f's variables and `touching` those that the cofactor sets. What is thin has no use
// for the memo.
fn apply_touching(
    vars: &mut [u8],
    lows: &mut [u16],
    highs: &mut [u16],
    heads: &mut [u16],
    links: &mut [u16],
    memo: &mut [u64],
    xs: &mut [u8],
    told: &mut [u16],
    sides: &mut [u8],
    count: usize,
    op: Operation,
    f: NodeNo,
    g: NodeNo,
    word: u64,
    touching: u64,
) -> Placed
    requires fact { let before = table_of vars.old lows.old highs.old heads.old links.old count in
        Ready op memo.old before f.0 g.0
        × Support word (diagram_at (nodes_of before) f.0)
        × Touches op (diagram_at (nodes_of before) g.0) touching }
    requires xs_len { (length xs.old ≡ 64) × (length told.old ≡ 64) × (length sides.old ≡ 64) }
    ensures result_after { let before = table_of vars.old lows.old highs.old heads.old links.old count in
        outcome_of vars.new lows.new highs.new heads.new links.new result
        ≡ applied before op f.0 g.0 }
    ensures fact_2 { let after = table_of vars.new lows.new highs.new heads.new links.new result.count in
        MemoRight op memo.new after }
{
    let tried = thin::apply_thin(
        vars,
        lows,
        highs,
        heads,
        links,
        xs,
        told,
        sides,
        count,
        op,
        f,
        g,
        word & touching,
    );
    if !tried.wide {
        return tried.placed;
    }
    memo::clear_forgetful(memo);
    operate::apply_sharing(
        vars,
        lows,
        highs,
        heads,
        links,
        memo,
        count,
        op,
        f,
        g,
        word & touching,
    )
}

// What making one member gives: `full` where it found no room, else its node; how often the list was written, once or not at all; and
// the count.
#[derive(Clone, Copy)]
pub struct Replaced {
    pub full: bool,
    pub node: NodeNo,
    pub written: usize,
    pub count: usize,
}

// Replaces the node listed at i by the operation's result on it and g. The list and the word there are written only where the node changes.
fn member_by(
    vars: &mut [u8],
    lows: &mut [u16],
    highs: &mut [u16],
    heads: &mut [u16],
    links: &mut [u16],
    memo: &mut [u64],
    list: &mut [u16],
    words: &mut [u64],
    xs: &mut [u8],
    told: &mut [u16],
    sides: &mut [u8],
    count: usize,
    op: Operation,
    g: NodeNo,
    gained: u64,
    touching: u64,
    i: usize,
) -> Replaced
    requires fact { let before = table_of vars.old lows.old highs.old heads.old links.old count in
        (i < length list.old)
        × (i < length words.old)
        × Ready op memo.old before (get_or list.old i 0) g.0
        × Support (get_or words.old i 0) (diagram_at (nodes_of before) (get_or list.old i 0))
        × Touches op (diagram_at (nodes_of before) g.0) touching }
    requires xs_len { (length xs.old ≡ 64) × (length told.old ≡ 64) × (length sides.old ≡ 64) }
    ensures fact_2 { let before = table_of vars.old lows.old highs.old heads.old links.old count in
        let after = table_of vars.new lows.new highs.new heads.new links.new result.count in
        OneMade op before list.old words.old g.0 gained i result after list.new words.new }
    ensures fact_3 { let after = table_of vars.new lows.new highs.new heads.new links.new result.count in
        MemoRight op memo.new after }
{
    let f = NodeNo(list[i]);
    let word = words[i];
    let p = apply_touching(
        vars, lows, highs, heads, links, memo, xs, told, sides, count, op, f, g, word, touching,
    );
    let k = p.node;
    if p.full || k.0 == f.0 {
        return Replaced {
            full: p.full,
            node: k,
            written: 0,
            count: p.count,
        };
    }
    list[i] = k.0;
    words[i] = word | gained;
    Replaced {
        full: false,
        node: k,
        written: 1,
        count: p.count,
    }
}

// Replaces each listed node, in order, by the operation's result on it and g, or stops at `full`. One memo, cleared, serves all. The words
// have the listed nodes' variables, and still do after it, where `gained` has those of g. Only the members at the places are made: the
// others have none of the variables of `touching`, which the operation sets.
pub fn all_by(
    vars: &mut [u8],
    lows: &mut [u16],
    highs: &mut [u16],
    heads: &mut [u16],
    links: &mut [u16],
    memo: &mut [u64],
    list: &mut [u16],
    words: &mut [u64],
    places: &[u16],
    count: usize,
    op: Operation,
    g: NodeNo,
    gained: u64,
    touching: u64,
) -> Made
    requires fact { let before = table_of vars.old lows.old highs.old heads.old links.old count in
        ListReady before list.old memo.old × (g.0 < count) × Allowed op g.0 }
    requires fact_2 { let before = table_of vars.old lows.old highs.old heads.old links.old count in
        (length words.old ≡ length list.old)
        × Supports (nodes_of before) list.old words.old
        × Touches op (diagram_at (nodes_of before) g.0) touching
        × Support gained (diagram_at (nodes_of before) g.0)
        × AllBut (length list.old) places.now (Untouched words.old touching) }
    ensures fact_3 { let before = table_of vars.old lows.old highs.old heads.old links.old count in
        let after = table_of vars.new lows.new highs.new heads.new links.new result.count in
        AllMade before (results op before list.old g.0) result.full after list.new }
    ensures supports { let after = table_of vars.new lows.new highs.new heads.new links.new result.count in
        result.full ≡ false → Supports (nodes_of after) list.new words.new }
    ensures written_value { let before = table_of vars.old lows.old highs.old heads.old links.old count in
        result.full ≡ false →
        result.written ≡ differing (diagrams_of (nodes_of before) list.old) (results op before list.old g.0) }
{
    memo::clear_memo(memo);
    let mut xs = [0u8; 64];
    let mut told = [0u16; 64];
    let mut sides = [0u8; 64];
    let mut n = count;
    let mut written: usize = 0;
    let mut k: usize = 0;
    while k < places.len() {
        let i = places[k] as usize;
        let r = member_by(
            vars, lows, highs, heads, links, memo, list, words, &mut xs, &mut told, &mut sides, n,
            op, g, gained, touching, i,
        );
        n = r.count;
        written += r.written;
        if r.full {
            return Made {
                full: true,
                written,
                count: n,
            };
        }
        k += 1;
    }
    Made {
        full: false,
        written,
        count: n,
    }
}
