// Lines over a table, its members and lists to work in: what a RUP line and a PR line share.
#![tactic(auto)]

ghost use Rattle.std.specs.Prelude.{◌≡◌, false, ◌≤◌, length};
ghost use Rattle.table.specs.Nodes.{diagram_at};
ghost use Rattle.table.specs.Indexed.{table_of, nodes_of};
ghost use Rattle.table.specs.Lists.{diagrams_of};
ghost use Rattle.supports.specs.Supports.{Supports};
ghost use Rattle.judge.specs.Lines.{Negatable, Worded, ByNegation};

use members::Made;
use operate::Operation;
use table::NodeNo;

pub mod cube;
pub mod rup;

// What judging says: `full` where a node found no room, else whether the line is shown, and its rounds; the count, and the greatest
// count reached, dropped nodes included.
#[derive(Clone, Copy)]
pub struct Judged {
    pub full: bool,
    pub shown: bool,
    pub rounds: u64,
    pub count: usize,
    pub peak: usize,
}

// Fills a list with another of its length.
pub fn copy(from: &[u16], to: &mut [u16])
    requires { length to.old ≡ length from.now }
    ensures { to.new ≡ from.now }
{
    let mut i: usize = 0;
    while i < from.len() {
        to[i] = from[i];
        i += 1;
    }
}

pub fn copy_words(from: &[u64], to: &mut [u64])
    requires { length to.old ≡ length from.now }
    ensures { to.new ≡ from.now }
{
    let mut i: usize = 0;
    while i < from.len() {
        to[i] = from[i];
        i += 1;
    }
}

// Makes not-g, and fills the list with the members' cofactors by not-g, made in order; or stops at `full`.
// `memberwords` has the members' variables and `word` those of g; `words` then has the list's. A member without a variable that not-g
// forces stays.
pub fn by_negation(
    vars: &mut [u8],
    lows: &mut [u16],
    highs: &mut [u16],
    heads: &mut [u16],
    links: &mut [u16],
    memo: &mut [u64],
    members: &[u16],
    memberwords: &[u64],
    list: &mut [u16],
    words: &mut [u64],
    count: usize,
    g: NodeNo,
    word: u64,
) -> Made
    requires fact { let before = table_of vars.old lows.old highs.old heads.old links.old count in
        Negatable before members.now memo.old g.0 × (length list.old ≡ length members.now) × (length members.now ≤ 2048) }
    requires fact_2 { let before = table_of vars.old lows.old highs.old heads.old links.old count in
        Worded before members.now memberwords.now g.0 word × (length words.old ≡ length members.now) }
    ensures fact_3 { let before = table_of vars.old lows.old highs.old heads.old links.old count in
        let after = table_of vars.new lows.new highs.new heads.new links.new result.count in
        ByNegation before (diagrams_of (nodes_of before) members.now) (diagram_at (nodes_of before) g.0) result.full after
        list.new }
    ensures supports { let after = table_of vars.new lows.new highs.new heads.new links.new result.count in
        result.full ≡ false → Supports (nodes_of after) list.new words.new }
{
    copy(members, list);
    copy_words(memberwords, words);
    memo::clear_memo(memo);
    let not = operate::apply(
        vars,
        lows,
        highs,
        heads,
        links,
        memo,
        count,
        Operation::Negation,
        g,
        NodeNo(1),
    );
    if not.full {
        return Made {
            full: true,
            written: 0,
            count: not.count,
        };
    }
    let by = cube::by_node(vars, lows, highs, memo, not.count, not.node, word);
    let op = by.op;
    let mut places = [0u16; 2048];
    let many = touched::touched_places(words, by.touching, &mut places);
    members::all_by(
        vars,
        lows,
        highs,
        heads,
        links,
        memo,
        list,
        words,
        &places[..many],
        not.count,
        op,
        by.g,
        by.gained,
        by.touching,
    )
}
