// The variables of a node's diagram, or those that it forces, as a word.
#![tactic(auto)]

pub mod forced;

ghost use Rattle.std.specs.Prelude.{◌≡◌, ◌-◌, ◌≤◌, ◌<◌, length};
ghost use Rattle.table.specs.Nodes.{diagram_at};
ghost use Rattle.walks.specs.Readable.{Readable, Roomy, nodes_in};
ghost use Rattle.table.specs.Lists.{Inside};
ghost use Rattle.supports.specs.Supports.{Support, Supports, WordOf, WordMemo, SupportMemo, with_forced, with_node};

use table::NodeNo;

// The word with a node's variable v where one of the node's children is 0.
fn with_forced(word: u64, v: u8, low: NodeNo, high: NodeNo) -> u64
    requires { (1 ≤ v) × (v ≤ 64) }
    ensures { result ≡ with_forced word v low.0 high.0 }
{
    if low.0 == 0 || high.0 == 0 {
        return words::with_variable(word, v);
    }
    word
}

// The word with what a node of variable v adds: the variable where all are asked for, else where one of the node's children is 0.
fn with_node(word: u64, v: u8, low: NodeNo, high: NodeNo, all: bool) -> u64
    requires { (1 ≤ v) × (v ≤ 64) }
    ensures { result ≡ with_node all word v low.0 high.0 }
{
    if all {
        return words::with_variable(word, v);
    }
    with_forced(word, v, low, high)
}

// All variables of a node, or those that it forces, where the memo holds those of nodes already known; it stays so.
fn word_from(
    vars: &[u8],
    lows: &[u16],
    highs: &[u16],
    memo: &mut [u64],
    count: usize,
    f: NodeNo,
    all: bool,
) -> u64
    requires readable { Readable vars.now lows.now highs.now count × (f.0 < count) × Roomy vars.now memo.old }
    requires word_memo { WordMemo (WordOf all) memo.old (nodes_in vars.now lows.now highs.now count) }
    ensures word_of { WordOf all result (diagram_at (nodes_in vars.now lows.now highs.now count) f.0) }
    ensures fact { let nodes = nodes_in vars.now lows.now highs.now count in
        WordMemo (WordOf all) memo.new nodes }
{
    if f.0 < 2 {
        return 0;
    }
    let i = f.0 as usize;
    let known = memo[i];
    if known != 0 {
        return known;
    }
    let v = vars[i];
    let low = NodeNo(lows[i]);
    let high = NodeNo(highs[i]);
    let a = word_from(vars, lows, highs, memo, count, low, all);
    let b = word_from(vars, lows, highs, memo, count, high, all);
    let word = with_node(a | b, v, low, high, all);
    memo[i] = word;
    word
}

// All variables of a node, by the same traversal.
pub fn support_from(
    vars: &[u8],
    lows: &[u16],
    highs: &[u16],
    memo: &mut [u64],
    count: usize,
    f: NodeNo,
) -> u64
    requires readable { Readable vars.now lows.now highs.now count × (f.0 < count) × Roomy vars.now memo.old }
    requires support_memo { SupportMemo memo.old (nodes_in vars.now lows.now highs.now count) }
    ensures support { Support result (diagram_at (nodes_in vars.now lows.now highs.now count) f.0) }
    ensures support_memo_2 { SupportMemo memo.new (nodes_in vars.now lows.now highs.now count) }
{
    word_from(vars, lows, highs, memo, count, f, true)
}

// Fills the memo with the words of all nodes, each from those of its children, which stand before it.
fn all_supports(vars: &[u8], lows: &[u16], highs: &[u16], memo: &mut [u64], count: usize)
    requires { Readable vars.now lows.now highs.now count × Roomy vars.now memo.old }
    ensures { SupportMemo memo.new (nodes_in vars.now lows.now highs.now count) }
{
    walks::clear_cells(memo, 2);
    let mut k: usize = 2;
    while k < count {
        let low = lows[k] as usize;
        let high = highs[k] as usize;
        memo[k] = words::with_variable(memo[low] | memo[high], vars[k]);
        k += 1;
    }
}

// Fills the words with the variables of the listed nodes. Where few nodes are listed, each is walked from with a cleared memo; else the
// memo is filled first, in one pass over all nodes, and holds every word asked for.
pub fn supports_of(
    vars: &[u8],
    lows: &[u16],
    highs: &[u16],
    memo: &mut [u64],
    list: &[u16],
    words: &mut [u64],
    count: usize,
)
    requires { Readable vars.now lows.now highs.now count
        × Inside count list.now
        × Roomy vars.now memo.old
        × (length words.old ≡ length list.now) }
    ensures fact { let nodes = nodes_in vars.now lows.now highs.now count in
        Supports nodes list.now words.new }
    ensures support_memo { SupportMemo memo.new (nodes_in vars.now lows.now highs.now count) }
{
    if list.len() < count / 16 {
        walks::clear_cells(memo, count);
    } else {
        all_supports(vars, lows, highs, memo, count);
    }
    let mut i: usize = 0;
    while i < list.len() {
        let f = NodeNo(list[i]);
        let known = memo[f.0 as usize];
        if known != 0 {
            words[i] = known;
            i += 1;
        } else {
            words[i] = word_from(vars, lows, highs, memo, count, f, true);
            i += 1;
        }
    }
}
