// A line that is not shown, judged once more for the literals that its last propagation fixes. (02, 8/14)
ghost use Rattle.std.specs.Prelude.{◌≡◌, false, ◌≤◌, length};
ghost use Rattle.meaning.specs.Operations.{negation};
ghost use Rattle.meaning.specs.Rules.{by_diagram, unit_prop};
ghost use Rattle.table.specs.Nodes.{diagram_at};
ghost use Rattle.table.specs.Indexed.{table_of, nodes_of};
ghost use Rattle.table.specs.Lists.{diagrams_of};
ghost use Rattle.judge.specs.Lines.{Negatable, Worded};
ghost use Rattle.verdict.specs.Check.{zeros};
ghost use Rattle.why.specs.Lines.{LineTraced};

use table::NodeNo;
use traces::Traced;

// The propagation of the members by not-g, worked out in `list`; `memberwords` has the members' variables and `word` those of g. Its nodes
// stay.
pub fn trace_by(
    vars: &mut [u8],
    lows: &mut [u16],
    highs: &mut [u16],
    heads: &mut [u16],
    links: &mut [u16],
    memo: &mut [u64],
    members: &[u16],
    memberwords: &[u64],
    list: &mut [u16],
    words: &mut [u64],
    fixed: &mut [u64],
    count: usize,
    g: NodeNo,
    word: u64,
) -> Traced
    requires fact { let before = table_of vars.old lows.old highs.old heads.old links.old count in
        let ms = diagrams_of (nodes_of before) members.now in
        Negatable before members.now memo.old g.0
        × (length list.old ≡ length members.now)
        × (length members.now ≤ 2048)
        × ((unit_prop 64 (by_diagram 64 (negation 64 (diagram_at (nodes_of before) g.0)) ms)).conflict ≡ false) }
    requires fact_2 { let before = table_of vars.old lows.old highs.old heads.old links.old count in
        Worded before members.now memberwords.now g.0 word × (length words.old ≡ length members.now) }
    requires in_bounds { (128 ≤ length fixed.old) × (fixed.old ≡ zeros (length fixed.old)) }
    ensures { let before = table_of vars.old lows.old highs.old heads.old links.old count in
        let after = table_of vars.new lows.new highs.new heads.new links.new result.count in
        LineTraced before (diagrams_of (nodes_of before) members.now) (diagram_at (nodes_of before) g.0) result after
        fixed.new }
{
    let made = judge::by_negation(
        vars,
        lows,
        highs,
        heads,
        links,
        memo,
        members,
        memberwords,
        list,
        words,
        count,
        g,
        word,
    );
    if made.full {
        return Traced {
            full: true,
            rounds: 0,
            count: made.count,
        };
    }
    traces::trace(
        vars, lows, highs, heads, links, memo, list, words, fixed, made.count,
    )
}
