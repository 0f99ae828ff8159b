// A RUP line that is refused with 19: the literals that its propagation fixes.
ghost use Rattle.std.specs.Prelude.{◌≡◌, false, ◌≤◌, length, take};
ghost use Rattle.meaning.specs.Rules.{unit_prop, rup};
ghost use Rattle.table.specs.Nodes.{diagram_at};
ghost use Rattle.table.specs.Indexed.{table_of, nodes_of};
ghost use Rattle.table.specs.Lists.{diagrams_of};
ghost use Rattle.judge.specs.Lines.{Negatable};
ghost use Rattle.verdict.specs.Check.{zeros};
ghost use Rattle.verdict.specs.Steps.{unstruck};
ghost use Rattle.why.specs.Lines.{LineTraced};
ghost use Rattle.tell.specs.Failed.{Unshown, Fixed, by_not};

use table::NodeNo;
use traces::Traced;

// The propagation of the line of node g over the members in `live`, worked out in `list`, with words to work in for both. Its nodes stay.
fn rup_traced(
    vars: &mut [u8],
    lows: &mut [u16],
    highs: &mut [u16],
    heads: &mut [u16],
    links: &mut [u16],
    memo: &mut [u64],
    live: &[u16],
    memberwords: &mut [u64],
    list: &mut [u16],
    words: &mut [u64],
    fixed: &mut [u64],
    count: usize,
    g: NodeNo,
) -> Traced
    requires fact { let before = table_of vars.old lows.old highs.old heads.old links.old count in
        let ms = diagrams_of (nodes_of before) live.now in
        Negatable before live.now memo.old g.0
        × (length list.old ≡ length live.now)
        × (length live.now ≤ 2048)
        × ((unit_prop 64 (by_not (diagram_at (nodes_of before) g.0) ms)).conflict ≡ false) }
    requires memberwords_len { (length memberwords.old ≡ length live.now) × (length words.old ≡ length live.now) }
    requires in_bounds { (128 ≤ length fixed.old) × (fixed.old ≡ zeros (length fixed.old)) }
    ensures { let before = table_of vars.old lows.old highs.old heads.old links.old count in
        let after = table_of vars.new lows.new highs.new heads.new links.new result.count in
        LineTraced before (diagrams_of (nodes_of before) live.now) (diagram_at (nodes_of before) g.0) result after
        fixed.new }
{
    supports::supports_of(vars, lows, highs, memo, live, memberwords, count);
    let word = supports::support_from(vars, lows, highs, memo, count, g);
    why::line::trace_by(
        vars,
        lows,
        highs,
        heads,
        links,
        memo,
        live,
        memberwords,
        list,
        words,
        fixed,
        count,
        g,
        word,
    )
}

// The rounds of the propagation of the line of node g over those of the first `many` members that are not struck, worked out in the
// scratch list. Its nodes are dropped.
pub fn rup_cause(
    vars: &mut [u8],
    lows: &mut [u16],
    highs: &mut [u16],
    heads: &mut [u16],
    links: &mut [u16],
    memo: &mut [u64],
    members: &[u16],
    scratch: &mut [u16],
    struck: &[u8],
    fixed: &mut [u64],
    count: usize,
    many: usize,
    g: NodeNo,
) -> usize
    requires fact { let before = table_of vars.old lows.old highs.old heads.old links.old count in
        let live = unstruck (take many struck.now) (take many members.now) in
        Negatable before (take many members.now) memo.old g.0
        × (many ≤ 2048)
        × (2048 ≤ length members.now)
        × (4096 ≤ length scratch.old)
        × (length struck.now ≡ length members.now)
        × Unshown before (rup 64 (diagrams_of (nodes_of before) live) (diagram_at (nodes_of before) g.0)) }
    requires in_bounds { (128 ≤ length fixed.old) × (fixed.old ≡ zeros (length fixed.old)) }
    ensures { let before = table_of vars.old lows.old highs.old heads.old links.old count in
        let after = table_of vars.new lows.new highs.new heads.new links.new count in
        let live = unstruck (take many struck.now) (take many members.now) in
        (after ≡ before)
        × Fixed (by_not (diagram_at (nodes_of before) g.0) (diagrams_of (nodes_of before) live)) result fixed.new }
{
    let mut live = [0u16; 2048];
    let mut memberwords = [0u64; 2048];
    let mut words = [0u64; 2048];
    let m = steps::strike::live_members(members, struck, many, &mut live);
    let t = rup_traced(
        vars,
        lows,
        highs,
        heads,
        links,
        memo,
        &live[..m],
        &mut memberwords[..m],
        &mut scratch[..m],
        &mut words[..m],
        fixed,
        count,
        g,
    );
    table::drop_to(vars, lows, highs, heads, links, t.count, count);
    t.rounds
}
