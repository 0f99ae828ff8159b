// A path line that is refused with 19: the literals that the propagation of its first failing path fixes. (02, 8/14 and 12/14)
#![tactic(auto)]

ghost use Rattle.std.specs.Prelude.{◌≡◌, ◌≤◌, length, take};
ghost use Rattle.table.specs.Nodes.{diagram_at};
ghost use Rattle.table.specs.Indexed.{table_of, nodes_of};
ghost use Rattle.table.specs.Lists.{diagrams_of, Extended};
ghost use Rattle.walks.specs.Readable.{ListReady};
ghost use Rattle.supports.specs.Supports.{Supports};
ghost use Rattle.conflict.specs.Marks.{unmarked};
ghost use Rattle.judge.specs.Lines.{Negatable};
ghost use Rattle.paths.specs.Paths.{path_line, path_count};
ghost use Rattle.path_lines.specs.Turns.{by_words, turn_by};
ghost use Rattle.verdict.specs.Check.{zeros};
ghost use Rattle.verdict.specs.Steps.{unstruck};
ghost use Rattle.tell.specs.Failed.{Unshown, Fixed};
ghost use Rattle.path_causes.specs.Failing.{FirstFailing, PathTold};

use table::NodeNo;
use traces::Traced;
use words::Literals;

// The first path of the root to 0 whose propagation does not conflict. Each turn is worked out in `list`, and its nodes are dropped.
fn failing_path(
    vars: &mut [u8],
    lows: &mut [u16],
    highs: &mut [u16],
    heads: &mut [u16],
    links: &mut [u16],
    memo: &mut [u64],
    marks: &mut [u8],
    members: &[u16],
    memberwords: &[u64],
    list: &mut [u16],
    words: &mut [u64],
    count: usize,
    root: NodeNo,
) -> Literals
    requires fact { let before = table_of vars.old lows.old highs.old heads.old links.old count in
        Negatable before members.now memo.old root.0
        × (marks.old ≡ unmarked (length vars.old))
        × (length list.old ≡ length members.now)
        × (length members.now ≤ 2048)
        × (path_count (diagram_at (nodes_of before) root.0) ≤ 4096)
        × Unshown before (path_line 64 (diagrams_of (nodes_of before) members.now) (diagram_at (nodes_of before) root.0)) }
    requires fact_2 { let before = table_of vars.old lows.old highs.old heads.old links.old count in
        (length memberwords.now ≡ length members.now)
        × Supports (nodes_of before) members.now memberwords.now
        × (length words.old ≡ length members.now) }
    ensures fact_3 { let before = table_of vars.old lows.old highs.old heads.old links.old count in
        let after = table_of vars.new lows.new highs.new heads.new links.new count in
        (after ≡ before)
        × FirstFailing before (diagrams_of (nodes_of before) members.now) (diagram_at (nodes_of before) root.0) result }
    ensures marks_after { marks.new ≡ unmarked (length vars.old) }
{
    let mut literals = paths::first_path(vars, lows, highs, count, root);
    // The paths whose turns conflicted.
    let mut passed: usize = 0;
    loop {
        let t = path_lines::path_turn(
            vars,
            lows,
            highs,
            heads,
            links,
            memo,
            marks,
            members,
            memberwords,
            list,
            words,
            count,
            literals,
        );
        table::drop_to(vars, lows, highs, heads, links, t.count, count);
        if !t.shown {
            return literals;
        }
        let next = paths::path_after(vars, lows, highs, count, root, literals.positive);
        literals = next.literals;
        passed += 1;
    }
}

// The propagation of the members by the literals, traced; it is worked out in `list`. Its nodes stay.
fn path_traced(
    vars: &mut [u8],
    lows: &mut [u16],
    highs: &mut [u16],
    heads: &mut [u16],
    links: &mut [u16],
    memo: &mut [u64],
    members: &[u16],
    memberwords: &[u64],
    list: &mut [u16],
    words: &mut [u64],
    fixed: &mut [u64],
    count: usize,
    literals: Literals,
) -> Traced
    requires fact { let before = table_of vars.old lows.old highs.old heads.old links.old count in
        ListReady before members.now memo.old
        × (length list.old ≡ length members.now)
        × (length members.now ≤ 2048)
        × Unshown before (turn_by literals (diagrams_of (nodes_of before) members.now)) }
    requires fact_2 { let before = table_of vars.old lows.old highs.old heads.old links.old count in
        (length memberwords.now ≡ length members.now)
        × Supports (nodes_of before) members.now memberwords.now
        × (length words.old ≡ length members.now) }
    requires in_bounds { (128 ≤ length fixed.old) × (fixed.old ≡ zeros (length fixed.old)) }
    ensures { let before = table_of vars.old lows.old highs.old heads.old links.old count in
        let after = table_of vars.new lows.new highs.new heads.new links.new result.count in
        Extended before after
        × Fixed (by_words literals (diagrams_of (nodes_of before) members.now)) result.rounds fixed.new }
{
    // All that the turn makes finds room.
    let made = path_lines::by_literals(
        vars,
        lows,
        highs,
        heads,
        links,
        memo,
        members,
        memberwords,
        list,
        words,
        count,
        literals,
    );
    traces::trace(
        vars, lows, highs, heads, links, memo, list, words, fixed, made.count,
    )
}

// The rounds of the first failing path of node g over the members in `live`, worked out in `list`, with words to work in for both. Its
// nodes are dropped.
fn path_over(
    vars: &mut [u8],
    lows: &mut [u16],
    highs: &mut [u16],
    heads: &mut [u16],
    links: &mut [u16],
    memo: &mut [u64],
    marks: &mut [u8],
    live: &[u16],
    memberwords: &mut [u64],
    list: &mut [u16],
    words: &mut [u64],
    fixed: &mut [u64],
    count: usize,
    g: NodeNo,
) -> usize
    requires fact { let before = table_of vars.old lows.old highs.old heads.old links.old count in
        Negatable before live.now memo.old g.0
        × (marks.old ≡ unmarked (length vars.old))
        × (length list.old ≡ length live.now)
        × (length live.now ≤ 2048)
        × (path_count (diagram_at (nodes_of before) g.0) ≤ 4096)
        × Unshown before (path_line 64 (diagrams_of (nodes_of before) live.now) (diagram_at (nodes_of before) g.0)) }
    requires memberwords_len { (length memberwords.old ≡ length live.now) × (length words.old ≡ length live.now) }
    requires in_bounds { (128 ≤ length fixed.old) × (fixed.old ≡ zeros (length fixed.old)) }
    ensures fact_2 { let before = table_of vars.old lows.old highs.old heads.old links.old count in
        let after = table_of vars.new lows.new highs.new heads.new links.new count in
        (after ≡ before)
        × PathTold (diagrams_of (nodes_of before) live.now) (diagram_at (nodes_of before) g.0) result fixed.new }
    ensures marks_after { marks.new ≡ unmarked (length vars.old) }
{
    supports::supports_of(vars, lows, highs, memo, live, memberwords, count);
    let literals = failing_path(
        vars,
        lows,
        highs,
        heads,
        links,
        memo,
        marks,
        live,
        memberwords,
        list,
        words,
        count,
        g,
    );
    let t = path_traced(
        vars,
        lows,
        highs,
        heads,
        links,
        memo,
        live,
        memberwords,
        list,
        words,
        fixed,
        count,
        literals,
    );
    table::drop_to(vars, lows, highs, heads, links, t.count, count);
    t.rounds
}

// The rounds of the first failing path of node g over those of the first `many` members that are not struck, worked out in the scratch
// list. Its nodes are dropped.
pub fn path_cause(
    vars: &mut [u8],
    lows: &mut [u16],
    highs: &mut [u16],
    heads: &mut [u16],
    links: &mut [u16],
    memo: &mut [u64],
    marks: &mut [u8],
    members: &[u16],
    scratch: &mut [u16],
    struck: &[u8],
    fixed: &mut [u64],
    count: usize,
    many: usize,
    g: NodeNo,
) -> usize
    requires fact { let before = table_of vars.old lows.old highs.old heads.old links.old count in
        let live = unstruck (take many struck.now) (take many members.now) in
        Negatable before (take many members.now) memo.old g.0
        × (marks.old ≡ unmarked (length vars.old))
        × (many ≤ 2048)
        × (2048 ≤ length members.now)
        × (4096 ≤ length scratch.old)
        × (length struck.now ≡ length members.now)
        × (path_count (diagram_at (nodes_of before) g.0) ≤ 4096)
        × Unshown before (path_line 64 (diagrams_of (nodes_of before) live) (diagram_at (nodes_of before) g.0)) }
    requires in_bounds { (128 ≤ length fixed.old) × (fixed.old ≡ zeros (length fixed.old)) }
    ensures fact_2 { let before = table_of vars.old lows.old highs.old heads.old links.old count in
        let after = table_of vars.new lows.new highs.new heads.new links.new count in
        let live = unstruck (take many struck.now) (take many members.now) in
        (after ≡ before)
        × PathTold (diagrams_of (nodes_of before) live) (diagram_at (nodes_of before) g.0) result fixed.new }
    ensures marks_after { marks.new ≡ unmarked (length vars.old) }
{
    let mut live = [0u16; 2048];
    let mut memberwords = [0u64; 2048];
    let mut words = [0u64; 2048];
    let m = steps::strike::live_members(members, struck, many, &mut live);
    path_over(
        vars,
        lows,
        highs,
        heads,
        links,
        memo,
        marks,
        &live[..m],
        &mut memberwords[..m],
        &mut scratch[..m],
        &mut words[..m],
        fixed,
        count,
        g,
    )
}
