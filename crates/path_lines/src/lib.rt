// A path line over a table, its members and lists to work in: for each path of the root to 0, low side first, the members by its
// literals, propagated. (02, 12/14)
#![tactic(auto)]

ghost use Rattle.std.specs.Prelude.{◌≡◌, false, ◌≤◌, length};
ghost use Rattle.table.specs.Nodes.{diagram_at};
ghost use Rattle.table.specs.Indexed.{table_of, nodes_of};
ghost use Rattle.table.specs.Lists.{diagrams_of};
ghost use Rattle.walks.specs.Readable.{ListReady};
ghost use Rattle.supports.specs.Supports.{Supports};
ghost use Rattle.members.specs.Made.{AllMade};
ghost use Rattle.conflict.specs.Marks.{unmarked};
ghost use Rattle.propagate.specs.Rounds.{unit_results};
ghost use Rattle.judge.specs.Lines.{Negatable, LineSays};
ghost use Rattle.paths.specs.Paths.{path_line, path_count};
ghost use Rattle.paths.specs.Rounds.{most_rounds};
ghost use Rattle.path_lines.specs.Turns.{turn_by};

use judge::Judged;
use members::Made;
use operate::Operation;
use table::NodeNo;
use words::Literals;

// Fills the list with the members' cofactors by the literals, made in order; or stops at `full`. `memberwords` has the members' variables;
// `words` then has the list's. A member without a variable of the literals stays.
pub fn by_literals(
    vars: &mut [u8],
    lows: &mut [u16],
    highs: &mut [u16],
    heads: &mut [u16],
    links: &mut [u16],
    memo: &mut [u64],
    members: &[u16],
    memberwords: &[u64],
    list: &mut [u16],
    words: &mut [u64],
    count: usize,
    literals: Literals,
) -> Made
    requires fact { let before = table_of vars.old lows.old highs.old heads.old links.old count in
        ListReady before members.now memo.old × (length list.old ≡ length members.now) × (length members.now ≤ 2048) }
    requires fact_2 { let before = table_of vars.old lows.old highs.old heads.old links.old count in
        (length memberwords.now ≡ length members.now)
        × Supports (nodes_of before) members.now memberwords.now
        × (length words.old ≡ length members.now) }
    ensures fact_3 { let before = table_of vars.old lows.old highs.old heads.old links.old count in
        let after = table_of vars.new lows.new highs.new heads.new links.new result.count in
        AllMade before (unit_results literals before members.now) result.full after list.new }
    ensures supports { let after = table_of vars.new lows.new highs.new heads.new links.new result.count in
        result.full ≡ false → Supports (nodes_of after) list.new words.new }
{
    judge::copy(members, list);
    judge::copy_words(memberwords, words);
    let touching = literals.positive | literals.negative;
    let mut places = [0u16; 2048];
    let many = touched::touched_places(words, touching, &mut places);
    let op = Operation::Literals {
        positive: literals.positive,
        negative: literals.negative,
    };
    // Node 1 has no variables that a member could gain.
    members::all_by(
        vars,
        lows,
        highs,
        heads,
        links,
        memo,
        list,
        words,
        &places[..many],
        count,
        op,
        NodeNo(1),
        0,
        touching,
    )
}

// The turn of the path with the literals, worked out in `list`, where `memberwords` has the members' variables. Its nodes stay.
pub fn path_turn(
    vars: &mut [u8],
    lows: &mut [u16],
    highs: &mut [u16],
    heads: &mut [u16],
    links: &mut [u16],
    memo: &mut [u64],
    marks: &mut [u8],
    members: &[u16],
    memberwords: &[u64],
    list: &mut [u16],
    words: &mut [u64],
    count: usize,
    literals: Literals,
) -> Judged
    requires fact { let before = table_of vars.old lows.old highs.old heads.old links.old count in
        ListReady before members.now memo.old
        × (marks.old ≡ unmarked (length vars.old))
        × (length list.old ≡ length members.now)
        × (length members.now ≤ 2048) }
    requires fact_2 { let before = table_of vars.old lows.old highs.old heads.old links.old count in
        (length memberwords.now ≡ length members.now)
        × Supports (nodes_of before) members.now memberwords.now
        × (length words.old ≡ length members.now) }
    ensures fact_3 { let before = table_of vars.old lows.old highs.old heads.old links.old count in
        let after = table_of vars.new lows.new highs.new heads.new links.new result.count in
        LineSays before (turn_by literals (diagrams_of (nodes_of before) members.now)) 64 result after }
    ensures marks_after { marks.new ≡ unmarked (length vars.old) }
{
    let made = by_literals(
        vars,
        lows,
        highs,
        heads,
        links,
        memo,
        members,
        memberwords,
        list,
        words,
        count,
        literals,
    );
    if made.full {
        return Judged {
            full: true,
            shown: false,
            rounds: 0,
            count: made.count,
            peak: made.count,
        };
    }
    let p = propagate::unit_prop(
        vars, lows, highs, heads, links, memo, marks, list, words, made.count,
    );
    Judged {
        full: p.full,
        shown: p.conflict,
        rounds: p.rounds as u64,
        count: p.count,
        peak: p.count,
    }
}

// The turns of all paths of the root to 0, up to one that is `full` or does not conflict. Each one's nodes are dropped before the next.
fn path_turns(
    vars: &mut [u8],
    lows: &mut [u16],
    highs: &mut [u16],
    heads: &mut [u16],
    links: &mut [u16],
    memo: &mut [u64],
    marks: &mut [u8],
    members: &[u16],
    memberwords: &[u64],
    list: &mut [u16],
    words: &mut [u64],
    count: usize,
    root: NodeNo,
) -> Judged
    requires fact { let before = table_of vars.old lows.old highs.old heads.old links.old count in
        Negatable before members.now memo.old root.0
        × (marks.old ≡ unmarked (length vars.old))
        × (length list.old ≡ length members.now)
        × (length members.now ≤ 2048)
        × (path_count (diagram_at (nodes_of before) root.0) ≤ 4096) }
    requires fact_2 { let before = table_of vars.old lows.old highs.old heads.old links.old count in
        (length memberwords.now ≡ length members.now)
        × Supports (nodes_of before) members.now memberwords.now
        × (length words.old ≡ length members.now) }
    ensures fact_3 { let before = table_of vars.old lows.old highs.old heads.old links.old count in
        let after = table_of vars.new lows.new highs.new heads.new links.new result.count in
        LineSays before (path_line 64 (diagrams_of (nodes_of before) members.now) (diagram_at (nodes_of before) root.0)) most_rounds
        result after }
    ensures marks_after { marks.new ≡ unmarked (length vars.old) }
{
    let mut rounds: u64 = 0;
    let mut peak: usize = count;
    let mut literals = paths::first_path(vars, lows, highs, count, root);
    let mut more = true;
    // The paths whose turns conflicted.
    let mut passed: usize = 0;
    while more {
        let t = path_turn(
            vars,
            lows,
            highs,
            heads,
            links,
            memo,
            marks,
            members,
            memberwords,
            list,
            words,
            count,
            literals,
        );
        peak = table::greater(peak, t.peak);
        if t.full {
            return Judged {
                full: true,
                shown: false,
                rounds: 0,
                count: t.count,
                peak,
            };
        }
        table::drop_to(vars, lows, highs, heads, links, t.count, count);
        rounds += t.rounds;
        if !t.shown {
            return Judged {
                full: false,
                shown: false,
                rounds,
                count,
                peak,
            };
        }
        let next = paths::path_after(vars, lows, highs, count, root, literals.positive);
        more = next.found;
        literals = next.literals;
        passed += 1;
    }
    Judged {
        full: false,
        shown: true,
        rounds,
        count,
        peak,
    }
}

// The path line of node `root`, worked out in `list`, with words to work in for the members and for the list. None of its nodes stays but
// where it is `full`: then those of the turn that found no room do.
pub fn path(
    vars: &mut [u8],
    lows: &mut [u16],
    highs: &mut [u16],
    heads: &mut [u16],
    links: &mut [u16],
    memo: &mut [u64],
    marks: &mut [u8],
    members: &[u16],
    memberwords: &mut [u64],
    list: &mut [u16],
    words: &mut [u64],
    count: usize,
    root: NodeNo,
) -> Judged
    requires fact { let before = table_of vars.old lows.old highs.old heads.old links.old count in
        Negatable before members.now memo.old root.0
        × (marks.old ≡ unmarked (length vars.old))
        × (length list.old ≡ length members.now)
        × (length members.now ≤ 2048)
        × (path_count (diagram_at (nodes_of before) root.0) ≤ 4096) }
    requires memberwords_len { (length memberwords.old ≡ length members.now) × (length words.old ≡ length members.now) }
    ensures fact_2 { let before = table_of vars.old lows.old highs.old heads.old links.old count in
        let after = table_of vars.new lows.new highs.new heads.new links.new result.count in
        LineSays before (path_line 64 (diagrams_of (nodes_of before) members.now) (diagram_at (nodes_of before) root.0)) most_rounds
        result after }
    ensures marks_after { marks.new ≡ unmarked (length vars.old) }
{
    supports::supports_of(vars, lows, highs, memo, members, memberwords, count);
    path_turns(
        vars,
        lows,
        highs,
        heads,
        links,
        memo,
        marks,
        members,
        memberwords,
        list,
        words,
        count,
        root,
    )
}
