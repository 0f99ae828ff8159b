// A PR line that is refused with 19: the lowest member that is not shown, and the literals that its turn fixes. The words of the members'
// variables are all ones here, which is right of every diagram: this is asked once in a check.
ghost use Rattle.std.specs.Prelude.{◌≡◌, true, not, ◌||◌, ◌≤◌, ◌<◌, length, get_or, take, eqb};
ghost use Rattle.meaning.specs.Rules.{pr_turns, pr};
ghost use Rattle.meaning.specs.Words.{in_word};
ghost use Rattle.table.specs.Nodes.{diagram_at};
ghost use Rattle.table.specs.Indexed.{table_of, size, nodes_of};
ghost use Rattle.table.specs.Making.{line_reach};
ghost use Rattle.table.specs.Lists.{diagrams_of, Inside};
ghost use Rattle.walks.specs.Readable.{ListReady};
ghost use Rattle.conflict.specs.Marks.{unmarked};
ghost use Rattle.supports.specs.Supports.{Supports};
ghost use Rattle.judge.specs.Lines.{Negatable};
ghost use Rattle.verdict.specs.Check.{zeros};
ghost use Rattle.verdict.specs.Steps.{unstruck};
ghost use Rattle.tell.specs.Failed.{Unshown, Fixed, by_not, turn_line, under_witness, Lowest, PrTold};

use operate::Operation;
use table::NodeNo;
use words::Literals;

// The lowest member that is not shown, and the rounds of its turn.
#[derive(Clone, Copy)]
pub struct Turned {
    pub member: usize,
    pub rounds: usize,
}

// Whether member i is struck or its turn is shown. Its nodes are dropped.
fn passes(
    vars: &mut [u8],
    lows: &mut [u16],
    highs: &mut [u16],
    heads: &mut [u16],
    links: &mut [u16],
    memo: &mut [u64],
    marks: &mut [u8],
    members: &[u16],
    struck: &[u8],
    first: &[u16],
    firstwords: &[u64],
    second: &mut [u16],
    secondwords: &mut [u64],
    count: usize,
    i: usize,
    witness: Literals,
) -> bool
    requires fact { let before = table_of vars.old lows.old highs.old heads.old links.old count in
        ListReady before first.now memo.old
        × (marks.old ≡ unmarked (length vars.old))
        × (length second.old ≡ length first.now)
        × (length first.now ≤ 2048)
        × (i < length members.now)
        × (i < length struck.now)
        × (get_or members.now i 0 < count) }
    requires fact_2 { let before = table_of vars.old lows.old highs.old heads.old links.old count in
        let ms = diagrams_of (nodes_of before) first.now in
        let one = turn_line witness.positive witness.negative ms (diagram_at (nodes_of before) (get_or members.now i 0)) in
        (length firstwords.now ≡ length first.now)
        × Supports (nodes_of before) first.now firstwords.now
        × (length secondwords.old ≡ length first.now)
        × (eqb (get_or struck.now i 0) 0 ≡ true → (line_reach (size before) (nodes_of before) one).fits ≡ true) }
    ensures fact_3 { let before = table_of vars.old lows.old highs.old heads.old links.old count in
        let after = table_of vars.new lows.new highs.new heads.new links.new count in
        let ms = diagrams_of (nodes_of before) first.now in
        let one = turn_line witness.positive witness.negative ms (diagram_at (nodes_of before) (get_or members.now i 0)) in
        (after ≡ before) × (result ≡ (not (eqb (get_or struck.now i 0) 0) || one.shown)) }
    ensures marks_after { marks.new ≡ unmarked (length vars.old) }
{
    if struck[i] != 0 {
        return true;
    }
    let f = NodeNo(members[i]);
    let t = pr_turn::turn(
        vars,
        lows,
        highs,
        heads,
        links,
        memo,
        marks,
        first,
        firstwords,
        second,
        secondwords,
        count,
        f,
        18446744073709551615,
        witness,
    );
    table::drop_to(vars, lows, highs, heads, links, t.count, count);
    t.shown
}

// The lowest of the first `many` members that is not struck and whose turn is not shown.
fn first_unshown(
    vars: &mut [u8],
    lows: &mut [u16],
    highs: &mut [u16],
    heads: &mut [u16],
    links: &mut [u16],
    memo: &mut [u64],
    marks: &mut [u8],
    members: &[u16],
    struck: &[u8],
    first: &[u16],
    firstwords: &[u64],
    second: &mut [u16],
    secondwords: &mut [u64],
    count: usize,
    many: usize,
    witness: Literals,
) -> usize
    requires fact { let before = table_of vars.old lows.old highs.old heads.old links.old count in
        ListReady before first.now memo.old
        × (marks.old ≡ unmarked (length vars.old))
        × (length second.old ≡ length first.now)
        × (length first.now ≤ 2048)
        × (many ≤ length members.now)
        × (many ≤ length struck.now)
        × Inside count (take many members.now)
        × (many ≤ 2048) }
    requires fact_2 { let before = table_of vars.old lows.old highs.old heads.old links.old count in
        let ms = diagrams_of (nodes_of before) first.now in
        let live = unstruck (take many struck.now) (take many members.now) in
        (length firstwords.now ≡ length first.now)
        × Supports (nodes_of before) first.now firstwords.now
        × (length secondwords.old ≡ length first.now)
        × Unshown before (pr_turns 64 (in_word witness.positive) (in_word witness.negative) ms (diagrams_of (nodes_of before) live)) }
    ensures fact_3 { let before = table_of vars.old lows.old highs.old heads.old links.old count in
        let after = table_of vars.new lows.new highs.new heads.new links.new count in
        let ms = diagrams_of (nodes_of before) first.now in
        (after ≡ before)
        × Lowest before witness.positive witness.negative ms members.now struck.now many result }
    ensures marks_after { marks.new ≡ unmarked (length vars.old) }
{
    let mut i: usize = 0;
    while i < many {
        if !passes(
            vars,
            lows,
            highs,
            heads,
            links,
            memo,
            marks,
            members,
            struck,
            first,
            firstwords,
            second,
            secondwords,
            count,
            i,
            witness,
        ) {
            return i;
        }
        i += 1;
    }
    i
}

// The rounds of the turn of node f, which is not shown, over the members by not-g in `first`. Its nodes are dropped.
fn turn_traced(
    vars: &mut [u8],
    lows: &mut [u16],
    highs: &mut [u16],
    heads: &mut [u16],
    links: &mut [u16],
    memo: &mut [u64],
    first: &[u16],
    firstwords: &[u64],
    second: &mut [u16],
    secondwords: &mut [u64],
    fixed: &mut [u64],
    count: usize,
    f: NodeNo,
    witness: Literals,
) -> usize
    requires fact { let before = table_of vars.old lows.old highs.old heads.old links.old count in
        let ms = diagrams_of (nodes_of before) first.now in
        ListReady before first.now memo.old
        × (length second.old ≡ length first.now)
        × (length first.now ≤ 2048)
        × (f.0 < count)
        × (length firstwords.now ≡ length first.now)
        × Supports (nodes_of before) first.now firstwords.now
        × (length secondwords.old ≡ length first.now)
        × Unshown before (turn_line witness.positive witness.negative ms (diagram_at (nodes_of before) f.0)) }
    requires in_bounds { (128 ≤ length fixed.old) × (fixed.old ≡ zeros (length fixed.old)) }
    ensures { let before = table_of vars.old lows.old highs.old heads.old links.old count in
        let after = table_of vars.new lows.new highs.new heads.new links.new count in
        let ms = diagrams_of (nodes_of before) first.now in
        let h = under_witness witness.positive witness.negative (diagram_at (nodes_of before) f.0) in
        (after ≡ before) × Fixed (by_not h ms) result fixed.new }
{
    memo::clear_memo(memo);
    let h = operate::apply(
        vars,
        lows,
        highs,
        heads,
        links,
        memo,
        count,
        Operation::Literals {
            positive: witness.positive,
            negative: witness.negative,
        },
        f,
        NodeNo(1),
    );
    let t = why::line::trace_by(
        vars,
        lows,
        highs,
        heads,
        links,
        memo,
        first,
        firstwords,
        second,
        secondwords,
        fixed,
        h.count,
        h.node,
        18446744073709551615,
    );
    table::drop_to(vars, lows, highs, heads, links, t.count, count);
    t.rounds
}

// The lowest member that is not shown, and the rounds of its turn, for the PR line of node g over the members in `live`, worked out in
// `first` and `second`. The nodes are dropped.
fn pr_over(
    vars: &mut [u8],
    lows: &mut [u16],
    highs: &mut [u16],
    heads: &mut [u16],
    links: &mut [u16],
    memo: &mut [u64],
    marks: &mut [u8],
    members: &[u16],
    struck: &[u8],
    live: &[u16],
    livewords: &[u64],
    first: &mut [u16],
    firstwords: &mut [u64],
    second: &mut [u16],
    secondwords: &mut [u64],
    fixed: &mut [u64],
    count: usize,
    many: usize,
    g: NodeNo,
    witness: Literals,
) -> Turned
    requires fact { let before = table_of vars.old lows.old highs.old heads.old links.old count in
        Negatable before live.now memo.old g.0
        × (marks.old ≡ unmarked (length vars.old))
        × (length first.old ≡ length live.now)
        × (length second.old ≡ length live.now)
        × (length live.now ≤ 2048)
        × (many ≤ length members.now)
        × (many ≤ length struck.now)
        × Inside count (take many members.now)
        × (many ≤ 2048)
        × (live.now ≡ unstruck (take many struck.now) (take many members.now)) }
    requires fact_2 { let before = table_of vars.old lows.old highs.old heads.old links.old count in
        let ms = diagrams_of (nodes_of before) live.now in
        (length livewords.now ≡ length live.now)
        × Supports (nodes_of before) live.now livewords.now
        × (length firstwords.old ≡ length live.now)
        × (length secondwords.old ≡ length live.now)
        × Unshown before (pr 64 (in_word witness.positive) (in_word witness.negative) ms (diagram_at (nodes_of before) g.0))
        × (128 ≤ length fixed.old)
        × (fixed.old ≡ zeros (length fixed.old)) }
    ensures fact_3 { let before = table_of vars.old lows.old highs.old heads.old links.old count in
        let after = table_of vars.new lows.new highs.new heads.new links.new count in
        let ms = by_not (diagram_at (nodes_of before) g.0) (diagrams_of (nodes_of before) live.now) in
        (after ≡ before)
        × PrTold (nodes_of before) witness.positive witness.negative ms members.now struck.now many result.member
        result.rounds fixed.new }
    ensures marks_after { marks.new ≡ unmarked (length vars.old) }
{
    let made = judge::by_negation(
        vars,
        lows,
        highs,
        heads,
        links,
        memo,
        live,
        livewords,
        first,
        firstwords,
        count,
        g,
        18446744073709551615,
    );
    let i = first_unshown(
        vars,
        lows,
        highs,
        heads,
        links,
        memo,
        marks,
        members,
        struck,
        first,
        firstwords,
        second,
        secondwords,
        made.count,
        many,
        witness,
    );
    let f = NodeNo(members[i]);
    let rounds = turn_traced(
        vars,
        lows,
        highs,
        heads,
        links,
        memo,
        first,
        firstwords,
        second,
        secondwords,
        fixed,
        made.count,
        f,
        witness,
    );
    table::drop_to(vars, lows, highs, heads, links, made.count, count);
    Turned { member: i, rounds }
}

// The same over those of the first `many` members that are not struck, worked out in the scratch list.
pub fn pr_cause(
    vars: &mut [u8],
    lows: &mut [u16],
    highs: &mut [u16],
    heads: &mut [u16],
    links: &mut [u16],
    memo: &mut [u64],
    marks: &mut [u8],
    members: &[u16],
    scratch: &mut [u16],
    struck: &[u8],
    fixed: &mut [u64],
    count: usize,
    many: usize,
    g: NodeNo,
    witness: Literals,
) -> Turned
    requires fact { let before = table_of vars.old lows.old highs.old heads.old links.old count in
        let live = unstruck (take many struck.now) (take many members.now) in
        Negatable before (take many members.now) memo.old g.0
        × (marks.old ≡ unmarked (length vars.old))
        × (many ≤ 2048)
        × (2048 ≤ length members.now)
        × (4096 ≤ length scratch.old)
        × (length struck.now ≡ length members.now)
        × Unshown before
        (pr 64 (in_word witness.positive) (in_word witness.negative) (diagrams_of (nodes_of before) live)
        (diagram_at (nodes_of before) g.0)) }
    requires in_bounds { (128 ≤ length fixed.old) × (fixed.old ≡ zeros (length fixed.old)) }
    ensures fact_2 { let before = table_of vars.old lows.old highs.old heads.old links.old count in
        let after = table_of vars.new lows.new highs.new heads.new links.new count in
        let live = unstruck (take many struck.now) (take many members.now) in
        let ms = by_not (diagram_at (nodes_of before) g.0) (diagrams_of (nodes_of before) live) in
        (after ≡ before)
        × PrTold (nodes_of before) witness.positive witness.negative ms members.now struck.now many result.member
        result.rounds fixed.new }
    ensures marks_after { marks.new ≡ unmarked (length vars.old) }
{
    let mut live = [0u16; 2048];
    let ones = [18446744073709551615u64; 2048];
    let mut firstwords = [0u64; 2048];
    let mut second = [0u16; 2048];
    let mut secondwords = [0u64; 2048];
    let m = steps::strike::live_members(members, struck, many, &mut live);
    pr_over(
        vars,
        lows,
        highs,
        heads,
        links,
        memo,
        marks,
        members,
        struck,
        &live[..m],
        &ones[..m],
        &mut scratch[..m],
        &mut firstwords[..m],
        &mut second[..m],
        &mut secondwords[..m],
        fixed,
        count,
        many,
        g,
        witness,
    )
}
