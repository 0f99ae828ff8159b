// A PR line: the members by not-g, and then each member's turn over them.
#![tactic(auto)]

ghost use Rattle.std.specs.Prelude.{◌≡◌, ◌*◌, ◌≤◌, length};
ghost use Rattle.meaning.specs.Rules.{pr_turns, pr};
ghost use Rattle.meaning.specs.Words.{in_word};
ghost use Rattle.table.specs.Nodes.{diagram_at};
ghost use Rattle.table.specs.Indexed.{table_of, nodes_of};
ghost use Rattle.walks.specs.Readable.{ListReady};
ghost use Rattle.table.specs.Lists.{diagrams_of, Inside};
ghost use Rattle.conflict.specs.Marks.{unmarked};
ghost use Rattle.quiet.specs.Quiet.{LookSays};
ghost use Rattle.supports.specs.Supports.{Supports};
ghost use Rattle.judge.specs.Lines.{Negatable, LineSays};

use quiet::Looked;
use table::NodeNo;
use words::Literals;

// The turns of all members, by place, where the members by not-g were `looked` at, up to one that is `full` or does not conflict. The
// nodes of each are dropped before the next. A member whose node had its turn has the same rounds and reaches no more, so its turn is not
// worked out again.
fn turns(
    vars: &mut [u8],
    lows: &mut [u16],
    highs: &mut [u16],
    heads: &mut [u16],
    links: &mut [u16],
    memo: &mut [u64],
    marks: &mut [u8],
    members: &[u16],
    memberwords: &[u64],
    first: &[u16],
    firstwords: &[u64],
    second: &mut [u16],
    secondwords: &mut [u64],
    count: usize,
    witness: Literals,
    looked: Looked,
) -> judge::Judged
    requires fact { let before = table_of vars.old lows.old highs.old heads.old links.old count in
        ListReady before first.now memo.old
        × (marks.old ≡ unmarked (length vars.old))
        × (length second.old ≡ length first.now)
        × Inside count members.now
        × (length members.now ≤ 2048)
        × (length first.now ≤ 2048) }
    requires fact_2 { let before = table_of vars.old lows.old highs.old heads.old links.old count in
        (length memberwords.now ≡ length members.now)
        × Supports (nodes_of before) members.now memberwords.now
        × (length firstwords.now ≡ length first.now)
        × Supports (nodes_of before) first.now firstwords.now
        × (length secondwords.old ≡ length first.now)
        × LookSays (diagrams_of (nodes_of before) first.now) looked }
    ensures fact_3 { let before = table_of vars.old lows.old highs.old heads.old links.old count in
        let after = table_of vars.new lows.new highs.new heads.new links.new result.count in
        LineSays before
        (pr_turns 64 (in_word witness.positive) (in_word witness.negative) (diagrams_of (nodes_of before) first.now)
        (diagrams_of (nodes_of before) members.now))
        (64 * length members.now) result after }
    ensures marks_after { marks.new ≡ unmarked (length vars.old) }
{
    let mut rounds: u64 = 0;
    let mut peak: usize = count;
    let mut judged = [0u32; 4096];
    let mut i: usize = 0;
    while i < members.len() {
        let f = NodeNo(members[i]);
        let t = pr_turn::turn_known(
            vars,
            lows,
            highs,
            heads,
            links,
            memo,
            marks,
            first,
            firstwords,
            second,
            secondwords,
            count,
            f,
            memberwords[i],
            witness,
            looked,
        );
        peak = table::greater(peak, t.peak);
        if t.full {
            return judge::Judged {
                full: true,
                shown: false,
                rounds: 0,
                count: t.count,
                peak,
            };
        }
        table::drop_to(vars, lows, highs, heads, links, t.count, count);
        rounds += t.rounds;
        if !t.shown {
            return judge::Judged {
                full: false,
                shown: false,
                rounds,
                count,
                peak,
            };
        }
        turn_memo::store(&mut judged, f, t.rounds);
        let next = turn_memo::pass_stored(members, &judged, i + 1, rounds);
        rounds = next.rounds;
        i = next.place;
    }
    judge::Judged {
        full: false,
        shown: true,
        rounds,
        count,
        peak,
    }
}

// The PR line of node `root` with the witness, worked out in `first` and `second`, with words to
// work in for the members and for each of the two. Of its nodes those of not-g and of
// the members by not-g stay; where it is `full`, those of the turn that found no room too.
pub fn pr(
    vars: &mut [u8],
    lows: &mut [u16],
    highs: &mut [u16],
    heads: &mut [u16],
    links: &mut [u16],
    memo: &mut [u64],
    marks: &mut [u8],
    members: &[u16],
    memberwords: &mut [u64],
    first: &mut [u16],
    firstwords: &mut [u64],
    second: &mut [u16],
    secondwords: &mut [u64],
    count: usize,
    root: NodeNo,
    witness: Literals,
) -> judge::Judged
    requires fact { let before = table_of vars.old lows.old highs.old heads.old links.old count in
        Negatable before members.now memo.old root.0
        × (marks.old ≡ unmarked (length vars.old))
        × (length first.old ≡ length members.now)
        × (length second.old ≡ length members.now)
        × (length members.now ≤ 2048) }
    requires memberwords_len { (length memberwords.old ≡ length members.now)
        × (length firstwords.old ≡ length members.now)
        × (length secondwords.old ≡ length members.now) }
    ensures fact_2 { let before = table_of vars.old lows.old highs.old heads.old links.old count in
        let after = table_of vars.new lows.new highs.new heads.new links.new result.count in
        LineSays before
        (pr 64 (in_word witness.positive) (in_word witness.negative) (diagrams_of (nodes_of before) members.now)
        (diagram_at (nodes_of before) root.0))
        (64 * length members.now) result after }
    ensures marks_after { marks.new ≡ unmarked (length vars.old) }
{
    supports::supports_of(vars, lows, highs, memo, members, memberwords, count);
    let word = supports::support_from(vars, lows, highs, memo, count, root);
    let made = judge::by_negation(
        vars,
        lows,
        highs,
        heads,
        links,
        memo,
        members,
        memberwords,
        first,
        firstwords,
        count,
        root,
        word,
    );
    if made.full {
        return judge::Judged {
            full: true,
            shown: false,
            rounds: 0,
            count: made.count,
            peak: made.count,
        };
    }
    supports::supports_of(vars, lows, highs, memo, first, firstwords, made.count);
    let looked = quiet::look(
        vars, lows, highs, heads, links, memo, marks, first, made.count,
    );
    turns(
        vars,
        lows,
        highs,
        heads,
        links,
        memo,
        marks,
        members,
        memberwords,
        first,
        firstwords,
        second,
        secondwords,
        made.count,
        witness,
        looked,
    )
}
