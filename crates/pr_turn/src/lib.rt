// One member's turn of a PR line.
#![tactic(auto)]

ghost use Rattle.std.specs.Prelude.{◌≡◌, [], ◌∷◌, ◌≤◌, ◌<◌, length};
ghost use Rattle.meaning.specs.Rules.{pr_turns};
ghost use Rattle.meaning.specs.Words.{in_word};
ghost use Rattle.table.specs.Nodes.{diagram_at};
ghost use Rattle.table.specs.Indexed.{table_of, nodes_of};
ghost use Rattle.walks.specs.Readable.{ListReady};
ghost use Rattle.table.specs.Lists.{diagrams_of};
ghost use Rattle.conflict.specs.Marks.{unmarked};
ghost use Rattle.quiet.specs.Quiet.{LookSays};
ghost use Rattle.judge.specs.Lines.{Worded, LineSays};

use operate::Operation;
use quiet::Looked;
use table::NodeNo;
use words::Literals;

// A member's turn of a PR line, worked out in `second`, where `first` has the members by not-g, which were `looked` at, `firstwords` their
// variables and `word` the member's own. Its nodes stay.
pub fn turn_known(
    vars: &mut [u8],
    lows: &mut [u16],
    highs: &mut [u16],
    heads: &mut [u16],
    links: &mut [u16],
    memo: &mut [u64],
    marks: &mut [u8],
    first: &[u16],
    firstwords: &[u64],
    second: &mut [u16],
    secondwords: &mut [u64],
    count: usize,
    f: NodeNo,
    word: u64,
    witness: Literals,
    looked: Looked,
) -> judge::Judged
    requires fact { let before = table_of vars.old lows.old highs.old heads.old links.old count in
        ListReady before first.now memo.old
        × (marks.old ≡ unmarked (length vars.old))
        × (length second.old ≡ length first.now)
        × (f.0 < count)
        × (length first.now ≤ 2048) }
    requires fact_2 { let before = table_of vars.old lows.old highs.old heads.old links.old count in
        Worded before first.now firstwords.now f.0 word
        × (length secondwords.old ≡ length first.now)
        × LookSays (diagrams_of (nodes_of before) first.now) looked }
    ensures fact_3 { let before = table_of vars.old lows.old highs.old heads.old links.old count in
        let after = table_of vars.new lows.new highs.new heads.new links.new result.count in
        LineSays before
        (pr_turns 64 (in_word witness.positive) (in_word witness.negative) (diagrams_of (nodes_of before) first.now)
        (diagram_at (nodes_of before) f.0 ∷ []))
        64 result after }
    ensures marks_after { marks.new ≡ unmarked (length vars.old) }
{
    if walks::is_one(vars, lows, highs, memo, count, f, witness) {
        return judge::Judged {
            full: false,
            shown: true,
            rounds: 0,
            count,
            peak: count,
        };
    }
    memo::clear_memo(memo);
    let h = operate::apply(
        vars,
        lows,
        highs,
        heads,
        links,
        memo,
        count,
        Operation::Literals {
            positive: witness.positive,
            negative: witness.negative,
        },
        f,
        NodeNo(1),
    );
    if h.full {
        return judge::Judged {
            full: true,
            shown: false,
            rounds: 0,
            count: h.count,
            peak: h.count,
        };
    }
    judge::rup::rup_with(
        vars,
        lows,
        highs,
        heads,
        links,
        memo,
        marks,
        first,
        firstwords,
        second,
        secondwords,
        h.count,
        h.node,
        word,
        looked,
    )
}

// The same where the members by not-g were not looked at.
pub fn turn(
    vars: &mut [u8],
    lows: &mut [u16],
    highs: &mut [u16],
    heads: &mut [u16],
    links: &mut [u16],
    memo: &mut [u64],
    marks: &mut [u8],
    first: &[u16],
    firstwords: &[u64],
    second: &mut [u16],
    secondwords: &mut [u64],
    count: usize,
    f: NodeNo,
    word: u64,
    witness: Literals,
) -> judge::Judged
    requires fact { let before = table_of vars.old lows.old highs.old heads.old links.old count in
        ListReady before first.now memo.old
        × (marks.old ≡ unmarked (length vars.old))
        × (length second.old ≡ length first.now)
        × (f.0 < count)
        × (length first.now ≤ 2048) }
    requires fact_2 { let before = table_of vars.old lows.old highs.old heads.old links.old count in
        Worded before first.now firstwords.now f.0 word × (length secondwords.old ≡ length first.now) }
    ensures fact_3 { let before = table_of vars.old lows.old highs.old heads.old links.old count in
        let after = table_of vars.new lows.new highs.new heads.new links.new result.count in
        LineSays before
        (pr_turns 64 (in_word witness.positive) (in_word witness.negative) (diagrams_of (nodes_of before) first.now)
        (diagram_at (nodes_of before) f.0 ∷ []))
        64 result after }
    ensures marks_after { marks.new ≡ unmarked (length vars.old) }
{
    turn_known(
        vars,
        lows,
        highs,
        heads,
        links,
        memo,
        marks,
        first,
        firstwords,
        second,
        secondwords,
        count,
        f,
        word,
        witness,
        Looked {
            quiet: false,
            unitless: 0,
        },
    )
}
