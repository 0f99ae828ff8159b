// A RUP line: the members by not-g, propagated.
ghost use Rattle.std.specs.Prelude.{◌≡◌, false, ◌≤◌, length};
ghost use Rattle.meaning.specs.Rules.{rup};
ghost use Rattle.table.specs.Nodes.{diagram_at};
ghost use Rattle.table.specs.Indexed.{table_of, nodes_of};
ghost use Rattle.table.specs.Lists.{diagrams_of};
ghost use Rattle.conflict.specs.Marks.{unmarked};
ghost use Rattle.quiet.specs.Quiet.{LookSays};
ghost use Rattle.judge.specs.Lines.{Negatable, Worded, LineSays};

use quiet::Looked;
use table::NodeNo;

// The RUP line of node `root`, worked out in `list`, where `memberwords` has the members' variables and `word` those of the root, and the
// members were `looked` at. Its nodes stay.
pub fn rup_with(
    vars: &mut [u8],
    lows: &mut [u16],
    highs: &mut [u16],
    heads: &mut [u16],
    links: &mut [u16],
    memo: &mut [u64],
    marks: &mut [u8],
    members: &[u16],
    memberwords: &[u64],
    list: &mut [u16],
    words: &mut [u64],
    count: usize,
    root: NodeNo,
    word: u64,
    looked: Looked,
) -> crate::Judged
    requires fact { let before = table_of vars.old lows.old highs.old heads.old links.old count in
        Negatable before members.now memo.old root.0
        × (marks.old ≡ unmarked (length vars.old))
        × (length list.old ≡ length members.now)
        × (length members.now ≤ 2048) }
    requires fact_2 { let before = table_of vars.old lows.old highs.old heads.old links.old count in
        Worded before members.now memberwords.now root.0 word
        × (length words.old ≡ length members.now)
        × LookSays (diagrams_of (nodes_of before) members.now) looked }
    ensures fact_3 { let before = table_of vars.old lows.old highs.old heads.old links.old count in
        let after = table_of vars.new lows.new highs.new heads.new links.new result.count in
        LineSays before (rup 64 (diagrams_of (nodes_of before) members.now) (diagram_at (nodes_of before) root.0)) 64 result after }
    ensures marks_after { marks.new ≡ unmarked (length vars.old) }
{
    let made = crate::by_negation(
        vars,
        lows,
        highs,
        heads,
        links,
        memo,
        members,
        memberwords,
        list,
        words,
        count,
        root,
        word,
    );
    if made.full {
        return crate::Judged {
            full: true,
            shown: false,
            rounds: 0,
            count: made.count,
            peak: made.count,
        };
    }
    let p = quiet::unit_prop_known(
        vars, lows, highs, heads, links, memo, marks, members, list, words, made.count, looked,
    );
    crate::Judged {
        full: p.full,
        shown: p.conflict,
        rounds: p.rounds as u64,
        count: p.count,
        peak: p.count,
    }
}

// The RUP line of node `root`, worked out in `list`, with words to work in for the members and for the list. Its nodes stay.
pub fn rup(
    vars: &mut [u8],
    lows: &mut [u16],
    highs: &mut [u16],
    heads: &mut [u16],
    links: &mut [u16],
    memo: &mut [u64],
    marks: &mut [u8],
    members: &[u16],
    memberwords: &mut [u64],
    list: &mut [u16],
    words: &mut [u64],
    count: usize,
    root: NodeNo,
) -> crate::Judged
    requires fact { let before = table_of vars.old lows.old highs.old heads.old links.old count in
        Negatable before members.now memo.old root.0
        × (marks.old ≡ unmarked (length vars.old))
        × (length list.old ≡ length members.now)
        × (length members.now ≤ 2048) }
    requires memberwords_len { (length memberwords.old ≡ length members.now) × (length words.old ≡ length members.now) }
    ensures fact_2 { let before = table_of vars.old lows.old highs.old heads.old links.old count in
        let after = table_of vars.new lows.new highs.new heads.new links.new result.count in
        LineSays before (rup 64 (diagrams_of (nodes_of before) members.now) (diagram_at (nodes_of before) root.0)) 64 result after }
    ensures marks_after { marks.new ≡ unmarked (length vars.old) }
{
    supports::supports_of(vars, lows, highs, memo, members, memberwords, count);
    let word = supports::support_from(vars, lows, highs, memo, count, root);
    rup_with(
        vars,
        lows,
        highs,
        heads,
        links,
        memo,
        marks,
        members,
        memberwords,
        list,
        words,
        count,
        root,
        word,
        Looked {
            quiet: false,
            unitless: 0,
        },
    )
}
