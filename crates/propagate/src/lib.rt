// Unit propagation over a list of nodes.
#![tactic(auto)]

ghost use Rattle.std.specs.Prelude.{◌≡◌, ◌≤◌, length, false};
ghost use Rattle.std.proofs.Math.Option.{some};
ghost use Rattle.std.specs.Int.Bits.{bit_or};
ghost use Rattle.meaning.specs.Diagram.{Diagram};
ghost use Rattle.meaning.specs.Rules.{first_with_unit, by_units, unit_prop};
ghost use Rattle.table.specs.Indexed.{table_of, nodes_of};
ghost use Rattle.walks.specs.Readable.{ListReady};
ghost use Rattle.supports.specs.Supports.{Supports};
ghost use Rattle.conflict.specs.Members.{Asked};
ghost use Rattle.table.specs.Lists.{diagrams_of};
ghost use Rattle.conflict.specs.Marks.{unmarked};
ghost use Rattle.members.specs.Made.{AllMade, differing};
ghost use Rattle.touched.specs.Places.{AllBut, Untouched};
ghost use Rattle.unit_search.specs.Units.{UnitsTaken, UnitsAsked};
ghost use Rattle.propagate.specs.Rounds.{unit_results, RoundDue, NextIs, Said};

use members::Made;
use operate::Operation;
use table::NodeNo;
use unit_search::FirstUnits;
use words::Literals;

// What a propagation says: `full` where a node found no room, else whether it conflicts, and its rounds; and the count.
#[derive(Clone, Copy)]
pub struct Propagated {
    pub full: bool,
    pub conflict: bool,
    pub rounds: u32,
    pub count: usize,
}

// What comes next in a propagation: its end, or a round by the units of the member at the place.
#[derive(Clone, Copy)]
pub enum Next {
    End(bool),
    By { units: Literals, place: usize },
}

// What comes after so many rounds: `nodes` has the members that may have changed since the last look, which stand at `places`, or `all`
// members. Of the members before `asked` only these may have a unit.
pub fn next_round(
    vars: &[u8],
    lows: &[u16],
    highs: &[u16],
    heads: &[u16],
    links: &[u16],
    memo: &mut [u64],
    marks: &mut [u8],
    list: &[u16],
    places: &[u16],
    nodes: &[u16],
    count: usize,
    asked: usize,
    rounds: u32,
    all: bool,
) -> Next
    requires fact { let before = table_of vars.now lows.now highs.now heads.now links.now count in
        ListReady before list.now memo.old × (marks.old ≡ unmarked (length vars.now)) × (rounds ≤ 64) }
    requires fact_2 { let before = table_of vars.now lows.now highs.now heads.now links.now count in
        Asked (nodes_of before) list.now nodes.now all
        × UnitsAsked (diagrams_of (nodes_of before) list.now) places.now asked }
    ensures fact_3 { let before = table_of vars.now lows.now highs.now heads.now links.now count in
        NextIs (diagrams_of (nodes_of before) list.now) rounds result }
    ensures marks_after { marks.new ≡ unmarked (length vars.now) }
{
    if conflict::conflicts(
        vars, lows, highs, heads, links, memo, marks, list, nodes, count, all,
    ) {
        return Next::End(true);
    }
    if rounds == 64 {
        return Next::End(false);
    }
    match unit_search::first_units(vars, lows, highs, memo, list, places, count, asked) {
        FirstUnits::Of { units: u, place } => Next::By { units: u, place },
        FirstUnits::Nothing => Next::End(false),
    }
}

// What comes first in a propagation: all members are asked.
pub fn first_round(
    vars: &[u8],
    lows: &[u16],
    highs: &[u16],
    heads: &[u16],
    links: &[u16],
    memo: &mut [u64],
    marks: &mut [u8],
    list: &[u16],
    count: usize,
) -> Next
    requires { let before = table_of vars.now lows.now highs.now heads.now links.now count in
        ListReady before list.now memo.old × (marks.old ≡ unmarked (length vars.now)) }
    ensures fact { let before = table_of vars.now lows.now highs.now heads.now links.now count in
        NextIs (diagrams_of (nodes_of before) list.now) 0 result }
    ensures marks_after { marks.new ≡ unmarked (length vars.now) }
{
    next_round(
        vars,
        lows,
        highs,
        heads,
        links,
        memo,
        marks,
        list,
        &list[..0],
        list,
        count,
        0,
        0,
        true,
    )
}

// A round: each listed node is replaced by its cofactor by the units of the first that has any. Only the members at the places are made,
// and of these only those that change are written; tells how many.
fn round(
    vars: &mut [u8],
    lows: &mut [u16],
    highs: &mut [u16],
    heads: &mut [u16],
    links: &mut [u16],
    memo: &mut [u64],
    list: &mut [u16],
    words: &mut [u64],
    places: &[u16],
    count: usize,
    u: Literals,
) -> Made
    requires { let before = table_of vars.old lows.old highs.old heads.old links.old count in
        ListReady before list.old memo.old
        × (length words.old ≡ length list.old)
        × Supports (nodes_of before) list.old words.old
        × UnitsTaken 64 (diagrams_of (nodes_of before) list.old) u
        × AllBut (length list.old) places.now (Untouched words.old (bit_or u.positive u.negative)) }
    ensures fact { let before = table_of vars.old lows.old highs.old heads.old links.old count in
        let after = table_of vars.new lows.new highs.new heads.new links.new result.count in
        AllMade before (unit_results u before list.old) result.full after list.new }
    ensures supports { let after = table_of vars.new lows.new highs.new heads.new links.new result.count in
        result.full ≡ false → Supports (nodes_of after) list.new words.new }
    ensures written_value { let before = table_of vars.old lows.old highs.old heads.old links.old count in
        let members = diagrams_of (nodes_of before) list.old in
        result.full ≡ false → (taken : Diagram) → first_with_unit 64 members ≡ some taken →
        result.written ≡ differing members (by_units 64 taken members) }
{
    let op = Operation::Literals {
        positive: u.positive,
        negative: u.negative,
    };
    // Node 1 has no variables that a member could gain.
    members::all_by(
        vars,
        lows,
        highs,
        heads,
        links,
        memo,
        list,
        words,
        places,
        count,
        op,
        NodeNo(1),
        0,
        u.positive | u.negative,
    )
}

// The rounds of a propagation from the first on, which is due by the units of the member at the place.
pub fn rounds_by(
    vars: &mut [u8],
    lows: &mut [u16],
    highs: &mut [u16],
    heads: &mut [u16],
    links: &mut [u16],
    memo: &mut [u64],
    marks: &mut [u8],
    list: &mut [u16],
    words: &mut [u64],
    count: usize,
    units: Literals,
    place: usize,
) -> Propagated
    requires fact { let before = table_of vars.old lows.old highs.old heads.old links.old count in
        ListReady before list.old memo.old × (marks.old ≡ unmarked (length vars.old)) × (length list.old ≤ 2048) }
    requires fact_2 { let before = table_of vars.old lows.old highs.old heads.old links.old count in
        (length words.old ≡ length list.old)
        × Supports (nodes_of before) list.old words.old
        × RoundDue (diagrams_of (nodes_of before) list.old) 0 units place }
    ensures fact_3 { let before = table_of vars.old lows.old highs.old heads.old links.old count in
        let after = table_of vars.new lows.new highs.new heads.new links.new result.count in
        Said before (unit_prop 64 (diagrams_of (nodes_of before) list.old)) result after }
    ensures marks_after { marks.new ≡ unmarked (length vars.old) }
{
    let mut places = [0u16; 2048];
    let mut nodes = [0u16; 2048];
    let mut n = count;
    let mut rounds: u32 = 0;
    let mut u = units;
    let mut asked = place;
    loop {
        let many = touched::touched_places(words, u.positive | u.negative, &mut places);
        let made = round(
            vars,
            lows,
            highs,
            heads,
            links,
            memo,
            list,
            words,
            &places[..many],
            n,
            u,
        );
        n = made.count;
        if made.full {
            return Propagated {
                full: true,
                conflict: false,
                rounds,
                count: n,
            };
        }
        rounds += 1;
        touched::nodes_at(list, &places[..many], &mut nodes);
        match next_round(
            vars,
            lows,
            highs,
            heads,
            links,
            memo,
            marks,
            list,
            &places[..many],
            &nodes[..many],
            n,
            asked,
            rounds,
            false,
        ) {
            Next::End(conflict) => {
                return Propagated {
                    full: false,
                    conflict,
                    rounds,
                    count: n,
                };
            }
            Next::By { units: v, place: p } => {
                u = v;
                asked = p;
            }
        }
    }
}

// UnitProp of the listed nodes: round by round all are replaced by their cofactors by the units of the first that has any. The words
// have the listed nodes' variables.
pub fn unit_prop(
    vars: &mut [u8],
    lows: &mut [u16],
    highs: &mut [u16],
    heads: &mut [u16],
    links: &mut [u16],
    memo: &mut [u64],
    marks: &mut [u8],
    list: &mut [u16],
    words: &mut [u64],
    count: usize,
) -> Propagated
    requires fact { let before = table_of vars.old lows.old highs.old heads.old links.old count in
        ListReady before list.old memo.old × (marks.old ≡ unmarked (length vars.old)) × (length list.old ≤ 2048) }
    requires fact_2 { let before = table_of vars.old lows.old highs.old heads.old links.old count in
        (length words.old ≡ length list.old) × Supports (nodes_of before) list.old words.old }
    ensures fact_3 { let before = table_of vars.old lows.old highs.old heads.old links.old count in
        let after = table_of vars.new lows.new highs.new heads.new links.new result.count in
        Said before (unit_prop 64 (diagrams_of (nodes_of before) list.old)) result after }
    ensures marks_after { marks.new ≡ unmarked (length vars.old) }
{
    match first_round(vars, lows, highs, heads, links, memo, marks, list, count) {
        Next::End(conflict) => Propagated {
            full: false,
            conflict,
            rounds: 0,
            count,
        },
        Next::By { units: u, place } => rounds_by(
            vars, lows, highs, heads, links, memo, marks, list, words, count, u, place,
        ),
    }
}
