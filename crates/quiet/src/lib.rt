// Lists that have most members of one that was looked at before: where no member of that one is 0 or another's negation, only those that
// differ are asked.
#![tactic(auto)]

ghost use Rattle.std.specs.Prelude.{◌≡◌, ◌≤◌, length, take};
ghost use Rattle.meaning.specs.Rules.{unit_prop};
ghost use Rattle.table.specs.Indexed.{table_of, nodes_of};
ghost use Rattle.table.specs.Lists.{diagrams_of};
ghost use Rattle.walks.specs.Readable.{ListReady};
ghost use Rattle.touched.specs.Places.{AllBut};
ghost use Rattle.supports.specs.Supports.{Supports};
ghost use Rattle.conflict.specs.Marks.{unmarked};
ghost use Rattle.propagate.specs.Rounds.{NextIs, Said};
ghost use Rattle.quiet.specs.Quiet.{SameAt, LookSays};

use propagate::{Next, Propagated};
use unit_search::FirstUnits;

// What one look at a list tells: whether it is quiet, so that no member is 0 or another's negation; and then how many members in front
// have no unit.
#[derive(Clone, Copy)]
pub struct Looked {
    pub quiet: bool,
    pub unitless: usize,
}

// Looks at all members of a list.
pub fn look(
    vars: &[u8],
    lows: &[u16],
    highs: &[u16],
    heads: &[u16],
    links: &[u16],
    memo: &mut [u64],
    marks: &mut [u8],
    list: &[u16],
    count: usize,
) -> Looked
    requires { let before = table_of vars.now lows.now highs.now heads.now links.now count in
        ListReady before list.now memo.old × (marks.old ≡ unmarked (length vars.now)) }
    ensures fact { let before = table_of vars.now lows.now highs.now heads.now links.now count in
        LookSays (diagrams_of (nodes_of before) list.now) result }
    ensures marks_after { marks.new ≡ unmarked (length vars.now) }
{
    if conflict::conflicts(
        vars, lows, highs, heads, links, memo, marks, list, list, count, true,
    ) {
        return Looked {
            quiet: false,
            unitless: 0,
        };
    }
    match unit_search::first_units(vars, lows, highs, memo, list, &list[..0], count, 0) {
        FirstUnits::Of { units: _, place } => Looked {
            quiet: true,
            unitless: place,
        },
        FirstUnits::Nothing => Looked {
            quiet: true,
            unitless: list.len(),
        },
    }
}

// The places at which two lists of one length differ, at the front of `places`; and how many they are.
fn changed_places(known: &[u16], list: &[u16], places: &mut [u16]) -> usize
    requires { (length list.now ≡ length known.now)
        × (length known.now ≤ length places.old)
        × (length known.now ≤ 65536) }
    ensures { (result ≤ length known.now)
        × AllBut (length known.now) (take result places.new) (SameAt known.now list.now) }
{
    let mut i: usize = 0;
    let mut count: usize = 0;
    while i < known.len() {
        if list[i] != known[i] {
            places[count] = i as u16;
            count += 1;
        }
        i += 1;
    }
    count
}

// What comes first in the propagation of a list, where one of the same length was looked at. If that is quiet, only members that differ
// from it are asked for a conflict, and of those in front that had no unit only these for units.
fn first_look(
    vars: &[u8],
    lows: &[u16],
    highs: &[u16],
    heads: &[u16],
    links: &[u16],
    memo: &mut [u64],
    marks: &mut [u8],
    known: &[u16],
    list: &[u16],
    count: usize,
    looked: Looked,
) -> Next
    requires fact { let before = table_of vars.now lows.now highs.now heads.now links.now count in
        ListReady before list.now memo.old × (marks.old ≡ unmarked (length vars.now)) × (length list.now ≤ 2048) }
    requires fact_2 { let before = table_of vars.now lows.now highs.now heads.now links.now count in
        (length list.now ≡ length known.now) × LookSays (diagrams_of (nodes_of before) known.now) looked }
    ensures fact_3 { let before = table_of vars.now lows.now highs.now heads.now links.now count in
        NextIs (diagrams_of (nodes_of before) list.now) 0 result }
    ensures marks_after { marks.new ≡ unmarked (length vars.now) }
{
    if !looked.quiet {
        return propagate::first_round(vars, lows, highs, heads, links, memo, marks, list, count);
    }
    if conflict::has_zero(list) {
        return Next::End(true);
    }
    let mut places = [0u16; 2048];
    let mut nodes = [0u16; 2048];
    let many = changed_places(known, list, &mut places);
    touched::nodes_at(list, &places[..many], &mut nodes);
    propagate::next_round(
        vars,
        lows,
        highs,
        heads,
        links,
        memo,
        marks,
        list,
        &places[..many],
        &nodes[..many],
        count,
        looked.unitless,
        0,
        false,
    )
}

// UnitProp of the listed nodes, as `propagate::unit_prop` has it, where a list of the same length was looked at.
pub fn unit_prop_known(
    vars: &mut [u8],
    lows: &mut [u16],
    highs: &mut [u16],
    heads: &mut [u16],
    links: &mut [u16],
    memo: &mut [u64],
    marks: &mut [u8],
    known: &[u16],
    list: &mut [u16],
    words: &mut [u64],
    count: usize,
    looked: Looked,
) -> Propagated
    requires fact { let before = table_of vars.old lows.old highs.old heads.old links.old count in
        ListReady before list.old memo.old × (marks.old ≡ unmarked (length vars.old)) × (length list.old ≤ 2048) }
    requires fact_2 { let before = table_of vars.old lows.old highs.old heads.old links.old count in
        (length words.old ≡ length list.old)
        × Supports (nodes_of before) list.old words.old
        × (length list.old ≡ length known.now)
        × LookSays (diagrams_of (nodes_of before) known.now) looked }
    ensures fact_3 { let before = table_of vars.old lows.old highs.old heads.old links.old count in
        let after = table_of vars.new lows.new highs.new heads.new links.new result.count in
        Said before (unit_prop 64 (diagrams_of (nodes_of before) list.old)) result after }
    ensures marks_after { marks.new ≡ unmarked (length vars.old) }
{
    match first_look(
        vars, lows, highs, heads, links, memo, marks, known, list, count, looked,
    ) {
        Next::End(conflict) => Propagated {
            full: false,
            conflict,
            rounds: 0,
            count,
        },
        Next::By { units: u, place } => propagate::rounds_by(
            vars, lows, highs, heads, links, memo, marks, list, words, count, u, place,
        ),
    }
}
