// The first listed node that has units, where some are known to have none.
#![tactic(auto)]

ghost use Rattle.walks.specs.Readable.{Readable, Roomy, nodes_in};
ghost use Rattle.table.specs.Lists.{diagrams_of, Inside};
ghost use Rattle.touched.specs.Places.{Rising};
ghost use Rattle.unit_search.specs.Units.{AreFirst, FirstAtTop, UnitlessTo, UnitsAsked, Behind, Skips};

use table::NodeNo;
use units::AtTop;
use words::Literals;

// The units by which a round cofactors and the place of the first member that has any, if there is one.
#[derive(Clone, Copy)]
pub enum FirstUnits {
    Of { units: Literals, place: usize },
    Nothing,
}

// The next place to ask, from `from` on, which is behind the first k of the places: the next of these while it is before `asked`, then each
// from `asked` on.
fn next_asked(places: &[u16], asked: usize, k: usize, from: usize) -> usize
    requires { Rising places.now × Behind places.now asked k from }
    ensures { Skips places.now asked k from result }
{
    if asked <= from {
        return from;
    }
    if k < places.len() {
        let place = places[k] as usize;
        if place < asked {
            return place;
        }
    }
    asked
}

// What top nodes alone tell of the first units: the units and the place of the first member that has any; or up to where there are none,
// and how many of the places are before that.
#[derive(Clone, Copy)]
enum TopUnits {
    Told { units: Literals, place: usize },
    UpTo { place: usize, k: usize },
}

// The units of the first listed node that has any, or the place of the first that has to be walked for them; the other arguments are those
// of `first_units`.
fn first_at_top(
    vars: &[u8],
    lows: &[u16],
    highs: &[u16],
    list: &[u16],
    places: &[u16],
    count: usize,
    asked: usize,
) -> TopUnits
    requires readable { Readable vars.now lows.now highs.now count × Inside count list.now }
    requires fact { let nodes = nodes_in vars.now lows.now highs.now count in
        UnitsAsked (diagrams_of nodes list.now) places.now asked }
    ensures { let nodes = nodes_in vars.now lows.now highs.now count in
        FirstAtTop (diagrams_of nodes list.now) places.now asked result }
{
    let mut k: usize = 0;
    let mut place = next_asked(places, asked, 0, 0);
    while place < list.len() {
        let member = NodeNo(list[place]);
        match units::units_at_top(vars, lows, highs, count, member) {
            AtTop::Unknown => {
                return TopUnits::UpTo { place, k };
            }
            AtTop::Known(u) => {
                if u.positive != 0 || u.negative != 0 {
                    return TopUnits::Told { units: u, place };
                }
            }
        }
        k += 1;
        place = next_asked(places, asked, k, place + 1);
    }
    TopUnits::UpTo { place, k }
}

// The same by walks, from a place before which none has a unit, so many of the places being passed. Clears the memo.
fn first_by_walks(
    vars: &[u8],
    lows: &[u16],
    highs: &[u16],
    memo: &mut [u64],
    list: &[u16],
    places: &[u16],
    count: usize,
    asked: usize,
    from: usize,
    passed: usize,
) -> FirstUnits
    requires readable { Readable vars.now lows.now highs.now count × Inside count list.now × Roomy vars.now memo.old }
    requires fact { let nodes = nodes_in vars.now lows.now highs.now count in
        UnitsAsked (diagrams_of nodes list.now) places.now asked
        × UnitlessTo (diagrams_of nodes list.now) places.now asked from passed }
    ensures { let nodes = nodes_in vars.now lows.now highs.now count in
        AreFirst 64 (diagrams_of nodes list.now) result }
{
    walks::clear_cells(memo, count);
    let mut k = passed;
    let mut place = from;
    while place < list.len() {
        let member = NodeNo(list[place]);
        let stamp = (place + 1) as u64;
        let u = units::units_from(vars, lows, highs, memo, count, member, stamp);
        if u.positive != 0 || u.negative != 0 {
            return FirstUnits::Of { units: u, place };
        }
        k += 1;
        place = next_asked(places, asked, k, place + 1);
    }
    FirstUnits::Nothing
}

// The units of the first listed node that has any, where of those before `asked` only such as stand at the places may have one. Walks,
// and clears the memo, only from the first whose top node does not tell its units.
pub fn first_units(
    vars: &[u8],
    lows: &[u16],
    highs: &[u16],
    memo: &mut [u64],
    list: &[u16],
    places: &[u16],
    count: usize,
    asked: usize,
) -> FirstUnits
    requires readable { Readable vars.now lows.now highs.now count × Inside count list.now × Roomy vars.now memo.old }
    requires fact { let nodes = nodes_in vars.now lows.now highs.now count in
        UnitsAsked (diagrams_of nodes list.now) places.now asked }
    ensures { let nodes = nodes_in vars.now lows.now highs.now count in
        AreFirst 64 (diagrams_of nodes list.now) result }
{
    match first_at_top(vars, lows, highs, list, places, count, asked) {
        TopUnits::Told { units: u, place } => FirstUnits::Of { units: u, place },
        TopUnits::UpTo { place, k } => {
            if list.len() <= place {
                return FirstUnits::Nothing;
            }
            first_by_walks(
                vars, lows, highs, memo, list, places, count, asked, place, k,
            )
        }
    }
}
