// A propagation that does not conflict, done once more for the literals that each of its rounds fixes. (02, 8/14)
#![tactic(auto)]

ghost use Rattle.std.specs.Prelude.{◌≡◌, false, ◌+◌, ◌*◌, ◌^◌, ◌≤◌, ◌<◌, length, set};
ghost use Rattle.meaning.specs.Rules.{unit_prop};
ghost use Rattle.table.specs.Indexed.{table_of, nodes_of};
ghost use Rattle.table.specs.Lists.{diagrams_of, Inside};
ghost use Rattle.walks.specs.Readable.{nodes_in, Readable, Roomy, ListReady};
ghost use Rattle.supports.specs.Supports.{Supports};
ghost use Rattle.members.specs.Made.{AllMade};
ghost use Rattle.unit_search.specs.Units.{UnitsTaken, AreFirst};
ghost use Rattle.propagate.specs.Rounds.{unit_results};
ghost use Rattle.verdict.specs.Check.{zeros};
ghost use Rattle.traces.specs.Traced.{TraceSays};

use members::Made;
use operate::Operation;
use table::NodeNo;
use unit_search::FirstUnits;
use words::Literals;

// `full` where a node found no room, else the rounds; and the count.
#[derive(Clone, Copy)]
pub struct Traced {
    pub full: bool,
    pub rounds: usize,
    pub count: usize,
}

// A round: each listed node is replaced by its cofactor by the units of the first that has any.
fn round(
    vars: &mut [u8],
    lows: &mut [u16],
    highs: &mut [u16],
    heads: &mut [u16],
    links: &mut [u16],
    memo: &mut [u64],
    list: &mut [u16],
    words: &mut [u64],
    count: usize,
    u: Literals,
) -> Made
    requires { let before = table_of vars.old lows.old highs.old heads.old links.old count in
        ListReady before list.old memo.old
        × (length words.old ≡ length list.old)
        × Supports (nodes_of before) list.old words.old
        × UnitsTaken 64 (diagrams_of (nodes_of before) list.old) u
        × (length list.old ≤ 2048) }
    ensures fact { let before = table_of vars.old lows.old highs.old heads.old links.old count in
        let after = table_of vars.new lows.new highs.new heads.new links.new result.count in
        AllMade before (unit_results u before list.old) result.full after list.new }
    ensures supports { let after = table_of vars.new lows.new highs.new heads.new links.new result.count in
        result.full ≡ false → Supports (nodes_of after) list.new words.new }
{
    let mut places = [0u16; 2048];
    let touching = u.positive | u.negative;
    let many = touched::touched_places(words, touching, &mut places);
    members::all_by(
        vars,
        lows,
        highs,
        heads,
        links,
        memo,
        list,
        words,
        &places[..many],
        count,
        Operation::Literals {
            positive: u.positive,
            negative: u.negative,
        },
        NodeNo(1),
        0,
        touching,
    )
}

// Writes the words of a round.
fn note(fixed: &mut [u64], rounds: usize, u: Literals)
    requires { (rounds < 64) × (128 ≤ length fixed.old) }
    ensures fixed_after { fixed.new ≡ set (set fixed.old (2 * rounds) u.positive) (2 * rounds + 1) u.negative }
    ensures positive_bound { (u.positive < 2 ^ 64) × (u.negative < 2 ^ 64) }
{
    let i = 2 * rounds;
    fixed[i] = u.positive;
    fixed[i + 1] = u.negative;
}

// The units of the first listed node that has any.
fn first_of(
    vars: &[u8],
    lows: &[u16],
    highs: &[u16],
    memo: &mut [u64],
    list: &[u16],
    count: usize,
) -> FirstUnits
    requires { Readable vars.now lows.now highs.now count × Inside count list.now × Roomy vars.now memo.old }
    ensures { let nodes = nodes_in vars.now lows.now highs.now count in
        AreFirst 64 (diagrams_of nodes list.now) result }
{
    unit_search::first_units(vars, lows, highs, memo, list, &list[..0], count, 0)
}

// UnitProp of the listed nodes, which does not conflict. `fixed` gets two words a round: the variables that it fixes true, and those that
// it fixes false. The words have the listed nodes' variables.
pub fn trace(
    vars: &mut [u8],
    lows: &mut [u16],
    highs: &mut [u16],
    heads: &mut [u16],
    links: &mut [u16],
    memo: &mut [u64],
    list: &mut [u16],
    words: &mut [u64],
    fixed: &mut [u64],
    count: usize,
) -> Traced
    requires fact { let before = table_of vars.old lows.old highs.old heads.old links.old count in
        ListReady before list.old memo.old
        × (length words.old ≡ length list.old)
        × Supports (nodes_of before) list.old words.old
        × (length list.old ≤ 2048)
        × ((unit_prop 64 (diagrams_of (nodes_of before) list.old)).conflict ≡ false) }
    requires in_bounds { (128 ≤ length fixed.old) × (fixed.old ≡ zeros (length fixed.old)) }
    ensures { let before = table_of vars.old lows.old highs.old heads.old links.old count in
        let after = table_of vars.new lows.new highs.new heads.new links.new result.count in
        TraceSays before (diagrams_of (nodes_of before) list.old) result after fixed.new }
{
    let mut n = count;
    let mut rounds: usize = 0;
    loop {
        if rounds == 64 {
            return Traced {
                full: false,
                rounds,
                count: n,
            };
        }
        match first_of(vars, lows, highs, memo, list, n) {
            FirstUnits::Nothing => {
                return Traced {
                    full: false,
                    rounds,
                    count: n,
                };
            }
            FirstUnits::Of { units: u, place: _ } => {
                note(fixed, rounds, u);
                let made = round(vars, lows, highs, heads, links, memo, list, words, n, u);
                n = made.count;
                if made.full {
                    return Traced {
                        full: true,
                        rounds,
                        count: n,
                    };
                }
                rounds += 1;
            }
        }
    }
}
