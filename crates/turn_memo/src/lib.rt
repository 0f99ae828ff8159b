// The turns of a PR line that conflicted, by the member's node: a hash table of nodes and rounds. What a cell holds is right wherever it
// stands, so nothing is said of where a node is looked for.
#![tactic(auto)]

ghost use Rattle.std.specs.Prelude.{◌≡◌, ◌*◌, ◌≤◌, ◌<◌, length, IfSome};
ghost use Rattle.turn_memo.specs.Turns.{Holds, Stores, Passes};

use table::NodeNo;

// Twice as many as a line has turns at most, so that a search is short.
const CELLS: usize = 4096;

// A cell has the node's number, and as its last digits the rounds of its turn and 1; an empty one is 0.
const DIGITS: u32 = 128;

// The cell of node f: the first from its home on that has it or is empty.
fn cell_of(turns: &[u32], f: NodeNo) -> usize
    requires { length turns.now ≡ 4096 }
    ensures { result < 4096 }
{
    let node = u32::from(f.0);
    let mut c = usize::from(f.0) % CELLS;
    for _ in 0..CELLS {
        let e = turns[c];
        if e == 0 || e / DIGITS == node {
            return c;
        }
        c = (c + 1) % CELLS;
    }
    c
}

// The rounds of the turn of node f, where one is stored.
fn look_up(turns: &[u32], f: NodeNo) -> Option<u64>
    requires { length turns.now ≡ 4096 }
    ensures { IfSome result (Holds turns.now f.0) }
{
    let e = turns[cell_of(turns, f)];
    if e / DIGITS != u32::from(f.0) {
        return None;
    }
    match e % DIGITS {
        0 => None,
        digits => Some(u64::from(digits - 1)),
    }
}

// Stores the turn of node f, of so many rounds.
pub fn store(turns: &mut [u32], f: NodeNo, rounds: u64)
    requires { (length turns.old ≡ 4096) × (rounds ≤ 64) }
    ensures { Stores turns.old f.0 rounds turns.new }
{
    let c = cell_of(turns, f);
    turns[c] = u32::from(f.0) * DIGITS + (rounds as u32) + 1;
}

#[derive(Clone, Copy)]
pub struct Passed {
    pub place: usize,
    pub rounds: u64,
}

// The first place from `from` on whose member has no turn stored, and the rounds so far with those of the turns passed.
pub fn pass_stored(members: &[u16], turns: &[u32], from: usize, rounds: u64) -> Passed
    requires { (length turns.now ≡ 4096) × (length members.now ≤ 2048) × (rounds ≤ 64 * from) }
    ensures { Passes members.now turns.now from rounds result.place result.rounds }
{
    let mut sum = rounds;
    for i in from..members.len() {
        match look_up(turns, NodeNo(members[i])) {
            Some(more) => sum += more,
            None => {
                return Passed {
                    place: i,
                    rounds: sum,
                };
            }
        }
    }
    Passed {
        place: from.max(members.len()),
        rounds: sum,
    }
}
