// The check of a formula of at most six variables by truth table: each function is a 64-bit word, and there are no nodes. (02, 14/14)
#![tactic(auto)]

ghost use Rattle.std.specs.Prelude.{◌≡◌};
ghost use Rattle.small.specs.Stops.{stop_at};

use words::Literals;

pub mod call;
mod entry;
mod formula;
mod line;
mod proof;
mod record;

// The state between records: the numbers of members and of the line's entries, the waiting witness, the accepted lines, their rounds, and
// whether a line is 0 everywhere.
#[derive(Clone, Copy)]
pub struct State {
    pub members: usize,
    pub entries: usize,
    pub witness: Literals,
    pub lines: usize,
    pub rounds: u64,
    pub refuted: bool,
}

// How a record ends the proof: the number, 0 where the proof is accepted, and the place, counted from the record's first byte.
#[derive(Clone, Copy)]
pub struct Stop {
    pub number: u8,
    pub offset: usize,
}

// At the record's first byte.
impl From<u8> for Stop {
    ghost from_gives = { λ number stop. stop ≡ stop_at number 0 };

    fn from(number: u8) -> Stop {
        Stop { number, offset: 0 }
    }
}

// The answer: 01's number, whether its place is in the proof (else in the formula), the place, the accepted lines and their rounds.
#[repr(C)]
#[derive(Clone, Copy)]
pub struct SmallChecked {
    pub number: u8,
    pub in_proof: bool,
    pub place: usize,
    pub lines: usize,
    pub rounds: u64,
}
