// The state between records, and what a record comes to.
#![tactic(auto)]

use words::Literals;

// The state between records: the table's count, how many nodes stay if the line is not accepted, the numbers of members and of the
// line's entries, the waiting witness, the accepted lines, their rounds, the greatest count so far, and whether a line is the 0
// diagram.
#[derive(Clone, Copy)]
pub struct State {
    pub count: usize,
    pub kept: usize,
    pub members: usize,
    pub entries: usize,
    pub witness: Literals,
    pub lines: usize,
    pub rounds: u64,
    pub peak: usize,
    pub refuted: bool,
}

// What a record comes to: the next state; or 01's number and the place, counted from the record's first byte, where no node was made; or
// 01's number at the record's first byte and the greatest count so far.
#[derive(Clone, Copy)]
pub enum Step {
    Next(State),
    Stop { number: u8, offset: usize },
    Spent { number: u8, peak: usize },
}
