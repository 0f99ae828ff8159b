// Why a check refuses: its number, the offending piece and the true cause. (02, 8/14)
#![tactic(auto)]

pub mod call;

// `shown` gives the part that a call names as a part of the caller's own bytes.
pub use pieces::{Part, shown};

// What the call says: the check's number, 30 where it did not refuse; the part that is shown, in the proof or in the formula, with its
// start and its end; 14's two variables; 18's assignment, bit i - 1 for variable i; 19's rounds, whose literals are in the list lent for
// them, and the member that was not shown, if there is one; the table's count.
#[repr(C)]
#[derive(Clone, Copy)]
pub struct Why {
    pub number: u8,
    pub in_proof: bool,
    pub start: usize,
    pub end: usize,
    pub variable: u8,
    pub child: u8,
    pub word: u64,
    pub rounds: usize,
    pub has_member: bool,
    pub member: usize,
    pub count: usize,
}
