// DRAT text to binary DRAT and back. The calls test for themselves all that they need, and neither has a `requires`. (02, 9/14)
#![tactic(auto)]

mod from_binary;
mod from_text;
mod output;

pub use from_binary::to_text;
pub use from_text::to_binary;

// A conversion's number, its place (0 if not refused) and the result's length. It is no Result: C takes it from `cablesalak_to_binary` and
// `cablesalak_to_text`.
#[repr(C)]
#[derive(Clone, Copy)]
pub struct Converted {
    pub number: u8,
    pub place: usize,
    pub length: usize,
}

// A clause that is written: the place behind it and the bytes put so far.
#[derive(Clone, Copy)]
pub struct Written {
    pub next: usize,
    pub many: usize,
}
