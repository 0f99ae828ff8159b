// A book's later call once its own table is made again; what every call says and keeps. (02, 10/14)
#![tactic(auto)]

use shares::Book;

pub mod back;
pub mod line;

// What a call says: 02's number and its place, the book's accepted lines, their rounds and its peak, the shared table's count, and what is
// kept for the book.
#[derive(Clone, Copy)]
pub struct Said {
    pub number: u8,
    pub place: usize,
    pub lines: usize,
    pub rounds: u64,
    pub peak: usize,
    pub count: usize,
    pub book: Book,
}
