// What a caller keeps for a book, and what the calls of two books say, as structs for Rust and C. (02, 10/14)
#![tactic(auto)]

ghost use Rattle.std.specs.Prelude.{◌≡◌};
ghost use Rattle.book_kept.specs.Kept.{stage_of, book_of, bound_byte, flag_byte, kept_with, kept_as, opened_kept, kept_opened};

use shares::{Book, Stage};

// What is kept for a book. `stage` is 0 before its formula is read, 1 while lines are awaited; any other says that it is bound by `number`
// at `place`, which no other stage uses. `refuted` is 0 unless a line is the 0 diagram.
#[repr(C)]
#[derive(Clone, Copy)]
pub struct Kept {
    pub share: usize,
    pub stage: u8,
    pub number: u8,
    pub place: usize,
    pub variables: u8,
    pub clauses: usize,
    pub lines: usize,
    pub rounds: u64,
    pub charge: usize,
    pub peak: usize,
    pub refuted: u8,
}

// What a book's call says: 02's number and its place, the book's accepted lines, their rounds and its peak, the shared table's count, and
// what is kept for the book.
#[repr(C)]
#[derive(Clone, Copy)]
pub struct Booked {
    pub number: u8,
    pub place: usize,
    pub lines: usize,
    pub rounds: u64,
    pub peak: usize,
    pub count: usize,
    pub book: Kept,
}

// What the opening says: 02's number, the shared table's count, and what is kept for the books.
#[repr(C)]
#[derive(Clone, Copy)]
pub struct Opening {
    pub number: u8,
    pub count: usize,
    pub first: Kept,
    pub second: Kept,
}

// The stage that a byte stands for.
fn stage_of(stage: u8, number: u8, place: usize) -> Stage
    ensures { result ≡ stage_of stage number place }
{
    match stage {
        0 => Stage::Formula,
        1 => Stage::Lines,
        _ => Stage::Bound { number, place },
    }
}

// The book that is kept so.
pub fn book_of(k: Kept) -> Book
    ensures { result ≡ book_of k }
{
    Book {
        share: k.share,
        stage: stage_of(k.stage, k.number, k.place),
        variables: k.variables,
        clauses: k.clauses,
        lines: k.lines,
        rounds: k.rounds,
        charge: k.charge,
        peak: k.peak,
        refuted: k.refuted != 0,
    }
}

// The byte of a bound book's stage: as it was lent where it says so.
fn bound_byte(lent: u8) -> u8
    ensures { result ≡ bound_byte lent }
{
    lent.max(2)
}

// The byte of `refuted`: as it was lent where it says so.
fn flag_byte(lent: u8, refuted: bool) -> u8
    ensures { result ≡ flag_byte lent refuted }
{
    if refuted { lent.max(1) } else { 0 }
}

// The book's numbers with these bytes of its stage and of `refuted`.
fn kept_with(b: Book, stage: u8, number: u8, place: usize, refuted: u8) -> Kept
    ensures { result ≡ kept_with b stage number place refuted }
{
    Kept {
        share: b.share,
        stage,
        number,
        place,
        variables: b.variables,
        clauses: b.clauses,
        lines: b.lines,
        rounds: b.rounds,
        charge: b.charge,
        peak: b.peak,
        refuted,
    }
}

// What is kept for a book after a call that was lent k.
pub fn kept_as(k: Kept, b: Book) -> Kept
    ensures { result ≡ kept_as k b }
{
    let refuted = flag_byte(k.refuted, b.refuted);
    match b.stage {
        Stage::Formula => kept_with(b, 0, k.number, k.place, refuted),
        Stage::Lines => kept_with(b, 1, k.number, k.place, refuted),
        Stage::Bound { number, place } => kept_with(b, bound_byte(k.stage), number, place, refuted),
    }
}

// What is kept for a book once it is opened with its share.
fn opened_kept(share: usize) -> Kept
    ensures { result ≡ opened_kept share }
{
    Kept {
        share,
        stage: 0,
        number: 0,
        place: 0,
        variables: 0,
        clauses: 0,
        lines: 0,
        rounds: 0,
        charge: 0,
        peak: 0,
        refuted: 0,
    }
}

// What is kept for a book after an opening that was lent k.
pub fn kept_opened(number: u8, share: usize, k: Kept) -> Kept
    ensures { result ≡ kept_opened number share k }
{
    if number == 35 { opened_kept(share) } else { k }
}
