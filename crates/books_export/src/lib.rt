// Two rule books on one table, for Rust and C to link: the opening and a book's call. (02, 10/14)
#![tactic(auto)]

ghost use Rattle.std.specs.Prelude.{◌≡◌};
ghost use Rattle.table.specs.Columns.{columns_made};
ghost use Rattle.book_kept.specs.Calls.{lists_made, kept_call, booked_outcome, kept_opening, opening_outcome};

use book_kept::{Booked, Kept, Opening};

// The table and the lists emptied and opened for two books with these shares.
#[unsafe(no_mangle)]
pub extern "C" fn cablesalak_open(
    vars: &mut [u8],
    lows: &mut [u16],
    highs: &mut [u16],
    heads: &mut [u16],
    links: &mut [u16],
    own: &mut [u16],
    members: &mut [u16],
    struck: &mut [u8],
    ownsecond: &mut [u16],
    memberssecond: &mut [u16],
    strucksecond: &mut [u8],
    scratch: &mut [u16],
    count: usize,
    first: Kept,
    second: Kept,
    share: usize,
    sharesecond: usize,
) -> Opening
    ensures { let c = columns_made vars.old lows.old highs.old heads.old links.old in
        let a = lists_made members.old struck.old own.old in
        let b = lists_made memberssecond.old strucksecond.old ownsecond.old in
        let left = columns_made vars.new lows.new highs.new heads.new links.new in
        opening_outcome left (lists_made members.new struck.new own.new)
        (lists_made memberssecond.new strucksecond.new ownsecond.new) scratch.new result
        ≡ kept_opening c count a b scratch.old first second share sharesecond }
{
    let said = book_open::call(
        vars,
        lows,
        highs,
        heads,
        links,
        own,
        members,
        struck,
        ownsecond,
        memberssecond,
        strucksecond,
        scratch,
        count,
        book_kept::book_of(first),
        book_kept::book_of(second),
        share,
        sharesecond,
    );
    Opening {
        number: said.number,
        count: said.count,
        first: book_kept::kept_opened(said.number, share, first),
        second: book_kept::kept_opened(said.number, sharesecond, second),
    }
}

// A book's call: its formula first, then a line or the end.
#[unsafe(no_mangle)]
pub extern "C" fn cablesalak_book(
    vars: &mut [u8],
    lows: &mut [u16],
    highs: &mut [u16],
    heads: &mut [u16],
    links: &mut [u16],
    own: &mut [u16],
    members: &mut [u16],
    struck: &mut [u8],
    scratch: &mut [u16],
    count: usize,
    book: Kept,
    bytes: &[u8],
) -> Booked
    ensures { let c = columns_made vars.old lows.old highs.old heads.old links.old in
        let l = lists_made members.old struck.old own.old in
        let left = columns_made vars.new lows.new highs.new heads.new links.new in
        booked_outcome left (lists_made members.new struck.new own.new) scratch.new result
        ≡ kept_call c count l scratch.old book bytes.now }
{
    let said = book_call::call(
        vars,
        lows,
        highs,
        heads,
        links,
        own,
        members,
        struck,
        scratch,
        count,
        book_kept::book_of(book),
        bytes,
    );
    Booked {
        number: said.number,
        place: said.place,
        lines: said.lines,
        rounds: said.rounds,
        peak: said.peak,
        count: said.count,
        book: book_kept::kept_as(book, said.book),
    }
}
