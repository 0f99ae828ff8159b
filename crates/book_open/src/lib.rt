// One table opened for two rule books: 7, 32, else table and lists emptied for both. (02, 10/14)
#![tactic(auto)]

ghost use Rattle.std.specs.Prelude.{◌≡◌, ◌+◌, length, leb};
ghost use Rattle.table.specs.Columns.{columns_made};
ghost use Rattle.verdict.specs.Check.{zeros};
ghost use Rattle.shares.specs.Alone.{opened_book};
ghost use Rattle.shares.specs.Books.{book_fits, open_outcome};
ghost use Rattle.book_open.specs.Opens.{lists_of, opened_outcome, unopened_said};

use shares::{Book, Stage};

// What the opening says: 02's number, the shared table's count, and what is kept for the books.
#[derive(Clone, Copy)]
pub struct Opened {
    pub number: u8,
    pub count: usize,
    pub first: Book,
    pub second: Book,
}

// Whether columns, index, a book's lists and the scratch list are of proper size.
pub fn book_fits(
    vars: &[u8],
    lows: &[u16],
    highs: &[u16],
    heads: &[u16],
    links: &[u16],
    own: &[u16],
    members: &[u16],
    struck: &[u8],
    scratch: &[u16],
) -> bool
    ensures { let c = columns_made vars.now lows.now highs.now heads.now links.now in
        result ≡ book_fits c (lists_of members.now struck.now own.now) scratch.now }
{
    if !table::test::size_fits(vars, lows, highs, heads, links) {
        return false;
    }
    if members.len() < 2048 {
        return false;
    }
    if struck.len() != members.len() {
        return false;
    }
    if scratch.len() < 4096 {
        return false;
    }
    own.len() == vars.len()
}

// Whether a table of `size` places has room for the constants and both shares.
fn shares_fit(size: usize, first: usize, second: usize) -> bool
    ensures { result ≡ leb (first + second + 2) size }
{
    if size < first {
        return false;
    }
    if size - first < second {
        return false;
    }
    2 <= size - first - second
}

// The book as it is opened.
fn as_opened(share: usize) -> Book
    ensures { result ≡ opened_book share }
{
    Book {
        share,
        stage: Stage::Formula,
        variables: 0,
        clauses: 0,
        lines: 0,
        rounds: 0,
        charge: 0,
        peak: 0,
        refuted: false,
    }
}

// A refused opening leaves what was there.
fn unopened(number: u8, count: usize, first: Book, second: Book) -> Opened
    ensures { result ≡ unopened_said number count first second }
{
    Opened {
        number,
        count,
        first,
        second,
    }
}

// A book's lists, all zero.
fn clear_lists(own: &mut [u16], members: &mut [u16], struck: &mut [u8])
    ensures own_after { own.new ≡ zeros (length own.old) }
    ensures members_after { members.new ≡ zeros (length members.old) }
    ensures struck_after { struck.new ≡ zeros (length struck.old) }
{
    clearing::clear_numbers(own);
    clearing::clear_numbers(members);
    clearing::clear_bytes(struck);
}

// The opening. What it says and leaves is the definition's.
pub fn call(
    vars: &mut [u8],
    lows: &mut [u16],
    highs: &mut [u16],
    heads: &mut [u16],
    links: &mut [u16],
    own: &mut [u16],
    members: &mut [u16],
    struck: &mut [u8],
    ownsecond: &mut [u16],
    memberssecond: &mut [u16],
    strucksecond: &mut [u8],
    scratch: &mut [u16],
    count: usize,
    first: Book,
    second: Book,
    share: usize,
    sharesecond: usize,
) -> Opened
    ensures { let c = columns_made vars.old lows.old highs.old heads.old links.old in
        let a = lists_of members.old struck.old own.old in
        let b = lists_of memberssecond.old strucksecond.old ownsecond.old in
        let left = columns_made vars.new lows.new highs.new heads.new links.new in
        opened_outcome left (lists_of members.new struck.new own.new)
        (lists_of memberssecond.new strucksecond.new ownsecond.new) scratch.new result
        ≡ open_outcome c count a b scratch.old first second share sharesecond }
{
    if !book_fits(
        vars, lows, highs, heads, links, own, members, struck, scratch,
    ) {
        return unopened(7, count, first, second);
    }
    if !book_fits(
        vars,
        lows,
        highs,
        heads,
        links,
        ownsecond,
        memberssecond,
        strucksecond,
        scratch,
    ) {
        return unopened(7, count, first, second);
    }
    if !shares_fit(vars.len(), share, sharesecond) {
        return unopened(32, count, first, second);
    }
    clearing::empty(vars, lows, highs, heads, links, scratch);
    clear_lists(own, members, struck);
    clear_lists(ownsecond, memberssecond, strucksecond);
    Opened {
        number: 35,
        count: 2,
        first: as_opened(share),
        second: as_opened(sharesecond),
    }
}
