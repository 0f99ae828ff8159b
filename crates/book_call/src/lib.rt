// The call of one of two rule books on one table: 7, 26, else the call over working arrays. (02, 10/14)
#![tactic(auto)]

ghost use Rattle.std.specs.Prelude.{◌≡◌, ◌≤◌, length};
ghost use Rattle.table.specs.Columns.{columns_made};
ghost use Rattle.shares.specs.Books.{holding_fits, holding, book_outcome};
ghost use Rattle.book_line.specs.Says.{lists_made, said_outcome};

use book_line::Said;
use shares::Book;

// Whether the book's numbers, members and marks are within their limits.
fn holding_fits(
    members: &[u16],
    struck: &[u8],
    own: &[u16],
    size: usize,
    count: usize,
    b: Book,
) -> bool
    requires { (2 ≤ size) × (2048 ≤ length members.now) × (length struck.now ≡ length members.now) }
    ensures { result ≡ holding_fits size count (holding b (lists_made members.now struck.now own.now)) }
{
    if !book_parts::fits::numbers_fit(size, b) {
        return false;
    }
    book_parts::fits::members_fit(members, struck, b.clauses + b.lines, count)
}

// A book's call. What it says and leaves is the definition's.
pub fn call(
    vars: &mut [u8],
    lows: &mut [u16],
    highs: &mut [u16],
    heads: &mut [u16],
    links: &mut [u16],
    own: &mut [u16],
    members: &mut [u16],
    struck: &mut [u8],
    scratch: &mut [u16],
    count: usize,
    b: Book,
    bytes: &[u8],
) -> Said
    ensures { let c = columns_made vars.old lows.old highs.old heads.old links.old in
        let l = lists_made members.old struck.old own.old in
        let left = columns_made vars.new lows.new highs.new heads.new links.new in
        said_outcome left (lists_made members.new struck.new own.new) scratch.new result
        ≡ book_outcome c count l scratch.old b bytes.now }
{
    if !book_open::book_fits(
        vars, lows, highs, heads, links, own, members, struck, scratch,
    ) {
        return Said {
            number: 7,
            place: 0,
            lines: 0,
            rounds: 0,
            peak: 0,
            count,
            book: b,
        };
    }
    if !good_order::order_fits(vars, lows, highs, heads, links, count) {
        return book_line::back::unfit(count, b);
    }
    if !holding_fits(members, struck, own, vars.len(), count, b) {
        return book_line::back::unfit(count, b);
    }
    if vars.len() <= 4096 {
        return book_sizes::sizes::call_4096(
            vars, lows, highs, heads, links, own, members, struck, scratch, count, b, bytes,
        );
    }
    book_sizes::sizes::call_65536(
        vars, lows, highs, heads, links, own, members, struck, scratch, count, b, bytes,
    )
}
