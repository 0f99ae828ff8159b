// A book's first call: its formula read into its own table, then shared or refused.
ghost use Rattle.std.specs.Prelude.{◌≡◌};
ghost use Rattle.table.specs.Columns.{columns_made};
ghost use Rattle.table.specs.Indexed.{table_of, nodes_of, size};
ghost use Rattle.table.specs.Making.{all};
ghost use Rattle.verdict.specs.Steps.{emptied};
ghost use Rattle.shares.specs.Alone.{book_read, book_unread};
ghost use Rattle.shares.specs.Books.{charged, holding, book_leaves};
ghost use Rattle.book_line.specs.Says.{lists_made, said_outcome, FirstReady};

use book_line::Said;
use book_parts::first::First;
use shares::Book;

// The book that a formula leaves.
fn read(share: usize, variables: u8, clauses: usize, count: usize) -> Book
    ensures { result ≡ book_read share variables clauses count count }
{
    let charge = book_line::back::less_constants(count);
    Book {
        share,
        stage: shares::Stage::Lines,
        variables,
        clauses,
        lines: 0,
        rounds: 0,
        charge,
        peak: charge,
        refuted: false,
    }
}

// The book whose formula is refused.
fn unread(share: usize, number: u8, place: usize, peak: usize) -> Book
    ensures { result ≡ book_unread share number place peak }
{
    Book {
        share,
        stage: shares::Stage::Bound { number, place },
        variables: 0,
        clauses: 0,
        lines: 0,
        rounds: 0,
        charge: 0,
        peak: book_line::back::less_constants(peak),
        refuted: false,
    }
}

// 26 where there are too few free places, else the formula.
pub fn judge_first(
    ownvars: &mut [u8],
    ownlows: &mut [u16],
    ownhighs: &mut [u16],
    ownheads: &mut [u16],
    ownlinks: &mut [u16],
    found: &mut [u16],
    scratch: &mut [u16],
    strikes: &[u8],
    vars: &mut [u8],
    lows: &mut [u16],
    highs: &mut [u16],
    heads: &mut [u16],
    links: &mut [u16],
    own: &mut [u16],
    members: &mut [u16],
    struck: &mut [u8],
    count: usize,
    b: Book,
    bytes: &[u8],
) -> Said
    requires { FirstReady (table_of vars.old lows.old highs.old heads.old links.old count)
        (lists_made members.old struck.old own.old) b
        (table_of ownvars.old ownlows.old ownhighs.old ownheads.old ownlinks.old 2) found.old strikes.now }
    ensures { let c = columns_made vars.old lows.old highs.old heads.old links.old in
        let T = table_of vars.old lows.old highs.old heads.old links.old count in
        let l = lists_made members.old struck.old own.old in
        let left = columns_made vars.new lows.new highs.new heads.new links.new in
        said_outcome left (lists_made members.new struck.new own.new) scratch.new result
        ≡ book_leaves c count l scratch.old b
        (charged 64 (size T) (nodes_of T) (holding b l) bytes.now (all emptied)) }
{
    if vars.len() - count < b.share {
        return book_line::back::unfit(count, b);
    }
    clearing::clear_numbers(scratch);
    match book_parts::first::read_formula(
        ownvars, ownlows, ownhighs, ownheads, ownlinks, found, bytes,
    ) {
        First::Refused {
            number,
            place,
            peak,
        } => {
            book_line::back::keep(own, members, struck, strikes, 0, 0);
            book_line::back::said_by(number, place, count, unread(b.share, number, place, peak))
        }
        First::Made {
            variables,
            count: owncount,
            made,
        } => {
            let after = book_parts::put::give(
                ownvars, ownlows, ownhighs, found, strikes, vars, lows, highs, heads, links, own,
                members, struck, owncount, made, count,
            );
            book_line::back::said_by(
                35,
                bytes.len(),
                after,
                read(b.share, variables, made, owncount),
            )
        }
    }
}
