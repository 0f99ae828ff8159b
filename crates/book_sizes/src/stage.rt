// A book's call by its stage, once the tests are passed.
ghost use Rattle.std.specs.Prelude.{◌≡◌, length};
ghost use Rattle.table.specs.Columns.{columns_made};
ghost use Rattle.table.specs.Indexed.{table_of, nodes_of, size};
ghost use Rattle.walks.specs.Readable.{Roomy};
ghost use Rattle.conflict.specs.Marks.{unmarked};
ghost use Rattle.verdict.specs.Check.{zeros};
ghost use Rattle.state.specs.States.{lent_of};
ghost use Rattle.shares.specs.Books.{charged, holding, own_table, book_leaves};
ghost use Rattle.book_line.specs.Says.{lists_made, said_outcome, Prepared};
ghost use Rattle.book_sizes.specs.Calls.{awaits_formula};

use book_line::Said;
use shares::{Book, Stage};

// Whether the formula is still to be read.
fn awaits_formula(stage: Stage) -> bool
    ensures { result ≡ awaits_formula stage }
{
    match stage {
        Stage::Formula => true,
        Stage::Lines => false,
        Stage::Bound { .. } => false,
    }
}

// The formula, or a later call.
pub fn judge(
    ownvars: &mut [u8],
    ownlows: &mut [u16],
    ownhighs: &mut [u16],
    ownheads: &mut [u16],
    ownlinks: &mut [u16],
    known: &mut [u16],
    memo: &mut [u64],
    marks: &mut [u8],
    found: &mut [u16],
    scratch: &mut [u16],
    strikes: &mut [u8],
    vars: &mut [u8],
    lows: &mut [u16],
    highs: &mut [u16],
    heads: &mut [u16],
    links: &mut [u16],
    own: &mut [u16],
    members: &mut [u16],
    struck: &mut [u8],
    count: usize,
    b: Book,
    bytes: &[u8],
) -> Said
    requires prepared { Prepared (table_of vars.old lows.old highs.old heads.old links.old count)
        (lists_made members.old struck.old own.old) b
        (lent_of ownvars.old ownlows.old ownhighs.old ownheads.old ownlinks.old found.old scratch.old strikes.old)
        known.old }
    requires marks_value { (marks.old ≡ unmarked (length ownvars.old))
        × Roomy ownvars.old memo.old
        × (strikes.old ≡ zeros (length found.old)) }
    ensures { let c = columns_made vars.old lows.old highs.old heads.old links.old in
        let T = table_of vars.old lows.old highs.old heads.old links.old count in
        let l = lists_made members.old struck.old own.old in
        let left = columns_made vars.new lows.new highs.new heads.new links.new in
        said_outcome left (lists_made members.new struck.new own.new) scratch.new result
        ≡ book_leaves c count l scratch.old b
        (charged 64 (size T) (nodes_of T) (holding b l) bytes.now (own_table b.stage (nodes_of T) (holding b l))) }
{
    let stage = b.stage;
    if awaits_formula(stage) {
        return book_judge::first::judge_first(
            ownvars, ownlows, ownhighs, ownheads, ownlinks, found, scratch, strikes, vars, lows,
            highs, heads, links, own, members, struck, count, b, bytes,
        );
    }
    book_judge::later::judge_later(
        ownvars, ownlows, ownhighs, ownheads, ownlinks, known, memo, marks, found, scratch,
        strikes, vars, lows, highs, heads, links, own, members, struck, count, b, bytes,
    )
}
