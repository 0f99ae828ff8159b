// A book's later call once its own table is made again: records up to a line or to what ends the call, and what is written back.
ghost use Rattle.std.specs.Prelude.{◌≡◌, length};
ghost use Rattle.table.specs.Columns.{columns_made};
ghost use Rattle.table.specs.Indexed.{table_of, nodes_of, size};
ghost use Rattle.walks.specs.Readable.{Roomy};
ghost use Rattle.conflict.specs.Marks.{unmarked};
ghost use Rattle.verdict.specs.Check.{zeros};
ghost use Rattle.state.specs.States.{lent_of, Held};
ghost use Rattle.shares.specs.Alone.{later_call};
ghost use Rattle.shares.specs.Books.{alone_of, judged, holding, book_leaves};
ghost use Rattle.book_line.specs.Says.{lists_made, said_outcome, LineReady, own_nodes};

use crate::Said;
use book_parts::line::Ending;
use shares::Book;
use state::State;

// The call's records judged in the book's own table, then shared or refused. The scratch list is then anything.
pub fn run_line(
    ownvars: &mut [u8],
    ownlows: &mut [u16],
    ownhighs: &mut [u16],
    ownheads: &mut [u16],
    ownlinks: &mut [u16],
    memo: &mut [u64],
    marks: &mut [u8],
    found: &mut [u16],
    scratch: &mut [u16],
    strikes: &mut [u8],
    vars: &mut [u8],
    lows: &mut [u16],
    highs: &mut [u16],
    heads: &mut [u16],
    links: &mut [u16],
    own: &mut [u16],
    members: &mut [u16],
    struck: &mut [u8],
    count: usize,
    b: Book,
    first: State,
    bytes: &[u8],
) -> Said
    requires fact { let lent = lent_of ownvars.old ownlows.old ownhighs.old ownheads.old ownlinks.old found.old scratch.old
        strikes.old in
        Held 64 lent first × (marks.old ≡ unmarked (length ownvars.old)) × Roomy ownvars.old memo.old }
    requires line_ready { LineReady (table_of vars.old lows.old highs.old heads.old links.old count)
        (lists_made members.old struck.old own.old) b
        (lent_of ownvars.old ownlows.old ownhighs.old ownheads.old ownlinks.old found.old scratch.old strikes.old) first }
    ensures { let c = columns_made vars.old lows.old highs.old heads.old links.old in
        let T = table_of vars.old lows.old highs.old heads.old links.old count in
        let l = lists_made members.old struck.old own.old in
        let lent = lent_of ownvars.old ownlows.old ownhighs.old ownheads.old
        ownlinks.old
        found.old scratch.old strikes.old in
        let left = columns_made vars.new lows.new highs.new heads.new links.new in
        said_outcome left (lists_made members.new struck.new own.new) (zeros (length scratch.old)) result
        ≡ book_leaves c count l scratch.old b
        (judged (size T) (nodes_of T) (holding b l)
        (later_call 64 (alone_of (nodes_of T) (holding b l) (own_nodes lent first)) bytes.now)) }
{
    match book_parts::line::read_line(
        ownvars,
        ownlows,
        ownhighs,
        ownheads,
        ownlinks,
        memo,
        marks,
        found,
        scratch,
        strikes,
        first,
        b.variables,
        bytes,
    ) {
        Ending::Ended {
            number,
            place,
            peak,
        } => {
            crate::back::keep(own, members, struck, strikes, b.charge, first.members);
            crate::back::said_by(
                number,
                place,
                count,
                crate::back::bound(b, number, place, peak),
            )
        }
        Ending::Taken(st) => {
            let made = book_parts::put::give(
                ownvars, ownlows, ownhighs, found, strikes, vars, lows, highs, heads, links, own,
                members, struck, st.count, st.members, count,
            );
            crate::back::said_by(35, bytes.len(), made, crate::back::with_line(b, st))
        }
    }
}
