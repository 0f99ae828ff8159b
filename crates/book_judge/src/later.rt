// A book's later call: its own table made again, the test of free places, and the call by its stage.
ghost use Rattle.std.specs.Prelude.{◌≡◌, ◌++◌, ◌≤◌, length, take};
ghost use Rattle.table.specs.Columns.{columns_made};
ghost use Rattle.table.specs.Indexed.{table_of, nodes_of, size};
ghost use Rattle.table.specs.Making.{all};
ghost use Rattle.walks.specs.Readable.{nodes_in, Roomy};
ghost use Rattle.conflict.specs.Marks.{unmarked};
ghost use Rattle.state.specs.States.{lent_of, table_in};
ghost use Rattle.shares.specs.declared.Stage.TheVariants.{Formula};
ghost use Rattle.shares.specs.Shares.{alone};
ghost use Rattle.shares.specs.Alone.{places};
ghost use Rattle.shares.specs.Books.{padded, charged, holding, book_leaves};
ghost use Rattle.alone.specs.Copies.{Copyable, Adopts, FoundBy};
ghost use Rattle.book_line.specs.Says.{lists_made, said_outcome, Remade, Prepared};

use alone::Adopted;
use book_line::Said;
use shares::{Book, Stage};

// The book's own nodes and members copied from the shared table, and its members' marks.
pub fn remake(
    vars: &[u8],
    lows: &[u16],
    highs: &[u16],
    ownvars: &mut [u8],
    ownlows: &mut [u16],
    ownhighs: &mut [u16],
    ownheads: &mut [u16],
    ownlinks: &mut [u16],
    known: &mut [u16],
    found: &mut [u16],
    strikes: &mut [u8],
    own: &[u16],
    members: &[u16],
    struck: &[u8],
    count: usize,
    charge: usize,
    m: usize,
) -> Adopted
    requires { Copyable vars.now lows.now highs.now count
        (table_of ownvars.old ownlows.old ownhighs.old ownheads.old ownlinks.old 2) known.old
        × (charge ≤ length own.now) × (m ≤ length members.now) × (m ≤ length struck.now) × (m ≤ length found.old) ×
        (m ≤ length strikes.old) }
    ensures fact { let before = table_of ownvars.old ownlows.old ownhighs.old ownheads.old
        ownlinks.old 2 in
        let after = table_of ownvars.new ownlows.new ownhighs.new ownheads.new
        ownlinks.new result.count in
        let T = nodes_in vars.now lows.now highs.now count in
        Adopts T before (take charge own.now ++ take m members.now) result.full after known.new
        × FoundBy result.full T (nodes_of after) (take m members.now) found.old found.new }
    ensures strikes_after { strikes.new ≡ padded (take m struck.now) (length strikes.old) }
{
    book_parts::put::copy_marks(strikes, struck, m);
    book_parts::put::zero_marks_from(strikes, m);
    book_parts::own::rebuild(
        vars,
        lows,
        highs,
        ownvars,
        ownlows,
        ownhighs,
        ownheads,
        ownlinks,
        known,
        &own[..charge],
        &members[..m],
        found,
        count,
    )
}

// The call once the own table is made again: 26 where there are too few free places, else by the book's stage.
pub fn judge_remade(
    ownvars: &mut [u8],
    ownlows: &mut [u16],
    ownhighs: &mut [u16],
    ownheads: &mut [u16],
    ownlinks: &mut [u16],
    memo: &mut [u64],
    marks: &mut [u8],
    found: &mut [u16],
    scratch: &mut [u16],
    strikes: &mut [u8],
    vars: &mut [u8],
    lows: &mut [u16],
    highs: &mut [u16],
    heads: &mut [u16],
    links: &mut [u16],
    own: &mut [u16],
    members: &mut [u16],
    struck: &mut [u8],
    count: usize,
    owncount: usize,
    b: Book,
    bytes: &[u8],
) -> Said
    requires remade { Remade (table_of vars.old lows.old highs.old heads.old links.old count)
        (lists_made members.old struck.old own.old) b
        (lent_of ownvars.old ownlows.old ownhighs.old ownheads.old ownlinks.old found.old scratch.old
        strikes.old) owncount }
    requires marks_value { (marks.old ≡ unmarked (length ownvars.old)) × Roomy ownvars.old memo.old × (b.stage ≡ Formula → ⊥) }
    ensures { let c = columns_made vars.old lows.old highs.old heads.old links.old in
        let T = table_of vars.old lows.old highs.old heads.old links.old count in
        let l = lists_made members.old struck.old own.old in
        let lent = lent_of ownvars.old ownlows.old ownhighs.old ownheads.old
        ownlinks.old
        found.old scratch.old strikes.old in
        let left = columns_made vars.new lows.new highs.new heads.new links.new in
        said_outcome left (lists_made members.new struck.new own.new) scratch.new result
        ≡ book_leaves c count l scratch.old b
        (charged 64 (size T) (nodes_of T) (holding b l) bytes.now (all (nodes_of (table_in lent owncount)))) }
{
    if vars.len() - count < b.share + 2 - owncount {
        return book_line::back::unfit(count, b);
    }
    let stage = b.stage;
    match stage {
        Stage::Formula => book_line::back::unfit(count, b),
        Stage::Bound { number, place } => book_line::back::said_by(number, place, count, b),
        Stage::Lines => {
            let first = book_line::back::first_state(b, owncount);
            let said = book_line::line::run_line(
                ownvars, ownlows, ownhighs, ownheads, ownlinks, memo, marks, found, scratch,
                strikes, vars, lows, highs, heads, links, own, members, struck, count, b, first,
                bytes,
            );
            clearing::clear_numbers(scratch);
            said
        }
    }
}

// The call of a book whose formula is read: its own table made again, 26 where that finds no room, else the call.
pub fn judge_later(
    ownvars: &mut [u8],
    ownlows: &mut [u16],
    ownhighs: &mut [u16],
    ownheads: &mut [u16],
    ownlinks: &mut [u16],
    known: &mut [u16],
    memo: &mut [u64],
    marks: &mut [u8],
    found: &mut [u16],
    scratch: &mut [u16],
    strikes: &mut [u8],
    vars: &mut [u8],
    lows: &mut [u16],
    highs: &mut [u16],
    heads: &mut [u16],
    links: &mut [u16],
    own: &mut [u16],
    members: &mut [u16],
    struck: &mut [u8],
    count: usize,
    b: Book,
    bytes: &[u8],
) -> Said
    requires prepared { Prepared (table_of vars.old lows.old highs.old heads.old links.old count)
        (lists_made members.old struck.old own.old) b
        (lent_of ownvars.old ownlows.old ownhighs.old ownheads.old ownlinks.old found.old scratch.old strikes.old)
        known.old }
    requires marks_value { (marks.old ≡ unmarked (length ownvars.old)) × Roomy ownvars.old memo.old × (b.stage ≡ Formula → ⊥) }
    ensures { let c = columns_made vars.old lows.old highs.old heads.old links.old in
        let T = table_of vars.old lows.old highs.old heads.old links.old count in
        let l = lists_made members.old struck.old own.old in
        let left = columns_made vars.new lows.new highs.new heads.new links.new in
        said_outcome left (lists_made members.new struck.new own.new) scratch.new result
        ≡ book_leaves c count l scratch.old b
        (charged 64 (size T) (nodes_of T) (holding b l) bytes.now
        (alone (places b) (nodes_of T) ((holding b l).own ++ (holding b l).members))) }
{
    let a = remake(
        vars,
        lows,
        highs,
        ownvars,
        ownlows,
        ownhighs,
        ownheads,
        ownlinks,
        known,
        found,
        strikes,
        own,
        members,
        struck,
        count,
        b.charge,
        b.clauses + b.lines,
    );
    if a.full {
        return book_line::back::unfit(count, b);
    }
    judge_remade(
        ownvars, ownlows, ownhighs, ownheads, ownlinks, memo, marks, found, scratch, strikes, vars,
        lows, highs, heads, links, own, members, struck, count, a.count, b, bytes,
    )
}
