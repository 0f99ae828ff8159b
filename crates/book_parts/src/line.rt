// The records of a book's call, in the book's own table: up to a line that is accepted, or to a record that ends the call.
ghost use Rattle.std.specs.Prelude.{◌≡◌, ◌&&◌, suc, ◌≤◌, length};
ghost use Rattle.walks.specs.Readable.{Roomy};
ghost use Rattle.conflict.specs.Marks.{unmarked};
ghost use Rattle.state.specs.States.{lent_of, state_of, Held, Stepped};
ghost use Rattle.shares.specs.Alone.{is_line, book_step, line_call};
ghost use Rattle.book_parts.specs.Lines.{beyond_by, ending_of, EndsHeld};

use records::Record;
use state::{State, Step};

// How a call's records end: with a number, its place and the greatest count; or with a line accepted, in the state after it.
#[derive(Clone, Copy)]
pub enum Ending {
    Ended {
        number: u8,
        place: usize,
        peak: usize,
    },
    Taken(State),
}

// Whether the record is a line.
fn is_line(r: Record) -> bool
    ensures { result ≡ is_line r }
{
    match r {
        Record::NodeEntry(_) => false,
        Record::Witness { .. } => false,
        Record::ProofLine { .. } => true,
        Record::Strike(_) => false,
        Record::SetEntry { .. } => false,
        Record::End => false,
        Record::CutShort => false,
        Record::UnknownKind => false,
        Record::NoRecord => false,
    }
}

// Whether the record is a line with bytes behind it.
fn is_followed_line(r: Record, more: bool) -> bool
    ensures { result ≡ (is_line r && more) }
{
    if is_line(r) {
        return more;
    }
    false
}

// Whether the record has a variable beyond the header's, and there is room for one more entry.
fn is_beyond(variables: u8, count: usize, r: Record) -> bool
    requires { variables ≤ 64 }
    ensures { result ≡ beyond_by variables count r }
{
    match r {
        Record::NodeEntry(b) => count < 4096 && variables < b.variable,
        Record::Witness { variable: v, .. } => variables < v,
        Record::ProofLine { .. } => false,
        Record::Strike(_) => false,
        Record::SetEntry { body: b, .. } => {
            if 4096 <= count {
                return false;
            }
            entries::set::is_beyond(variables, b.set)
        }
        Record::End => false,
        Record::CutShort => false,
        Record::UnknownKind => false,
        Record::NoRecord => false,
    }
}

// The step that a record of a book makes: 12 by its header, 11 at bytes after a line, else as in the check at 64 variables.
fn book_step(
    vars: &mut [u8],
    lows: &mut [u16],
    highs: &mut [u16],
    heads: &mut [u16],
    links: &mut [u16],
    memo: &mut [u64],
    marks: &mut [u8],
    members: &mut [u16],
    scratch: &mut [u16],
    struck: &mut [u8],
    st: State,
    variables: u8,
    more: bool,
    r: Record,
) -> Step
    requires { let lent = lent_of vars.old lows.old highs.old heads.old links.old members.old scratch.old
        struck.old in
        Held 64 lent st × (marks.old ≡ unmarked (length vars.old)) × Roomy vars.old memo.old × (variables ≤ 64) }
    ensures fact { let lent = lent_of vars.old lows.old highs.old heads.old links.old
        members.old scratch.old struck.old in
        let returned = lent_of vars.new lows.new highs.new heads.new links.new
        members.new scratch.new struck.new in
        Stepped 64 lent returned st (book_step 64 variables (length vars.old) (state_of lent st) more r) result }
    ensures marks_after { marks.new ≡ unmarked (length vars.old) }
{
    if is_beyond(variables, st.entries, r) {
        return Step::Stop {
            number: 12,
            offset: 0,
        };
    }
    if is_followed_line(r, more) {
        return Step::Stop {
            number: 11,
            offset: records::record_length(r),
        };
    }
    steps::record_step(
        vars, lows, highs, heads, links, memo, marks, members, scratch, struck, st, 64, more, r,
    )
}

// Record after record, up to a line that is accepted or to one that ends the call. The scratch list is then anything.
pub fn read_line(
    vars: &mut [u8],
    lows: &mut [u16],
    highs: &mut [u16],
    heads: &mut [u16],
    links: &mut [u16],
    memo: &mut [u64],
    marks: &mut [u8],
    members: &mut [u16],
    scratch: &mut [u16],
    struck: &mut [u8],
    first: State,
    variables: u8,
    bytes: &[u8],
) -> Ending
    requires { let lent = lent_of vars.old lows.old highs.old heads.old links.old members.old scratch.old struck.old in
        Held 64 lent first × (marks.old ≡ unmarked (length vars.old)) × Roomy vars.old memo.old × (variables ≤ 64) }
    ensures fact { let lent = lent_of vars.old lows.old highs.old heads.old links.old
        members.old scratch.old struck.old in
        let returned = lent_of vars.new lows.new highs.new heads.new links.new
        members.new scratch.new struck.new in
        (line_call (suc (length bytes.now)) 64 variables (length vars.old) bytes.now (state_of lent first) 0
        ≡ ending_of returned first.members result)
        × EndsHeld returned first.members result }
    ensures marks_after { marks.new ≡ unmarked (length vars.old) }
{
    let mut state = first;
    let mut at: usize = 0;
    while at <= bytes.len() {
        let r = records::record_from(bytes, at);
        let next = at + records::record_length(r);
        match book_step(
            vars,
            lows,
            highs,
            heads,
            links,
            memo,
            marks,
            members,
            scratch,
            struck,
            state,
            variables,
            next < bytes.len(),
            r,
        ) {
            Step::Stop { number, offset } => {
                return Ending::Ended {
                    number,
                    place: at + offset,
                    peak: state.peak,
                };
            }
            Step::Spent { number, peak } => {
                return Ending::Ended {
                    number,
                    place: at,
                    peak,
                };
            }
            Step::Next(s) => {
                if is_line(r) {
                    return Ending::Taken(s);
                }
                state = s;
                at = next;
            }
        }
    }
    // No record ends beyond the bytes.
    Ending::Ended {
        number: 10,
        place: at,
        peak: state.peak,
    }
}
