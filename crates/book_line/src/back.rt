// What a call says and keeps, and what a refused one writes back.
ghost use Rattle.std.specs.Prelude.{◌≡◌, ◌+◌, ◌-◌, ◌≤◌, max, length, take};
ghost use Rattle.shares.specs.Alone.{book_bound};
ghost use Rattle.shares.specs.Books.{padded};
ghost use Rattle.book_line.specs.Says.{said_by, book_with, RoundsFit, unfit_said, first_state};

use crate::Said;
use shares::{Book, Stage};
use state::State;
use words::Literals;

// What is said for a book as it is after the call.
pub fn said_by(number: u8, place: usize, count: usize, book: Book) -> Said
    ensures { result ≡ said_by number place count book }
{
    Said {
        number,
        place,
        lines: book.lines,
        rounds: book.rounds,
        peak: book.peak,
        count,
        book,
    }
}

// A count less the two constants.
pub fn less_constants(count: usize) -> usize
    ensures { result ≡ count - 2 }
{
    if count < 2 {
        return 0;
    }
    count - 2
}

// The book that ends with a number at a place.
pub fn bound(b: Book, number: u8, place: usize, peak: usize) -> Book
    ensures { result ≡ book_bound b number place peak }
{
    Book {
        share: b.share,
        stage: Stage::Bound { number, place },
        variables: b.variables,
        clauses: b.clauses,
        lines: b.lines,
        rounds: b.rounds,
        charge: b.charge,
        peak: less_constants(peak),
        refuted: b.refuted,
    }
}

// The book once a line is accepted.
pub fn with_line(b: Book, st: State) -> Book
    requires { RoundsFit b st }
    ensures { result ≡ book_with b st }
{
    Book {
        share: b.share,
        stage: Stage::Lines,
        variables: b.variables,
        clauses: b.clauses,
        lines: st.lines,
        rounds: b.rounds + st.rounds,
        charge: less_constants(st.count),
        peak: less_constants(st.peak),
        refuted: st.refuted,
    }
}

// A refused call: the first m members and `charge` own nodes as they were, with m marks of the call; zeros above.
pub fn keep(
    own: &mut [u16],
    members: &mut [u16],
    struck: &mut [u8],
    marks: &[u8],
    charge: usize,
    m: usize,
)
    requires { (charge ≤ length own.old) × (m ≤ length members.old) × (m ≤ length struck.old) × (m ≤ length marks.now) }
    ensures own_after { own.new ≡ padded (take charge own.old) (length own.old) }
    ensures members_after { members.new ≡ padded (take m members.old) (length members.old) }
    ensures struck_after { struck.new ≡ padded (take m marks.now) (length struck.old) }
{
    book_parts::put::zero_numbers_from(own, charge);
    book_parts::put::zero_numbers_from(members, m);
    book_parts::put::copy_marks(struck, marks, m);
    book_parts::put::zero_marks_from(struck, m);
}

// A call refused with 26: nothing changes.
pub fn unfit(count: usize, b: Book) -> Said
    ensures { result ≡ unfit_said count b }
{
    Said {
        number: 26,
        place: 0,
        lines: 0,
        rounds: 0,
        peak: 0,
        count,
        book: b,
    }
}

// The greater of two counts.
fn greater(j: usize, k: usize) -> usize
    ensures { result ≡ max j k }
{
    if j < k {
        return k;
    }
    j
}

// The state before a call's first record.
pub fn first_state(b: Book, count: usize) -> State
    requires { (b.clauses ≤ 1024) × (b.lines ≤ 1024) × (b.peak ≤ 65536) }
    ensures { result ≡ first_state b count }
{
    State {
        count,
        kept: count,
        members: b.clauses + b.lines,
        entries: 0,
        witness: Literals {
            positive: 0,
            negative: 0,
        },
        lines: b.lines,
        rounds: 0,
        peak: greater(b.peak + 2, count),
        refuted: b.refuted,
    }
}
