// One record of a proof: the next state, or the number and the place of the proof's end.
#![tactic(auto)]

ghost use Rattle.std.specs.Prelude.{◌≡◌, ℕ, length};
ghost use Rattle.verdict.specs.Steps.{end_step};
ghost use Rattle.verdict.specs.Steps.{record_step};
ghost use Rattle.walks.specs.Readable.{Roomy};
ghost use Rattle.conflict.specs.Marks.{unmarked};
ghost use Rattle.state.specs.States.{Lent, lent_of, state_of, Held, Stepped};

use records::Record;
use state::{State, Step};

pub mod line;
pub mod strike;
mod witness;

pub use witness::with_witness;

// The end record; `more` tells whether a byte follows it.
fn end_step(st: State, more: bool) -> Step
    ensures { (n : ℕ) (l : Lent) → Stepped n l l st (end_step (state_of l st) more) result }
{
    if witness::waits(st.witness) {
        return Step::Stop {
            number: 16,
            offset: 0,
        };
    }
    if more {
        return Step::Stop {
            number: 11,
            offset: 1,
        };
    }
    if st.refuted {
        return Step::Stop {
            number: 0,
            offset: 0,
        };
    }
    Step::Stop {
        number: 20,
        offset: 0,
    }
}

// The step that a record makes; `more` tells whether a byte follows it. Table, index, member list, scratch list and the members' marks
// (`struck`) are then the next state's; a refused record leaves table, index, member list and its marks as they were. The working marks
// (`marks`) are clear again.
pub fn record_step(
    vars: &mut [u8],
    lows: &mut [u16],
    highs: &mut [u16],
    heads: &mut [u16],
    links: &mut [u16],
    memo: &mut [u64],
    marks: &mut [u8],
    members: &mut [u16],
    scratch: &mut [u16],
    struck: &mut [u8],
    st: State,
    variables: u8,
    more: bool,
    r: Record,
) -> Step
    requires { let lent = lent_of vars.old lows.old highs.old heads.old links.old members.old scratch.old
        struck.old in
        Held variables lent st × (marks.old ≡ unmarked (length vars.old)) × Roomy vars.old memo.old }
    ensures fact { let lent = lent_of vars.old lows.old highs.old heads.old links.old
        members.old scratch.old struck.old in
        let returned = lent_of vars.new lows.new highs.new heads.new links.new
        members.new scratch.new struck.new in
        Stepped variables lent returned st (record_step variables (length vars.old) (state_of lent st) more r) result }
    ensures marks_after { marks.new ≡ unmarked (length vars.old) }
{
    match r {
        Record::NodeEntry(b) => entries::node::node_step(
            vars, lows, highs, heads, links, scratch, st, variables, b,
        ),
        Record::Witness { variable: v, value } => witness::witness_step(st, variables, v, value),
        Record::ProofLine { rule, root } => line::line_step(
            vars, lows, highs, heads, links, memo, marks, members, scratch, struck, st, rule, root,
        ),
        Record::Strike(k) => strike::strike_step(struck, st, k),
        Record::SetEntry { kind, body: b } => entries::set::set_step(
            vars, lows, highs, heads, links, scratch, st, variables, kind, b,
        ),
        Record::End => end_step(st, more),
        Record::CutShort => Step::Stop {
            number: 10,
            offset: 0,
        },
        Record::UnknownKind => Step::Stop {
            number: 9,
            offset: 0,
        },
        Record::NoRecord => Step::Stop {
            number: 10,
            offset: 0,
        },
    }
}
