// The records of a line done again over what the check leaves. (02, 8/14)
#![tactic(auto)]

ghost use Rattle.std.specs.Prelude.{◌≡◌, ◌≤◌, length};
ghost use Rattle.walks.specs.Readable.{Roomy};
ghost use Rattle.conflict.specs.Marks.{unmarked};
ghost use Rattle.state.specs.States.{lent_of, state_of, Held};
ghost use Rattle.why.specs.Again.{again};
ghost use Rattle.remake.specs.Remade.{is_strike, Remade, Remakes};

use records::Record;
use state::{State, Step};

// Whether the record strikes out a member.
fn is_strike(r: Record) -> bool
    ensures { result ≡ is_strike r }
{
    match r {
        Record::NodeEntry(_) => false,
        Record::Witness { .. } => false,
        Record::ProofLine { .. } => false,
        Record::Strike(_) => true,
        Record::SetEntry { .. } => false,
        Record::End => false,
        Record::CutShort => false,
        Record::UnknownKind => false,
        Record::NoRecord => false,
    }
}

// The state after a record of the line that is done again; a striking is done already.
pub fn redo(
    vars: &mut [u8],
    lows: &mut [u16],
    highs: &mut [u16],
    heads: &mut [u16],
    links: &mut [u16],
    memo: &mut [u64],
    marks: &mut [u8],
    members: &mut [u16],
    scratch: &mut [u16],
    struck: &mut [u8],
    st: State,
    variables: u8,
    r: Record,
) -> State
    requires { let lent = lent_of vars.old lows.old highs.old heads.old links.old members.old scratch.old struck.old in
        Held variables lent st × (marks.old ≡ unmarked (length vars.old)) × Roomy vars.old memo.old }
    ensures fact { let lent = lent_of vars.old lows.old highs.old heads.old links.old
        members.old scratch.old struck.old in
        let returned = lent_of vars.new lows.new highs.new heads.new links.new
        members.new scratch.new struck.new in
        Remade variables (length vars.old) lent returned st r result }
    ensures marks_after { marks.new ≡ unmarked (length vars.old) }
{
    if is_strike(r) {
        return st;
    }
    match steps::record_step(
        vars, lows, highs, heads, links, memo, marks, members, scratch, struck, st, variables,
        false, r,
    ) {
        Step::Next(q) => q,
        Step::Stop { .. } => st,
        Step::Spent { .. } => st,
    }
}

// The records from `from` up to `to` done again.
pub fn remake(
    vars: &mut [u8],
    lows: &mut [u16],
    highs: &mut [u16],
    heads: &mut [u16],
    links: &mut [u16],
    memo: &mut [u64],
    marks: &mut [u8],
    members: &mut [u16],
    scratch: &mut [u16],
    struck: &mut [u8],
    first: State,
    variables: u8,
    proof: &[u8],
    from: usize,
    to: usize,
) -> State
    requires { let lent = lent_of vars.old lows.old highs.old heads.old links.old members.old scratch.old struck.old in
        Held variables lent first
        × (marks.old ≡ unmarked (length vars.old))
        × Roomy vars.old memo.old
        × (to ≤ length proof.now)
        × Remakes variables (length vars.old) proof.now (state_of lent first) from to }
    ensures fact { let lent = lent_of vars.old lows.old highs.old heads.old links.old
        members.old scratch.old struck.old in
        let returned = lent_of vars.new lows.new highs.new heads.new links.new
        members.new scratch.new struck.new in
        (state_of returned result ≡ again to variables (length vars.old) proof.now (state_of lent first) from to)
        × Held variables returned result }
    ensures marks_after { marks.new ≡ unmarked (length vars.old) }
{
    let mut state = first;
    let mut at = from;
    while at < to {
        let r = records::record_from(proof, at);
        let next = at + records::record_length(r);
        state = redo(
            vars, lows, highs, heads, links, memo, marks, members, scratch, struck, state,
            variables, r,
        );
        at = next;
    }
    state
}
