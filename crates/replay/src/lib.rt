// The proof's commands judged one after another, up to the one that ends the proof.
#![tactic(auto)]

ghost use Rattle.std.specs.Prelude.{◌≡◌, length};
ghost use Rattle.walks.specs.Readable.{Roomy};
ghost use Rattle.conflict.specs.Marks.{unmarked};
ghost use Rattle.verdict.specs.Check.{left, proof_from};
ghost use Rattle.state.specs.States.{lent_of, state_of, Held};
ghost use Rattle.replay.specs.Ends.{Ends};

use commands::Mode;
use state::{State, Step};

// How the proof ends: 01's number, its place, the greatest count reached, and the state before the command that ended it.
#[derive(Clone, Copy)]
pub struct Ended {
    pub number: u8,
    pub place: usize,
    pub peak: usize,
    pub state: State,
}

// Command after command, up to one that ends the proof. The scratch list is then anything.
pub fn read_commands(
    vars: &mut [u8],
    lows: &mut [u16],
    highs: &mut [u16],
    heads: &mut [u16],
    links: &mut [u16],
    memo: &mut [u64],
    marks: &mut [u8],
    members: &mut [u16],
    scratch: &mut [u16],
    struck: &mut [u8],
    first: State,
    variables: u8,
    mode: Mode,
    proof: &[u8],
) -> Ended
    requires { let lent = lent_of vars.old lows.old highs.old heads.old links.old members.old scratch.old struck.old in
        Held variables lent first × (marks.old ≡ unmarked (length vars.old)) × Roomy vars.old memo.old }
    ensures first_after { let lent = lent_of vars.old lows.old highs.old heads.old links.old
        members.old scratch.old struck.old in
        let returned = lent_of vars.new lows.new highs.new heads.new links.new
        members.new scratch.new struck.new in
        proof_from mode variables (length vars.old) proof.now (state_of lent first)
        ≡ left result.number result.place result.peak (state_of returned result.state) }
    ensures fact { let returned = lent_of vars.new lows.new highs.new heads.new links.new
        members.new scratch.new struck.new in
        Ends returned result.state }
{
    let mut state = first;
    let mut at: usize = commands::start_of(proof, mode.form);
    while at <= proof.len() {
        let read = match profile::admitted_at(proof, at, variables, mode) {
            Ok(read) => read,
            Err(refusal) => {
                return Ended {
                    number: refusal.number,
                    place: refusal.place,
                    peak: state.peak,
                    state,
                };
            }
        };
        match tries::command_step(
            vars,
            lows,
            highs,
            heads,
            links,
            memo,
            marks,
            members,
            scratch,
            struck,
            state,
            variables,
            Ok(read.command),
        ) {
            Step::Stop { number, offset } => {
                return Ended {
                    number,
                    place: at + offset,
                    peak: state.peak,
                    state,
                };
            }
            Step::Spent { number, peak } => {
                return Ended {
                    number,
                    place: at,
                    peak,
                    state,
                };
            }
            Step::Next(s) => {
                state = s;
                at = read.next;
            }
        }
    }
    // No command ends beyond the proof.
    Ended {
        number: 10,
        place: at,
        peak: state.peak,
        state,
    }
}
