// The step of a command, whatever its form. (02, 4/14)
ghost use Rattle.std.specs.Prelude.{◌≡◌, Bool, ℕ, length};
ghost use Rattle.walks.specs.Readable.{Roomy};
ghost use Rattle.conflict.specs.Marks.{unmarked};
ghost use Rattle.commands.specs.Commands as read;
ghost use Rattle.commands.specs.Inner.{command_of};
ghost use Rattle.verdict.specs.Check.{finish, step};
ghost use Rattle.state.specs.States.{Lent, lent_of, state_of, Held, Stepped};
ghost use Rattle.profile.specs.Admitted.{admitted};
ghost use Rattle.tries.specs.Commands.{CommandFits, PivotOfFits};

use commands::Command;
use dimacs::Refusal;
use state::{State, Step};

// The end of a text: 0 or 20.
fn finish_step(st: State) -> Step
    ensures { (n : ℕ) (l : Lent) → Stepped n l l st (finish (state_of l st)) result }
{
    if st.refuted {
        return Step::Stop {
            number: 0,
            offset: 0,
        };
    }
    Step::Stop {
        number: 20,
        offset: 0,
    }
}

// The step that a command makes, as it is admitted within the consequence profile or without it, or its fault of form, with the place
// counted from the command's first byte. Table, index, member list, scratch list and the members' marks (`struck`) are then the next
// state's; a refused command leaves table, index, member list and its marks as they were. The working marks (`marks`) are clear again.
pub fn command_step(
    vars: &mut [u8],
    lows: &mut [u16],
    highs: &mut [u16],
    heads: &mut [u16],
    links: &mut [u16],
    memo: &mut [u64],
    marks: &mut [u8],
    members: &mut [u16],
    scratch: &mut [u16],
    struck: &mut [u8],
    st: State,
    variables: u8,
    command: Result<Command, Refusal>,
) -> Step
    requires { let lent = lent_of vars.old lows.old highs.old heads.old links.old members.old scratch.old
        struck.old in
        Held variables lent st × (marks.old ≡ unmarked (length vars.old)) × Roomy vars.old memo.old × PivotOfFits command }
    ensures stepped { let lent = lent_of vars.old lows.old highs.old heads.old links.old
        members.old scratch.old struck.old in
        let returned = lent_of vars.new lows.new highs.new heads.new links.new
        members.new scratch.new struck.new in
        (profile : Bool) (c : read.Command) → admitted profile (command_of c) ≡ command → CommandFits variables c →
        Stepped variables lent returned st (step profile variables (length vars.old) (state_of lent st) c) result }
    ensures marks_after { marks.new ≡ unmarked (length vars.old) }
{
    match command {
        Ok(Command::Recorded { record, more }) => steps::record_step(
            vars, lows, highs, heads, links, memo, marks, members, scratch, struck, st, variables,
            more, record,
        ),
        Ok(Command::Added(clause)) => crate::clause_step(
            vars, lows, highs, heads, links, memo, marks, members, scratch, struck, st, clause,
        ),
        Ok(Command::Struck(clause)) => crate::strike_clause(
            vars, lows, highs, heads, links, members, struck, st, clause,
        ),
        Ok(Command::Finished) => finish_step(st),
        Err(refusal) => Step::Stop {
            number: refusal.number,
            offset: refusal.place,
        },
    }
}
