// The cause of a command that is refused.
ghost use Rattle.std.specs.Prelude.{◌≡◌, Bool, ◌≤◌, length};
ghost use Rattle.table.specs.Indexed.{table_of};
ghost use Rattle.walks.specs.Readable.{Roomy};
ghost use Rattle.conflict.specs.Marks.{unmarked};
ghost use Rattle.commands.specs.Commands as read;
ghost use Rattle.verdict.specs.Check.{zeros};
ghost use Rattle.state.specs.States.{lent_of, state_of, Held};
ghost use Rattle.tries.specs.Commands.{CommandFits};
ghost use Rattle.causes.specs.Causes as causes;
ghost use Rattle.causes.specs.Answers.{told};
ghost use Rattle.command_causes.specs.Causes.{told_by, command_let, RefusedWith, RefusedBy};

use crate::{Cause, Refused};
use commands::Command;
use state::State;

// Of the command as it is admitted, if it is, within the consequence profile or without it, in the state held, for the number that it is
// refused with; 19's literals are told in `fixed`. What is made is dropped: table and marks are then as before; the scratch list is then
// anything.
pub fn cause(
    vars: &mut [u8],
    lows: &mut [u16],
    highs: &mut [u16],
    heads: &mut [u16],
    links: &mut [u16],
    memo: &mut [u64],
    marks: &mut [u8],
    members: &[u16],
    scratch: &mut [u16],
    struck: &[u8],
    fixed: &mut [u64],
    st: State,
    variables: u8,
    number: u8,
    command: Option<Command>,
) -> Cause
    requires { let lent = lent_of vars.old lows.old highs.old heads.old links.old members.now scratch.old
        struck.now in
        Held variables lent st
        × (marks.old ≡ unmarked (length vars.old))
        × Roomy vars.old memo.old
        × (128 ≤ length fixed.old)
        × (fixed.old ≡ zeros (length fixed.old))
        × RefusedBy variables (length vars.old) (state_of lent st) number command }
    ensures fixed_after { let lent = lent_of vars.old lows.old highs.old heads.old links.old
        members.now scratch.old struck.now in
        (profile : Bool) (c : read.Command) → command_let profile c ≡ command → CommandFits variables c →
        RefusedWith profile variables (length vars.old) (state_of lent st) number c →
        told_by result fixed.new
        ≡ told (length fixed.old) (causes.cause profile variables number (state_of lent st) c) }
    ensures count_unchanged { table_of vars.new lows.new highs.new heads.new links.new st.count
        ≡ table_of vars.old lows.old highs.old heads.old links.old st.count }
    ensures marks_after { marks.new ≡ unmarked (length vars.old) }
{
    match crate::choice::command_choice(number, command) {
        Refused::Plain => crate::of_numbers(0, 0, 0),
        Refused::OutOfOrder(b) => {
            let child = record_causes::node_cause(vars, lows, highs, scratch, st, b);
            crate::of_numbers(b.variable, child, 0)
        }
        Refused::NotWitnessed(root) => {
            let word = record_causes::shut_cause(
                vars, lows, highs, memo, scratch, st, variables, root,
            );
            crate::of_numbers(0, 0, word)
        }
        Refused::NotShown { rule, root } => crate::line::line_cause(
            vars, lows, highs, heads, links, memo, marks, members, scratch, struck, fixed, st,
            rule, root,
        ),
        Refused::ClauseNotShown(clause) => {
            let f = clause_causes::clause_cause(
                vars, lows, highs, heads, links, memo, marks, members, scratch, struck, fixed, st,
                clause,
            );
            crate::of_rounds(f.rounds, f.has_member, f.member)
        }
    }
}
