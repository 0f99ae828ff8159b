// The consequence profile: "only RUP lines and strikings pass, and DRAT clauses only by their first try"; path lines pass too. (02, 11/14
// and 12/14)
#![tactic(auto)]

ghost use Rattle.std.specs.Prelude.{◌≡◌, ◌≤◌, cond, length, Ok, Err};
ghost use Rattle.dimacs.specs.Inner.{refusal_at};
ghost use Rattle.commands.specs.declared.Command.TheVariants.{Recorded};
ghost use Rattle.commands.specs.Commands.{command_at};
ghost use Rattle.commands.specs.Inner.{command_of, read_with};
ghost use Rattle.verdict.specs.Check.{is_pr, is_pr_line, shut_out};
ghost use Rattle.profile.specs.Admitted.{tried_as, let_in, admitted};

use commands::{Command, DratClause, Mode, Read};
use dimacs::Refusal;
use records::{Record, Rule};

fn is_pr(rule: Rule) -> bool
    ensures { result ≡ is_pr rule }
{
    match rule {
        Rule::Rup => false,
        Rule::Pr => true,
        Rule::Path => false,
    }
}

// Whether the record is a PR line.
fn is_pr_line(rec: Record) -> bool
    ensures { result ≡ is_pr_line rec }
{
    match rec {
        Record::NodeEntry(_) => false,
        Record::Witness { .. } => false,
        Record::ProofLine { rule, root: _ } => is_pr(rule),
        Record::Strike(_) => false,
        Record::SetEntry { .. } => false,
        Record::End => false,
        Record::CutShort => false,
        Record::UnknownKind => false,
        Record::NoRecord => false,
    }
}

// The record whose first byte is at `at`, or 33 in its place.
fn record_in(rec: Record, more: bool, at: usize, consequence: bool) -> Result<Command, Refusal>
    ensures { result ≡ cond (shut_out consequence rec) (Err (refusal_at 33 at)) (Ok (Recorded rec more)) }
{
    if consequence {
        if is_pr_line(rec) {
            return Err(Refusal {
                number: 33,
                place: at,
            });
        }
    }
    Ok(Command::Recorded { record: rec, more })
}

// The clause, without a pivot where it has no second try.
fn clause_in(clause: DratClause, consequence: bool) -> DratClause
    ensures { result ≡ tried_as consequence clause }
{
    if consequence {
        let literals = clause.literals;
        return DratClause {
            literals,
            pivot: None,
        };
    }
    clause
}

// The command to be judged, whose first byte is at `at`, within the profile or without it.
fn let_in(command: Command, at: usize, consequence: bool) -> Result<Command, Refusal>
    ensures { result ≡ let_in consequence at command }
{
    match command {
        Command::Recorded { record: rec, more } => record_in(rec, more, at, consequence),
        Command::Added(clause) => Ok(Command::Added(clause_in(clause, consequence))),
        Command::Struck(_) => Ok(command),
        Command::Finished => Ok(command),
    }
}

// The same of what is read; a place is counted from the command's first byte, and a fault of form stays.
pub fn admitted(command: Result<Command, Refusal>, consequence: bool) -> Result<Command, Refusal>
    ensures { result ≡ admitted consequence command }
{
    match command {
        Ok(read) => let_in(read, 0, consequence),
        Err(refusal) => Err(refusal),
    }
}

// The command of the proof whose first byte is at `at`, as it is to be judged, and the place of the next; or its refusal.
pub fn admitted_at(proof: &[u8], at: usize, variables: u8, mode: Mode) -> Result<Read, Refusal>
    requires { (at ≤ length proof.now) × (variables ≤ 64) }
    ensures { let read = command_at mode.form proof.now variables at in
        result ≡ read_with at read.next (admitted mode.consequence (command_of read.command)) }
{
    let form = mode.form;
    let read = commands::command_at(proof, at, variables, form)?;
    let command = let_in(read.command, at, mode.consequence)?;
    Ok(Read {
        command,
        next: read.next,
    })
}
