// What the cause of a refused command is worked out from.
ghost use Rattle.std.specs.Prelude.{◌≡◌};
ghost use Rattle.command_causes.specs.Choice.{node_choice, shut_choice, line_choice, record_choice, clause_choice, command_choice};

use crate::Refused;
use commands::{Command, DratClause};
use records::{EntryNo, NodeBody, Record, Rule};

fn node_choice(number: u8, b: NodeBody) -> Refused
    ensures { result ≡ node_choice number b }
{
    if number == 14 {
        return Refused::OutOfOrder(b);
    }
    Refused::Plain
}

fn shut_choice(rule: Rule, root: EntryNo) -> Refused
    ensures { result ≡ shut_choice rule root }
{
    match rule {
        Rule::Rup => Refused::Plain,
        Rule::Pr => Refused::NotWitnessed(root),
        Rule::Path => Refused::Plain,
    }
}

fn line_choice(number: u8, rule: Rule, root: EntryNo) -> Refused
    ensures { result ≡ line_choice number rule root }
{
    if number == 19 {
        return Refused::NotShown { rule, root };
    }
    if number == 18 {
        return shut_choice(rule, root);
    }
    Refused::Plain
}

fn record_choice(number: u8, rec: Record) -> Refused
    ensures { result ≡ record_choice number rec }
{
    match rec {
        Record::NodeEntry(b) => node_choice(number, b),
        Record::Witness { .. } => Refused::Plain,
        Record::ProofLine { rule, root } => line_choice(number, rule, root),
        Record::Strike(_) => Refused::Plain,
        Record::SetEntry { .. } => Refused::Plain,
        Record::End => Refused::Plain,
        Record::CutShort => Refused::Plain,
        Record::UnknownKind => Refused::Plain,
        Record::NoRecord => Refused::Plain,
    }
}

fn clause_choice(number: u8, clause: DratClause) -> Refused
    ensures { result ≡ clause_choice number clause }
{
    if number == 19 {
        return Refused::ClauseNotShown(clause);
    }
    Refused::Plain
}

pub fn command_choice(number: u8, command: Option<Command>) -> Refused
    ensures { result ≡ command_choice number command }
{
    match command {
        Some(
            Command::Recorded {
                record: rec,
                more: _,
            },
        ) => record_choice(number, rec),
        Some(Command::Added(clause)) => clause_choice(number, clause),
        Some(Command::Struck(_)) => Refused::Plain,
        Some(Command::Finished) => Refused::Plain,
        None => Refused::Plain,
    }
}
