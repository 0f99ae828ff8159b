// What stands next in a proof, in each of its forms. (01, The proof; 02, 4/14 and 9/14)
#![tactic(auto)]

mod binary;
mod text;

ghost use Rattle.std.specs.Prelude.{◌≡◌, ◌≤◌, length, Ok};
ghost use Rattle.commands.specs.Commands.{record_read, start, command_at};
ghost use Rattle.commands.specs.Inner.{clause_command, read_of};

pub use binary::{GroupsRead, fault_place, groups_at};
use dimacs::{Literal, Refusal};
use records::Record;
use words::Literals;

// The forms of a proof.
#[derive(Clone, Copy)]
pub enum Form {
    Records,
    Text,
    Binary,
}

// How a proof is to be read, and whether in the consequence profile.
#[derive(Clone, Copy)]
pub struct Mode {
    pub form: Form,
    pub consequence: bool,
}

// A clause of a DRAT proof: the set of its literals, and its pivot, which is its first literal; the empty clause has none.
#[derive(Clone, Copy)]
pub struct DratClause {
    pub literals: Literals,
    pub pivot: Option<Literal>,
}

// A record, and whether a byte follows it; a clause added or struck out; the end of a DRAT proof.
#[derive(Clone, Copy)]
pub enum Command {
    Recorded { record: Record, more: bool },
    Added(DratClause),
    Struck(DratClause),
    Finished,
}

// A command, and the place of the one that follows it.
#[derive(Clone, Copy)]
pub struct Read {
    pub command: Command,
    pub next: usize,
}

// The command of a clause.
fn clause_command(strikes: bool, clause: DratClause) -> Command
    ensures { result ≡ clause_command strikes clause }
{
    if strikes {
        return Command::Struck(clause);
    }
    Command::Added(clause)
}

// The record whose first byte is at `at`.
fn record_read(proof: &[u8], at: usize) -> Read
    requires { at ≤ length proof.now }
    ensures { Ok result ≡ read_of at (record_read proof.now at) }
{
    let record = records::record_from(proof, at);
    let next = at + records::record_length(record);
    Read {
        command: Command::Recorded {
            record,
            more: next < proof.len(),
        },
        next,
    }
}

// The first byte of the first command.
pub fn start_of(proof: &[u8], form: Form) -> usize
    ensures value { result ≡ start form proof.now }
    ensures upper_bound { result ≤ length proof.now }
{
    match form {
        Form::Records => 0,
        Form::Text => dimacs::skip_between(proof, 0),
        Form::Binary => 0,
    }
}

// The command whose first byte is at `at`, in a formula of so many variables; or its fault of form.
pub fn command_at(proof: &[u8], at: usize, variables: u8, form: Form) -> Result<Read, Refusal>
    requires { (at ≤ length proof.now) × (variables ≤ 64) }
    ensures { result ≡ read_of at (command_at form proof.now variables at) }
{
    match form {
        Form::Records => Ok(record_read(proof, at)),
        Form::Text => text::text_at(proof, at, variables),
        Form::Binary => binary::binary_at(proof, at, variables),
    }
}
