// The true cause of 14, 18 and 19 in numbers, of the command that is refused, by rule, record and command. (02, 8/14)
#![tactic(auto)]

mod choice;
pub mod command;
mod line;

ghost use Rattle.std.specs.Prelude.{◌≡◌, ◌^◌, ◌<◌};
ghost use Rattle.command_causes.specs.Causes.{of_numbers, of_rounds};

use commands::DratClause;
use records::{EntryNo, NodeBody, Rule};

// The two variables of 14; the word of 18's assignment; the rounds of 19, and the member that was not shown where one is named. What a
// number has not is 0.
#[repr(C)]
#[derive(Clone, Copy)]
pub struct Cause {
    pub variable: u8,
    pub child: u8,
    pub word: u64,
    pub rounds: usize,
    pub has_member: bool,
    pub member: usize,
}

// What the cause is worked out from: nothing, where the number alone tells it; a node record of 14; the root of a PR line of 18; a line of
// 19; an added clause of 19.
#[derive(Clone, Copy)]
pub enum Refused {
    Plain,
    OutOfOrder(NodeBody),
    NotWitnessed(EntryNo),
    NotShown { rule: Rule, root: EntryNo },
    ClauseNotShown(DratClause),
}

// The cause of 14 or 18, or none.
fn of_numbers(variable: u8, child: u8, word: u64) -> Cause
    ensures value { result ≡ of_numbers variable child word }
    ensures word_bound { word < 2 ^ 64 }
{
    Cause {
        variable,
        child,
        word,
        rounds: 0,
        has_member: false,
        member: 0,
    }
}

// The cause of 19.
fn of_rounds(rounds: usize, named: bool, member: usize) -> Cause
    ensures { result ≡ of_rounds rounds named member }
{
    Cause {
        variable: 0,
        child: 0,
        word: 0,
        rounds,
        has_member: named,
        member,
    }
}
