// DRAT text: the clause that stands next, added or struck out. (02, 4/14)
ghost use Rattle.std.specs.Prelude.{◌≡◌, ◌-◌, ◌≤◌, length};
ghost use Rattle.dimacs.specs.Text.{between};
ghost use Rattle.dimacs.specs.Clauses.{clause_from};
ghost use Rattle.commands.specs.Commands.{clause_read, text_read};
ghost use Rattle.commands.specs.Inner.{command_for, read_of};

use crate::{Command, DratClause, Read};
use dimacs::Refusal;

// The command whose first byte is at `at` and whose literals stand from `from` on.
fn clause_at(
    s: &[u8],
    at: usize,
    from: usize,
    variables: u8,
    strikes: bool,
) -> Result<Read, Refusal>
    requires { (at ≤ from) × (from ≤ length s.now) × (variables ≤ 64) }
    ensures { let next = clause_from s.now variables (length s.now - from) at from in
        result ≡ read_of at (clause_read (between s.now) at (command_for strikes) next) }
{
    let closed = dimacs::open_clause(s, at, from, variables)?;
    let literals = closed.literals;
    let pivot = dimacs::token_at(s, from, variables).unwrap_or(None);
    let next = dimacs::skip_between(s, closed.next);
    let clause = DratClause { literals, pivot };
    Ok(Read {
        command: crate::clause_command(strikes, clause),
        next,
    })
}

// The command of a text whose first byte is at `at`. 100 is `d`.
#[tactic(auto, using(crate::proofs::Stream::text_striking))]
pub fn text_at(s: &[u8], at: usize, variables: u8) -> Result<Read, Refusal>
    requires { (at ≤ length s.now) × (variables ≤ 64) }
    ensures { result ≡ read_of at (text_read s.now variables at) }
{
    if at < s.len() {
        if dimacs::is_letter(s, at, 100) {
            let from = dimacs::skip_between(s, at + 1);
            return clause_at(s, at, from, variables, true);
        }
        return clause_at(s, at, at, variables, false);
    }
    Ok(Read {
        command: Command::Finished,
        next: at,
    })
}
