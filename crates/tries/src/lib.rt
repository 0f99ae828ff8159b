// The steps of a DRAT clause, added by its two tries or struck out, and of every command. (02, 4/14)
#![tactic(auto)]

mod add;
mod command;
mod strike;

ghost use Rattle.std.specs.Prelude.{◌≡◌, ◌≤◌};
ghost use Rattle.tries.specs.Words.{witness_words};

pub use add::clause_step;
pub use command::command_step;
pub use strike::strike_clause;
use words::Literals;

// The witness of the clause of these literals: it makes the pivot true and every other literal of the clause false.
pub fn witness(literals: Literals, variable: u8, positive: bool) -> Literals
    requires { (1 ≤ variable) × (variable ≤ 64) }
    ensures { result ≡ witness_words literals variable positive }
{
    let next = variable + 1;
    if positive {
        return Literals {
            positive: words::with_variable(literals.negative, variable),
            negative: words::without(literals.positive, variable, next),
        };
    }
    Literals {
        positive: words::without(literals.negative, variable, next),
        negative: words::with_variable(literals.positive, variable),
    }
}
