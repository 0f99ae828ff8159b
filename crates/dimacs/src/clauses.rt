// The clauses, token by token.
ghost use Rattle.std.specs.Prelude.{◌≡◌, ◌-◌, ◌≤◌, length};
ghost use Rattle.std.proofs.Math.Seq.{slice};
ghost use Rattle.dimacs.specs.Text.{token_end};
ghost use Rattle.dimacs.specs.Numbers.{token_of};
ghost use Rattle.dimacs.specs.Clauses.{next_clause, clause_from};
ghost use Rattle.dimacs.specs.Inner.{token_read, open_of, clause_of};

use crate::text::Class;
use crate::{ClosedClause, Literal, Refusal, numbers, text};
use words::Literals;

// What the token at `at` says: a literal, none where it closes the clause, or the number of its fault.
pub fn token_at(s: &[u8], at: usize, variables: u8) -> Result<Option<Literal>, u8>
    requires { at ≤ length s.now }
    ensures { result ≡ token_read (token_of variables (slice at (token_end s.now at) s.now)) }
{
    let end = text::past_class(s, at, Class::Token);
    numbers::read_token(s, at, end, variables)
}

// The clause of the tokens from `from` on, up to its closing 0; one that does not close is refused at `first`.
// Never inlined, since inside a long caller the token's end is kept in memory, not in a register (87 instructions a token else, 78 so).
#[inline(never)]
pub fn open_clause(
    s: &[u8],
    first: usize,
    from: usize,
    variables: u8,
) -> Result<ClosedClause, Refusal>
    requires { (from ≤ length s.now) × (variables ≤ 64) }
    ensures { result ≡ open_of (clause_from s.now variables (length s.now - from) first from) }
{
    let mut literals = Literals {
        positive: 0,
        negative: 0,
    };
    let mut at = from;
    while at < s.len() {
        let end = text::past_class(s, at, Class::Token);
        match numbers::read_token(s, at, end, variables) {
            Ok(None) => {
                return Ok(ClosedClause {
                    literals,
                    first,
                    next: end,
                });
            }
            Err(number) => {
                return Err(Refusal { number, place: at });
            }
            Ok(Some(l)) => {
                literals = words::with_literal(literals, l.variable, l.positive);
                at = text::skip_between(s, end);
            }
        }
    }
    Err(Refusal {
        number: 6,
        place: first,
    })
}

// What comes next from `at` on, where `left` clauses are wanted yet: a clause that closes, or none at the end.
pub fn next_clause(
    formula: &[u8],
    at: usize,
    variables: u8,
    left: usize,
) -> Result<Option<ClosedClause>, Refusal>
    requires { (at ≤ length formula.now) × (variables ≤ 64) }
    ensures { result ≡ clause_of (next_clause formula.now variables left at) }
{
    let first = text::skip_between(formula, at);
    if first < formula.len() {
        if left == 0 {
            return Err(Refusal {
                number: 5,
                place: first,
            });
        }
        let closed = open_clause(formula, first, first, variables)?;
        return Ok(Some(closed));
    }
    if left == 0 {
        return Ok(None);
    }
    Err(Refusal {
        number: 5,
        place: first,
    })
}
