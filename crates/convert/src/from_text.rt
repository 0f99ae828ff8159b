// A DRAT text in binary, token by token.
ghost use Rattle.std.specs.Prelude.{◌≡◌, ◌-◌, ◌≤◌, ◌<◌, length};
ghost use Rattle.dimacs.specs.Clauses.{clause_from};
ghost use Rattle.convert.specs.Convert.{conversion_of, code_of, groups_of, token_text, binary_literals, binary_line, to_binary};
ghost use Rattle.convert.specs.Inner.{poured, put_all, literal_made, ClauseWritten, LineWritten, text_next};

use crate::{Converted, Written, output};
use dimacs::{Literal, Refusal};

// The number of a literal.
fn code_of(literal: Literal) -> u8
    requires { literal.variable ≤ 64 }
    ensures { result ≡ code_of (literal_made literal.variable literal.positive) }
{
    if literal.positive {
        return 2 * literal.variable;
    }
    2 * literal.variable + 1
}

// A literal's groups: one, or two of which the second is 1.
fn put_groups(out: &mut [u8], many: usize, literal: Literal) -> usize
    requires { literal.variable ≤ 64 }
    ensures { poured out.new result
        ≡ put_all (poured out.old many) (groups_of (code_of (literal_made literal.variable literal.positive))) }
{
    let number = code_of(literal);
    if number < 128 {
        return output::put(out, many, number);
    }
    let next = output::put(out, many, number);
    output::put(out, next, 1)
}

// The bytes of a literal's token: a number has no leading 0.
fn token_length(literal: Literal) -> usize
    ensures { result ≡ length (token_text (literal_made literal.variable literal.positive)) }
{
    let digits = if literal.variable < 10 { 1 } else { 2 };
    if literal.positive { digits } else { digits + 1 }
}

// The clause of the tokens from `from` on, up to its closing 0; its command's first byte is at `first`.
fn clause_literals(
    text: &[u8],
    first: usize,
    from: usize,
    out: &mut [u8],
    many: usize,
) -> Result<Written, Refusal>
    requires { from ≤ length text.now }
    ensures { ClauseWritten binary_literals (poured out.old many) out.new
        (clause_from text.now 64 (length text.now - from) first from) result }
{
    let mut at = from;
    let mut bytes = many;
    while at < text.len() {
        match dimacs::token_at(text, at, 64) {
            Ok(None) => {
                return Ok(Written {
                    next: at + 1,
                    many: output::put(out, bytes, 0),
                });
            }
            Err(number) => {
                return Err(Refusal { number, place: at });
            }
            Ok(Some(l)) => {
                bytes = put_groups(out, bytes, l);
                let end = at + token_length(l);
                at = dimacs::skip_between(text, end);
            }
        }
    }
    Err(Refusal {
        number: 6,
        place: first,
    })
}

// The clause that stands next, with its opening byte. 100 is `d` and `64`, 97 is `61`.
fn clause_line(text: &[u8], at: usize, out: &mut [u8], many: usize) -> Result<Written, Refusal>
    requires { at < length text.now }
    ensures { LineWritten binary_line (poured out.old many) out.new
        (text_next text.now at) result }
{
    if dimacs::is_letter(text, at, 100) {
        let from = dimacs::skip_between(text, at + 1);
        let opened = output::put(out, many, 100);
        return clause_literals(text, at, from, out, opened);
    }
    let opened = output::put(out, many, 97);
    clause_literals(text, at, at, out, opened)
}

// The text in binary; or 3, 4, 6, 7.
pub fn to_binary(text: &[u8], out: &mut [u8]) -> Converted
    ensures { conversion_of out.new result ≡ to_binary (length out.old) text.now }
{
    clearing::clear_bytes(out);
    let mut at = dimacs::skip_between(text, 0);
    let mut many: usize = 0;
    while at < text.len() {
        match clause_line(text, at, out, many) {
            Ok(written) => {
                at = dimacs::skip_between(text, written.next);
                many = written.many;
            }
            Err(refusal) => {
                return output::refuse(out, refusal.number, refusal.place);
            }
        }
    }
    output::finish(out, many)
}
