// Binary DRAT as text, literal by literal.
ghost use Rattle.std.specs.Prelude.{◌≡◌, cond, [], ◌∷◌, ◌-◌, ◌≤◌, ◌<◌, length};
ghost use Rattle.commands.specs.Commands.{binary_from};
ghost use Rattle.convert.specs.Convert.{conversion_of, digits_of, text_literals, text_line, to_text};
ghost use Rattle.convert.specs.Inner.{poured, put_all, literal_made, spaced, ClauseWritten, LineWritten, binary_next};

use crate::{Converted, Written, output};
use dimacs::{Literal, Refusal};

// The minus of a literal that has one.
fn put_sign(out: &mut [u8], many: usize, positive: bool) -> usize
    ensures { poured out.new result ≡ put_all (poured out.old many) (cond positive [] (45 ∷ [])) }
{
    if positive {
        return many;
    }
    output::put(out, many, 45)
}

// The digits of a variable.
fn put_digits(out: &mut [u8], many: usize, variable: u8) -> usize
    requires { variable ≤ 64 }
    ensures { poured out.new result ≡ put_all (poured out.old many) (digits_of variable) }
{
    if variable < 10 {
        return output::put(out, many, 48 + variable);
    }
    let next = output::put(out, many, 48 + variable / 10);
    output::put(out, next, 48 + variable % 10)
}

// A literal and a space.
fn put_literal(out: &mut [u8], many: usize, literal: Literal) -> usize
    requires { literal.variable ≤ 64 }
    ensures { poured out.new result
        ≡ put_all (poured out.old many) (spaced (literal_made literal.variable literal.positive)) }
{
    let signed = put_sign(out, many, literal.positive);
    let written = put_digits(out, signed, literal.variable);
    output::put(out, written, 32)
}

// The clause of the literals from `from` on, up to its zero byte; its opening byte is at `first`.
fn clause_literals(
    binary: &[u8],
    first: usize,
    from: usize,
    out: &mut [u8],
    many: usize,
) -> Result<Written, Refusal>
    requires { from ≤ length binary.now }
    ensures { ClauseWritten text_literals (poured out.old many) out.new
        (binary_from binary.now 64 (length binary.now - from) first from) result }
{
    let mut at = from;
    let mut bytes = many;
    while at < binary.len() {
        let groups = commands::groups_at(binary, at, 64);
        let end = groups.end;
        let token = groups.token;
        match token {
            Ok(None) => {
                let zero = output::put(out, bytes, 48);
                return Ok(Written {
                    next: end,
                    many: output::put(out, zero, 10),
                });
            }
            Err(number) => {
                return Err(Refusal {
                    number,
                    place: commands::fault_place(number, first, at),
                });
            }
            Ok(Some(l)) => {
                bytes = put_literal(out, bytes, l);
                at = end;
            }
        }
    }
    Err(Refusal {
        number: 6,
        place: first,
    })
}

// The clause that stands next. 97 is `61`, 100 is `64` and `d`.
fn clause_line(binary: &[u8], at: usize, out: &mut [u8], many: usize) -> Result<Written, Refusal>
    requires { at < length binary.now }
    ensures { LineWritten text_line (poured out.old many) out.new
        (binary_next binary.now at) result }
{
    let kind = binary[at];
    if kind == 97 {
        return clause_literals(binary, at, at + 1, out, many);
    }
    if kind == 100 {
        let letter = output::put(out, many, 100);
        let opened = output::put(out, letter, 32);
        return clause_literals(binary, at, at + 1, out, opened);
    }
    Err(Refusal {
        number: 9,
        place: at,
    })
}

// The binary proof as text; or 4, 6, 9, 31, 7.
pub fn to_text(binary: &[u8], out: &mut [u8]) -> Converted
    ensures { conversion_of out.new result ≡ to_text (length out.old) binary.now }
{
    clearing::clear_bytes(out);
    let mut at: usize = 0;
    let mut many: usize = 0;
    while at < binary.len() {
        match clause_line(binary, at, out, many) {
            Ok(written) => {
                at = written.next;
                many = written.many;
            }
            Err(refusal) => {
                return output::refuse(out, refusal.number, refusal.place);
            }
        }
    }
    output::finish(out, many)
}
