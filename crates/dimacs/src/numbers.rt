// Numbers, cut off above the header's limits, and what a token says.
ghost use Rattle.std.specs.Prelude.{◌≡◌, ◌+◌, ◌-◌, ◌*◌, ◌≤◌, length};
ghost use Rattle.std.proofs.Math.Seq.{slice};
ghost use Rattle.dimacs.specs.Numbers.{is_digit, token_of};
ghost use Rattle.dimacs.specs.Inner.{capped, digits_after, natural_of, signed_token, token_read};

use crate::Literal;

fn is_digit(b: u8) -> bool
    ensures { result ≡ is_digit b }
{
    48 <= b && b <= 57
}

// The number n with one digit more.
fn with_digit(n: u16, b: u8) -> u16
    requires { (n ≤ 1025) × (48 ≤ b) × (b ≤ 57) }
    ensures value { result ≡ capped (n * 10 + (b - 48)) }
    ensures upper_bound { result ≤ 1025 }
{
    let m = n * 10 + u16::from(b - 48);
    m.min(1025)
}

// The bytes from `from` to `to` as a number, 1,025 for every one above 1,024; none where one of them is no digit.
fn read_digits(s: &[u8], from: usize, to: usize) -> Option<u16>
    requires { (from ≤ to) × (to ≤ length s.now) }
    ensures { result ≡ digits_after 0 (slice from to s.now) }
{
    let mut n: u16 = 0;
    for at in from..to {
        let b = s[at];
        if !is_digit(b) {
            return None;
        }
        n = with_digit(n, b);
    }
    Some(n)
}

// The bytes from `from` to `to`, which are to be `0` or digits not starting with 0: a number with no minus.
pub fn read_natural(s: &[u8], from: usize, to: usize) -> Option<u16>
    requires { (from ≤ to) × (to ≤ length s.now) }
    ensures { result ≡ natural_of (slice from to s.now) }
{
    if from == to {
        return None;
    }
    if s[from] != 48 {
        return read_digits(s, from, to);
    }
    if to - from == 1 {
        return Some(0);
    }
    None
}

// A token with or without a minus, by the number behind it.
fn signed_token(variables: u8, positive: bool, number: Option<u16>) -> Result<Option<Literal>, u8>
    ensures { result ≡ token_read (signed_token variables positive number) }
{
    let v = number.ok_or(3)?;
    if v == 0 {
        if positive {
            return Ok(None);
        }
        return Err(3);
    }
    if u16::from(variables) < v {
        return Err(4);
    }
    let variable = v as u8;
    Ok(Some(Literal { variable, positive }))
}

// What the token from `from` to `to` says: a literal, none where it closes the clause, or the number of its fault.
// Always inlined, so that a reader knows the sign by the branch taken and unpacks no literal (91 instructions a token else, 78 so).
#[inline(always)]
pub fn read_token(s: &[u8], from: usize, to: usize, variables: u8) -> Result<Option<Literal>, u8>
    requires { (from ≤ to) × (to ≤ length s.now) }
    ensures { result ≡ token_read (token_of variables (slice from to s.now)) }
{
    if from == to {
        return Err(3);
    }
    if s[from] == 45 {
        return signed_token(variables, false, read_natural(s, from + 1, to));
    }
    signed_token(variables, true, read_natural(s, from, to))
}
