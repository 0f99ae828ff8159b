// Bytes put into a line one after the other. Each function answers the place after the last byte that it put.
ghost use Rattle.std.specs.Prelude.{◌≡◌, [], ◌∷◌, ◌+◌, ◌<◌, ◌≤◌, length, take, drop};
ghost use Rattle.report.specs.Line.{decimal, field_text, line_bytes, Put};

use crate::Line;

fn put_byte(b: u8, line: &mut [u8], at: usize) -> usize
    requires { at < length line.old }
    ensures { Put line.old at (b ∷ []) line.new result }
{
    line[at] = b;
    at + 1
}

// A number's decimal digits. Not `write!`: into a slice it may fail, and no clause of std says which bytes it leaves there.
fn put_number(n: u64, line: &mut [u8], at: usize) -> usize
    requires { at + length (decimal n) ≤ length line.old }
    ensures { Put line.old at (decimal n) line.new result }
{
    if n < 10 {
        return put_byte(b'0' + n as u8, line, at);
    }
    let next = put_number(n / 10, line, at);
    put_byte(b'0' + (n % 10) as u8, line, next)
}

// A number's decimal digits and the byte that separates it from what follows.
pub fn put_field(n: u64, parting: u8, line: &mut [u8], at: usize) -> usize
    requires { at + 21 ≤ length line.old }
    ensures put { Put line.old at (field_text n parting) line.new result }
    ensures upper_bound { result ≤ at + 21 }
{
    let next = put_number(n, line, at);
    put_byte(parting, line, next)
}

// The line at the start of the array.
pub fn put_line(told: Line, line: &mut [u8; 105]) -> usize
    ensures line_after { take result line.new ≡ line_bytes told }
    ensures line_unchanged { drop result line.new ≡ drop result line.old }
    ensures prefix_len { (result ≤ length line.new) × (result ≡ length (take result line.new)) }
{
    let after_number = put_field(u64::from(told.number), b' ', line, 0);
    let after_place = put_field(told.place as u64, b' ', line, after_number);
    let after_lines = put_field(told.lines as u64, b' ', line, after_place);
    let after_rounds = put_field(told.rounds, b' ', line, after_lines);
    put_field(told.peak as u64, b'\n', line, after_rounds)
}
