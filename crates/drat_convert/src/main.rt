// Converts a DRAT proof between text and binary: `drat_convert to-binary|to-text FILE`. Prints one line, number, place and length, and
// behind it so many bytes, the result. For any other word it prints nothing, and what it takes on standard error. (02, 9/14)
#![tactic(auto)]

ghost use Rattle.std.specs.Prelude.{◌≡◌, ◌++◌, ◌≤◌, length, take};
ghost use Rattle.drat_convert.specs.Converting.{direction_named, conversion_line, written_for};

use convert::Converted;
use program::Text;
use std::io;
use std::rt::{Env, Files};

// The most bytes of a file.
const LONGEST: usize = 65536;

// What the first argument names.
#[derive(Clone, Copy)]
enum Direction {
    ToBinary,
    ToText,
}

fn direction_of(word: &[u8]) -> Option<Direction>
    ensures { result ≡ direction_named word.now }
{
    let to_binary: &[u8] = b"to-binary";
    let to_text: &[u8] = b"to-text";
    if word == to_binary {
        return Some(Direction::ToBinary);
    }
    if word == to_text {
        return Some(Direction::ToText);
    }
    None
}

// The file's refusal, which leaves the output, else the conversion.
fn converted(direction: Direction, read: bool, file: &[u8], out: &mut [u8]) -> Converted
    requires { length out.old ≡ 262144 }
    ensures out_after { conversion_line result.number result.place result.length ++ take result.length out.new
        ≡ written_for direction read file.now }
    ensures length_bound { result.length ≤ 262144 }
{
    if !read {
        return Converted {
            number: 25,
            place: 0,
            length: 0,
        };
    }
    if file.len() > LONGEST {
        return Converted {
            number: 24,
            place: LONGEST,
            length: 0,
        };
    }
    match direction {
        Direction::ToBinary => convert::to_binary(file, out),
        Direction::ToText => convert::to_text(file, out),
    }
}

// The line at the start of the array, and where it ends.
fn put_line(told: Converted, line: &mut [u8]) -> usize
    requires { 63 ≤ length line.old }
    ensures line_after { take result line.new ≡ conversion_line told.number told.place told.length }
    ensures upper_bound { result ≤ length line.old }
{
    let after_number = report::put_field(u64::from(told.number), b' ', line, 0);
    let after_place = report::put_field(told.place as u64, b' ', line, after_number);
    report::put_field(told.length as u64, b'\n', line, after_place)
}

// The writes to standard output. They are passed nothing but the definition's bytes for the file that was read: the caller has shown that.
fn deliver<'a>(
    rt: &impl Print,
    line: &'a [u8],
    bytes: &'a [u8],
    direction: Direction,
    read: bool,
    file: &'a [u8],
) -> io::Result<()>
    requires { line.now ++ bytes.now ≡ written_for direction read file.now }
{
    rt.write_all(line)?;
    rt.write_all(bytes)
}

// The line and the result for what was read: the second argument names the file.
fn answer<'a>(
    rt: &impl Print,
    direction: Direction,
    f: Text,
    file: &'a [u8],
    out: &mut [u8],
) -> io::Result<()>
    requires { (f.argument ≡ 2) × (length out.old ≡ 262144) }
{
    let read = f.length.is_some();
    let told = converted(direction, read, file, out);
    let mut line = [0u8; 63];
    let end = put_line(told, &mut line);
    let length = told.length;
    deliver(rt, &line[..end], &out[..length], direction, read, file)
}

// A buffer has one byte more than a file may have, so that a file that is too long fills more than 65,536 bytes of it.
fn run(
    rt: &(impl Env + Files + Print),
    direction: Direction,
    file: &mut [u8],
    out: &mut [u8],
) -> io::Result<()>
    requires { length out.old ≡ 262144 }
{
    let f = program::read_argument(rt, 2, file);
    answer(rt, direction, f, f.bytes(file), out)
}

// The first argument names the direction.
fn start(
    rt: &(impl Env + Files + Print + Eprint),
    given: Text,
    word: &[u8],
    file: &mut [u8],
    out: &mut [u8],
) -> io::Result<()>
    requires { (given.argument ≡ 1) × (length out.old ≡ 262144) }
{
    match direction_of(word) {
        Some(direction) => run(rt, direction, file, out),
        None => rt.eprintln("drat_convert to-binary|to-text FILE"),
    }
}

fn main(rt: HostRuntime) -> io::Result<()> {
    let mut file = [0u8; 65537];
    let mut out = [0u8; 262144];
    let mut word = [0u8; program::LONGEST_WORD];
    let given = program::read_word(&rt, 1, &mut word);
    start(&rt, given, given.bytes(&word), &mut file, &mut out)
}
