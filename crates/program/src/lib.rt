// What the programs share: two files read, formula then proof, and one line written. What the line is for the bytes that were read is
// proved (crate `report`), and so is which argument names which file; here are the reads, whose bytes no contract can speak of, and the
// one write.
#![tactic(auto)]

ghost use Rattle.std.specs.Prelude.{◌≡◌, ◌≤◌, length, take, unwrap_or, IfSome, IfOk};
ghost use Rattle.report.specs.Line.{line_bytes};
ghost use Rattle.report.specs.Files.{said};

use commands::Mode;
use std::io::Read;
use std::rt::{Env, Files};
use std::{fs, io, str};

// The most bytes of an argument, as of the name of a file.
pub const LONGEST_WORD: usize = 4096;

// A file: which argument names it, and how many bytes came; `None` where it could not be read.
#[derive(Clone, Copy)]
pub struct Text {
    pub argument: usize,
    pub length: Option<usize>,
}

impl Text {
    // Its bytes, in the buffer that it was read into; none where it could not be read.
    pub fn bytes(self, buffer: &[u8]) -> &[u8]
        requires { IfSome self.length (λ n. n ≤ length buffer.now) }
        ensures { result.now ≡ take (unwrap_or self.length 0) buffer.now }
    {
        &buffer[..self.length.unwrap_or(0)]
    }
}

// Reads to the file's end, or until the buffer is full: how many bytes came.
fn read_all(file: &mut impl Read, buffer: &mut [u8]) -> io::Result<usize>
    ensures { IfOk result (λ n. n ≤ length buffer.old) }
{
    let mut at: usize = 0;
    while at < buffer.len() {
        let bytes = file.read(&mut buffer[at..])?;
        if bytes == 0 {
            break;
        }
        at += bytes;
    }
    Ok(at)
}

// The file of this name; a name that is no text is a file that cannot be read.
fn read_file(rt: &impl Files, name: &[u8], buffer: &mut [u8]) -> Option<usize>
    ensures { IfSome result (λ n. n ≤ length buffer.old) }
{
    let path = str::from_utf8(name).ok()?;
    let mut file = fs::open(rt, path).ok()?;
    read_all(&mut file, buffer).ok()
}

// The file that argument `i` names; a name not given is a file that cannot be read.
fn read_named(rt: &(impl Env + Files), i: usize, buffer: &mut [u8]) -> Option<usize>
    ensures { IfSome result (λ n. n ≤ length buffer.old) }
{
    let mut name = [0u8; LONGEST_WORD];
    let length = rt.arg(i, &mut name).ok()?;
    read_file(rt, &name[..length], buffer)
}

// Argument `i` itself, a word; one that is not given, or is longer than the buffer, is empty.
pub fn read_word(rt: &impl Env, i: usize, buffer: &mut [u8]) -> Text
    ensures { IfSome result.length (λ n. n ≤ length buffer.old) × (result.argument ≡ i) }
{
    let length = rt.arg(i, buffer).ok();
    Text {
        argument: i,
        length,
    }
}

// The file that argument `i` names, as far as the buffer has room for it.
pub fn read_argument(rt: &(impl Env + Files), i: usize, buffer: &mut [u8]) -> Text
    ensures { IfSome result.length (λ n. n ≤ length buffer.old) × (result.argument ≡ i) }
{
    let length = read_named(rt, i, buffer);
    Text {
        argument: i,
        length,
    }
}

// The one write to standard output. It is passed nothing but the definition's line for the bytes that were read: its caller has shown that.
fn deliver<'a>(
    rt: &impl Print,
    line: &'a [u8],
    mode: Mode,
    first: bool,
    formula: &'a [u8],
    second: bool,
    proof: &'a [u8],
) -> io::Result<()>
    requires { line.now ≡ line_bytes (said mode first formula.now second proof.now) }
{
    rt.write_all(line)
}

// The line for what was read: the first argument names the formula, the second the proof.
fn answer<'a>(
    rt: &impl Print,
    mode: Mode,
    f: Text,
    formula: &'a [u8],
    p: Text,
    proof: &'a [u8],
) -> io::Result<()>
    requires { (f.argument ≡ 1) × (p.argument ≡ 2) }
{
    let first = f.length.is_some();
    let second = p.length.is_some();
    let mut line = [0u8; 105];
    let told = report::report(mode, first, formula, second, proof, &mut line);
    let length = told.length;
    deliver(rt, &line[..length], mode, first, formula, second, proof)
}

// Both files read, the formula first; then the line. A buffer has one byte more than a file may have, so that a file that is too long
// fills more than 65,536 bytes of it.
pub fn run(
    rt: &(impl Env + Files + Print),
    mode: Mode,
    formula: &mut [u8],
    proof: &mut [u8],
) -> io::Result<()> {
    let f = read_argument(rt, 1, formula);
    let p = read_argument(rt, 2, proof);
    answer(rt, mode, f, f.bytes(formula), p, p.bytes(proof))
}
