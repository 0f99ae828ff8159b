// What the programs report: the verdict on two files, its line of bytes and the status to end with. The programs, the exported calls and
// the hosts over them share this, so that the line and the status are proved once and nobody formats or maps them again.
#![tactic(auto)]

mod put;

ghost use Rattle.std.specs.Prelude.{◌≡◌, ◌≤◌, length, take, drop, None};
ghost use Rattle.verdict.specs.Check.{verdict};
ghost use Rattle.verdict.specs.Satisfies.{Unsatisfiable};
ghost use Rattle.report.specs.Files.{file_refused, some_refused, of_verdict, of_file, of_files, said, status_of};
ghost use Rattle.report.specs.Line.{line_bytes};

use commands::Mode;
pub use put::{put_field, put_line};

// The most bytes of a file.
const LONGEST: usize = 65536;

// 01's number and its place, the accepted lines, their rounds and the greatest count of the table.
#[derive(Clone, Copy)]
pub struct Line {
    pub number: u8,
    pub place: usize,
    pub lines: usize,
    pub rounds: u64,
    pub peak: usize,
}

// How many bytes the line has, and the status to end with.
#[repr(C)]
#[derive(Clone, Copy)]
pub struct Reported {
    pub length: usize,
    pub status: u8,
}

// The check with a table of 4,096 places.
pub fn check<'a>(mode: Mode, formula: &'a [u8], proof: &'a [u8]) -> Line
    ensures { result ≡ of_verdict (verdict mode 4096 formula.now proof.now) }
{
    let mut vars = [0u8; 4096];
    let mut lows = [0u16; 4096];
    let mut highs = [0u16; 4096];
    let mut heads = [0u16; 8192];
    let mut links = [0u16; 4096];
    let mut members = [0u16; 2048];
    let mut struck = [0u8; 2048];
    let mut scratch = [0u16; 4096];
    let r = checker::check_in(
        &mut vars,
        &mut lows,
        &mut highs,
        &mut heads,
        &mut links,
        2,
        &mut members,
        &mut struck,
        &mut scratch,
        mode,
        formula,
        proof,
    );
    Line {
        number: r.number,
        place: r.place,
        lines: r.lines,
        rounds: r.rounds,
        peak: r.peak,
    }
}

// The line of a file that is not taken.
fn refused(number: u8, place: usize) -> Line
    ensures { result ≡ file_refused number place }
{
    Line {
        number,
        place,
        lines: 0,
        rounds: 0,
        peak: 0,
    }
}

// The refusal of a file: 25 where it could not be read, 24 where it is too long.
fn file(read: bool, text: &[u8]) -> Option<Line>
    ensures { result ≡ of_file some_refused read text.now None }
{
    if !read {
        return Some(refused(25, 0));
    }
    if text.len() > LONGEST {
        return Some(refused(24, LONGEST));
    }
    None
}

// The refusal of the two files, the formula's first; `None` where both are taken. `first` and `second` tell whether the formula and the
// proof could be read.
// A flag and the bytes, not `Option<&[u8]>`: so `cablesalak_report` takes them, and `said` speaks of both.
pub fn files(first: bool, formula: &[u8], second: bool, proof: &[u8]) -> Option<Line>
    ensures { result ≡ of_files some_refused first formula.now second proof.now None }
{
    file(first, formula).or(file(second, proof))
}

// The line on two files: their refusal, else the check's.
fn line_on<'a>(mode: Mode, first: bool, formula: &'a [u8], second: bool, proof: &'a [u8]) -> Line
    ensures { result ≡ said mode first formula.now second proof.now }
{
    match files(first, formula, second, proof) {
        Some(refusal) => refusal,
        None => check(mode, formula, proof),
    }
}

// 0 for refuted alone, 2 where a file was not taken, 1 for every other refusal.
pub fn status_of(number: u8) -> u8
    ensures { result ≡ status_of number }
{
    match number {
        0 => 0,
        24 | 25 => 2,
        _ => 1,
    }
}

// The line on two files, put at the start of `line`, and the status.
pub fn report<'a>(
    mode: Mode,
    first: bool,
    formula: &'a [u8],
    second: bool,
    proof: &'a [u8],
    line: &mut [u8; 105],
) -> Reported
    ensures line_after { take result.length line.new
        ≡ line_bytes (said mode first formula.now second proof.now) }
    ensures line_unchanged { drop result.length line.new ≡ drop result.length line.old }
    ensures status_value { result.status ≡ status_of (said mode first formula.now second proof.now).number }
    ensures prefix_len { (result.length ≤ length line.new) × (result.length ≡ length (take result.length line.new)) }
    ensures length_value { result.length ≡ length (line_bytes (said mode first formula.now second proof.now)) }
    ensures unsatisfiable { result.status ≡ 0 → Unsatisfiable formula.now }
{
    let told = line_on(mode, first, formula, second, proof);
    let status = status_of(told.number);
    let length = put_line(told, line);
    Reported { length, status }
}
