// The piece of the formula or of the proof that is shown for a refused check, as a part of the caller's own bytes. (02, 8/14)
#![tactic(auto)]

ghost use Rattle.std.specs.Prelude.{◌≡◌, true, ◌-◌, ◌≤◌, length, drop};
ghost use Rattle.dimacs.specs.Text.{is_parting, token_end, line_end};
ghost use Rattle.dimacs.specs.Clauses.{clause_from};
ghost use Rattle.records.specs.Records.{record_at};
ghost use Rattle.commands.specs.Commands.{groups_in, binary_read};
ghost use Rattle.causes.specs.Parts.{formula_end, record_end, closed_end, clause_end, groups_end, read_end, binary_end, proof_end};
ghost use Rattle.causes.specs.Shows.{text_of};
ghost use Rattle.pieces.specs.Shown.{piece_end, is_part, bytes_of, place_in};

use commands::{Command, Form};
use records::Record;

// A part of the formula or of the proof: where it starts, and the place behind its last byte.
#[derive(Clone, Copy)]
pub struct Part {
    pub in_proof: bool,
    pub start: usize,
    pub end: usize,
}

// Whether the byte parts two tokens.
fn parts(b: u8) -> bool
    ensures { result ≡ is_parting b }
{
    matches!(b, b' ' | b'\t' | b'\r' | b'\n')
}

// The end of the token in which the place is.
fn token_end(s: &[u8], at: usize) -> usize
    requires { at ≤ length s.now }
    ensures { result ≡ token_end s.now at }
{
    for i in at..s.len() {
        if parts(s[i]) {
            return i;
        }
    }
    s.len()
}

// The end of the line in which the place is, its LF left out.
fn line_end(s: &[u8], at: usize) -> usize
    requires { at ≤ length s.now }
    ensures { result ≡ line_end s.now at }
{
    for i in at..s.len() {
        if s[i] == b'\n' {
            return i;
        }
    }
    s.len()
}

// The end of the piece of the formula that starts at the place of a number.
fn formula_end(s: &[u8], number: u8, at: usize) -> usize
    requires { at ≤ length s.now }
    ensures { result ≡ formula_end number s.now at }
{
    if number <= 2 {
        return line_end(s, at);
    }
    token_end(s, at)
}

// The end of the record whose first byte is at `at`.
fn record_end(s: &[u8], at: usize) -> usize
    requires { at ≤ length s.now }
    ensures { result ≡ record_end s.now at (record_at s.now at) }
{
    let record = records::record_from(s, at);
    match record {
        Record::UnknownKind => at + 1,
        Record::CutShort | Record::NoRecord => s.len(),
        _ => at + records::record_length(record),
    }
}

// The end of the clause whose literals stand from `from` on.
fn closed_end(s: &[u8], at: usize, from: usize) -> usize
    requires { from ≤ length s.now }
    ensures { let text = s.now in
        result ≡ closed_end text (clause_from text 64 (length text - from) at from) }
{
    match dimacs::open_clause(s, at, from, 64) {
        Ok(closed) => closed.next,
        Err(_) => s.len(),
    }
}

// The end of the clause whose first byte, or whose `d`, is at `at`.
fn clause_end(s: &[u8], at: usize) -> usize
    requires { at ≤ length s.now }
    ensures { result ≡ clause_end s.now at }
{
    if at < s.len() {
        if dimacs::is_letter(s, at, b'd') {
            let from = dimacs::skip_between(s, at + 1);
            return closed_end(s, at, from);
        }
        return closed_end(s, at, at);
    }
    s.len()
}

// The end of the binary clause whose opening byte is at `at`; the proof's where there is none.
fn binary_clause_end(s: &[u8], at: usize) -> usize
    requires { at ≤ length s.now }
    ensures { let read = binary_read s.now 64 at in
        result ≡ read_end s.now read.command read.next }
{
    let Ok(read) = commands::command_at(s, at, 64, Form::Binary) else {
        return s.len();
    };
    let next = read.next;
    let command = read.command;
    match command {
        Command::Added(_) => next,
        Command::Struck(_) => next,
        Command::Recorded { .. } => s.len(),
        Command::Finished => s.len(),
    }
}

// The end of the groups at `at`.
fn groups_end(s: &[u8], at: usize) -> usize
    requires { at ≤ length s.now }
    ensures { result ≡ groups_end at (groups_in (drop at s.now)) }
{
    let groups = commands::groups_at(s, at, 64);
    groups.end
}

// The end of the piece of a binary proof that starts at the place of a number.
fn binary_end(s: &[u8], number: u8, at: usize) -> usize
    requires { at ≤ length s.now }
    ensures { result ≡ binary_end number s.now at }
{
    // Not `match number`: behind an arm with a guard the proof of the last arm does not know which numbers it leaves.
    if number == 9 {
        if at < s.len() {
            return at + 1;
        }
    }
    if number == 4 {
        return groups_end(s, at);
    }
    if number == 31 {
        return groups_end(s, at);
    }
    binary_clause_end(s, at)
}

// The end of the piece of the proof that starts at the place of a number.
fn proof_end(s: &[u8], form: Form, number: u8, at: usize) -> usize
    requires { at ≤ length s.now }
    ensures { result ≡ proof_end form number s.now at }
{
    match form {
        Form::Records if number == 11 => at + 1,
        Form::Records => record_end(s, at),
        Form::Text if number <= 4 => token_end(s, at),
        Form::Text => clause_end(s, at),
        Form::Binary => binary_end(s, number, at),
    }
}

// The end of the piece that starts at the place of a number, in the formula or in the proof.
pub fn piece_end<'a>(
    formula: &'a [u8],
    proof: &'a [u8],
    form: Form,
    number: u8,
    in_proof: bool,
    at: usize,
) -> usize
    requires { at ≤ length (text_of in_proof formula.now proof.now) }
    ensures { result ≡ piece_end form formula.now proof.now number in_proof at }
{
    if in_proof {
        return proof_end(proof, form, number, at);
    }
    formula_end(formula, number, at)
}

// The part's bytes, as the caller's own; none where there is no such part.
pub fn shown<'a>(formula: &'a [u8], proof: &'a [u8], part: Part) -> &'a [u8]
    ensures result_value { result.now ≡ bytes_of part (text_of part.in_proof formula.now proof.now) }
    ensures ref_ptr_value { is_part part (text_of part.in_proof formula.now proof.now) ≡ true →
        result.ref_ptr ≡ place_in (text_of part.in_proof formula.entry proof.entry) part.start }
{
    let text = if part.in_proof { proof } else { formula };
    if part.start <= part.end && part.end <= text.len() {
        &text[part.start..part.end]
    } else {
        &text[..0]
    }
}
