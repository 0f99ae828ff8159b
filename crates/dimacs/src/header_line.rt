// The header: the first line that is neither blank nor a comment, word by word.
ghost use Rattle.std.specs.Prelude.{◌≡◌, [], ◌∷◌, ◌≤◌, ◌<◌, length};
ghost use Rattle.dimacs.specs.Header.{is_passed, judged_from, next_word, word, is_word, ends_line, header_at, header};
ghost use Rattle.dimacs.specs.Inner.{natural_of, header_read};

use crate::text::Class;
use crate::{Header, Refusal, numbers, text};

// Whether the line at `at` is blank or a comment.
fn is_passed(s: &[u8], at: usize) -> bool
    requires { at < length s.now }
    ensures { result ≡ is_passed s.now at }
{
    text::past_class(s, at, Class::Blank) == text::past_class(s, at, Class::Line) || s[at] == 99
}

// The start of the first line that is neither blank nor a comment; the length where there is none.
pub fn judged_line(s: &[u8]) -> usize
    ensures value { result ≡ judged_from s.now (length s.now) 0 }
    ensures upper_bound { result ≤ length s.now }
{
    let mut at = 0;
    while at < s.len() {
        if !is_passed(s, at) {
            return at;
        }
        let end = text::past_class(s, at, Class::Line);
        if end == s.len() {
            return end;
        }
        at = end + 1;
    }
    at
}

// The place of the line's next word.
fn next_word(s: &[u8], at: usize) -> usize
    requires { at ≤ length s.now }
    ensures value { result ≡ next_word s.now at }
    ensures upper_bound { result ≤ length s.now }
{
    let end = text::past_class(s, at, Class::Token);
    text::past_class(s, end, Class::Space)
}

// The word at `at` as a number.
fn word_number(s: &[u8], at: usize) -> Option<u16>
    requires { at ≤ length s.now }
    ensures { result ≡ natural_of (word s.now at) }
{
    let end = text::past_class(s, at, Class::Token);
    numbers::read_natural(s, at, end)
}

// Whether the word at `at` is that one byte.
pub fn is_letter(s: &[u8], at: usize, letter: u8) -> bool
    requires { at ≤ length s.now }
    ensures { result ≡ is_word s.now at (letter ∷ []) }
{
    let end = text::past_class(s, at, Class::Token);
    if end - at != 1 {
        return false;
    }
    s[at] == letter
}

// Whether the word at `at` is `cnf`.
fn is_cnf(s: &[u8], at: usize) -> bool
    requires { at ≤ length s.now }
    ensures { result ≡ is_word s.now at (99 ∷ 110 ∷ 102 ∷ []) }
{
    let end = text::past_class(s, at, Class::Token);
    if end - at != 3 {
        return false;
    }
    if s[at] != 99 {
        return false;
    }
    let second = at + 1;
    if s[second] != 110 {
        return false;
    }
    s[second + 1] == 102
}

// Whether only spaces, tabs or CR follow the word at `at`.
fn ends_line(s: &[u8], at: usize) -> bool
    requires { at ≤ length s.now }
    ensures { result ≡ ends_line s.now at }
{
    let end = text::past_class(s, at, Class::Token);
    text::past_class(s, end, Class::Blank) == text::past_class(s, at, Class::Line)
}

// The line at `at` as the header.
fn header_at(s: &[u8], at: usize) -> Result<Header, Refusal>
    requires { at ≤ length s.now }
    ensures { result ≡ header_read (header_at s.now at) }
{
    let cnf = next_word(s, at);
    let variables = next_word(s, cnf);
    let clauses = next_word(s, variables);
    let no_header = Refusal {
        number: 1,
        place: at,
    };
    if !is_letter(s, at, 112) {
        return Err(no_header);
    }
    if !is_cnf(s, cnf) {
        return Err(no_header);
    }
    let v = word_number(s, variables).ok_or(no_header)?;
    let c = word_number(s, clauses).ok_or(no_header)?;
    if !ends_line(s, clauses) {
        return Err(no_header);
    }
    if 64 < v || 1024 < c {
        return Err(Refusal {
            number: 2,
            place: at,
        });
    }
    Ok(Header {
        variables: v as u8,
        clauses: c as usize,
        end: text::past_class(s, clauses, Class::Line),
    })
}

// The header: the first line that is neither blank nor a comment.
pub fn read_header(formula: &[u8]) -> Result<Header, Refusal>
    ensures { result ≡ header_read (header formula.now) }
{
    let at = judged_line(formula);
    if at < formula.len() {
        return header_at(formula, at);
    }
    Err(Refusal {
        number: 1,
        place: at,
    })
}
