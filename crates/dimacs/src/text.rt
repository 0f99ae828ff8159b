// Classes of bytes, and what lies between two tokens.
ghost use Rattle.std.specs.Prelude.{◌≡◌, ◌≤◌, length};
ghost use Rattle.dimacs.specs.Text.{is_space, is_blank, is_parting, past, is_comment, between};
ghost use Rattle.dimacs.specs.Inner.{admitted};

// Classes of bytes.
#[derive(Clone, Copy)]
pub enum Class {
    Space,
    Blank,
    Parting,
    Token,
    Line,
}

fn is_space(b: u8) -> bool
    ensures { result ≡ is_space b }
{
    b == 32 || b == 9
}

fn is_blank(b: u8) -> bool
    ensures { result ≡ is_blank b }
{
    is_space(b) || b == 13
}

fn is_parting(b: u8) -> bool
    ensures { result ≡ is_parting b }
{
    is_blank(b) || b == 10
}

// Whether the byte is of the class.
fn admits(class: Class, b: u8) -> bool
    ensures { result ≡ admitted class b }
{
    match class {
        Class::Space => is_space(b),
        Class::Blank => is_blank(b),
        Class::Parting => is_parting(b),
        Class::Token => !is_parting(b),
        Class::Line => b != 10,
    }
}

// The first place from `at` on whose byte is not of the class; the length where there is none.
pub fn past_class(s: &[u8], at: usize, class: Class) -> usize
    requires { at ≤ length s.now }
    ensures value { result ≡ past (admitted class) s.now at }
    ensures lower_bound { (at ≤ result) × (result ≤ length s.now) }
{
    for i in at..s.len() {
        if !admits(class, s[i]) {
            return i;
        }
    }
    s.len()
}

// Whether a comment line starts at the place.
fn is_comment(s: &[u8], at: usize) -> bool
    requires { at ≤ length s.now }
    ensures { result ≡ is_comment s.now at }
{
    if at == s.len() {
        return false;
    }
    if s[at] != 99 {
        return false;
    }
    if at == 0 {
        return true;
    }
    s[at - 1] == 10
}

// What lies between two tokens is passed, comment lines too: the place of the next token, or the length.
pub fn skip_between(s: &[u8], at: usize) -> usize
    requires { at ≤ length s.now }
    ensures value { result ≡ between s.now at }
    ensures lower_bound { (at ≤ result) × (result ≤ length s.now) }
{
    let mut place = at;
    loop {
        let first = past_class(s, place, Class::Parting);
        if !is_comment(s, first) {
            return first;
        }
        place = past_class(s, first, Class::Line);
    }
}
