// Sets of variables in a word, bit v - 1 for variable v, and sets of literals in two.
#![tactic(auto)]

ghost use Rattle.std.specs.Prelude.{◌≡◌, ◌≤◌};
ghost use Rattle.meaning.specs.Words.{in_word};
ghost use Rattle.words.specs.Sets.{ends_before, with_variable, below_word, without, shares, with_literal};

// The word of all 64 variables.
pub const ALL: u64 = 18446744073709551615;

// A set of literals: the variables that it makes true, and those that it makes false.
#[derive(Clone, Copy)]
pub struct Literals {
    pub positive: u64,
    pub negative: u64,
}

// Whether the word has the variable v.
pub fn in_word(word: u64, v: u8) -> bool
    requires { (1 ≤ v) × (v ≤ 64) }
    ensures { result ≡ in_word word v }
{
    let i = (v - 1) as u64;
    (word >> i) % 2 == 1
}

// Whether every variable of the word is below v.
pub fn ends_before(word: u64, v: u8) -> bool
    requires { (1 ≤ v) × (v ≤ 64) }
    ensures { result ≡ ends_before word v }
{
    let i = (v - 1) as u64;
    word >> i == 0
}

// The word with the variable v.
pub fn with_variable(word: u64, v: u8) -> u64
    requires { (1 ≤ v) × (v ≤ 64) }
    ensures { result ≡ with_variable word v }
{
    let i = (v - 1) as u64;
    word | 1 << i
}

// The word of the variables below v.
fn below(v: u8) -> u64
    requires { (1 ≤ v) × (v ≤ 65) }
    ensures { result ≡ below_word v }
{
    if v == 65 {
        return ALL;
    }
    let i = (v - 1) as u64;
    let bit: u64 = 1 << i;
    bit - 1
}

// The word without the variables from `from` on below `to`.
pub fn without(word: u64, from: u8, to: u8) -> u64
    requires { (1 ≤ from) × (from ≤ 65) × (1 ≤ to) × (to ≤ 65) }
    ensures { result ≡ without 64 word from to }
{
    word & (below(from) | (ALL - below(to)))
}

// Whether the words share a variable.
pub fn shared(a: u64, b: u64) -> bool
    ensures { result ≡ shares 64 a b }
{
    a & b != 0
}

// The set with v's literal of the sign.
pub fn with_literal(set: Literals, v: u8, sign: bool) -> Literals
    requires { (1 ≤ v) × (v ≤ 64) }
    ensures { result ≡ with_literal set v sign }
{
    if sign {
        return Literals {
            positive: with_variable(set.positive, v),
            negative: set.negative,
        };
    }
    Literals {
        positive: set.positive,
        negative: with_variable(set.negative, v),
    }
}
