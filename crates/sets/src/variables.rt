// The variables of a set, one after the other.
ghost use Rattle.std.specs.Prelude.{◌≡◌, ◌≤◌};
ghost use Rattle.sets.specs.Variables.{NextIn, lower, Members};

// The first variable of the set from v on; 65 where there is none.
pub fn next_in(set: u64, v: u8) -> u8
    requires { (1 ≤ v) × (v ≤ 65) }
    ensures { NextIn set v result }
{
    let mut w = v;
    while w <= 64 {
        if words::in_word(set, w) {
            return w;
        }
        w += 1;
    }
    w
}

// The set's greatest variable below v; 0 where there is none.
pub fn lower_in(set: u64, v: u8) -> u8
    requires { (1 ≤ v) × (v ≤ 65) }
    ensures { result ≡ lower set v }
{
    let mut w = v - 1;
    while 1 <= w {
        if words::in_word(set, w) {
            return w;
        }
        w -= 1;
    }
    0
}

// How many variables the set has.
pub fn size_of(set: u64) -> usize
    ensures { Members set result }
{
    let mut m: usize = 0;
    let mut v = lower_in(set, 65);
    while 1 <= v {
        m += 1;
        v = lower_in(set, v);
    }
    m
}
