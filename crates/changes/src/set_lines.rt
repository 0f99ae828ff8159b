// Either-or and at-least entries (02, 5/14): rows of `set_table`; and the call that makes an at-least diagram. Its line: label, number,
// node, count, whether the excluded assignments are counted, and how many they are.
use rows::print;
use single::least::AtLeast;
use std::io;

// Over the formula of case D.
fn run_d(rt: &impl Print, label: &[u8], proof: &[u8]) -> io::Result<()> {
    rows::run(rt, label, b"p cnf 2 1\n1 2 0\n", proof)
}

// Odd and even, a set bit beyond the header, a byte above 1, a record cut short, the empty set.
pub fn parities(rt: &impl Print) -> io::Result<()> {
    run_d(
        rt,
        b"58 odd",
        b"\x58\x03\x00\x00\x00\x00\x00\x00\x00\x01\x52\x02\x00\x45",
    )?;
    run_d(rt, b"12 set", b"\x58\x04\x00\x00\x00\x00\x00\x00\x00\x02")?;
    run_d(rt, b"29", b"\x58\x03\x00\x00\x00\x00\x00\x00\x00\x02")?;
    run_d(rt, b"10 set", b"\x58\x01\x00\x00\x00\x00\x00\x00\x00")?;
    run_d(
        rt,
        b"58 none even",
        b"\x58\x00\x00\x00\x00\x00\x00\x00\x00\x00\x52\x02\x00",
    )?;
    run_d(
        rt,
        b"58 none odd",
        b"\x58\x00\x00\x00\x00\x00\x00\x00\x00\x01\x52\x02\x00",
    )
}

// At least one, two, none and three of two; a bit of variable 64; two of three over case I's formula.
pub fn at_leasts(rt: &impl Print) -> io::Result<()> {
    run_d(
        rt,
        b"4B one",
        b"\x4B\x03\x00\x00\x00\x00\x00\x00\x00\x01\x52\x02\x00\x45",
    )?;
    run_d(
        rt,
        b"4B two",
        b"\x4B\x03\x00\x00\x00\x00\x00\x00\x00\x02\x52\x02\x00\x45",
    )?;
    run_d(
        rt,
        b"4B zero",
        b"\x4B\x03\x00\x00\x00\x00\x00\x00\x00\x00\x52\x02\x00",
    )?;
    run_d(
        rt,
        b"4B above",
        b"\x4B\x03\x00\x00\x00\x00\x00\x00\x00\x03\x52\x02\x00",
    )?;
    run_d(
        rt,
        b"12 set 64",
        b"\x4B\x00\x00\x00\x00\x00\x00\x00\x80\x01",
    )?;
    rows::run(
        rt,
        b"4B I",
        b"p cnf 3 3\n2 3 0\n1 3 0\n1 2 0\n",
        b"\x4B\x07\x00\x00\x00\x00\x00\x00\x00\x02\x52\x02\x00\x45",
    )
}

// No room for the third node of an odd diagram: what was placed of it is gone.
pub fn five_places(rt: &impl Print) -> io::Result<()> {
    let mut vars = [0u8; 5];
    let mut lows = [0u16; 5];
    let mut highs = [0u16; 5];
    let mut heads = [0u16; 10];
    let mut links = [0u16; 5];
    rows::run_in(
        rt,
        b"23 set",
        &mut vars,
        &mut lows,
        &mut highs,
        &mut heads,
        &mut links,
        b"p cnf 2 1\n1 2 0\n",
        b"\x58\x03\x00\x00\x00\x00\x00\x00\x00\x01",
    )
}

fn print_least(rt: &impl Print, label: &[u8], r: AtLeast) -> io::Result<()> {
    let node = r.node;
    print::label(rt, label)?;
    print::number(rt, r.number as u64)?;
    print::number(rt, node.0 as u64)?;
    print::number(rt, r.count as u64)?;
    print::number(rt, r.counted as u64)?;
    print::number(rt, r.excluded)?;
    print::end(rt)
}

// A call with a table of six places and so many taken.
fn least(
    rt: &impl Print,
    label: &[u8],
    vars: &mut [u8],
    lows: &mut [u16],
    highs: &mut [u16],
    heads: &mut [u16],
    links: &mut [u16],
    count: usize,
    set: u64,
    k: u8,
) -> io::Result<()> {
    let r = checker::at_least(vars, lows, highs, heads, links, count, set, k);
    print_least(rt, label, r)
}

// Two of three fills the table; one of three finds no room; none, all and more; no variable; 32 and 33 variables.
pub fn single_calls(rt: &impl Print) -> io::Result<()> {
    let mut vars = [0u8; 6];
    let mut lows = [0u16; 6];
    let mut highs = [0u16; 6];
    let mut heads = [0u16; 12];
    let mut links = [0u16; 6];
    least(
        rt, b"least", &mut vars, &mut lows, &mut highs, &mut heads, &mut links, 2, 7, 2,
    )?;
    least(
        rt,
        b"least again",
        &mut vars,
        &mut lows,
        &mut highs,
        &mut heads,
        &mut links,
        6,
        7,
        2,
    )?;
    least(
        rt,
        b"23 least",
        &mut vars,
        &mut lows,
        &mut highs,
        &mut heads,
        &mut links,
        6,
        7,
        1,
    )?;
    least(
        rt, b"least 0", &mut vars, &mut lows, &mut highs, &mut heads, &mut links, 6, 7, 0,
    )?;
    least(
        rt, b"least 4", &mut vars, &mut lows, &mut highs, &mut heads, &mut links, 6, 7, 4,
    )?;
    least(
        rt,
        b"least none",
        &mut vars,
        &mut lows,
        &mut highs,
        &mut heads,
        &mut links,
        6,
        0,
        255,
    )?;
    least(
        rt,
        b"least 32",
        &mut vars,
        &mut lows,
        &mut highs,
        &mut heads,
        &mut links,
        6,
        4294967295,
        33,
    )?;
    least(
        rt,
        b"least 33",
        &mut vars,
        &mut lows,
        &mut highs,
        &mut heads,
        &mut links,
        6,
        8589934591,
        34,
    )?;
    least(
        rt,
        b"26 least",
        &mut vars,
        &mut lows,
        &mut highs,
        &mut heads,
        &mut links,
        5,
        7,
        2,
    )
}
