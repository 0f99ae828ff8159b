// DRAT texts (02, 4/14): rows of `text_table` through the call for texts. Their lines have 1 behind where the place is in the text, 0 where
// it is in the formula, and then the marks of the first six places; the marks lent are ones, so that a 0 is the check's.
use rows::print;
use std::io;

fn run_in<'a>(
    rt: &impl Print,
    label: &[u8],
    vars: &mut [u8],
    lows: &mut [u16],
    highs: &mut [u16],
    heads: &mut [u16],
    links: &mut [u16],
    formula: &'a [u8],
    text: &'a [u8],
) -> io::Result<()> {
    let mut members = [0u16; 2048];
    let mut struck = [1u8; 2048];
    let mut scratch = [0u16; 4096];
    let r = checker::check_text(
        vars,
        lows,
        highs,
        heads,
        links,
        9,
        &mut members,
        &mut struck,
        &mut scratch,
        formula,
        text,
    );
    let in_proof = r.in_proof;
    rows::print_said(rt, label, r)?;
    print::number(rt, in_proof as u64)?;
    crate::strikes::print_marks(rt, &struck)?;
    print::end(rt)
}

// The check of a text with a table of 4,096 places.
fn run<'a>(rt: &impl Print, label: &[u8], formula: &'a [u8], text: &'a [u8]) -> io::Result<()> {
    let mut vars = [0u8; 4096];
    let mut lows = [0u16; 4096];
    let mut highs = [0u16; 4096];
    let mut heads = [0u16; 8192];
    let mut links = [0u16; 4096];
    run_in(
        rt, label, &mut vars, &mut lows, &mut highs, &mut heads, &mut links, formula, text,
    )
}

fn run_a(rt: &impl Print, label: &[u8], text: &[u8]) -> io::Result<()> {
    run(
        rt,
        label,
        b"p cnf 2 4\n1 2 0\n-1 2 0\n1 -2 0\n-1 -2 0\n",
        text,
    )
}

fn run_d(rt: &impl Print, label: &[u8], text: &[u8]) -> io::Result<()> {
    run(rt, label, b"p cnf 2 1\n1 2 0\n", text)
}

// Case A as a text, what follows the empty clause, a clause that only its second try shows.
pub fn accepted(rt: &impl Print) -> io::Result<()> {
    run_a(rt, b"text A", b"2 0\n0\n")?;
    run_a(rt, b"text on", b"2 0 0 1 0 d 2 0")?;
    run_d(rt, b"text RAT", b"1 0\n")?;
    run(
        rt,
        b"text extended",
        b"p cnf 3 2\n1 2 0\n-1 3 0\n",
        b"1 2 3 0 d 1 2 0 2 3 0",
    )
}

// Each number of a text, at its place.
pub fn refused(rt: &impl Print) -> io::Result<()> {
    run_d(rt, b"text 3", b"1 x 0\n")?;
    run_d(rt, b"text 3 d", b"1 d 0")?;
    run_d(rt, b"text 4", b"3 0\n")?;
    run_d(rt, b"text 6", b"d 1\n")?;
    run_d(rt, b"text 17", b"1 -1 0\n")?;
    run_a(rt, b"text 19", b"0\n")?;
    run_d(rt, b"text 20", b"")?;
    run_d(rt, b"text 28", b"d 1 2 0\nd 1 2 0\n")
}

// 3 and 6 of the formula are not the text's.
pub fn in_formula(rt: &impl Print) -> io::Result<()> {
    run(rt, b"formula 3", b"p cnf 1 1\n-0 0\n", b"x")?;
    run(rt, b"formula 6", b"p cnf 1 1\n1", b"x")
}

// Room for the clause and not for its tries.
pub fn five_places(rt: &impl Print) -> io::Result<()> {
    let mut vars = [0u8; 5];
    let mut lows = [0u16; 5];
    let mut highs = [0u16; 5];
    let mut heads = [0u16; 10];
    let mut links = [0u16; 5];
    run_in(
        rt,
        b"text 23",
        &mut vars,
        &mut lows,
        &mut highs,
        &mut heads,
        &mut links,
        b"p cnf 2 1\n1 2 0\n",
        b"1 0",
    )
}
