// Strikings (02, 3/14): the rows of `strike_table`. Their lines have the marks of the first six places behind; the marks lent are ones, so
// that a 0 is the check's.
use rows::print;
use std::io;

// The first six.
pub fn print_marks(rt: &impl Print, marks: &[u8]) -> io::Result<()> {
    for mark in marks.iter().take(6) {
        print::byte(rt, *mark)?;
    }
    Ok(())
}

// The check with a table of 4,096 places.
fn run<'a>(rt: &impl Print, label: &[u8], formula: &'a [u8], proof: &'a [u8]) -> io::Result<()> {
    let mut vars = [0u8; 4096];
    let mut lows = [0u16; 4096];
    let mut highs = [0u16; 4096];
    let mut heads = [0u16; 8192];
    let mut links = [0u16; 4096];
    let mut struck = [1u8; 2048];
    rows::say_in(
        rt,
        label,
        &mut vars,
        &mut lows,
        &mut highs,
        &mut heads,
        &mut links,
        &mut struck,
        formula,
        proof,
    )?;
    print_marks(rt, &struck)?;
    print::end(rt)
}

// Over case A's formula.
fn run_a(rt: &impl Print, label: &[u8], proof: &[u8]) -> io::Result<()> {
    run(
        rt,
        label,
        b"p cnf 2 4\n1 2 0\n-1 2 0\n1 -2 0\n-1 -2 0\n",
        proof,
    )
}

// A member that is not there, one struck already, a waiting witness, a record cut short, a striking among a line's entries.
pub fn refused(rt: &impl Print) -> io::Result<()> {
    run_a(rt, b"28 none", b"\x44\x04\x00")?;
    run_a(rt, b"28 twice", b"\x44\x03\x00\x44\x03\x00")?;
    run_a(rt, b"16 strike", b"\x54\x01\x44\x00\x00")?;
    run_a(rt, b"10 strike", b"\x44\x00")?;
    run_a(rt, b"28 entry", b"\x4E\x02\x00\x00\x01\x00\x44\x04\x00")
}

// A clause before case A's proof, its first line before its second, its 0 line before the end, two clauses that the first line can spare.
pub fn case_a(rt: &impl Print) -> io::Result<()> {
    run_a(
        rt,
        b"44 clause",
        b"\x44\x00\x00\x4E\x02\x00\x00\x01\x00\x52\x02\x00\x52\x00\x00\x45",
    )?;
    run_a(
        rt,
        b"44 line",
        b"\x4E\x02\x00\x00\x01\x00\x52\x02\x00\x44\x04\x00\x52\x00\x00\x45",
    )?;
    run_a(
        rt,
        b"44 0 line",
        b"\x4E\x02\x00\x00\x01\x00\x52\x02\x00\x52\x00\x00\x44\x05\x00\x45",
    )?;
    run_a(
        rt,
        b"44 spared",
        b"\x4E\x02\x00\x00\x01\x00\x44\x02\x00\x44\x03\x00\x52\x02\x00\x45",
    )
}

// A clause that blocked a PR line; the only member.
pub fn others(rt: &impl Print) -> io::Result<()> {
    run(
        rt,
        b"44 PR",
        b"p cnf 2 1\n-1 2 0\n",
        b"\x4E\x01\x00\x00\x01\x00\x44\x00\x00\x54\x01\x50\x02\x00\x45",
    )?;
    run(
        rt,
        b"44 all",
        b"p cnf 1 1\n0\n",
        b"\x44\x00\x00\x52\x00\x00\x45",
    )
}

// A refused formula leaves zeros.
pub fn no_proof(rt: &impl Print) -> io::Result<()> {
    run(rt, b"3 marks", b"p cnf 1 1\n-0 0\n", b"")
}

// Fewer marks than members: 7, and the marks stay.
pub fn too_few_marks(rt: &impl Print) -> io::Result<()> {
    let mut vars = [0u8; 2];
    let mut lows = [0u16; 2];
    let mut highs = [0u16; 2];
    let mut heads = [0u16; 4];
    let mut links = [0u16; 2];
    let mut struck = [1u8; 2047];
    rows::say_in(
        rt,
        b"7 marks",
        &mut vars,
        &mut lows,
        &mut highs,
        &mut heads,
        &mut links,
        &mut struck,
        b"p cnf 0 0\n",
        b"\x45",
    )?;
    print_marks(rt, &struck)?;
    print::end(rt)
}
