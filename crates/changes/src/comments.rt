// Comment lines in the formula (02, 1/14): where one is passed over, and what only looks like one.
use std::io;

// Case A with a comment before the header, behind it, inside a clause, between two and behind the last, with no LF at the end.
pub fn everywhere(rt: &impl Print) -> io::Result<()> {
    rows::run(
        rt,
        b"c case A",
        b"c\np cnf 2 4\nc 1 0\n1 2 0\n-1\nc 0\n2 0\ncomment\n1 -2 0\n-1 -2 0\nc 1 0",
        b"\x4E\x02\x00\x00\x01\x00\x52\x02\x00\x52\x00\x00\x45",
    )
}

// CR ends no comment, and no word needs to be parted from its `c`.
pub fn whole_line(rt: &impl Print) -> io::Result<()> {
    rows::run(rt, b"c to LF", b"p cnf 1 1\nc1\r-0 0\n1 0\n", b"\x45")?;
    rows::run(rt, b"c to the end", b"p cnf 1 1\n1 0\nc", b"\x45")
}

// A line begins behind an LF alone: behind a space, a literal or a CR `c` is a token.
pub fn tokens(rt: &impl Print) -> io::Result<()> {
    rows::run(rt, b"3 blank c", b"p cnf 1 1\n c\n1 0\n", b"")?;
    rows::run(rt, b"3 literal c", b"p cnf 1 1\n1 c\n0\n", b"")?;
    rows::run(rt, b"3 CR c", b"p cnf 1 1\n1\rc\n0\n", b"")?;
    rows::run(rt, b"5 blank c", b"p cnf 1 1\n1 0\n c\n", b"")?;
    rows::run(rt, b"5 CR c", b"p cnf 1 1\n1 0\n\rc\n", b"")?;
    rows::run(rt, b"1 CR c", b"p cnf 1 1\rc\n1 0\n", b"")
}

// The places of 5, 6 and 8 beside a comment: the length, and the clause's first token.
pub fn places(rt: &impl Print) -> io::Result<()> {
    rows::run(rt, b"5 c", b"p cnf 1 2\n1 0\nc\n", b"")?;
    rows::run(rt, b"6 c", b"p cnf 1 1\nc\n1\nc 0\n", b"")?;
    let mut vars = [0u8; 2];
    let mut lows = [0u16; 2];
    let mut highs = [0u16; 2];
    let mut heads = [0u16; 4];
    let mut links = [0u16; 2];
    rows::run_in(
        rt,
        b"8 c",
        &mut vars,
        &mut lows,
        &mut highs,
        &mut heads,
        &mut links,
        b"p cnf 1 1\nc\n1\nc\n0\n",
        b"",
    )
}
