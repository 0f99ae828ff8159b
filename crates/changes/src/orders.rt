// The order of members (02, 13/14): the same clauses in two orders, and a PR line with a clause more.
use std::io;

// x2, x3, "x3 gives x4", "x3 gives not x4", "x2 gives x1" and the line 0. The first round takes x2, which helps nothing, the second
// x3; with the first two clauses exchanged one round is enough.
pub fn rounds(rt: &impl Print) -> io::Result<()> {
    let proof = b"\x52\x00\x00\x45";
    rows::run(
        rt,
        b"order idle first",
        b"p cnf 4 5\n2 0\n3 0\n-3 4 0\n-3 -4 0\n-2 1 0\n",
        proof,
    )?;
    rows::run(
        rt,
        b"order useful first",
        b"p cnf 4 5\n3 0\n2 0\n-3 4 0\n-3 -4 0\n-2 1 0\n",
        proof,
    )
}

// The same in a table of 10 places, without room for the node that the idle round makes.
fn in_ten_places<'a>(
    rt: &impl Print,
    label: &[u8],
    formula: &'a [u8],
    proof: &'a [u8],
) -> io::Result<()> {
    let mut vars = [0u8; 10];
    let mut lows = [0u16; 10];
    let mut highs = [0u16; 10];
    let mut heads = [0u16; 20];
    let mut links = [0u16; 10];
    rows::run_in(
        rt, label, &mut vars, &mut lows, &mut highs, &mut heads, &mut links, formula, proof,
    )
}

pub fn little_room(rt: &impl Print) -> io::Result<()> {
    let proof = b"\x52\x00\x00\x45";
    in_ten_places(
        rt,
        b"order no room",
        b"p cnf 4 5\n2 0\n3 0\n-3 4 0\n-3 -4 0\n-2 1 0\n",
        proof,
    )?;
    in_ten_places(
        rt,
        b"order room",
        b"p cnf 4 5\n3 0\n2 0\n-3 4 0\n-3 -4 0\n-2 1 0\n",
        proof,
    )
}

// The PR line x1, by a witness that makes x1 true: accepted where there is no member, refused where "not x1" is one.
pub fn pr_with_more(rt: &impl Print) -> io::Result<()> {
    let proof = b"\x4E\x01\x00\x00\x01\x00\x54\x01\x50\x02\x00\x45";
    rows::run(rt, b"order PR", b"p cnf 1 0\n", proof)?;
    rows::run(rt, b"order PR more", b"p cnf 1 1\n-1 0\n", proof)
}
