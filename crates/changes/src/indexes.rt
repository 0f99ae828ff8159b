// The lent index (02, 7/14): right, wrong and of wrong size, and what the calls leave in it. The table has 6 places; x1, not-x1 and x13
// are its nodes 2 to 4, all of chain 6. An index's line has its heads, or its links.
use rows::print;
use std::io;
use table::NodeNo;

// x1 where it is true.
fn evaluate_with(rt: &impl Print, label: &[u8], heads: &[u16], links: &[u16]) -> io::Result<()> {
    let vars = [0u8, 0, 1, 1, 13, 0];
    let lows = [0u16, 0, 0, 1, 0, 0];
    let highs = [0u16, 0, 1, 0, 1, 0];
    let r = checker::evaluate(&vars, &lows, &highs, heads, links, 5, NodeNo(2), 1);
    rows::print_evaluated(rt, label, r)
}

pub fn wrong_heads(rt: &impl Print) -> io::Result<()> {
    let links = [0u16, 0, 0, 2, 3, 0];
    evaluate_with(
        rt,
        b"index right",
        &[0, 0, 0, 0, 0, 0, 4, 0, 0, 0, 0, 0],
        &links,
    )?;
    evaluate_with(
        rt,
        b"26 head",
        &[0, 0, 0, 0, 0, 0, 3, 0, 0, 0, 0, 0],
        &links,
    )?;
    evaluate_with(
        rt,
        b"26 no head",
        &[0, 0, 0, 0, 0, 0, 0, 0, 0, 0, 0, 0],
        &links,
    )?;
    evaluate_with(
        rt,
        b"26 empty chain",
        &[2, 0, 0, 0, 0, 0, 4, 0, 0, 0, 0, 0],
        &links,
    )?;
    evaluate_with(rt, b"7 heads", &[0, 0, 0, 0, 0, 0, 4, 0, 0, 0, 0], &links)
}

pub fn wrong_links(rt: &impl Print) -> io::Result<()> {
    let heads = [0u16, 0, 0, 0, 0, 0, 4, 0, 0, 0, 0, 0];
    evaluate_with(rt, b"26 link", &heads, &[0, 0, 0, 2, 2, 0])?;
    evaluate_with(rt, b"26 circle", &heads, &[0, 0, 4, 2, 3, 0])?;
    evaluate_with(rt, b"26 constant", &heads, &[0, 2, 0, 2, 3, 0])?;
    evaluate_with(rt, b"26 past", &heads, &[0, 0, 0, 2, 3, 2])?;
    evaluate_with(rt, b"7 links", &heads, &[0, 0, 0, 2, 3, 0, 0])
}

// not-x13 is a new node, of chain 6 too; then the conjunction of x1 and x13 finds no room.
pub fn single_calls(rt: &impl Print) -> io::Result<()> {
    let mut vars = [0u8, 0, 1, 1, 13, 0];
    let mut lows = [0u16, 0, 0, 1, 0, 0];
    let mut highs = [0u16, 0, 1, 0, 1, 0];
    let mut heads = [0u16, 0, 0, 0, 0, 0, 4, 0, 0, 0, 0, 0];
    let mut links = [0u16, 0, 0, 2, 3, 0];
    let r = checker::negation(
        &mut vars,
        &mut lows,
        &mut highs,
        &mut heads,
        &mut links,
        5,
        NodeNo(4),
    );
    rows::print_single(rt, b"index negation", r)?;
    print::numbers(rt, b"heads", &heads)?;
    print::numbers(rt, b"links", &links)?;
    let s = checker::conjunction(
        &mut vars,
        &mut lows,
        &mut highs,
        &mut heads,
        &mut links,
        6,
        NodeNo(2),
        NodeNo(4),
    );
    rows::print_single(rt, b"index 23", s)?;
    print::numbers(rt, b"heads", &heads)?;
    print::numbers(rt, b"links", &links)
}

// Case A in 16 places, and a refused formula, with ones lent as index.
pub fn checked(rt: &impl Print) -> io::Result<()> {
    left_by(
        rt,
        b"index A",
        b"p cnf 2 4\n1 2 0\n-1 2 0\n1 -2 0\n-1 -2 0\n",
        b"\x4E\x02\x00\x00\x01\x00\x52\x02\x00\x52\x00\x00\x45",
    )?;
    left_by(rt, b"index 5", b"p cnf 1 2\n1 0\n", b"")
}

fn left_by<'a>(
    rt: &impl Print,
    label: &[u8],
    formula: &'a [u8],
    proof: &'a [u8],
) -> io::Result<()> {
    let mut vars = [0u8; 16];
    let mut lows = [0u16; 16];
    let mut highs = [0u16; 16];
    let mut heads = [1u16; 32];
    let mut links = [1u16; 16];
    rows::run_in(
        rt, label, &mut vars, &mut lows, &mut highs, &mut heads, &mut links, formula, proof,
    )?;
    print::numbers(rt, b"heads", &heads)?;
    print::numbers(rt, b"links", &links)
}
