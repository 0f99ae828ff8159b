// The examples of single calls.
use rows::print;
use std::io;
use table::NodeNo;

// Node 6's variable, low and high.
fn print_node(
    rt: &impl Print,
    label: &[u8],
    vars: &[u8; 7],
    lows: &[u16; 7],
    highs: &[u16; 7],
) -> io::Result<()> {
    print::label(rt, label)?;
    print::byte(rt, vars[6])?;
    print::short(rt, lows[6])?;
    print::short(rt, highs[6])?;
    print::end(rt)
}

// The table: x2, not-x2, x1 xor x2, x1 as nodes 2 to 5, and one free place. x2 by the xor is not-x1, a new node; x1 by it is x1.
pub fn case_g(rt: &impl Print) -> io::Result<()> {
    let mut vars = [0u8, 0, 2, 2, 1, 1, 0];
    let mut lows = [0u16, 0, 0, 1, 2, 0, 0];
    let mut highs = [0u16, 0, 1, 0, 3, 1, 0];
    let mut heads = [4u16, 0, 0, 0, 0, 0, 0, 0, 0, 0, 0, 0, 5, 3];
    let mut links = [0u16, 0, 0, 2, 0, 0, 0];
    let r = checker::cofactor(
        &mut vars,
        &mut lows,
        &mut highs,
        &mut heads,
        &mut links,
        6,
        NodeNo(2),
        NodeNo(4),
    );
    rows::print_single(rt, b"G", r)?;
    print_node(rt, b"G node 6", &vars, &lows, &highs)?;
    let s = checker::cofactor(
        &mut vars,
        &mut lows,
        &mut highs,
        &mut heads,
        &mut links,
        7,
        NodeNo(5),
        NodeNo(4),
    );
    rows::print_single(rt, b"G", s)
}

pub fn wrong_size(rt: &impl Print) -> io::Result<()> {
    let mut vars = [0u8; 1];
    let mut lows = [0u16; 1];
    let mut highs = [0u16; 1];
    let mut heads = [0u16; 2];
    let mut links = [0u16; 1];
    rows::print_evaluated(
        rt,
        b"7 evaluate",
        checker::evaluate(&vars, &lows, &highs, &heads, &links, 2, NodeNo(1), 0),
    )?;
    rows::print_single(
        rt,
        b"7 negation",
        checker::negation(
            &mut vars,
            &mut lows,
            &mut highs,
            &mut heads,
            &mut links,
            2,
            NodeNo(1),
        ),
    )
}

// Node 2 = 1, 0, 0.
pub fn not_in_order(rt: &impl Print) -> io::Result<()> {
    let mut vars = [0u8, 0, 1];
    let mut lows = [0u16; 3];
    let mut highs = [0u16; 3];
    let mut heads = [0u16, 2, 0, 0, 0, 0];
    let mut links = [0u16; 3];
    rows::print_evaluated(
        rt,
        b"26 evaluate",
        checker::evaluate(&vars, &lows, &highs, &heads, &links, 3, NodeNo(1), 0),
    )?;
    let r = checker::conjunction(
        &mut vars,
        &mut lows,
        &mut highs,
        &mut heads,
        &mut links,
        3,
        NodeNo(1),
        NodeNo(1),
    );
    rows::print_single(rt, b"26 conjunction", r)
}

// The constants alone.
pub fn wrong_operands(rt: &impl Print) -> io::Result<()> {
    let mut vars = [0u8; 2];
    let mut lows = [0u16; 2];
    let mut highs = [0u16; 2];
    let mut heads = [0u16; 4];
    let mut links = [0u16; 2];
    rows::print_evaluated(
        rt,
        b"13 evaluate",
        checker::evaluate(&vars, &lows, &highs, &heads, &links, 2, NodeNo(2), 0),
    )?;
    let r = checker::conjunction(
        &mut vars,
        &mut lows,
        &mut highs,
        &mut heads,
        &mut links,
        2,
        NodeNo(1),
        NodeNo(2),
    );
    rows::print_single(rt, b"13 conjunction", r)?;
    let s = checker::cofactor(
        &mut vars,
        &mut lows,
        &mut highs,
        &mut heads,
        &mut links,
        2,
        NodeNo(1),
        NodeNo(0),
    );
    rows::print_single(rt, b"27 cofactor", s)?;
    let t = checker::cofactor_literals(
        &mut vars,
        &mut lows,
        &mut highs,
        &mut heads,
        &mut links,
        2,
        NodeNo(1),
        1,
        1,
    );
    rows::print_single(rt, b"15 literals", t)
}

// x1 is node 2 of three places: its negation finds no room.
pub fn full(rt: &impl Print) -> io::Result<()> {
    let mut vars = [0u8, 0, 1];
    let mut lows = [0u16; 3];
    let mut highs = [0u16, 0, 1];
    let mut heads = [2u16, 0, 0, 0, 0, 0];
    let mut links = [0u16; 3];
    let r = checker::negation(
        &mut vars,
        &mut lows,
        &mut highs,
        &mut heads,
        &mut links,
        3,
        NodeNo(2),
    );
    rows::print_single(rt, b"23 negation", r)
}
