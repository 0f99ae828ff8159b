// The examples that check a formula and a proof.
ghost use Rattle.std.specs.Prelude.{◌<◌, length};

use std::io;

pub fn cases_a_to_c(rt: &impl Print) -> io::Result<()> {
    let formula = b"p cnf 2 4\n1 2 0\n-1 2 0\n1 -2 0\n-1 -2 0\n";
    let proof = b"\x4E\x02\x00\x00\x01\x00\x52\x02\x00\x52\x00\x00\x45";
    rows::run(rt, b"A", formula, proof)?;
    rows::run(rt, b"B", formula, b"\x52\x00\x00\x45")?;
    rows::run(rt, b"C", b"p cnf 2 2\n1 2 0\n-1 2 0\n", proof)
}

pub fn cases_d_to_f(rt: &impl Print) -> io::Result<()> {
    let formula = b"p cnf 2 1\n1 2 0\n";
    rows::run(
        rt,
        b"D",
        formula,
        b"\x4E\x01\x00\x00\x01\x00\x46\x01\x50\x02\x00\x45",
    )?;
    rows::run(
        rt,
        b"E",
        formula,
        b"\x4E\x01\x00\x00\x01\x00\x54\x01\x50\x02\x00\x45",
    )?;
    rows::run(
        rt,
        b"F",
        formula,
        b"\x4E\x01\x00\x00\x01\x00\x52\x02\x00\x45",
    )
}

// I's entries: x3, x2 and x3, x2 or x3, at least two of the three.
pub fn cases_i_and_j(rt: &impl Print) -> io::Result<()> {
    let majority =
        b"\x4E\x03\x00\x00\x01\x00\x4E\x02\x00\x00\x02\x00\x4E\x02\x02\x00\x01\x00\x4E\x01\x03\x00\x04\x00\x52\x05\x00\x45";
    rows::run(rt, b"I", b"p cnf 3 3\n2 3 0\n1 3 0\n1 2 0\n", majority)?;
    rows::run(rt, b"J", b"p cnf 0 0\n", b"\x52\x00\x00\x45")
}

// The numbers that a formula gives: 1 to 6.
pub fn formulas(rt: &impl Print) -> io::Result<()> {
    rows::run(rt, b"1", b"p cnf 2", b"")?;
    rows::run(rt, b"2", b"p cnf 65 1", b"")?;
    rows::run(rt, b"3", b"p cnf 1 1\n-0 0\n", b"")?;
    rows::run(rt, b"4", b"p cnf 2 1\n3 0\n", b"")?;
    rows::run(rt, b"5", b"p cnf 1 2\n1 0\n", b"")?;
    rows::run(rt, b"6", b"p cnf 1 1\n1\n", b"")
}

pub fn one_place(rt: &impl Print) -> io::Result<()> {
    let mut vars = [0u8; 1];
    let mut lows = [0u16; 1];
    let mut highs = [0u16; 1];
    let mut heads = [0u16; 2];
    let mut links = [0u16; 1];
    rows::run_in(
        rt,
        b"7",
        &mut vars,
        &mut lows,
        &mut highs,
        &mut heads,
        &mut links,
        b"p cnf 0 0\n",
        b"\x45",
    )
}

pub fn two_places(rt: &impl Print) -> io::Result<()> {
    let mut vars = [0u8; 2];
    let mut lows = [0u16; 2];
    let mut highs = [0u16; 2];
    let mut heads = [0u16; 4];
    let mut links = [0u16; 2];
    rows::run_in(
        rt,
        b"8",
        &mut vars,
        &mut lows,
        &mut highs,
        &mut heads,
        &mut links,
        b"p cnf 1 1\n1 0\n",
        b"",
    )
}

pub fn three_places(rt: &impl Print) -> io::Result<()> {
    let mut vars = [0u8; 3];
    let mut lows = [0u16; 3];
    let mut highs = [0u16; 3];
    let mut heads = [0u16; 6];
    let mut links = [0u16; 3];
    let proof = b"\x4E\x02\x00\x00\x01\x00";
    rows::run_in(
        rt,
        b"23",
        &mut vars,
        &mut lows,
        &mut highs,
        &mut heads,
        &mut links,
        b"p cnf 2 1\n1 0\n",
        proof,
    )
}

// For a row that names no formula: case D's.
fn run_proof(rt: &impl Print, label: &[u8], proof: &[u8]) -> io::Result<()> {
    rows::run(rt, label, b"p cnf 2 1\n1 2 0\n", proof)
}

// 9 to 14.
pub fn records(rt: &impl Print) -> io::Result<()> {
    run_proof(rt, b"9", b"\x00")?;
    run_proof(rt, b"10", b"")?;
    run_proof(rt, b"11", b"\x45\x45")?;
    run_proof(rt, b"12", b"\x54\x00")?;
    run_proof(rt, b"13", b"\x52\x02\x00")?;
    run_proof(
        rt,
        b"14",
        b"\x4E\x02\x00\x00\x01\x00\x4E\x02\x02\x00\x01\x00",
    )
}

// 15 to 20, but for 18 and 19: they are cases D and B.
pub fn witnesses_and_ends(rt: &impl Print) -> io::Result<()> {
    run_proof(rt, b"15", b"\x54\x01\x46\x01")?;
    run_proof(rt, b"16", b"\x54\x01\x45")?;
    run_proof(rt, b"17", b"\x52\x01\x00")?;
    run_proof(rt, b"20", b"\x45")
}

// The piece again and again, as far as there is room.
fn repeat(bytes: &mut [u8], piece: &[u8])
    requires { 0 < length piece.now }
{
    let mut i: usize = 0;
    while i < bytes.len() {
        bytes[i] = piece[i % piece.len()];
        i += 1;
    }
}

// 4,097 node records.
pub fn too_many_entries(rt: &impl Print) -> io::Result<()> {
    let mut proof = [0u8; 24582];
    repeat(&mut proof, b"\x4E\x02\x00\x00\x01\x00");
    run_proof(rt, b"21", &proof)
}

// 1,025 lines; an empty clause lets every 0 line pass.
pub fn too_many_lines(rt: &impl Print) -> io::Result<()> {
    let mut proof = [0u8; 3075];
    repeat(&mut proof, b"\x52\x00\x00");
    rows::run(rt, b"22", b"p cnf 0 1\n0\n", &proof)
}
