// A row of the examples: a call through the face, and the line that the programs `cases` and `changes` print of it. A check's line has
// label, number, place, accepted lines, rounds, count and peak; a single call's label, number, node (evaluation: 1 for yes, 0 for no) and
// count.
#![tactic(auto)]

pub mod print;

use session::Checked;
use single::Evaluated;
use single::call::Single;
use std::io;

// The line but for its end.
pub fn print_said(rt: &impl Print, label: &[u8], r: Checked) -> io::Result<()> {
    print::label(rt, label)?;
    print::number(rt, r.number as u64)?;
    print::number(rt, r.place as u64)?;
    print::number(rt, r.lines as u64)?;
    print::number(rt, r.rounds)?;
    print::number(rt, r.count as u64)?;
    print::number(rt, r.peak as u64)
}

pub fn print_single(rt: &impl Print, label: &[u8], r: Single) -> io::Result<()> {
    let node = r.node;
    print::label(rt, label)?;
    print::number(rt, r.number as u64)?;
    print::number(rt, node.0 as u64)?;
    print::number(rt, r.count as u64)?;
    print::end(rt)
}

pub fn print_evaluated(rt: &impl Print, label: &[u8], r: Evaluated) -> io::Result<()> {
    print::label(rt, label)?;
    print::number(rt, r.number as u64)?;
    print::number(rt, r.yes as u64)?;
    print::number(rt, r.count as u64)?;
    print::end(rt)
}

// The line of a check but for its end. The count lent is 9, which only number 7 hands back.
pub fn say_in<'a>(
    rt: &impl Print,
    label: &[u8],
    vars: &mut [u8],
    lows: &mut [u16],
    highs: &mut [u16],
    heads: &mut [u16],
    links: &mut [u16],
    struck: &mut [u8],
    formula: &'a [u8],
    proof: &'a [u8],
) -> io::Result<()> {
    let mut members = [0u16; 2048];
    let mut scratch = [0u16; 4096];
    let r = checker::check(
        vars,
        lows,
        highs,
        heads,
        links,
        9,
        &mut members,
        struck,
        &mut scratch,
        formula,
        proof,
    );
    print_said(rt, label, r)
}

pub fn run_in<'a>(
    rt: &impl Print,
    label: &[u8],
    vars: &mut [u8],
    lows: &mut [u16],
    highs: &mut [u16],
    heads: &mut [u16],
    links: &mut [u16],
    formula: &'a [u8],
    proof: &'a [u8],
) -> io::Result<()> {
    let mut struck = [0u8; 2048];
    say_in(
        rt,
        label,
        vars,
        lows,
        highs,
        heads,
        links,
        &mut struck,
        formula,
        proof,
    )?;
    print::end(rt)
}

// The check with a table of 4,096 places.
pub fn run<'a>(
    rt: &impl Print,
    label: &[u8],
    formula: &'a [u8],
    proof: &'a [u8],
) -> io::Result<()> {
    let mut vars = [0u8; 4096];
    let mut lows = [0u16; 4096];
    let mut highs = [0u16; 4096];
    let mut heads = [0u16; 8192];
    let mut links = [0u16; 4096];
    run_in(
        rt, label, &mut vars, &mut lows, &mut highs, &mut heads, &mut links, formula, proof,
    )
}
