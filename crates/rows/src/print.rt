// A line's parts: a label, numbers, the end; and a line of numbers.
use std::io;

pub fn label(rt: &impl Print, text: &[u8]) -> io::Result<()> {
    rt.write_all(text)
}

pub fn number(rt: &impl Print, n: u64) -> io::Result<()> {
    print!(rt; " {n}")
}

pub fn byte(rt: &impl Print, n: u8) -> io::Result<()> {
    number(rt, n as u64)
}

pub fn short(rt: &impl Print, n: u16) -> io::Result<()> {
    number(rt, n as u64)
}

pub fn end(rt: &impl Print) -> io::Result<()> {
    rt.write_all(b"\n")
}

pub fn numbers(rt: &impl Print, text: &[u8], list: &[u16]) -> io::Result<()> {
    label(rt, text)?;
    for n in list {
        short(rt, *n)?;
    }
    end(rt)
}
