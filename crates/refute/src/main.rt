// Checks a proof in records: two file names, formula then proof; prints one line: number, place, accepted lines, rounds, peak.
#![tactic(auto)]

use commands::{Form, Mode};
use std::io;

fn main(rt: HostRuntime) -> io::Result<()> {
    let mut formula = [0u8; 65537];
    let mut proof = [0u8; 65537];
    let mode = Mode {
        form: Form::Records,
        consequence: false,
    };
    program::run(&rt, mode, &mut formula, &mut proof)
}
