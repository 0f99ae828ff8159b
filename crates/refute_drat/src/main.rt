// Checks a DRAT text: two file names, formula then proof; prints the same line as `refute`. (02, 4/14)
#![tactic(auto)]

use commands::{Form, Mode};
use std::io;

fn main(rt: HostRuntime) -> io::Result<()> {
    let mut formula = [0u8; 65537];
    let mut proof = [0u8; 65537];
    let mode = Mode {
        form: Form::Text,
        consequence: false,
    };
    program::run(&rt, mode, &mut formula, &mut proof)
}
