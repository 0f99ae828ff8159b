// Checks a proof in the form and the profile that the third argument names: `r`, `t` or `b` (records, DRAT text, binary DRAT), with a `c`
// behind it for the consequence profile. The first two arguments are the file names, formula then proof; it prints the same line as
// `refute`. For any other word it prints nothing, and what it takes on standard error.
#![tactic(auto)]

ghost use Rattle.std.specs.Prelude.{◌≡◌};
ghost use Rattle.refute_in.specs.Words.{form_named, mode_named};

use commands::{Form, Mode};
use program::Text;
use std::io;
use std::rt::{Env, Files};

// The mode of a letter for the form and of a profile.
fn form_of(byte: u8, consequence: bool) -> Option<Mode>
    ensures { result ≡ form_named byte consequence }
{
    let form = match byte {
        b'r' => Form::Records,
        b't' => Form::Text,
        b'b' => Form::Binary,
        _ => return None,
    };
    Some(Mode { form, consequence })
}

// What the word names.
#[tactic(auto, unfolding(crate::specs::Words::mode_named))]
fn mode_of(word: &[u8]) -> Option<Mode>
    ensures { result ≡ mode_named word.now }
{
    match word {
        [form] => form_of(*form, false),
        [form, b'c'] => form_of(*form, true),
        _ => None,
    }
}

// The check in the mode that the third argument names.
fn start(
    rt: &(impl Env + Files + Print + Eprint),
    given: Text,
    word: &[u8],
    formula: &mut [u8],
    proof: &mut [u8],
) -> io::Result<()>
    requires { given.argument ≡ 3 }
{
    match mode_of(word) {
        Some(mode) => program::run(rt, mode, formula, proof),
        None => rt.eprintln("refute_in FORMULA PROOF r|rc|t|tc|b|bc"),
    }
}

fn main(rt: HostRuntime) -> io::Result<()> {
    let mut formula = [0u8; 65537];
    let mut proof = [0u8; 65537];
    let mut word = [0u8; program::LONGEST_WORD];
    let given = program::read_word(&rt, 3, &mut word);
    start(&rt, given, given.bytes(&word), &mut formula, &mut proof)
}
