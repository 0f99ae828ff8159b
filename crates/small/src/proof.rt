// The proof's records judged one after another, over words.
ghost use Rattle.std.specs.Prelude.{◌≡◌, suc, length};
ghost use Rattle.small.specs.WordSteps.{word_records};
ghost use Rattle.small.specs.Lent.{words_lent, state_of, Held, said_of};

use crate::{SmallChecked, State};

// Record after record, up to one that ends the proof. The lists are then anything.
pub fn read_records(
    members: &mut [u64],
    struck: &mut [u8],
    scratch: &mut [u64],
    first: State,
    variables: u8,
    proof: &[u8],
) -> SmallChecked
    requires { Held variables (words_lent members.old struck.old scratch.old) first }
    ensures { let lent = words_lent members.old struck.old scratch.old in
        word_records (suc (length proof.now)) variables proof.now (state_of lent first) 0 ≡ said_of result }
{
    let mut state = first;
    let mut at: usize = 0;
    while at <= proof.len() {
        let record = records::record_from(proof, at);
        let next = at + records::record_length(record);
        let more = next < proof.len();
        match crate::record::record_step(members, struck, scratch, state, variables, more, record) {
            Err(stop) => {
                return SmallChecked {
                    number: stop.number,
                    in_proof: true,
                    place: at + stop.offset,
                    lines: state.lines,
                    rounds: state.rounds,
                };
            }
            Ok(s) => {
                state = s;
                at = next;
            }
        }
    }
    // No record ends beyond the proof.
    SmallChecked {
        number: 10,
        in_proof: true,
        place: at,
        lines: state.lines,
        rounds: state.rounds,
    }
}
