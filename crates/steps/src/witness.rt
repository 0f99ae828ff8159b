// Witness records.
ghost use Rattle.std.specs.Prelude.{◌≡◌, not, ◌&&◌, ◌≤◌, eqb};
ghost use Rattle.verdict.specs.Steps.{witness_step};
ghost use Rattle.state.specs.States.{Lent, state_of, Held, Stepped};
ghost use Rattle.steps.specs.NextStates.{state_with_witness};

use state::{State, Step};
use words::Literals;

// Whether a witness waits for its line.
pub fn waits(witness: Literals) -> bool
    ensures { result ≡ not (eqb witness.positive 0 && eqb witness.negative 0) }
{
    if witness.positive == 0 {
        return witness.negative != 0;
    }
    true
}

// The state with another witness.
pub fn with_witness(st: State, witness: Literals) -> State
    ensures { result ≡ state_with_witness st witness }
{
    State {
        count: st.count,
        kept: st.kept,
        members: st.members,
        entries: st.entries,
        witness,
        lines: st.lines,
        rounds: st.rounds,
        peak: st.peak,
        refuted: st.refuted,
    }
}

// The witness sets the variable v to `value`: 12, 15, or the next state.
pub fn witness_step(st: State, variables: u8, v: u8, value: bool) -> Step
    requires { variables ≤ 64 }
    ensures { (l : Lent) → Held variables l st → Stepped variables l l st (witness_step variables (state_of l st) v value) result }
{
    if v < 1 {
        return Step::Stop {
            number: 12,
            offset: 0,
        };
    }
    if variables < v {
        return Step::Stop {
            number: 12,
            offset: 0,
        };
    }
    let witness = st.witness;
    if words::in_word(witness.positive, v) {
        return Step::Stop {
            number: 15,
            offset: 0,
        };
    }
    if words::in_word(witness.negative, v) {
        return Step::Stop {
            number: 15,
            offset: 0,
        };
    }
    let set = words::with_literal(witness, v, value);
    Step::Next(with_witness(st, set))
}
