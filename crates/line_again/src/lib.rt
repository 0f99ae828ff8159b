// The state before a refused command, made again from what the check leaves. (02, 8/14)
#![tactic(auto)]

ghost use Rattle.std.specs.Prelude.{◌≡◌, true, ℕ, ◌≤◌, length};
ghost use Rattle.walks.specs.Readable.{Roomy};
ghost use Rattle.dimacs.specs.Header.{header};
ghost use Rattle.conflict.specs.Marks.{unmarked};
ghost use Rattle.verdict.specs.Steps as check;
ghost use Rattle.verdict.specs.Check.{verdict};
ghost use Rattle.state.specs.States.{lent_of};
ghost use Rattle.causes.specs.Explanation.{ending, ended};
ghost use Rattle.commands.specs.Commands.{is_drat};
ghost use Rattle.tell.specs.Begun.{line_state};
ghost use Rattle.line_again.specs.Before.{has_cause};
ghost use Rattle.line_again.specs.Made.{LeftBy, begun_by, MadeAgain};

use commands::{Form, Mode};
use state::State;
use words::Literals;

// A formula's variables, and a state of its check.
#[derive(Clone, Copy)]
pub struct Again {
    pub variables: u8,
    pub state: State,
}

// A state with so many nodes, members and lines, no entries and no witness.
fn line_state(count: usize, members: usize, lines: usize) -> State
    ensures { result ≡ line_state count members lines }
{
    State {
        count,
        kept: count,
        members,
        entries: 0,
        witness: Literals {
            positive: 0,
            negative: 0,
        },
        lines,
        rounds: 0,
        peak: count,
        refuted: false,
    }
}

// The state as the refused line began, with so many nodes and accepted lines.
fn begun_of(formula: &[u8], count: usize, lines: usize) -> Again
    requires { lines ≤ 1024 }
    ensures { result ≡ begun_by (header formula.now) count lines }
{
    match dimacs::read_header(formula) {
        Ok(h) => Again {
            variables: h.variables,
            state: line_state(count, h.clauses + lines, lines),
        },
        Err(_) => Again {
            variables: 0,
            state: line_state(count, 0, lines),
        },
    }
}

// Whether the proof's commands are clauses.
fn is_drat(form: Form) -> bool
    ensures { result ≡ is_drat form }
{
    match form {
        Form::Records => false,
        Form::Text => true,
        Form::Binary => true,
    }
}

// The state before the refused command at `place`, made again over what the check leaves: in records those of the line are done again; a
// clause has none.
pub fn state_again<'a>(
    vars: &mut [u8],
    lows: &mut [u16],
    highs: &mut [u16],
    heads: &mut [u16],
    links: &mut [u16],
    memo: &mut [u64],
    marks: &mut [u8],
    members: &mut [u16],
    scratch: &mut [u16],
    struck: &mut [u8],
    count: usize,
    lines: usize,
    place: usize,
    mode: Mode,
    formula: &'a [u8],
    proof: &'a [u8],
) -> Again
    requires { let lent = lent_of vars.old lows.old highs.old heads.old links.old members.old scratch.old struck.old in
        let v = verdict mode (length vars.old) formula.now proof.now in
        LeftBy v count lines lent
        × (has_cause v.number ≡ true)
        × (place ≡ v.place)
        × (marks.old ≡ unmarked (length vars.old))
        × Roomy vars.old memo.old }
    ensures made_again { let lent = lent_of vars.old lows.old highs.old heads.old links.old
        members.old scratch.old struck.old in
        let returned = lent_of vars.new lows.new highs.new heads.new links.new
        members.new scratch.new struck.new in
        (n : ℕ) (st : check.State) (at : ℕ) →
        ending mode (length vars.old) formula.now proof.now ≡ ended n st at →
        MadeAgain n st lent returned result }
    ensures marks_after { marks.new ≡ unmarked (length vars.old) }
{
    let begun = begun_of(formula, count, lines);
    let form = mode.form;
    if is_drat(form) {
        return begun;
    }
    let from = why::opening::line_start(proof, place);
    let variables = begun.variables;
    let state = remake::remake(
        vars,
        lows,
        highs,
        heads,
        links,
        memo,
        marks,
        members,
        scratch,
        struck,
        begun.state,
        variables,
        proof,
        from,
        place,
    );
    Again { variables, state }
}
