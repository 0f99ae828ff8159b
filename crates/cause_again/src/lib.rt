// The cause of what a check refuses with 14, 18 or 19, over what it leaves. (02, 8/14)
#![tactic(auto)]

ghost use Rattle.std.specs.Prelude.{◌≡◌, true, ◌≤◌, length};
ghost use Rattle.walks.specs.Readable.{Roomy};
ghost use Rattle.conflict.specs.Marks.{unmarked};
ghost use Rattle.commands.specs.Commands.{command_at};
ghost use Rattle.verdict.specs.Check.{verdict, zeros};
ghost use Rattle.state.specs.States.{lent_of};
ghost use Rattle.causes.specs.Explanation.{cause_in, ending};
ghost use Rattle.causes.specs.Answers.{told};
ghost use Rattle.command_causes.specs.Causes.{told_by, command_let};
ghost use Rattle.line_again.specs.Before.{has_cause};
ghost use Rattle.line_again.specs.Made.{LeftBy};

use command_causes::Cause;
use commands::{Command, Mode};
use session::Checked;

// The memo's cells: those that a table of 65,536 places needs.
const CELLS: usize = 65600;

// The command at a place of the proof, if it is let in within the profile or without it.
fn command_in(proof: &[u8], at: usize, variables: u8, mode: Mode) -> Option<Command>
    requires { (at ≤ length proof.now) × (variables ≤ 64) }
    ensures { let read = command_at mode.form proof.now variables at in
        result ≡ command_let mode.consequence read.command }
{
    let Ok(read) = profile::admitted_at(proof, at, variables, mode) else {
        return None;
    };
    Some(read.command)
}

// The cause of what the check refuses with 14, 18 or 19, over what it leaves, which is then as it was.
fn cause_over<'a>(
    vars: &mut [u8],
    lows: &mut [u16],
    highs: &mut [u16],
    heads: &mut [u16],
    links: &mut [u16],
    memo: &mut [u64],
    marks: &mut [u8],
    members: &mut [u16],
    scratch: &mut [u16],
    struck: &mut [u8],
    fixed: &mut [u64],
    checked: Checked,
    mode: Mode,
    formula: &'a [u8],
    proof: &'a [u8],
) -> Cause
    requires { let lent = lent_of vars.old lows.old highs.old heads.old links.old members.old scratch.old struck.old in
        let v = verdict mode (length vars.old) formula.now proof.now in
        LeftBy v checked.count checked.lines lent
        × (has_cause v.number ≡ true)
        × (checked.number ≡ v.number)
        × (checked.place ≡ v.place)
        × (marks.old ≡ unmarked (length vars.old))
        × Roomy vars.old memo.old
        × (128 ≤ length fixed.old)
        × (fixed.old ≡ zeros (length fixed.old)) }
    ensures fixed_after { let s = length vars.old in
        let end = ending mode s formula.now proof.now in
        told_by result fixed.new
        ≡ told (length fixed.old) (cause_in mode checked.number proof.now end) }
    ensures returned_after { let lent = lent_of vars.old lows.old highs.old heads.old links.old
        members.old scratch.old struck.old in
        let returned = lent_of vars.new lows.new highs.new heads.new links.new
        members.new scratch.new struck.new in
        returned ≡ lent }
{
    let place = checked.place;
    let again = line_again::state_again(
        vars,
        lows,
        highs,
        heads,
        links,
        memo,
        marks,
        members,
        scratch,
        struck,
        checked.count,
        checked.lines,
        place,
        mode,
        formula,
        proof,
    );
    let variables = again.variables;
    let st = again.state;
    let command = command_in(proof, place, variables, mode);
    let cause = command_causes::command::cause(
        vars,
        lows,
        highs,
        heads,
        links,
        memo,
        marks,
        members,
        scratch,
        struck,
        fixed,
        st,
        variables,
        checked.number,
        command,
    );
    table::drop_to(vars, lows, highs, heads, links, st.count, checked.count);
    clearing::clear_numbers(scratch);
    cause
}

// The same over arrays of its own.
pub fn cause_again<'a>(
    vars: &mut [u8],
    lows: &mut [u16],
    highs: &mut [u16],
    heads: &mut [u16],
    links: &mut [u16],
    members: &mut [u16],
    scratch: &mut [u16],
    struck: &mut [u8],
    fixed: &mut [u64],
    checked: Checked,
    mode: Mode,
    formula: &'a [u8],
    proof: &'a [u8],
) -> Cause
    requires { let lent = lent_of vars.old lows.old highs.old heads.old links.old members.old scratch.old struck.old in
        let v = verdict mode (length vars.old) formula.now proof.now in
        LeftBy v checked.count checked.lines lent
        × (has_cause v.number ≡ true)
        × (checked.number ≡ v.number)
        × (checked.place ≡ v.place)
        × (128 ≤ length fixed.old)
        × (fixed.old ≡ zeros (length fixed.old)) }
    ensures fixed_after { let s = length vars.old in
        let end = ending mode s formula.now proof.now in
        told_by result fixed.new
        ≡ told (length fixed.old) (cause_in mode checked.number proof.now end) }
    ensures returned_after { let lent = lent_of vars.old lows.old highs.old heads.old links.old
        members.old scratch.old struck.old in
        let returned = lent_of vars.new lows.new highs.new heads.new links.new
        members.new scratch.new struck.new in
        returned ≡ lent }
{
    let mut memo = [0u64; CELLS];
    let mut marks = [0u8; 65536];
    let places = vars.len();
    cause_over(
        vars,
        lows,
        highs,
        heads,
        links,
        &mut memo,
        &mut marks[..places],
        members,
        scratch,
        struck,
        fixed,
        checked,
        mode,
        formula,
        proof,
    )
}
