// The call that explains a refusal: the check, the piece at its place, and the cause over what it leaves. (02, 8/14)
ghost use Rattle.std.specs.Prelude.{◌≡◌, ◌≢◌, true, ◌≤◌, length};
ghost use Rattle.table.specs.Columns.{columns_made};
ghost use Rattle.verdict.specs.Check.{verdict, zeros};
ghost use Rattle.state.specs.States.{lent_of};
ghost use Rattle.causes.specs.Explanation.{explanation};
ghost use Rattle.causes.specs.Answers.{told, why};
ghost use Rattle.line_again.specs.Before.{has_cause};
ghost use Rattle.line_again.specs.Made.{LeftBy};
ghost use Rattle.explain.specs.Inner.{explained_in, no_cause, why_nothing, why_of};
ghost use Rattle.explain.specs.Why.{why_outcome};

use crate::Why;
use command_causes::Cause;
use commands::Mode;
use session::Checked;

// Whether the cause of a number is told beside it.
fn has_cause(number: u8) -> bool
    ensures { result ≡ has_cause number }
{
    if number == 14 {
        return true;
    }
    if number == 18 {
        return true;
    }
    number == 19
}

fn no_cause() -> Cause
    ensures { result ≡ no_cause }
{
    Cause {
        variable: 0,
        child: 0,
        word: 0,
        rounds: 0,
        has_member: false,
        member: 0,
    }
}

// A number with an empty part and no cause.
fn why_nothing(number: u8, count: usize) -> Why
    ensures { result ≡ why_nothing number count }
{
    Why {
        number,
        in_proof: false,
        start: 0,
        end: 0,
        variable: 0,
        child: 0,
        word: 0,
        rounds: 0,
        has_member: false,
        member: 0,
        count,
    }
}

// What is said of a refused check, with the end of its piece and its cause.
fn why_of(checked: Checked, end: usize, cause: Cause) -> Why
    ensures { result ≡ why_of checked end cause }
{
    Why {
        number: checked.number,
        in_proof: checked.in_proof,
        start: checked.place,
        end,
        variable: cause.variable,
        child: cause.child,
        word: cause.word,
        rounds: cause.rounds,
        has_member: cause.has_member,
        member: cause.member,
        count: checked.count,
    }
}

fn clear_words(words: &mut [u64])
    ensures { words.new ≡ zeros (length words.old) }
{
    let mut i: usize = 0;
    while i < words.len() {
        words[i] = 0;
        i += 1;
    }
}

// What is said of a refused check, over what it leaves, which stays.
fn explained<'a>(
    vars: &mut [u8],
    lows: &mut [u16],
    highs: &mut [u16],
    heads: &mut [u16],
    links: &mut [u16],
    members: &mut [u16],
    scratch: &mut [u16],
    struck: &mut [u8],
    fixed: &mut [u64],
    checked: Checked,
    mode: Mode,
    formula: &'a [u8],
    proof: &'a [u8],
) -> Why
    requires { let lent = lent_of vars.old lows.old highs.old heads.old links.old members.old scratch.old struck.old in
        let v = verdict mode (length vars.old) formula.now proof.now in
        LeftBy v checked.count checked.lines lent
        × (v.number ≢ 0)
        × (checked.number ≡ v.number)
        × (checked.in_proof ≡ v.in_proof)
        × (checked.place ≡ v.place)
        × (128 ≤ length fixed.old)
        × (fixed.old ≡ zeros (length fixed.old)) }
    ensures { let lent = columns_made vars.old lows.old highs.old heads.old links.old in
        let left = columns_made vars.new lows.new highs.new heads.new links.new in
        let e = explanation mode (length vars.old) formula.now proof.now in
        why_outcome left members.new struck.new scratch.new fixed.new result
        ≡ explained_in e (told (length fixed.old) e.cause) checked.count lent
        members.old struck.old scratch.old }
{
    let number = checked.number;
    let form = mode.form;
    let end = pieces::piece_end(
        formula,
        proof,
        form,
        number,
        checked.in_proof,
        checked.place,
    );
    if !has_cause(number) {
        return why_of(checked, end, no_cause());
    }
    let cause = cause_again::cause_again(
        vars, lows, highs, heads, links, members, scratch, struck, fixed, checked, mode, formula,
        proof,
    );
    why_of(checked, end, cause)
}

// The check of a formula and a proof, and why it refuses. `fixed` is for the literals that 19's cause lists: 128 words or more, two for
// each round, those made true and those made false. What it says and leaves is the definition's. `shown` gives the part that it
// names as a part of the caller's own bytes.
pub fn why<'a>(
    vars: &mut [u8],
    lows: &mut [u16],
    highs: &mut [u16],
    heads: &mut [u16],
    links: &mut [u16],
    count: usize,
    members: &mut [u16],
    scratch: &mut [u16],
    struck: &mut [u8],
    fixed: &mut [u64],
    mode: Mode,
    formula: &'a [u8],
    proof: &'a [u8],
) -> Why
    ensures { let lent = columns_made vars.old lows.old highs.old heads.old links.old in
        let left = columns_made vars.new lows.new highs.new heads.new links.new in
        why_outcome left members.new struck.new scratch.new fixed.new result
        ≡ why mode lent count members.old struck.old scratch.old fixed.old
        formula.now proof.now }
{
    if fixed.len() < 128 {
        return why_nothing(7, count);
    }
    let checked = check_call::call(
        vars, lows, highs, heads, links, count, members, scratch, struck, mode, formula, proof,
    );
    if checked.number == 7 {
        return why_nothing(7, count);
    }
    clear_words(fixed);
    if checked.number == 0 {
        return why_nothing(30, checked.count);
    }
    explained(
        vars, lows, highs, heads, links, members, scratch, struck, fixed, checked, mode, formula,
        proof,
    )
}
