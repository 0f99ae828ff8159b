// The call that explains a refusal, `explain::call::why`, for Rust and C to link. (02, 8/14)
#![tactic(auto)]

ghost use Rattle.std.specs.Prelude.{◌≡◌};
ghost use Rattle.table.specs.Columns.{columns_made};
ghost use Rattle.commands.specs.Commands.{in_form};
ghost use Rattle.checker.specs.Forms.{form_of};
ghost use Rattle.causes.specs.Answers.{why};
ghost use Rattle.explain.specs.Why.{why_outcome};

use explain::Why;

// The check of a formula and a proof in the form and the profile that the caller names, and why it refuses: form 0 is records, 1 a DRAT
// text, any other binary DRAT. `fixed` is for the literals of 19: 128 words or more, two for each round, those made true and those made
// false.
#[unsafe(no_mangle)]
pub extern "C" fn cablesalak_why<'a>(
    vars: &mut [u8],
    lows: &mut [u16],
    highs: &mut [u16],
    heads: &mut [u16],
    links: &mut [u16],
    count: usize,
    members: &mut [u16],
    struck: &mut [u8],
    scratch: &mut [u16],
    fixed: &mut [u64],
    formula: &'a [u8],
    proof: &'a [u8],
    form: u8,
    consequence: bool,
) -> Why
    ensures { let lent = columns_made vars.old lows.old highs.old heads.old links.old in
        let left = columns_made vars.new lows.new highs.new heads.new links.new in
        why_outcome left members.new struck.new scratch.new fixed.new result
        ≡ why (in_form (form_of form) consequence) lent count members.old struck.old scratch.old
        fixed.old formula.now proof.now }
{
    let mode = checker::mode_of(form, consequence);
    explain::call::why(
        vars, lows, highs, heads, links, count, members, scratch, struck, fixed, mode, formula,
        proof,
    )
}
