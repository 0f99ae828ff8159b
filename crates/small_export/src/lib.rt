// The check by truth table for Rust and C to link, alone: it has the call's contract, and what number 0 means.
#![tactic(auto)]

ghost use Rattle.std.specs.Prelude.{◌≡◌};
ghost use Rattle.small.specs.Checked.{small_outcome};
ghost use Rattle.small_verdict.specs.Small.{small_call};
ghost use Rattle.verdict.specs.Satisfies.{Unsatisfiable};

use small::SmallChecked;

// The check of a formula of at most six variables and its proof in records. The lists hold zeros after it, but for 7.
#[unsafe(no_mangle)]
pub extern "C" fn cablesalak_small<'a>(
    members: &mut [u64],
    struck: &mut [u8],
    scratch: &mut [u64],
    formula: &'a [u8],
    proof: &'a [u8],
) -> SmallChecked
    ensures result_after { small_outcome members.new struck.new scratch.new result
        ≡ small_call members.old struck.old scratch.old formula.now proof.now }
    ensures unsatisfiable { result.number ≡ 0 → Unsatisfiable formula.now }
{
    small::call::call(members, struck, scratch, formula, proof)
}
