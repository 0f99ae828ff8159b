// The call: 7 by the sizes; else the check over words, and every lent place zero.
ghost use Rattle.std.specs.Prelude.{◌≡◌, true, [], ◌≤◌, length};
ghost use Rattle.dimacs.specs.Header.{header};
ghost use Rattle.dimacs.specs.Inner.{header_read};
ghost use Rattle.dimacs.specs.Clauses.{clauses_from};
ghost use Rattle.small_verdict.specs.Small.{six_only, small_fits, small_call};
ghost use Rattle.small.specs.WordSteps.{word_clauses, word_verdict};
ghost use Rattle.small.specs.Checked.{small_outcome};
ghost use Rattle.small.specs.Lent.{said_of};

use crate::{SmallChecked, State};
use dimacs::{Header, Refusal};
use words::Literals;

// Whether member list, its marks and scratch list are of proper size.
#[tactic(auto, unfolding(small_verdict::specs::Small::small_fits))]
fn lent_fits(members: &[u64], struck: &[u8], scratch: &[u64]) -> bool
    ensures { result ≡ small_fits members.now struck.now scratch.now }
{
    2048 <= members.len() && struck.len() == members.len() && 4096 <= scratch.len()
}

// The header, with more than six variables refused.
#[tactic(auto, using(crate::proofs::RunWays::header_wide, crate::proofs::RunWays::header_narrow))]
fn read_header(formula: &[u8]) -> Result<Header, Refusal>
    ensures { result ≡ header_read (six_only formula.now (header formula.now)) }
{
    let h = dimacs::read_header(formula)?;
    if 6 < h.variables {
        return Err(Refusal {
            number: 2,
            place: dimacs::judged_line(formula),
        });
    }
    Ok(h)
}

// The clauses from `from` on, then the proof. The lists are then anything.
fn run_clauses<'a>(
    members: &mut [u64],
    struck: &mut [u8],
    scratch: &mut [u64],
    variables: u8,
    wanted: usize,
    from: usize,
    formula: &'a [u8],
    proof: &'a [u8],
) -> SmallChecked
    requires { (variables ≤ 6) × (wanted ≤ 1024) × (from ≤ length formula.now)
        × (2048 ≤ length members.old) × (length struck.old ≡ length members.old) × (4096 ≤ length scratch.old) }
    ensures { word_clauses variables proof.now [] (clauses_from formula.now variables wanted from) ≡ said_of result }
{
    struck.fill(0);
    match crate::formula::read_clauses(members, formula, variables, wanted, from) {
        Err(refusal) => SmallChecked {
            number: refusal.number,
            in_proof: false,
            place: refusal.place,
            lines: 0,
            rounds: 0,
        },
        Ok(made) => {
            let first = State {
                members: made,
                entries: 0,
                witness: Literals {
                    positive: 0,
                    negative: 0,
                },
                lines: 0,
                rounds: 0,
                refuted: false,
            };
            crate::proof::read_records(members, struck, scratch, first, variables, proof)
        }
    }
}

// The formula and the proof. The lists are then anything.
fn run<'a>(
    members: &mut [u64],
    struck: &mut [u8],
    scratch: &mut [u64],
    formula: &'a [u8],
    proof: &'a [u8],
) -> SmallChecked
    requires { small_fits members.old struck.old scratch.old ≡ true }
    ensures { word_verdict formula.now proof.now ≡ said_of result }
{
    match read_header(formula) {
        Err(refusal) => SmallChecked {
            number: refusal.number,
            in_proof: false,
            place: refusal.place,
            lines: 0,
            rounds: 0,
        },
        Ok(h) => run_clauses(
            members,
            struck,
            scratch,
            h.variables,
            h.clauses,
            h.end,
            formula,
            proof,
        ),
    }
}

// The check of a formula of at most six variables: the definition's outcome.
pub fn call<'a>(
    members: &mut [u64],
    struck: &mut [u8],
    scratch: &mut [u64],
    formula: &'a [u8],
    proof: &'a [u8],
) -> SmallChecked
    ensures { small_outcome members.new struck.new scratch.new result
        ≡ small_call members.old struck.old scratch.old formula.now proof.now }
{
    if !lent_fits(members, struck, scratch) {
        return SmallChecked {
            number: 7,
            in_proof: false,
            place: 0,
            lines: 0,
            rounds: 0,
        };
    }
    let r = run(members, struck, scratch, formula, proof);
    members.fill(0);
    struck.fill(0);
    scratch.fill(0);
    r
}
