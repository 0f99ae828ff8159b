// The whole check over working arrays that are lent: the table emptied, the clauses made, the commands judged, the rest dropped.
#![tactic(auto)]

ghost use Rattle.std.specs.Prelude.{◌≡◌, true, [], ◌≤◌, length};
ghost use Rattle.dimacs.specs.Clauses.{clauses_from};
ghost use Rattle.table.specs.Columns.{columns_made};
ghost use Rattle.table.specs.Indexed.{table_of};
ghost use Rattle.walks.specs.Readable.{Roomy};
ghost use Rattle.conflict.specs.Marks.{unmarked};
ghost use Rattle.verdict.specs.Steps.{emptied};
ghost use Rattle.verdict.specs.Check.{clauses, verdict, zeros, lent_fits, outcome};
ghost use Rattle.session.specs.Checked.{check_outcome};
ghost use Rattle.formula.specs.Formula.{Opened};

use commands::Mode;
use formula::Start;

pub mod proof;

// What the check says: 01's number, whether its place is in the proof (else in the formula), the place, the accepted lines, their rounds,
// the table's count, and the greatest count reached.
#[repr(C)]
#[derive(Clone, Copy)]
pub struct Checked {
    pub number: u8,
    pub in_proof: bool,
    pub place: usize,
    pub lines: usize,
    pub rounds: u64,
    pub count: usize,
    pub peak: usize,
}

// The clauses from `from` on, then the proof, with table, member list and its marks emptied. The scratch list is then anything.
fn run_clauses<'a>(
    vars: &mut [u8],
    lows: &mut [u16],
    highs: &mut [u16],
    heads: &mut [u16],
    links: &mut [u16],
    memo: &mut [u64],
    marks: &mut [u8],
    members: &mut [u16],
    scratch: &mut [u16],
    struck: &mut [u8],
    variables: u8,
    wanted: usize,
    from: usize,
    mode: Mode,
    formula: &'a [u8],
    proof: &'a [u8],
) -> Checked
    requires opened { Opened (table_of vars.old lows.old highs.old heads.old links.old 2) members.old }
    requires variables_bound { (variables ≤ 64)
        × (wanted ≤ 1024)
        × (from ≤ length formula.now)
        × (4096 ≤ length scratch.old)
        × (marks.old ≡ unmarked (length vars.old))
        × Roomy vars.old memo.old
        × (struck.old ≡ zeros (length members.old)) }
    ensures { let left = columns_made vars.new lows.new highs.new heads.new links.new in
        check_outcome left members.new struck.new (zeros (length scratch.old)) result
        ≡ outcome (length vars.old) (length members.old) (length scratch.old)
        (clauses mode variables (length vars.old) proof.now emptied []
        (clauses_from formula.now variables wanted from)) }
{
    match formula::read_clauses(
        vars, lows, highs, heads, links, members, formula, variables, wanted, from,
    ) {
        Start::Refused {
            number,
            place,
            peak,
        } => {
            clearing::empty(vars, lows, highs, heads, links, members);
            Checked {
                number,
                in_proof: false,
                place,
                lines: 0,
                rounds: 0,
                count: 2,
                peak,
            }
        }
        Start::Begun { count, made } => proof::run_proof(
            vars, lows, highs, heads, links, memo, marks, members, scratch, struck, variables,
            count, made, mode, proof,
        ),
    }
}

// The formula and the proof, with table, member list and its marks emptied. The scratch list is then anything.
fn run_header<'a>(
    vars: &mut [u8],
    lows: &mut [u16],
    highs: &mut [u16],
    heads: &mut [u16],
    links: &mut [u16],
    memo: &mut [u64],
    marks: &mut [u8],
    members: &mut [u16],
    scratch: &mut [u16],
    struck: &mut [u8],
    mode: Mode,
    formula: &'a [u8],
    proof: &'a [u8],
) -> Checked
    requires opened { Opened (table_of vars.old lows.old highs.old heads.old links.old 2) members.old }
    requires in_bounds { (4096 ≤ length scratch.old)
        × (marks.old ≡ unmarked (length vars.old))
        × Roomy vars.old memo.old
        × (struck.old ≡ zeros (length members.old)) }
    ensures { let left = columns_made vars.new lows.new highs.new heads.new links.new in
        check_outcome left members.new struck.new (zeros (length scratch.old)) result
        ≡ outcome (length vars.old) (length members.old) (length scratch.old)
        (verdict mode (length vars.old) formula.now proof.now) }
{
    match dimacs::read_header(formula) {
        Err(refusal) => Checked {
            number: refusal.number,
            in_proof: false,
            place: refusal.place,
            lines: 0,
            rounds: 0,
            count: 2,
            peak: 2,
        },
        Ok(h) => run_clauses(
            vars,
            lows,
            highs,
            heads,
            links,
            memo,
            marks,
            members,
            scratch,
            struck,
            h.variables,
            h.clauses,
            h.end,
            mode,
            formula,
            proof,
        ),
    }
}

// The whole check, with the conflict's marks all zero. What it leaves in memo and those marks is not said.
pub fn run<'a>(
    vars: &mut [u8],
    lows: &mut [u16],
    highs: &mut [u16],
    heads: &mut [u16],
    links: &mut [u16],
    memo: &mut [u64],
    marks: &mut [u8],
    members: &mut [u16],
    scratch: &mut [u16],
    struck: &mut [u8],
    mode: Mode,
    formula: &'a [u8],
    proof: &'a [u8],
) -> Checked
    requires scratch_value { let lent = columns_made vars.old lows.old highs.old heads.old links.old in
        lent_fits lent members.old struck.old scratch.old ≡ true }
    requires marks_value { (marks.old ≡ unmarked (length vars.old)) × Roomy vars.old memo.old }
    ensures { let left = columns_made vars.new lows.new highs.new heads.new links.new in
        check_outcome left members.new struck.new scratch.new result
        ≡ outcome (length vars.old) (length members.old) (length scratch.old)
        (verdict mode (length vars.old) formula.now proof.now) }
{
    clearing::empty(vars, lows, highs, heads, links, members);
    clearing::clear_bytes(struck);
    let said = run_header(
        vars, lows, highs, heads, links, memo, marks, members, scratch, struck, mode, formula,
        proof,
    );
    clearing::clear_numbers(scratch);
    said
}
