// The report over a table of the caller's, in the form and the profile that the caller names: the line of `report` and its status, from
// lent columns, index and lists.
#![tactic(auto)]

ghost use Rattle.std.specs.Prelude.{◌≡◌, length, take, drop};
ghost use Rattle.checker.specs.Forms.{form_of};
ghost use Rattle.commands.specs.Commands.{in_form};
ghost use Rattle.report.specs.Files.{status_of};
ghost use Rattle.report.specs.Line.{line_bytes};
ghost use Rattle.table.specs.Columns.{columns_made};
ghost use Rattle.verdict.specs.Satisfies.{Unsatisfiable};
ghost use Rattle.report_in.specs.Lent.{report_outcome, report_on};

use report::{Line, Reported};

// The line on two files: their refusal, which leaves what is lent, else the check's.
fn line_in<'a>(
    vars: &mut [u8],
    lows: &mut [u16],
    highs: &mut [u16],
    heads: &mut [u16],
    links: &mut [u16],
    members: &mut [u16],
    struck: &mut [u8],
    scratch: &mut [u16],
    first: bool,
    formula: &'a [u8],
    second: bool,
    proof: &'a [u8],
    form: u8,
    consequence: bool,
) -> Line
    ensures { let lent = columns_made vars.old lows.old highs.old heads.old links.old in
        let left = columns_made vars.new lows.new highs.new heads.new links.new in
        report_outcome left members.new struck.new scratch.new result
        ≡ report_on (in_form (form_of form) consequence) lent members.old struck.old scratch.old
        first formula.now second proof.now }
{
    match report::files(first, formula, second, proof) {
        Some(refusal) => refusal,
        None => {
            let r = checker::check_form(
                vars,
                lows,
                highs,
                heads,
                links,
                2,
                members,
                struck,
                scratch,
                formula,
                proof,
                form,
                consequence,
            );
            Line {
                number: r.number,
                place: r.place,
                lines: r.lines,
                rounds: r.rounds,
                peak: r.peak,
            }
        }
    }
}

// The line on two files, put at the start of `line`, and the status. Form 0 is records, 1 a DRAT text, any other binary DRAT. `first` and
// `second` tell whether formula and proof could be read.
pub fn report_in<'a>(
    vars: &mut [u8],
    lows: &mut [u16],
    highs: &mut [u16],
    heads: &mut [u16],
    links: &mut [u16],
    members: &mut [u16],
    struck: &mut [u8],
    scratch: &mut [u16],
    first: bool,
    formula: &'a [u8],
    second: bool,
    proof: &'a [u8],
    form: u8,
    consequence: bool,
    line: &mut [u8; 105],
) -> Reported
    ensures fact { let lent = columns_made vars.old lows.old highs.old heads.old links.old in
        let left = columns_made vars.new lows.new highs.new heads.new links.new in
        let told = report_on (in_form (form_of form) consequence) lent members.old struck.old scratch.old
        first formula.now second proof.now in
        (report_outcome left members.new struck.new scratch.new told.line ≡ told)
        × (take result.length line.new ≡ line_bytes told.line)
        × (drop result.length line.new ≡ drop result.length line.old)
        × (result.length ≡ length (line_bytes told.line))
        × (result.status ≡ status_of told.line.number) }
    ensures unsatisfiable { result.status ≡ 0 → Unsatisfiable formula.now }
{
    let told = line_in(
        vars,
        lows,
        highs,
        heads,
        links,
        members,
        struck,
        scratch,
        first,
        formula,
        second,
        proof,
        form,
        consequence,
    );
    let status = report::status_of(told.number);
    let length = report::put_line(told, line);
    Reported { length, status }
}
