// The public calls for Rust and C to link: each has the contract of the call of `checker` or `report` and nothing of its own.
#![tactic(auto)]

ghost use Rattle.std.specs.Prelude.{◌≡◌, length, take, drop};
ghost use Rattle.checker.specs.Forms.{form_of};
ghost use Rattle.commands.specs.Commands.{in_form, in_records, in_text};
ghost use Rattle.convert.specs.Convert.{conversion_of, to_binary, to_text};
ghost use Rattle.report.specs.Files.{said, status_of};
ghost use Rattle.report.specs.Line.{line_bytes};
ghost use Rattle.report_in.specs.Lent.{report_outcome, report_on};
ghost use Rattle.session.specs.Checked.{check_outcome};
ghost use Rattle.single.specs.Single.{evaluation, made_of, operation, counted_of, at_least_call};
ghost use Rattle.table.specs.Columns.{columns_made};
ghost use Rattle.verdict.specs.Check.{check};
ghost use Rattle.verdict.specs.Satisfies.{Unsatisfiable};

use commands::{Form, Mode};
use convert::Converted;
use operate::Operation;
use report::Reported;
use session::Checked;
use single::Evaluated;
use single::call::Single;
use single::least::AtLeast;
use table::NodeNo;

// Whether the node is 1 under the word's assignment; or 7, 26, 13.
#[unsafe(no_mangle)]
pub extern "C" fn cablesalak_evaluate(
    vars: &[u8],
    lows: &[u16],
    highs: &[u16],
    heads: &[u16],
    links: &[u16],
    count: usize,
    node: u16,
    word: u64,
) -> Evaluated
    ensures { let lent = columns_made vars.now lows.now highs.now heads.now links.now in
        result ≡ evaluation lent count node word }
{
    checker::evaluate(vars, lows, highs, heads, links, count, NodeNo(node), word)
}

// The conjunction of f and g; or 7, 26, 13, 23.
#[unsafe(no_mangle)]
pub extern "C" fn cablesalak_conjunction(
    vars: &mut [u8],
    lows: &mut [u16],
    highs: &mut [u16],
    heads: &mut [u16],
    links: &mut [u16],
    count: usize,
    f: u16,
    g: u16,
) -> Single
    ensures { let lent = columns_made vars.old lows.old highs.old heads.old links.old in
        let left = columns_made vars.new lows.new highs.new heads.new links.new in
        made_of left result ≡ operation Operation.Conjunction lent count f g }
{
    checker::conjunction(vars, lows, highs, heads, links, count, NodeNo(f), NodeNo(g))
}

// The negation of f; or 7, 26, 13, 23.
#[unsafe(no_mangle)]
pub extern "C" fn cablesalak_negation(
    vars: &mut [u8],
    lows: &mut [u16],
    highs: &mut [u16],
    heads: &mut [u16],
    links: &mut [u16],
    count: usize,
    f: u16,
) -> Single
    ensures { let lent = columns_made vars.old lows.old highs.old heads.old links.old in
        let left = columns_made vars.new lows.new highs.new heads.new links.new in
        made_of left result ≡ operation Operation.Negation lent count f 1 }
{
    checker::negation(vars, lows, highs, heads, links, count, NodeNo(f))
}

// f cofactored by the diagram g; or 7, 26, 13, 27, 23.
#[unsafe(no_mangle)]
pub extern "C" fn cablesalak_cofactor(
    vars: &mut [u8],
    lows: &mut [u16],
    highs: &mut [u16],
    heads: &mut [u16],
    links: &mut [u16],
    count: usize,
    f: u16,
    g: u16,
) -> Single
    ensures { let lent = columns_made vars.old lows.old highs.old heads.old links.old in
        let left = columns_made vars.new lows.new highs.new heads.new links.new in
        made_of left result ≡ operation Operation.Cofactor lent count f g }
{
    checker::cofactor(vars, lows, highs, heads, links, count, NodeNo(f), NodeNo(g))
}

// f with the variables of `positive` made true and those of `negative` false; or 7, 26, 13, 15, 23.
#[unsafe(no_mangle)]
pub extern "C" fn cablesalak_cofactor_literals(
    vars: &mut [u8],
    lows: &mut [u16],
    highs: &mut [u16],
    heads: &mut [u16],
    links: &mut [u16],
    count: usize,
    f: u16,
    positive: u64,
    negative: u64,
) -> Single
    ensures { let lent = columns_made vars.old lows.old highs.old heads.old links.old in
        let left = columns_made vars.new lows.new highs.new heads.new links.new in
        made_of left result ≡ operation (Operation.Literals positive negative) lent count f 1 }
{
    checker::cofactor_literals(
        vars,
        lows,
        highs,
        heads,
        links,
        count,
        NodeNo(f),
        positive,
        negative,
    )
}

// The diagram of "at least k of the set's variables", and how many assignments of the set it excludes; or 7, 26, 23.
#[unsafe(no_mangle)]
pub extern "C" fn cablesalak_at_least(
    vars: &mut [u8],
    lows: &mut [u16],
    highs: &mut [u16],
    heads: &mut [u16],
    links: &mut [u16],
    count: usize,
    set: u64,
    k: u8,
) -> AtLeast
    ensures { let lent = columns_made vars.old lows.old highs.old heads.old links.old in
        let left = columns_made vars.new lows.new highs.new heads.new links.new in
        counted_of left result ≡ at_least_call lent count set k }
{
    checker::at_least(vars, lows, highs, heads, links, count, set, k)
}

// The check of a formula and a proof in records. Number 0: no assignment satisfies the formula.
#[unsafe(no_mangle)]
pub extern "C" fn cablesalak_check<'a>(
    vars: &mut [u8],
    lows: &mut [u16],
    highs: &mut [u16],
    heads: &mut [u16],
    links: &mut [u16],
    count: usize,
    members: &mut [u16],
    struck: &mut [u8],
    scratch: &mut [u16],
    formula: &'a [u8],
    proof: &'a [u8],
) -> Checked
    ensures result_after { let lent = columns_made vars.old lows.old highs.old heads.old links.old in
        let left = columns_made vars.new lows.new highs.new heads.new links.new in
        check_outcome left members.new struck.new scratch.new result
        ≡ check in_records lent count members.old struck.old scratch.old
        formula.now proof.now }
    ensures unsatisfiable { result.number ≡ 0 → Unsatisfiable formula.now }
{
    checker::check(
        vars, lows, highs, heads, links, count, members, struck, scratch, formula, proof,
    )
}

// The check of a formula and a DRAT text. (02, 4/14) Number 0: no assignment satisfies the formula.
#[unsafe(no_mangle)]
pub extern "C" fn cablesalak_check_text<'a>(
    vars: &mut [u8],
    lows: &mut [u16],
    highs: &mut [u16],
    heads: &mut [u16],
    links: &mut [u16],
    count: usize,
    members: &mut [u16],
    struck: &mut [u8],
    scratch: &mut [u16],
    formula: &'a [u8],
    proof: &'a [u8],
) -> Checked
    ensures result_after { let lent = columns_made vars.old lows.old highs.old heads.old links.old in
        let left = columns_made vars.new lows.new highs.new heads.new links.new in
        check_outcome left members.new struck.new scratch.new result
        ≡ check in_text lent count members.old struck.old scratch.old
        formula.now proof.now }
    ensures unsatisfiable { result.number ≡ 0 → Unsatisfiable formula.now }
{
    checker::check_text(
        vars, lows, highs, heads, links, count, members, struck, scratch, formula, proof,
    )
}

// The check of a formula and a proof in the form and the profile that the caller names: form 0 is records, 1 a DRAT text, any other binary
// DRAT; in the consequence profile each accepted line is true under every assignment that satisfies the formula. (02, 9/14 and 11/14)
// Number 0: no assignment satisfies the formula.
#[unsafe(no_mangle)]
pub extern "C" fn cablesalak_check_in<'a>(
    vars: &mut [u8],
    lows: &mut [u16],
    highs: &mut [u16],
    heads: &mut [u16],
    links: &mut [u16],
    count: usize,
    members: &mut [u16],
    struck: &mut [u8],
    scratch: &mut [u16],
    formula: &'a [u8],
    proof: &'a [u8],
    form: u8,
    consequence: bool,
) -> Checked
    ensures result_after { let lent = columns_made vars.old lows.old highs.old heads.old links.old in
        let left = columns_made vars.new lows.new highs.new heads.new links.new in
        check_outcome left members.new struck.new scratch.new result
        ≡ check (in_form (form_of form) consequence) lent count members.old struck.old scratch.old
        formula.now proof.now }
    ensures unsatisfiable { result.number ≡ 0 → Unsatisfiable formula.now }
{
    checker::check_form(
        vars,
        lows,
        highs,
        heads,
        links,
        count,
        members,
        struck,
        scratch,
        formula,
        proof,
        form,
        consequence,
    )
}

// A DRAT text in binary, in a lent output. (02, 9/14)
#[unsafe(no_mangle)]
pub extern "C" fn cablesalak_to_binary(text: &[u8], out: &mut [u8]) -> Converted
    ensures { conversion_of out.new result ≡ to_binary (length out.old) text.now }
{
    checker::to_binary(text, out)
}

// A binary DRAT proof as text, in a lent output.
#[unsafe(no_mangle)]
pub extern "C" fn cablesalak_to_text(binary: &[u8], out: &mut [u8]) -> Converted
    ensures { conversion_of out.new result ≡ to_text (length out.old) binary.now }
{
    checker::to_text(binary, out)
}

// The program's line on two files, the proof in records, put at the start of `line`, and the status to end with: 0 for refuted alone, 2
// where a file was not taken, 1 for every other refusal. `first` and `second` tell whether formula and proof could be read.
#[unsafe(no_mangle)]
pub extern "C" fn cablesalak_report<'a>(
    first: bool,
    formula: &'a [u8],
    second: bool,
    proof: &'a [u8],
    line: &mut [u8; 105],
) -> Reported
    ensures line_after { take result.length line.new
        ≡ line_bytes (said in_records first formula.now second proof.now) }
    ensures line_unchanged { drop result.length line.new ≡ drop result.length line.old }
    ensures status_value { result.status ≡ status_of (said in_records first formula.now second proof.now).number }
    ensures length_value { result.length ≡ length (line_bytes (said in_records first formula.now second proof.now)) }
    ensures unsatisfiable { result.status ≡ 0 → Unsatisfiable formula.now }
{
    let mode = Mode {
        form: Form::Records,
        consequence: false,
    };
    report::report(mode, first, formula, second, proof, line)
}

// The same in the form and the profile that the caller names (form 0 is records, 1 a DRAT text, any other binary DRAT) and in a table
// of the caller's. A file that is not taken changes nothing lent.
#[unsafe(no_mangle)]
pub extern "C" fn cablesalak_report_in<'a>(
    vars: &mut [u8],
    lows: &mut [u16],
    highs: &mut [u16],
    heads: &mut [u16],
    links: &mut [u16],
    members: &mut [u16],
    struck: &mut [u8],
    scratch: &mut [u16],
    first: bool,
    formula: &'a [u8],
    second: bool,
    proof: &'a [u8],
    form: u8,
    consequence: bool,
    line: &mut [u8; 105],
) -> Reported
    ensures fact { let lent = columns_made vars.old lows.old highs.old heads.old links.old in
        let left = columns_made vars.new lows.new highs.new heads.new links.new in
        let told = report_on (in_form (form_of form) consequence) lent members.old struck.old scratch.old
        first formula.now second proof.now in
        (report_outcome left members.new struck.new scratch.new told.line ≡ told)
        × (take result.length line.new ≡ line_bytes told.line)
        × (drop result.length line.new ≡ drop result.length line.old)
        × (result.length ≡ length (line_bytes told.line))
        × (result.status ≡ status_of told.line.number) }
    ensures unsatisfiable { result.status ≡ 0 → Unsatisfiable formula.now }
{
    report_in::report_in(
        vars,
        lows,
        highs,
        heads,
        links,
        members,
        struck,
        scratch,
        first,
        formula,
        second,
        proof,
        form,
        consequence,
        line,
    )
}

// The layout of the calls: parameters and result structs. Header and Rust crate refer to this symbol, so that an archive of another layout
// does not link with them; its number goes up whenever a parameter list or a result struct changes.
#[unsafe(no_mangle)]
pub extern "C" fn cablesalak_layout_2() -> u32
    ensures { result ≡ 2 }
{
    2
}
