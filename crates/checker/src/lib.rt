// The public calls of the library, open to others. Each tests for itself all that it needs, and none has a `requires`.
#![tactic(auto)]

ghost use Rattle.std.specs.Prelude.{◌≡◌, length};
ghost use Rattle.checker.specs.Forms.{form_of};
ghost use Rattle.commands.specs.Commands.{in_form, in_records, in_text};
ghost use Rattle.convert.specs.Convert.{conversion_of, to_binary, to_text};
ghost use Rattle.session.specs.Checked.{check_outcome};
ghost use Rattle.single.specs.Single.{evaluation, made_of, operation, counted_of, at_least_call};
ghost use Rattle.table.specs.Columns.{columns_made};
ghost use Rattle.verdict.specs.Check.{check};
ghost use Rattle.verdict.specs.Satisfies.{Unsatisfiable};

use commands::{Form, Mode};
use convert::Converted;
use operate::Operation;
use session::Checked;
use single::Evaluated;
use single::call::Single;
use single::least::AtLeast;
use table::NodeNo;

// Whether the node is 1 under the word's assignment; or 7, 26, 13.
pub fn evaluate(
    vars: &[u8],
    lows: &[u16],
    highs: &[u16],
    heads: &[u16],
    links: &[u16],
    count: usize,
    node: NodeNo,
    word: u64,
) -> Evaluated
    ensures { let lent = columns_made vars.now lows.now highs.now heads.now links.now in
        result ≡ evaluation lent count node.0 word }
{
    single::evaluate(vars, lows, highs, heads, links, count, node, word)
}

// The conjunction of f and g; or 7, 26, 13, 23.
pub fn conjunction(
    vars: &mut [u8],
    lows: &mut [u16],
    highs: &mut [u16],
    heads: &mut [u16],
    links: &mut [u16],
    count: usize,
    f: NodeNo,
    g: NodeNo,
) -> Single
    ensures { let lent = columns_made vars.old lows.old highs.old heads.old links.old in
        let left = columns_made vars.new lows.new highs.new heads.new links.new in
        made_of left result ≡ operation Operation.Conjunction lent count f.0 g.0 }
{
    single::call::call(
        vars,
        lows,
        highs,
        heads,
        links,
        count,
        Operation::Conjunction,
        f,
        g,
    )
}

// The negation of f; or 7, 26, 13, 23.
pub fn negation(
    vars: &mut [u8],
    lows: &mut [u16],
    highs: &mut [u16],
    heads: &mut [u16],
    links: &mut [u16],
    count: usize,
    f: NodeNo,
) -> Single
    ensures { let lent = columns_made vars.old lows.old highs.old heads.old links.old in
        let left = columns_made vars.new lows.new highs.new heads.new links.new in
        made_of left result ≡ operation Operation.Negation lent count f.0 1 }
{
    single::call::call(
        vars,
        lows,
        highs,
        heads,
        links,
        count,
        Operation::Negation,
        f,
        NodeNo(1),
    )
}

// f cofactored by the diagram g; or 7, 26, 13, 27, 23.
pub fn cofactor(
    vars: &mut [u8],
    lows: &mut [u16],
    highs: &mut [u16],
    heads: &mut [u16],
    links: &mut [u16],
    count: usize,
    f: NodeNo,
    g: NodeNo,
) -> Single
    ensures { let lent = columns_made vars.old lows.old highs.old heads.old links.old in
        let left = columns_made vars.new lows.new highs.new heads.new links.new in
        made_of left result ≡ operation Operation.Cofactor lent count f.0 g.0 }
{
    single::call::call(
        vars,
        lows,
        highs,
        heads,
        links,
        count,
        Operation::Cofactor,
        f,
        g,
    )
}

// f with the variables of `positive` made true and those of `negative` false; or 7, 26, 13, 15, 23.
pub fn cofactor_literals(
    vars: &mut [u8],
    lows: &mut [u16],
    highs: &mut [u16],
    heads: &mut [u16],
    links: &mut [u16],
    count: usize,
    f: NodeNo,
    positive: u64,
    negative: u64,
) -> Single
    ensures { let lent = columns_made vars.old lows.old highs.old heads.old links.old in
        let left = columns_made vars.new lows.new highs.new heads.new links.new in
        made_of left result ≡ operation (Operation.Literals positive negative) lent count f.0 1 }
{
    single::call::call(
        vars,
        lows,
        highs,
        heads,
        links,
        count,
        Operation::Literals { positive, negative },
        f,
        NodeNo(1),
    )
}

// The diagram of "at least k of the set's variables", and how many assignments of the set it excludes; or 7, 26, 23. (02, 5/14)
pub fn at_least(
    vars: &mut [u8],
    lows: &mut [u16],
    highs: &mut [u16],
    heads: &mut [u16],
    links: &mut [u16],
    count: usize,
    set: u64,
    k: u8,
) -> AtLeast
    ensures { let lent = columns_made vars.old lows.old highs.old heads.old links.old in
        let left = columns_made vars.new lows.new highs.new heads.new links.new in
        counted_of left result ≡ at_least_call lent count set k }
{
    single::least::at_least(vars, lows, highs, heads, links, count, set, k)
}

// The whole check of a formula and a proof that is read as the mode says. What it says and leaves is the definition's, and number 0 means
// that no assignment satisfies the formula's bytes.
pub fn check_in<'a>(
    vars: &mut [u8],
    lows: &mut [u16],
    highs: &mut [u16],
    heads: &mut [u16],
    links: &mut [u16],
    count: usize,
    members: &mut [u16],
    struck: &mut [u8],
    scratch: &mut [u16],
    mode: Mode,
    formula: &'a [u8],
    proof: &'a [u8],
) -> Checked
    ensures result_after { let lent = columns_made vars.old lows.old highs.old heads.old links.old in
        let left = columns_made vars.new lows.new highs.new heads.new links.new in
        check_outcome left members.new struck.new scratch.new result
        ≡ check mode lent count members.old struck.old scratch.old
        formula.now proof.now }
    ensures unsatisfiable { result.number ≡ 0 → Unsatisfiable formula.now }
{
    check_call::call(
        vars, lows, highs, heads, links, count, members, scratch, struck, mode, formula, proof,
    )
}

// The mode that a caller names by numbers: form 0 is records, 1 a DRAT text, any other binary DRAT. (02, 4/14, 9/14 and 11/14)
pub fn mode_of(form: u8, consequence: bool) -> Mode
    ensures { result ≡ in_form (form_of form) consequence }
{
    if form == 0 {
        return Mode {
            form: Form::Records,
            consequence,
        };
    }
    if form == 1 {
        return Mode {
            form: Form::Text,
            consequence,
        };
    }
    Mode {
        form: Form::Binary,
        consequence,
    }
}

// The same where form and profile are named by a number and a flag: the one check for every form, within the consequence profile or
// without it.
pub fn check_form<'a>(
    vars: &mut [u8],
    lows: &mut [u16],
    highs: &mut [u16],
    heads: &mut [u16],
    links: &mut [u16],
    count: usize,
    members: &mut [u16],
    struck: &mut [u8],
    scratch: &mut [u16],
    formula: &'a [u8],
    proof: &'a [u8],
    form: u8,
    consequence: bool,
) -> Checked
    ensures result_after { let lent = columns_made vars.old lows.old highs.old heads.old links.old in
        let left = columns_made vars.new lows.new highs.new heads.new links.new in
        check_outcome left members.new struck.new scratch.new result
        ≡ check (in_form (form_of form) consequence) lent count members.old struck.old scratch.old
        formula.now proof.now }
    ensures unsatisfiable { result.number ≡ 0 → Unsatisfiable formula.now }
{
    let mode = mode_of(form, consequence);
    check_in(
        vars, lows, highs, heads, links, count, members, struck, scratch, mode, formula, proof,
    )
}

// The same of a proof in records.
pub fn check<'a>(
    vars: &mut [u8],
    lows: &mut [u16],
    highs: &mut [u16],
    heads: &mut [u16],
    links: &mut [u16],
    count: usize,
    members: &mut [u16],
    struck: &mut [u8],
    scratch: &mut [u16],
    formula: &'a [u8],
    proof: &'a [u8],
) -> Checked
    ensures result_after { let lent = columns_made vars.old lows.old highs.old heads.old links.old in
        let left = columns_made vars.new lows.new highs.new heads.new links.new in
        check_outcome left members.new struck.new scratch.new result
        ≡ check in_records lent count members.old struck.old scratch.old
        formula.now proof.now }
    ensures unsatisfiable { result.number ≡ 0 → Unsatisfiable formula.now }
{
    let mode = Mode {
        form: Form::Records,
        consequence: false,
    };
    check_in(
        vars, lows, highs, heads, links, count, members, struck, scratch, mode, formula, proof,
    )
}

// The same of a DRAT text. (02, 4/14)
pub fn check_text<'a>(
    vars: &mut [u8],
    lows: &mut [u16],
    highs: &mut [u16],
    heads: &mut [u16],
    links: &mut [u16],
    count: usize,
    members: &mut [u16],
    struck: &mut [u8],
    scratch: &mut [u16],
    formula: &'a [u8],
    proof: &'a [u8],
) -> Checked
    ensures result_after { let lent = columns_made vars.old lows.old highs.old heads.old links.old in
        let left = columns_made vars.new lows.new highs.new heads.new links.new in
        check_outcome left members.new struck.new scratch.new result
        ≡ check in_text lent count members.old struck.old scratch.old
        formula.now proof.now }
    ensures unsatisfiable { result.number ≡ 0 → Unsatisfiable formula.now }
{
    let mode = Mode {
        form: Form::Text,
        consequence: false,
    };
    check_in(
        vars, lows, highs, heads, links, count, members, struck, scratch, mode, formula, proof,
    )
}

// A DRAT text in binary, in a lent output; or 3, 4, 6, 7. (02, 9/14)
pub fn to_binary(text: &[u8], out: &mut [u8]) -> Converted
    ensures { conversion_of out.new result ≡ to_binary (length out.old) text.now }
{
    convert::to_binary(text, out)
}

// A binary DRAT proof as text, in a lent output; or 4, 6, 9, 31, 7.
pub fn to_text(binary: &[u8], out: &mut [u8]) -> Converted
    ensures { conversion_of out.new result ≡ to_text (length out.old) binary.now }
{
    convert::to_text(binary, out)
}
