// The check over the node table as one lent slice of node structs, with its index. Each call tests for itself all that it needs, and none
// has a `requires`.
#![tactic(auto)]

mod within;

ghost use Rattle.std.specs.Prelude.{◌≡◌};
ghost use Rattle.table.specs.Columns.{columns_made};
ghost use Rattle.checker.specs.Forms.{form_of};
ghost use Rattle.commands.specs.Commands.{in_form, in_records};
ghost use Rattle.session.specs.Checked.{check_outcome};
ghost use Rattle.verdict.specs.Check.{check};
ghost use Rattle.verdict.specs.Satisfies.{Unsatisfiable};
ghost use Rattle.columns.specs.Slice.{vars_of, lows_of, highs_of};

pub use columns::Node;
use session::Checked;
use table::test::MOST;

// The whole check of a formula and a proof in the form and the profile that the caller names: form 0 is records, 1 a DRAT text, any other
// binary DRAT. What it says and leaves is the definition's, and number 0 means that no assignment satisfies the formula's bytes.
#[unsafe(no_mangle)]
pub extern "C" fn cablesalak_check_nodes_in<'a>(
    nodes: &mut [Node],
    heads: &mut [u16],
    links: &mut [u16],
    count: usize,
    members: &mut [u16],
    struck: &mut [u8],
    scratch: &mut [u16],
    formula: &'a [u8],
    proof: &'a [u8],
    form: u8,
    consequence: bool,
) -> Checked
    ensures { let lent = columns_made (vars_of nodes.old) (lows_of nodes.old) (highs_of nodes.old)
        heads.old links.old in
        let left = columns_made (vars_of nodes.new) (lows_of nodes.new) (highs_of nodes.new)
        heads.new links.new in
        (check_outcome left members.new struck.new scratch.new result
        ≡ check (in_form (form_of form) consequence) lent count members.old struck.old scratch.old
        formula.now proof.now)
        × (result.number ≡ 0 → Unsatisfiable formula.now) }
{
    let mut vars = [0u8; MOST];
    let mut lows = [0u16; MOST];
    let mut highs = [0u16; MOST];
    let n = columns::places(nodes.len());
    columns::load(nodes, n, &mut vars, &mut lows, &mut highs);
    let r = within::check_within(
        &mut vars,
        &mut lows,
        &mut highs,
        heads,
        links,
        nodes.len(),
        count,
        members,
        scratch,
        struck,
        formula,
        proof,
        form,
        consequence,
    );
    columns::save(nodes, n, &vars, &lows, &highs);
    r
}

// The same of a proof in records.
#[unsafe(no_mangle)]
pub extern "C" fn cablesalak_check_nodes<'a>(
    nodes: &mut [Node],
    heads: &mut [u16],
    links: &mut [u16],
    count: usize,
    members: &mut [u16],
    struck: &mut [u8],
    scratch: &mut [u16],
    formula: &'a [u8],
    proof: &'a [u8],
) -> Checked
    ensures { let lent = columns_made (vars_of nodes.old) (lows_of nodes.old) (highs_of nodes.old)
        heads.old links.old in
        let left = columns_made (vars_of nodes.new) (lows_of nodes.new) (highs_of nodes.new)
        heads.new links.new in
        (check_outcome left members.new struck.new scratch.new result
        ≡ check in_records lent count members.old struck.old scratch.old
        formula.now proof.now)
        × (result.number ≡ 0 → Unsatisfiable formula.now) }
{
    cablesalak_check_nodes_in(
        nodes, heads, links, count, members, struck, scratch, formula, proof, 0, false,
    )
}
