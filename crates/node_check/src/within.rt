// The check over arrays whose first n places are the columns; 7 where the slice has more nodes than a table can.
ghost use Rattle.std.specs.Prelude.{◌≡◌, length, take};
ghost use Rattle.table.specs.Columns.{columns_made};
ghost use Rattle.checker.specs.Forms.{form_of};
ghost use Rattle.commands.specs.Commands.{in_form};
ghost use Rattle.session.specs.Checked.{check_outcome};
ghost use Rattle.node_check.specs.Within.{check_within};

use session::Checked;
use table::test::MOST;

pub fn check_within<'a>(
    vars: &mut [u8],
    lows: &mut [u16],
    highs: &mut [u16],
    heads: &mut [u16],
    links: &mut [u16],
    n: usize,
    count: usize,
    members: &mut [u16],
    scratch: &mut [u16],
    struck: &mut [u8],
    formula: &'a [u8],
    proof: &'a [u8],
    form: u8,
    consequence: bool,
) -> Checked
    requires { (length vars.old ≡ 65536) × (length lows.old ≡ 65536) × (length highs.old ≡ 65536) }
    ensures { let left = columns_made (take n vars.new) (take n lows.new) (take n highs.new)
        heads.new links.new in
        check_outcome left members.new struck.new scratch.new result
        ≡ check_within (in_form (form_of form) consequence) n vars.old lows.old highs.old
        heads.old links.old count
        members.old struck.old scratch.old formula.now proof.now }
{
    if MOST < n {
        return Checked {
            number: 7,
            in_proof: false,
            place: 0,
            lines: 0,
            rounds: 0,
            count,
            peak: 0,
        };
    }
    checker::check_form(
        &mut vars[..n],
        &mut lows[..n],
        &mut highs[..n],
        heads,
        links,
        count,
        members,
        struck,
        scratch,
        formula,
        proof,
        form,
        consequence,
    )
}
