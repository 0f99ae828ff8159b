// The call of the whole check: 7 by the sizes, else working arrays as large as table and proof need.
#![tactic(auto)]

ghost use Rattle.std.specs.Prelude.{◌≡◌, true, ◌≤◌, length};
ghost use Rattle.table.specs.Columns.{columns_made};
ghost use Rattle.verdict.specs.Check.{verdict, lent_fits, outcome, check};
ghost use Rattle.session.specs.Checked.{check_outcome};

use commands::Mode;
use session::Checked;

// The memo's cells: for up to 64 places, for up to 4,096 with a short proof, and else.
const CELLS_64: usize = 1024;

const CELLS_SHORT: usize = 32768;

const CELLS: usize = 131072;

// Whether columns, index, member list with its marks and scratch list are of proper size.
fn lent_fits(
    vars: &[u8],
    lows: &[u16],
    highs: &[u16],
    heads: &[u16],
    links: &[u16],
    members: &[u16],
    scratch: &[u16],
    struck: &[u8],
) -> bool
    ensures { let lent = columns_made vars.now lows.now highs.now heads.now links.now in
        result ≡ lent_fits lent members.now struck.now scratch.now }
{
    if !table::test::size_fits(vars, lows, highs, heads, links) {
        return false;
    }
    if members.len() < 2048 {
        return false;
    }
    struck.len() == members.len() && 4096 <= scratch.len()
}

// For up to 64 places.
fn check_64<'a>(
    vars: &mut [u8],
    lows: &mut [u16],
    highs: &mut [u16],
    heads: &mut [u16],
    links: &mut [u16],
    members: &mut [u16],
    scratch: &mut [u16],
    struck: &mut [u8],
    mode: Mode,
    formula: &'a [u8],
    proof: &'a [u8],
) -> Checked
    requires { let lent = columns_made vars.old lows.old highs.old heads.old links.old in
        (lent_fits lent members.old struck.old scratch.old ≡ true) × (length vars.old ≤ 64) }
    ensures { let left = columns_made vars.new lows.new highs.new heads.new links.new in
        check_outcome left members.new struck.new scratch.new result
        ≡ outcome (length vars.old) (length members.old) (length scratch.old)
        (verdict mode (length vars.old) formula.now proof.now) }
{
    let mut memo = [0u64; CELLS_64];
    let mut marks = [0u8; 64];
    let places = vars.len();
    session::run(
        vars,
        lows,
        highs,
        heads,
        links,
        &mut memo,
        &mut marks[..places],
        members,
        scratch,
        struck,
        mode,
        formula,
        proof,
    )
}

// For up to 4,096 places and a short proof: a small memo, since clearing it is what such a check pays for.
fn check_4096<'a>(
    vars: &mut [u8],
    lows: &mut [u16],
    highs: &mut [u16],
    heads: &mut [u16],
    links: &mut [u16],
    members: &mut [u16],
    scratch: &mut [u16],
    struck: &mut [u8],
    mode: Mode,
    formula: &'a [u8],
    proof: &'a [u8],
) -> Checked
    requires { let lent = columns_made vars.old lows.old highs.old heads.old links.old in
        (lent_fits lent members.old struck.old scratch.old ≡ true) × (length vars.old ≤ 4096) }
    ensures { let left = columns_made vars.new lows.new highs.new heads.new links.new in
        check_outcome left members.new struck.new scratch.new result
        ≡ outcome (length vars.old) (length members.old) (length scratch.old)
        (verdict mode (length vars.old) formula.now proof.now) }
{
    let mut memo = [0u64; CELLS_SHORT];
    let mut marks = [0u8; 4096];
    let places = vars.len();
    session::run(
        vars,
        lows,
        highs,
        heads,
        links,
        &mut memo,
        &mut marks[..places],
        members,
        scratch,
        struck,
        mode,
        formula,
        proof,
    )
}

// For up to 65,536 places and any proof: a memo that holds the pairs of any two diagrams over a few neighbouring variables.
fn check_65536<'a>(
    vars: &mut [u8],
    lows: &mut [u16],
    highs: &mut [u16],
    heads: &mut [u16],
    links: &mut [u16],
    members: &mut [u16],
    scratch: &mut [u16],
    struck: &mut [u8],
    mode: Mode,
    formula: &'a [u8],
    proof: &'a [u8],
) -> Checked
    requires { let lent = columns_made vars.old lows.old highs.old heads.old links.old in
        (lent_fits lent members.old struck.old scratch.old ≡ true) × (length vars.old ≤ 65536) }
    ensures { let left = columns_made vars.new lows.new highs.new heads.new links.new in
        check_outcome left members.new struck.new scratch.new result
        ≡ outcome (length vars.old) (length members.old) (length scratch.old)
        (verdict mode (length vars.old) formula.now proof.now) }
{
    let mut memo = [0u64; CELLS];
    let mut marks = [0u8; 65536];
    let places = vars.len();
    session::run(
        vars,
        lows,
        highs,
        heads,
        links,
        &mut memo,
        &mut marks[..places],
        members,
        scratch,
        struck,
        mode,
        formula,
        proof,
    )
}

// The whole check. What it says and leaves is the definition's.
pub fn call<'a>(
    vars: &mut [u8],
    lows: &mut [u16],
    highs: &mut [u16],
    heads: &mut [u16],
    links: &mut [u16],
    count: usize,
    members: &mut [u16],
    scratch: &mut [u16],
    struck: &mut [u8],
    mode: Mode,
    formula: &'a [u8],
    proof: &'a [u8],
) -> Checked
    ensures { let lent = columns_made vars.old lows.old highs.old heads.old links.old in
        let left = columns_made vars.new lows.new highs.new heads.new links.new in
        check_outcome left members.new struck.new scratch.new result
        ≡ check mode lent count members.old struck.old scratch.old
        formula.now proof.now }
{
    if !lent_fits(vars, lows, highs, heads, links, members, scratch, struck) {
        return Checked {
            number: 7,
            in_proof: false,
            place: 0,
            lines: 0,
            rounds: 0,
            count,
            peak: 0,
        };
    }
    if vars.len() <= 64 {
        return check_64(
            vars, lows, highs, heads, links, members, scratch, struck, mode, formula, proof,
        );
    }
    if vars.len() <= 4096 && proof.len() <= 2048 {
        return check_4096(
            vars, lows, highs, heads, links, members, scratch, struck, mode, formula, proof,
        );
    }
    check_65536(
        vars, lows, highs, heads, links, members, scratch, struck, mode, formula, proof,
    )
}
