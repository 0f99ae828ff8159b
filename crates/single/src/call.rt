// Conjunction, negation and the two cofactors: one frame for the four, with a memo as large as the table asks for.
ghost use Rattle.std.specs.Prelude.{◌≡◌, true, ◌≤◌, length, replicate};
ghost use Rattle.table.specs.Columns.{size_fits, columns_made};
ghost use Rattle.table.specs.Indexed.{table_of, lists_of};
ghost use Rattle.operate.specs.Inner.{Ready};
ghost use Rattle.single.specs.Single.{operand_refusal, made_of, made_by, operation};
ghost use Rattle.single.specs.Inner.{OneOperand, placing_of};

use operate::Operation;
use table::NodeNo;

// The memo's cells, for a table of up to so many places.
const CELLS_64: usize = 1024;

const CELLS_4096: usize = 8192;

const CELLS_65536: usize = 131072;

// The greatest counts with which they have two cells for each node, enough for one operand; and a cell for each two nodes, for two.
const ALONE_64: usize = 512;

const PAIRED_64: usize = 46;

const ALONE_4096: usize = 4096;

const PAIRED_4096: usize = 130;

// What a single call says: 01's number, the node (0 with a refusal) and the count.
#[repr(C)]
#[derive(Clone, Copy)]
pub struct Single {
    pub number: u8,
    pub node: NodeNo,
    pub count: usize,
}

// 27 or 15, or 0 where the operation can have its second operand.
fn operand_refusal(op: Operation, g: NodeNo) -> u8
    ensures { result ≡ operand_refusal op g.0 }
{
    match op {
        Operation::Conjunction => 0,
        Operation::Negation => 0,
        Operation::Cofactor => {
            if g.0 == 0 {
                return 27;
            }
            0
        }
        Operation::Literals { positive, negative } => {
            if words::shared(positive, negative) {
                return 15;
            }
            0
        }
    }
}

// The operation once its operands are known to be fit.
fn made(
    vars: &mut [u8],
    lows: &mut [u16],
    highs: &mut [u16],
    heads: &mut [u16],
    links: &mut [u16],
    memo: &mut [u64],
    count: usize,
    op: Operation,
    f: NodeNo,
    g: NodeNo,
) -> Single
    requires { Ready op memo.old (table_of vars.old lows.old highs.old heads.old links.old count) f.0 g.0 }
    ensures { let t = table_of vars.old lows.old highs.old heads.old links.old count in
        let after = columns_made vars.new lows.new highs.new heads.new links.new in
        made_of after result ≡ made_by (lists_of t) count (placing_of op t f.0 g.0) }
{
    let p = operate::apply(vars, lows, highs, heads, links, memo, count, op, f, g);
    if p.full {
        table::drop_to(vars, lows, highs, heads, links, p.count, count);
        return Single {
            number: 23,
            node: NodeNo(0),
            count,
        };
    }
    let node = p.node;
    Single {
        number: 0,
        node,
        count: p.count,
    }
}

// The call with an empty memo: 26, 13, 27 or 15, then the operation.
fn judged(
    vars: &mut [u8],
    lows: &mut [u16],
    highs: &mut [u16],
    heads: &mut [u16],
    links: &mut [u16],
    memo: &mut [u64],
    count: usize,
    op: Operation,
    f: NodeNo,
    g: NodeNo,
) -> Single
    requires { (size_fits vars.old lows.old highs.old heads.old links.old ≡ true)
        × (memo.old ≡ replicate (length memo.old) 0)
        × (3 ≤ length memo.old)
        × OneOperand op g.0 }
    ensures { let before = columns_made vars.old lows.old highs.old heads.old links.old in
        let after = columns_made vars.new lows.new highs.new heads.new links.new in
        made_of after result ≡ operation op before count f.0 g.0 }
{
    if !good_order::order_fits(vars, lows, highs, heads, links, count) {
        return Single {
            number: 26,
            node: NodeNo(0),
            count,
        };
    }
    if count <= f.0 as usize {
        return Single {
            number: 13,
            node: NodeNo(0),
            count,
        };
    }
    if count <= g.0 as usize {
        return Single {
            number: 13,
            node: NodeNo(0),
            count,
        };
    }
    let number = operand_refusal(op, g);
    if number != 0 {
        return Single {
            number,
            node: NodeNo(0),
            count,
        };
    }
    made(vars, lows, highs, heads, links, memo, count, op, f, g)
}

// Whether a memo for up to so many places is enough for a table of this size: also where the count is at most `alone` with one operand, at
// most `paired` with two, so that it has room for all results.
fn is_enough(
    places: usize,
    alone: usize,
    paired: usize,
    size: usize,
    count: usize,
    g: NodeNo,
) -> bool {
    if size <= places {
        return true;
    }
    if g.0 < 2 {
        return count <= alone;
    }
    count <= paired
}

// With the memo for up to 64 places.
fn judged_64(
    vars: &mut [u8],
    lows: &mut [u16],
    highs: &mut [u16],
    heads: &mut [u16],
    links: &mut [u16],
    count: usize,
    op: Operation,
    f: NodeNo,
    g: NodeNo,
) -> Single
    requires { (size_fits vars.old lows.old highs.old heads.old links.old ≡ true) × OneOperand op g.0 }
    ensures { let before = columns_made vars.old lows.old highs.old heads.old links.old in
        let after = columns_made vars.new lows.new highs.new heads.new links.new in
        made_of after result ≡ operation op before count f.0 g.0 }
{
    let mut memo = [0u64; CELLS_64];
    judged(vars, lows, highs, heads, links, &mut memo, count, op, f, g)
}

// With the memo for up to 4,096 places.
fn judged_4096(
    vars: &mut [u8],
    lows: &mut [u16],
    highs: &mut [u16],
    heads: &mut [u16],
    links: &mut [u16],
    count: usize,
    op: Operation,
    f: NodeNo,
    g: NodeNo,
) -> Single
    requires { (size_fits vars.old lows.old highs.old heads.old links.old ≡ true) × OneOperand op g.0 }
    ensures { let before = columns_made vars.old lows.old highs.old heads.old links.old in
        let after = columns_made vars.new lows.new highs.new heads.new links.new in
        made_of after result ≡ operation op before count f.0 g.0 }
{
    let mut memo = [0u64; CELLS_4096];
    judged(vars, lows, highs, heads, links, &mut memo, count, op, f, g)
}

// With the memo for up to 65,536 places.
fn judged_65536(
    vars: &mut [u8],
    lows: &mut [u16],
    highs: &mut [u16],
    heads: &mut [u16],
    links: &mut [u16],
    count: usize,
    op: Operation,
    f: NodeNo,
    g: NodeNo,
) -> Single
    requires { (size_fits vars.old lows.old highs.old heads.old links.old ≡ true) × OneOperand op g.0 }
    ensures { let before = columns_made vars.old lows.old highs.old heads.old links.old in
        let after = columns_made vars.new lows.new highs.new heads.new links.new in
        made_of after result ≡ operation op before count f.0 g.0 }
{
    let mut memo = [0u64; CELLS_65536];
    judged(vars, lows, highs, heads, links, &mut memo, count, op, f, g)
}

// The call: 7, then what the other numbers ask.
pub fn call(
    vars: &mut [u8],
    lows: &mut [u16],
    highs: &mut [u16],
    heads: &mut [u16],
    links: &mut [u16],
    count: usize,
    op: Operation,
    f: NodeNo,
    g: NodeNo,
) -> Single
    requires { OneOperand op g.0 }
    ensures { let before = columns_made vars.old lows.old highs.old heads.old links.old in
        let after = columns_made vars.new lows.new highs.new heads.new links.new in
        made_of after result ≡ operation op before count f.0 g.0 }
{
    if !table::test::size_fits(vars, lows, highs, heads, links) {
        return Single {
            number: 7,
            node: NodeNo(0),
            count,
        };
    }
    if is_enough(64, ALONE_64, PAIRED_64, vars.len(), count, g) {
        return judged_64(vars, lows, highs, heads, links, count, op, f, g);
    }
    if is_enough(4096, ALONE_4096, PAIRED_4096, vars.len(), count, g) {
        return judged_4096(vars, lows, highs, heads, links, count, op, f, g);
    }
    judged_65536(vars, lows, highs, heads, links, count, op, f, g)
}
