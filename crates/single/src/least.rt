// The call that makes an at-least diagram and tells how many assignments of its set it excludes. (02, 5/14)
ghost use Rattle.std.specs.Prelude.{◌≡◌, false};
ghost use Rattle.meaning.specs.Words.{in_word};
ghost use Rattle.meaning.specs.Sets.{at_least};
ghost use Rattle.table.specs.Nodes.{place};
ghost use Rattle.table.specs.Columns.{columns_made};
ghost use Rattle.table.specs.Indexed.{table_of, lists_of, size, nodes_of, Good};
ghost use Rattle.single.specs.Single.{counted_of, made_by, with_count, at_least_call};

use table::NodeNo;

// What the call says: 01's number, the node (0 with a refusal) and the count; whether the excluded assignments are counted, and their
// number.
#[repr(C)]
#[derive(Clone, Copy)]
pub struct AtLeast {
    pub number: u8,
    pub node: NodeNo,
    pub count: usize,
    pub counted: bool,
    pub excluded: u64,
}

// A refusal: no node, no count of assignments.
fn refused(number: u8, count: usize) -> AtLeast
    ensures { result ≡ record { number = number; node = record { 0 = 0 }; count = count; counted = false; excluded = 0 } }
{
    AtLeast {
        number,
        node: NodeNo(0),
        count,
        counted: false,
        excluded: 0,
    }
}

// The diagram made in a table in good order, or the table as lent and 23.
fn made(
    vars: &mut [u8],
    lows: &mut [u16],
    highs: &mut [u16],
    heads: &mut [u16],
    links: &mut [u16],
    count: usize,
    set: u64,
    k: u8,
) -> AtLeast
    requires { Good (table_of vars.old lows.old highs.old heads.old links.old count) }
    ensures { let t = table_of vars.old lows.old highs.old heads.old links.old count in
        let after = columns_made vars.new lows.new highs.new heads.new links.new in
        counted_of after result
        ≡ with_count (made_by (lists_of t) count (place (size t) (nodes_of t) (at_least 64 (in_word set) k))) set k }
{
    let p = sets::at_least(vars, lows, highs, heads, links, count, set, k);
    if p.full {
        table::drop_to(vars, lows, highs, heads, links, p.count, count);
        return refused(23, count);
    }
    let node = p.node;
    let e = sets::excluded_by(set, k);
    AtLeast {
        number: 0,
        node,
        count: p.count,
        counted: e.counted,
        excluded: e.excluded,
    }
}

// The diagram of "at least k of the set's variables"; or 7, 26, 23.
pub fn at_least(
    vars: &mut [u8],
    lows: &mut [u16],
    highs: &mut [u16],
    heads: &mut [u16],
    links: &mut [u16],
    count: usize,
    set: u64,
    k: u8,
) -> AtLeast
    ensures { let before = columns_made vars.old lows.old highs.old heads.old links.old in
        let after = columns_made vars.new lows.new highs.new heads.new links.new in
        counted_of after result ≡ at_least_call before count set k }
{
    if !table::test::size_fits(vars, lows, highs, heads, links) {
        return refused(7, count);
    }
    if !good_order::order_fits(vars, lows, highs, heads, links, count) {
        return refused(26, count);
    }
    made(vars, lows, highs, heads, links, count, set, k)
}
