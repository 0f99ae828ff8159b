// Between the slice of node structs and three columns.
#![tactic(auto)]

ghost use Rattle.std.specs.Prelude.{◌≡◌, ◌++◌, ◌≤◌, length, take, drop};
ghost use Rattle.columns.specs.Slice.{vars_of, lows_of, highs_of};
ghost use Rattle.columns.specs.Inner.{as_nodes};

use table::test::MOST;

// A place of the table.
#[repr(C)]
#[derive(Clone, Copy)]
pub struct Node {
    pub var: u8,
    pub low: u16,
    pub high: u16,
}

// How many places of a slice of so many nodes the columns have room for.
pub fn places(len: usize) -> usize
    ensures { (result ≤ len) × (result ≤ 65536) × (len ≤ 65536 → len ≤ result) }
{
    len.min(MOST)
}

// The first n nodes into the columns' first places.
pub fn load(nodes: &[Node], n: usize, vars: &mut [u8], lows: &mut [u16], highs: &mut [u16])
    requires { (n ≤ length nodes.now) × (n ≤ length vars.old) × (n ≤ length lows.old) × (n ≤ length highs.old) }
    ensures { (vars.new ≡ vars_of (take n nodes.now) ++ drop n vars.old)
        × (lows.new ≡ lows_of (take n nodes.now) ++ drop n lows.old)
        × (highs.new ≡ highs_of (take n nodes.now) ++ drop n highs.old) }
{
    for i in 0..n {
        let node = nodes[i];
        vars[i] = node.var;
        lows[i] = node.low;
        highs[i] = node.high;
    }
}

// The columns' first n places into the first n nodes.
pub fn save(nodes: &mut [Node], n: usize, vars: &[u8], lows: &[u16], highs: &[u16])
    requires { (n ≤ length nodes.old) × (n ≤ length vars.now) × (n ≤ length lows.now) × (n ≤ length highs.now) }
    ensures { nodes.new
        ≡ as_nodes (take n vars.now) (take n lows.now) (take n highs.now) ++ drop n nodes.old }
{
    for i in 0..n {
        nodes[i] = Node {
            var: vars[i],
            low: lows[i],
            high: highs[i],
        };
    }
}
