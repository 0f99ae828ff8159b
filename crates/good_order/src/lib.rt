// Whether a lent table and its index are in good order, decided by reading alone.
#![tactic(auto)]

ghost use Rattle.std.specs.Prelude.{◌≡◌, true, ◌-◌, ◌≤◌, ◌<◌, length, take, drop};
ghost use Rattle.table.specs.Nodes.{at, all_blank, fits};
ghost use Rattle.table.specs.Index.{good_order};
ghost use Rattle.table.specs.Columns.{rows, size_fits};
ghost use Rattle.table.specs.Indexed.{table_of};
ghost use Rattle.good_order.specs.Tested.{Decides, LentSizes, OfChain, NodeFits, ComesBy};
ghost use Rattle.good_order.specs.Tested.{NodesFit, HeadsFit, AllInChain};

pub mod zeros;

// Whether the places from `from` up to `to` hold zeros.
fn blank_between(vars: &[u8], lows: &[u16], highs: &[u16], from: usize, to: usize) -> bool
    requires { (length lows.now ≡ length vars.now)
        × (length highs.now ≡ length vars.now)
        × (to ≤ length vars.now)
        × (from ≤ to) }
    ensures { result ≡ all_blank (take (to - from) (drop from (rows vars.now lows.now highs.now))) }
{
    if !zeros::bytes_empty(vars, from, to) {
        return false;
    }
    if !zeros::places_empty(lows, from, to) {
        return false;
    }
    zeros::places_empty(highs, from, to)
}

// Whether the node at place k is as good order asks, but for being new.
fn fits_at(vars: &[u8], lows: &[u16], highs: &[u16], k: usize) -> bool
    requires { (length lows.now ≡ length vars.now) × (length highs.now ≡ length vars.now) × (k < length vars.now) }
    ensures { let nodes = rows vars.now lows.now highs.now in
        result ≡ fits nodes k (at nodes k) }
{
    let v = vars[k];
    let l = lows[k];
    let h = highs[k];
    if v < 1 {
        return false;
    }
    if 64 < v {
        return false;
    }
    if k <= l as usize {
        return false;
    }
    if k <= h as usize {
        return false;
    }
    if l == h {
        return false;
    }
    if !table::test::stands_above(vars, lows, highs, v, l) {
        return false;
    }
    table::test::stands_above(vars, lows, highs, v, h)
}

// Whether j is 0, or a node of chain b below `top`.
fn of_chain(
    vars: &[u8],
    lows: &[u16],
    highs: &[u16],
    heads: &[u16],
    links: &[u16],
    count: usize,
    top: usize,
    b: usize,
    j: u16,
) -> bool
    requires { LentSizes (table_of vars.now lows.now highs.now heads.now links.now count) × (top ≤ count) }
    ensures { let lent = table_of vars.now lows.now highs.now heads.now links.now count in
        Decides result (OfChain lent top b j) }
{
    if j == 0 {
        return true;
    }
    let i = j as usize;
    if i < 2 {
        return false;
    }
    if top <= i {
        return false;
    }
    let own = table::bucket_of(heads.len(), vars[i], lows[i], highs[i]);
    own == b
}

// Whether the node at place k is as good order asks, and its link 0 or a lower node of its chain.
fn node_fits(
    vars: &[u8],
    lows: &[u16],
    highs: &[u16],
    heads: &[u16],
    links: &[u16],
    count: usize,
    k: usize,
) -> bool
    requires { LentSizes (table_of vars.now lows.now highs.now heads.now links.now count) × (k < count) }
    ensures { let lent = table_of vars.now lows.now highs.now heads.now links.now count in
        Decides result (NodeFits lent k) }
{
    if !fits_at(vars, lows, highs, k) {
        return false;
    }
    let b = table::bucket_of(heads.len(), vars[k], lows[k], highs[k]);
    of_chain(vars, lows, highs, heads, links, count, k, b, links[k])
}

// Whether each node and its link are so.
fn nodes_fit(
    vars: &[u8],
    lows: &[u16],
    highs: &[u16],
    heads: &[u16],
    links: &[u16],
    count: usize,
) -> bool
    requires { LentSizes (table_of vars.now lows.now highs.now heads.now links.now count) }
    ensures { let lent = table_of vars.now lows.now highs.now heads.now links.now count in
        Decides result (NodesFit lent count) }
{
    for k in 2..count {
        if !node_fits(vars, lows, highs, heads, links, count, k) {
            return false;
        }
    }
    true
}

// Where the walk down a node's chain comes to it: at the chain's head, behind it, or not.
#[derive(Clone, Copy)]
enum Way {
    Head,
    Behind,
    Lost,
}

// Where the walk down the chain of place k comes to it: lost also where it meets a node like it before, or begins past the count.
fn reached(
    vars: &[u8],
    lows: &[u16],
    highs: &[u16],
    heads: &[u16],
    links: &[u16],
    count: usize,
    k: usize,
) -> Way
    requires lent_sizes { LentSizes (table_of vars.now lows.now highs.now heads.now links.now count) × (2 ≤ k) × (k < count) }
    requires nodes_fit { NodesFit (table_of vars.now lows.now highs.now heads.now links.now count) count }
    ensures { let lent = table_of vars.now lows.now highs.now heads.now links.now count in
        ComesBy lent k result }
{
    let v = vars[k];
    let l = lows[k];
    let h = highs[k];
    let b = table::bucket_of(heads.len(), v, l, h);
    let mut j = heads[b] as usize;
    if count <= j {
        return Way::Lost;
    }
    if j == k {
        return Way::Head;
    }
    while k < j {
        if vars[j] == v && lows[j] == l && highs[j] == h {
            return Way::Lost;
        }
        j = links[j] as usize;
    }
    if j < k {
        return Way::Lost;
    }
    Way::Behind
}

// Whether each node is on its chain, and none is met on the way that is like it: every two of a chain are compared once. And whether each
// head is 0 or a node of its chain, by counting: no node heads two chains, so the zeros and the nodes that are heads are then all heads.
fn index_fits(
    vars: &[u8],
    lows: &[u16],
    highs: &[u16],
    heads: &[u16],
    links: &[u16],
    count: usize,
) -> bool
    requires lent_sizes { LentSizes (table_of vars.now lows.now highs.now heads.now links.now count) }
    requires nodes_fit { NodesFit (table_of vars.now lows.now highs.now heads.now links.now count) count }
    ensures { let lent = table_of vars.now lows.now highs.now heads.now links.now count in
        Decides result (AllInChain lent count × HeadsFit lent) }
{
    let mut first: usize = 0;
    for k in 2..count {
        match reached(vars, lows, highs, heads, links, count, k) {
            Way::Head => {
                first += 1;
            }
            Way::Behind => {}
            Way::Lost => {
                return false;
            }
        }
    }
    first + zeros::zeros_of(heads) == heads.len()
}

// Whether columns and index of proper size are in good order with this count.
pub fn order_fits(
    vars: &[u8],
    lows: &[u16],
    highs: &[u16],
    heads: &[u16],
    links: &[u16],
    count: usize,
) -> bool
    requires { size_fits vars.now lows.now highs.now heads.now links.now ≡ true }
    ensures { let nodes = rows vars.now lows.now highs.now in
        result ≡ good_order nodes count heads.now links.now }
{
    if count < 2 {
        return false;
    }
    if vars.len() < count {
        return false;
    }
    if !blank_between(vars, lows, highs, 0, 2) {
        return false;
    }
    if !blank_between(vars, lows, highs, count, vars.len()) {
        return false;
    }
    if !zeros::places_empty(links, 0, 2) {
        return false;
    }
    if !zeros::places_empty(links, count, links.len()) {
        return false;
    }
    if !nodes_fit(vars, lows, highs, heads, links, count) {
        return false;
    }
    index_fits(vars, lows, highs, heads, links, count)
}
