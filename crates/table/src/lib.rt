// The node table over three columns and a lookup index: look up, place, drop, test.
#![tactic(auto)]

ghost use Rattle.std.specs.Prelude.{◌≡◌, ◌+◌, ◌*◌, ◌%◌, ◌<◌, ◌≤◌, max, [], ◌∷◌, ◌++◌, length, take};
ghost use Rattle.table.specs.Nodes.{node_of, find, put};
ghost use Rattle.table.specs.Indexed.{took_place};
ghost use Rattle.table.specs.Index.{bucket};
ghost use Rattle.table.specs.Indexed.{insert, index_made, table_of, nodes_of, indexed, Good};
ghost use Rattle.table.specs.Indexed.{found_of, outcome_of, node_outcome_of, written};

pub mod test;

// A node's number in the table. Entry numbers of a proof file are another kind.
#[repr(C)]
#[derive(Clone, Copy)]
pub struct NodeNo(pub u16);

// What looking up gives: the place that holds the node, if one does.
#[derive(Clone, Copy)]
pub enum Found {
    At(NodeNo),
    Nothing,
}

// What placing gives: `full` where a new node was wanted and there was no room (`node` is then 0), the node, and the count.
#[derive(Clone, Copy)]
pub struct Placed {
    pub full: bool,
    pub node: NodeNo,
    pub count: usize,
}

// The same of one node, and whether it took a new place.
#[derive(Clone, Copy)]
pub struct NodePlaced {
    pub full: bool,
    pub new: bool,
    pub node: NodeNo,
    pub count: usize,
}

// The greater of two counts.
pub fn greater(a: usize, b: usize) -> usize
    ensures { result ≡ max a b }
{
    if a < b {
        return b;
    }
    a
}

// a * b in 32 bits, running over the top on purpose.
fn wrapping_product(a: u32, b: u32) -> u32
    ensures { result ≡ (a * b) % 4294967296 }
{
    (((a as u64) * (b as u64)) % 4294967296) as u32
}

// The most heads of an index: two for each place.
const MOST_HEADS: usize = 131072;

// Those of a table of 4,096 places.
const SOME_HEADS: usize = 8192;

// The chain of a node among `heads`. Two numbers of them are cases of their own: a remainder by a constant is no division.
pub fn bucket_of(heads: usize, v: u8, l: u16, h: u16) -> usize
    requires { 0 < heads }
    ensures value { result ≡ bucket heads v l h }
    ensures upper_bound { result < heads }
{
    let low = wrapping_product(l as u32, 12582917);
    let high = wrapping_product(h as u32, 4256249);
    let key = std::num::wrapping_add_u32(std::num::wrapping_add_u32(v as u32, low), high);
    if heads == MOST_HEADS {
        return (key as usize) % MOST_HEADS;
    }
    if heads == SOME_HEADS {
        return (key as usize) % SOME_HEADS;
    }
    (key as usize) % heads
}

// The place of a node, by the index: what the walk from place 2 finds.
pub fn lookup(
    vars: &[u8],
    lows: &[u16],
    highs: &[u16],
    heads: &[u16],
    links: &[u16],
    count: usize,
    v: u8,
    l: NodeNo,
    h: NodeNo,
) -> Found
    requires { Good (table_of vars.now lows.now highs.now heads.now links.now count) }
    ensures { let before = table_of vars.now lows.now highs.now heads.now links.now count in
        result ≡ found_of (find (nodes_of before) (node_of v l.0 h.0)) }
{
    let b = bucket_of(heads.len(), v, l.0, h.0);
    let mut k: u16 = heads[b];
    while k != 0 {
        let i = k as usize;
        if vars[i] == v && lows[i] == l.0 && highs[i] == h.0 {
            return Found::At(NodeNo(k));
        }
        k = links[i];
    }
    Found::Nothing
}

// Puts place k to the front of its chain.
fn link(heads: &mut [u16], links: &mut [u16], k: usize, v: u8, l: u16, h: u16)
    requires { (0 < length heads.old) × (k < length links.old) × (length links.old ≤ 65536) }
    ensures { index_made heads.new links.new
        ≡ insert (index_made heads.old links.old) (bucket (length heads.old) v l h) k }
{
    let b = bucket_of(heads.len(), v, l, h);
    links[k] = heads[b];
    heads[b] = k as u16;
}

// One node more, where there is room for it.
fn append(
    vars: &mut [u8],
    lows: &mut [u16],
    highs: &mut [u16],
    heads: &mut [u16],
    links: &mut [u16],
    count: usize,
    v: u8,
    l: u16,
    h: u16,
)
    requires { Good (table_of vars.old lows.old highs.old heads.old links.old count) × (count < length vars.old) }
    ensures { let before = table_of vars.old lows.old highs.old heads.old links.old count in
        let after = table_of vars.new lows.new highs.new heads.new links.new (count + 1) in
        after ≡ indexed (length vars.old) (nodes_of before ++ node_of v l h ∷ []) }
{
    link(heads, links, count, v, l, h);
    vars[count] = v;
    lows[count] = l;
    highs[count] = h;
}

// The node with these children: the child where they are equal, the place that holds it, or a new place; and whether the place is new.
fn place_node(
    vars: &mut [u8],
    lows: &mut [u16],
    highs: &mut [u16],
    heads: &mut [u16],
    links: &mut [u16],
    count: usize,
    v: u8,
    l: NodeNo,
    h: NodeNo,
) -> NodePlaced
    requires { Good (table_of vars.old lows.old highs.old heads.old links.old count) }
    ensures { let before = table_of vars.old lows.old highs.old heads.old links.old count in
        let wanted = put (length vars.old) (nodes_of before) v l.0 h.0 in
        (node_outcome_of vars.new lows.new highs.new heads.new links.new result
        ≡ written (length vars.old) wanted)
        × (result.new ≡ took_place (nodes_of before) wanted) }
{
    if l.0 == h.0 {
        return NodePlaced {
            full: false,
            new: false,
            node: l,
            count,
        };
    }
    match lookup(vars, lows, highs, heads, links, count, v, l, h) {
        Found::At(k) => NodePlaced {
            full: false,
            new: false,
            node: k,
            count,
        },
        Found::Nothing => {
            if count < vars.len() {
                append(vars, lows, highs, heads, links, count, v, l.0, h.0);
                NodePlaced {
                    full: false,
                    new: true,
                    node: NodeNo(count as u16),
                    count: count + 1,
                }
            } else {
                NodePlaced {
                    full: true,
                    new: false,
                    node: NodeNo(0),
                    count,
                }
            }
        }
    }
}

// The same where the number alone is asked for.
pub fn put(
    vars: &mut [u8],
    lows: &mut [u16],
    highs: &mut [u16],
    heads: &mut [u16],
    links: &mut [u16],
    count: usize,
    v: u8,
    l: NodeNo,
    h: NodeNo,
) -> Placed
    requires { Good (table_of vars.old lows.old highs.old heads.old links.old count) }
    ensures { let before = table_of vars.old lows.old highs.old heads.old links.old count in
        outcome_of vars.new lows.new highs.new heads.new links.new result
        ≡ written (length vars.old) (put (length vars.old) (nodes_of before) v l.0 h.0) }
{
    let p = place_node(vars, lows, highs, heads, links, count, v, l, h);
    let node = p.node;
    Placed {
        full: p.full,
        node,
        count: p.count,
    }
}

// Only the nodes below `keep` are left, with their index.
pub fn drop_to(
    vars: &mut [u8],
    lows: &mut [u16],
    highs: &mut [u16],
    heads: &mut [u16],
    links: &mut [u16],
    count: usize,
    keep: usize,
)
    requires { Good (table_of vars.old lows.old highs.old heads.old links.old count) × (2 ≤ keep) × (keep ≤ count) }
    ensures { let before = table_of vars.old lows.old highs.old heads.old links.old count in
        let after = table_of vars.new lows.new highs.new heads.new links.new keep in
        after ≡ indexed (length vars.old) (take keep (nodes_of before)) }
{
    let n = heads.len();
    let mut k = count;
    while keep < k {
        k -= 1;
        let b = bucket_of(n, vars[k], lows[k], highs[k]);
        heads[b] = links[k];
        links[k] = 0;
        vars[k] = 0;
        lows[k] = 0;
        highs[k] = 0;
    }
}
