// The sizes of a lent table, and the order of a node and its children.
ghost use Rattle.std.specs.Prelude.{◌≡◌, ◌-◌, ◌<◌, true, length};
ghost use Rattle.table.specs.Nodes.{above};
ghost use Rattle.table.specs.Columns.{rows, size_fits};

// The most places of a table: a node's number has 16 bits.
pub const MOST: usize = 65536;

// Whether the columns are of one length, 2 to 65,536, with twice as many heads and as many links.
pub fn size_fits(vars: &[u8], lows: &[u16], highs: &[u16], heads: &[u16], links: &[u16]) -> bool
    ensures { result ≡ size_fits vars.now lows.now highs.now heads.now links.now }
{
    if lows.len() != vars.len() {
        return false;
    }
    if highs.len() != vars.len() {
        return false;
    }
    if vars.len() < 2 {
        return false;
    }
    if MOST < vars.len() {
        return false;
    }
    heads.len() == 2 * vars.len() && links.len() == vars.len()
}

// Whether variable v may stand above `child`: a constant, or a node with a greater variable.
pub fn stands_above(vars: &[u8], lows: &[u16], highs: &[u16], v: u8, child: u16) -> bool
    requires { (length lows.now ≡ length vars.now) × (length highs.now ≡ length vars.now) × (child < length vars.now) }
    ensures { result ≡ above (rows vars.now lows.now highs.now) v child }
{
    if child < 2 {
        return true;
    }
    v < vars[child as usize]
}
