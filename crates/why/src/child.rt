// The variable of the child that a node record's variable is not before. (02, 8/14)
ghost use Rattle.std.specs.Prelude.{◌≡◌, cond, ◌<◌};
ghost use Rattle.table.specs.Nodes.{at, above};
ghost use Rattle.walks.specs.Readable.{nodes_in, Readable};

use table::NodeNo;

// The variable of the low child where v is not before it, else of the high child.
pub fn child_variable(
    vars: &[u8],
    lows: &[u16],
    highs: &[u16],
    count: usize,
    v: u8,
    low: NodeNo,
    high: NodeNo,
) -> u8
    requires { Readable vars.now lows.now highs.now count × (low.0 < count) × (high.0 < count) }
    ensures { let nodes = nodes_in vars.now lows.now highs.now count in
        result ≡ (at nodes (cond (above nodes v low.0) high.0 low.0)).var }
{
    if table::test::stands_above(vars, lows, highs, v, low.0) {
        let k = high.0 as usize;
        return vars[k];
    }
    let j = low.0 as usize;
    vars[j]
}
