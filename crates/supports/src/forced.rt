// The variables that a node's diagram forces, as a word.
ghost use Rattle.std.specs.Prelude.{◌<◌};
ghost use Rattle.table.specs.Nodes.{diagram_at};
ghost use Rattle.walks.specs.Readable.{Readable, Roomy, nodes_in};
ghost use Rattle.supports.specs.Supports.{Forced, Support, SomeNodes};

use table::NodeNo;

// Whether f is thin: each of its nodes has a constant for a child. It tells what is quick and not what is right, so nothing is promised of
// the answer.
fn is_thin(lows: &[u16], highs: &[u16], f: NodeNo) -> bool
    requires { SomeNodes lows.now highs.now f.0 }
{
    let mut k = f.0 as usize;
    while 2 <= k {
        let low = lows[k] as usize;
        let high = highs[k] as usize;
        if low < 2 {
            k = high;
        } else {
            if 2 <= high {
                return false;
            }
            k = low;
        }
    }
    true
}

// The variables that a node forces, where `word` has all of its variables: these where it is thin, as a clause's negation is, which forces
// all of them. Else it is walked, with the memo, cleared.
pub fn forced_of(
    vars: &[u8],
    lows: &[u16],
    highs: &[u16],
    memo: &mut [u64],
    count: usize,
    f: NodeNo,
    word: u64,
) -> u64
    requires { Readable vars.now lows.now highs.now count
        × (f.0 < count)
        × Roomy vars.now memo.old
        × Support word (diagram_at (nodes_in vars.now lows.now highs.now count) f.0) }
    ensures { Forced result (diagram_at (nodes_in vars.now lows.now highs.now count) f.0) }
{
    if is_thin(lows, highs, f) {
        return word;
    }
    walks::clear_cells(memo, count);
    crate::word_from(vars, lows, highs, memo, count, f, false)
}
