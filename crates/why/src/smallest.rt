// The smallest assignment that agrees with a witness and makes a node 0. (02, 8/14)
ghost use Rattle.std.specs.Prelude.{◌≡◌, false, ℕ, ◌≤◌, ◌<◌};
ghost use Rattle.meaning.specs.Words.{in_word, assignment_of};
ghost use Rattle.table.specs.Nodes.{diagram_at};
ghost use Rattle.walks.specs.Readable.{nodes_in, Readable, Roomy};
ghost use Rattle.causes.specs.Causes.{smallest};
ghost use Rattle.why.specs.Greedy.{decided_in, Shut};

use table::NodeNo;
use words::Literals;

// The literals with v decided: false where the node is still 0 somewhere, else true.
fn decide(
    vars: &[u8],
    lows: &[u16],
    highs: &[u16],
    memo: &mut [u64],
    count: usize,
    g: NodeNo,
    u: Literals,
    v: u8,
) -> Literals
    requires { Readable vars.now lows.now highs.now count
        × (g.0 < count)
        × Roomy vars.now memo.old
        × (1 ≤ v)
        × (v ≤ 64) }
    ensures { result ≡ decided_in (nodes_in vars.now lows.now highs.now count) g.0 u v }
{
    let positive = u.positive;
    let negative = u.negative;
    if words::in_word(positive, v) {
        return Literals { positive, negative };
    }
    if words::in_word(negative, v) {
        return Literals { positive, negative };
    }
    let off = words::with_variable(negative, v);
    let low = Literals {
        positive,
        negative: off,
    };
    if walks::is_one(vars, lows, highs, memo, count, g, low) {
        return Literals {
            positive: words::with_variable(positive, v),
            negative,
        };
    }
    Literals {
        positive,
        negative: off,
    }
}

// The word of the smallest assignment, read with variable 1 as the top digit, that agrees with the witness and makes the node 0.
pub fn smallest_false(
    vars: &[u8],
    lows: &[u16],
    highs: &[u16],
    memo: &mut [u64],
    count: usize,
    variables: u8,
    g: NodeNo,
    witness: Literals,
) -> u64
    requires { Readable vars.now lows.now highs.now count
        × (g.0 < count)
        × Roomy vars.now memo.old
        × (variables ≤ 64)
        × Shut variables (diagram_at (nodes_in vars.now lows.now highs.now count) g.0) witness }
    ensures result_value { let nodes = nodes_in vars.now lows.now highs.now count in
        assignment_of variables result
        ≡ smallest variables (in_word witness.positive) (in_word witness.negative) (diagram_at nodes g.0) }
    ensures by_index { (v : ℕ) → variables < v → in_word result v ≡ false }
{
    let mut positive = witness.positive;
    let mut negative = witness.negative;
    let mut v: u8 = 1;
    while v <= variables {
        let u = decide(
            vars,
            lows,
            highs,
            memo,
            count,
            g,
            Literals { positive, negative },
            v,
        );
        positive = u.positive;
        negative = u.negative;
        v += 1;
    }
    positive
}
