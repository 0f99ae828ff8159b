// The paths of a diagram to 0, low side first: how many there are, the first, and the one after another. Nothing is placed.
#![tactic(auto)]

ghost use Rattle.std.specs.Prelude.{◌≡◌, ◌-◌, ◌≤◌, ◌<◌};
ghost use Rattle.table.specs.Nodes.{diagram_at};
ghost use Rattle.walks.specs.Readable.{Readable, nodes_in};
ghost use Rattle.words.specs.Sets.{no_literals};
ghost use Rattle.paths.specs.Paths.{path_count};
ghost use Rattle.paths.specs.Walk.{BranchAt, first_from, after_from, fork_in, no_path};

use table::NodeNo;
use words::Literals;

// A node's variable and its two sides.
#[derive(Clone, Copy)]
pub struct Branch {
    pub variable: u8,
    pub low: NodeNo,
    pub high: NodeNo,
}

// Where the way down last could have gone high: the high side, and the literals up to it.
#[derive(Clone, Copy)]
pub struct Fork {
    pub found: bool,
    pub node: NodeNo,
    pub literals: Literals,
}

// A path's literals, where there is one more.
#[derive(Clone, Copy)]
pub struct NextPath {
    pub found: bool,
    pub literals: Literals,
}

fn branch_at(vars: &[u8], lows: &[u16], highs: &[u16], count: usize, f: NodeNo) -> Branch
    requires { Readable vars.now lows.now highs.now count × (2 ≤ f.0) × (f.0 < count) }
    ensures { BranchAt (nodes_in vars.now lows.now highs.now count) f.0 result }
{
    let i = f.0 as usize;
    Branch {
        variable: vars[i],
        low: NodeNo(lows[i]),
        high: NodeNo(highs[i]),
    }
}

// What is left of so many paths once those of the node are taken off; 0 where it has as many or more. Every node but 1 has a path to 0, so
// that the walk takes at most 64 steps for each path that it takes off, however many there are.
pub fn paths_left(
    vars: &[u8],
    lows: &[u16],
    highs: &[u16],
    count: usize,
    f: NodeNo,
    left: u16,
) -> u16
    requires { Readable vars.now lows.now highs.now count × (f.0 < count) }
    ensures { result
        ≡ left - path_count (diagram_at (nodes_in vars.now lows.now highs.now count) f.0) }
{
    if left == 0 {
        return 0;
    }
    if f.0 == 0 {
        return left - 1;
    }
    if f.0 == 1 {
        return left;
    }
    let branch = branch_at(vars, lows, highs, count, f);
    let rest = paths_left(vars, lows, highs, count, branch.low, left);
    paths_left(vars, lows, highs, count, branch.high, rest)
}

// The literals of the node's first path, and those at hand.
fn first_from(
    vars: &[u8],
    lows: &[u16],
    highs: &[u16],
    count: usize,
    f: NodeNo,
    set: Literals,
) -> Literals
    requires { Readable vars.now lows.now highs.now count × (f.0 < count) }
    ensures { let nodes = nodes_in vars.now lows.now highs.now count in
        result ≡ first_from (diagram_at nodes f.0) set }
{
    if f.0 < 2 {
        return set;
    }
    let branch = branch_at(vars, lows, highs, count, f);
    if branch.low.0 == 1 {
        let over = words::with_literal(set, branch.variable, true);
        return first_from(vars, lows, highs, count, branch.high, over);
    }
    let under = words::with_literal(set, branch.variable, false);
    first_from(vars, lows, highs, count, branch.low, under)
}

// The last fork on the way that goes high at the variables of the word, or the one at hand.
fn fork_from(
    vars: &[u8],
    lows: &[u16],
    highs: &[u16],
    count: usize,
    f: NodeNo,
    word: u64,
    set: Literals,
    fork: Fork,
) -> Fork
    requires { Readable vars.now lows.now highs.now count × (f.0 < count) × (fork.node.0 < count) }
    ensures result_value { let nodes = nodes_in vars.now lows.now highs.now count in
        fork_in nodes result ≡ after_from (diagram_at nodes f.0) word set (fork_in nodes fork) }
    ensures node_lt_count { result.node.0 < count }
{
    if f.0 < 2 {
        return fork;
    }
    let branch = branch_at(vars, lows, highs, count, f);
    let over = words::with_literal(set, branch.variable, true);
    if words::in_word(word, branch.variable) {
        return fork_from(vars, lows, highs, count, branch.high, word, over, fork);
    }
    let under = words::with_literal(set, branch.variable, false);
    if branch.high.0 == 1 {
        return fork_from(vars, lows, highs, count, branch.low, word, under, fork);
    }
    let high = branch.high;
    let turned = Fork {
        found: true,
        node: high,
        literals: over,
    };
    fork_from(vars, lows, highs, count, branch.low, word, under, turned)
}

// The literals of the node's first path.
pub fn first_path(vars: &[u8], lows: &[u16], highs: &[u16], count: usize, f: NodeNo) -> Literals
    requires { Readable vars.now lows.now highs.now count × (f.0 < count) }
    ensures { let nodes = nodes_in vars.now lows.now highs.now count in
        result ≡ first_from (diagram_at nodes f.0) no_literals }
{
    let none = Literals {
        positive: 0,
        negative: 0,
    };
    first_from(vars, lows, highs, count, f, none)
}

// The node's path after the one that goes high at the variables of the word.
pub fn path_after(
    vars: &[u8],
    lows: &[u16],
    highs: &[u16],
    count: usize,
    f: NodeNo,
    word: u64,
) -> NextPath
    requires { Readable vars.now lows.now highs.now count × (f.0 < count) }
    ensures { let nodes = nodes_in vars.now lows.now highs.now count in
        result ≡ after_from (diagram_at nodes f.0) word no_literals no_path }
{
    let none = Literals {
        positive: 0,
        negative: 0,
    };
    let start = Fork {
        found: false,
        node: NodeNo(0),
        literals: none,
    };
    let fork = fork_from(vars, lows, highs, count, f, word, none, start);
    NextPath {
        found: fork.found,
        literals: first_from(vars, lows, highs, count, fork.node, fork.literals),
    }
}
