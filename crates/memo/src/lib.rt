// The memo of the recursion: a hash table of results in the slice that is lent, in as much of it as there is use for. While it grows, and
// half of its cells are empty, a result stands in its home alone, which is one test. With all of the slice in use it may stand in
// any of the eight cells from its home on; where all of them hold others, one of those gives way. So no search is long, and what is
// forgotten is what has not been asked for a while. Where so much is forgotten that work is done again and again, only every
// step-th depth's results are held, so that the work is bounded by the cells times 2 to the step, and not by the number of
// paths.
#![tactic(auto)]

ghost use Rattle.std.specs.Prelude.{◌≡◌, ◌+◌, ◌<◌, ◌≤◌, ◌⊎◌, length};
ghost use Rattle.memo.specs.Memo.{live, Shaped, EmptyMemo, told_by, Tells, Cleared, Moved, Follows, Stores};

use table::{Found, NodeNo};

// The head: how many cells are live, how many results were stored in them, and at each how many-th variable results are held. Behind it are
// the cells.
const LIVE: usize = 0;

const STORED: usize = 1;

const STEP: usize = 2;

const HEAD: usize = 3;

// Node numbers are below this; a cell has f, g and the result's node as its digits.
const NUMBERS: u64 = 65536;

// Its square: f and g as the digits of one number are below this.
const PAIRS: u64 = 4294967296;

// Up to so many cells a memo that grows keeps its results.
const KEPT: usize = 8192;

// The lesser of two numbers.
fn lesser(a: usize, b: usize) -> usize
    ensures { (result ≤ a) × (result ≤ b) × ((a ≤ result) ⊎ (b ≤ result)) }
{
    if b < a {
        return b;
    }
    a
}

// The numbers of f and g mixed to 32 bits. Not linear, so that nodes cannot be numbered in such a way that many pairs have few homes.
pub fn mixed(f: NodeNo, g: NodeNo) -> u64
    ensures { result < 4294967296 }
{
    let a = (f.0 as u64) * NUMBERS + (g.0 as u64);
    let b = (a ^ (a / NUMBERS)) % PAIRS * 2146121005;
    let c = (b ^ (b / NUMBERS)) % PAIRS * 2221713035;
    c % PAIRS
}

// The home among m cells of what is mixed to `mix`.
fn home_of(m: usize, mix: u64) -> usize
    requires { (m ≤ 1048576) × (mix < 4294967296) }
    ensures { result ≤ m }
{
    (mix * (m as u64) / PAIRS) as usize
}

// The first cell from `from` on that is empty or has the key; `to` where none before it is.
fn probe(memo: &[u64], from: usize, to: usize, key: u64) -> usize
    requires { 3 + to ≤ length memo.now }
{
    let mut c = from;
    while c < to {
        let e = memo[HEAD + c];
        if e == 0 || e / NUMBERS == key {
            return c;
        }
        c += 1;
    }
    to
}

// The cell of f and g among n live ones: the first of the eight from their home on that is empty or has their key; n where none is.
fn cell_of(memo: &[u64], n: usize, mix: u64, f: NodeNo, g: NodeNo) -> usize
    requires { (3 + n ≤ length memo.now) × (n ≤ 1048576) × (mix < 4294967296) }
{
    let key = (f.0 as u64) * NUMBERS + (g.0 as u64);
    let home = home_of(n, mix);
    let end = lesser(home + 8, n);
    let c = probe(memo, home, end, key);
    if c < end {
        return c;
    }
    n
}

// Whether results are held that are made so many calls below the first.
fn is_held(step: u64, depth: u64) -> bool {
    if step <= 1 {
        return true;
    }
    depth % step == 0
}

// What a cell tells of f and g: its result where it has their key.
fn told_by(e: u64, f: NodeNo, g: NodeNo) -> Found
    ensures { (result ≡ told_by e f.0 g.0) × (g.0 < 65536) }
{
    let a = f.0 as u64;
    let b = g.0 as u64;
    if e / NUMBERS == a * NUMBERS + b {
        return Found::At(NodeNo((e % NUMBERS) as u16));
    }
    Found::Nothing
}

// The result stored for f and g, mixed to `mix`, in their home.
pub fn memo_home(memo: &[u64], mix: u64, f: NodeNo, g: NodeNo) -> Found
    requires { Shaped memo.now × (mix < 4294967296) }
    ensures { Tells memo.now f.0 g.0 result }
{
    let n = memo[LIVE] as usize;
    let c = home_of(n, mix);
    if n <= c || f.0 < 2 {
        return Found::Nothing;
    }
    told_by(memo[HEAD + c], f, g)
}

// The result stored for f and g, mixed to `mix`, where it may stand beside their home.
pub fn memo_find(memo: &[u64], mix: u64, f: NodeNo, g: NodeNo) -> Found
    requires { Shaped memo.now × (mix < 4294967296) }
    ensures { Tells memo.now f.0 g.0 result }
{
    let n = memo[LIVE] as usize;
    if HEAD + n < memo.len() {
        return Found::Nothing;
    }
    let c = cell_of(memo, n, mix, f, g);
    if n <= c || f.0 < 2 {
        return Found::Nothing;
    }
    told_by(memo[HEAD + c], f, g)
}

// Empties the places from `from` on that are before `to`.
fn clear_places(memo: &mut [u64], from: usize, to: usize)
    requires { to ≤ length memo.old }
    ensures { Cleared memo.old from to memo.new }
{
    let mut i = from;
    while i < to {
        memo[i] = 0;
        i += 1;
    }
}

// Makes n cells live and empty.
fn restart(memo: &mut [u64], n: usize, step: u64)
    requires { (3 + n ≤ length memo.old) × (n ≤ 1048576) }
    ensures { EmptyMemo memo.new }
{
    clear_places(memo, 0, HEAD + n);
    memo[LIVE] = n as u64;
    memo[STEP] = step;
}

// Moves the result in cell c to its home among n cells.
fn move_one(memo: &mut [u64], c: usize, n: usize)
    requires { (3 + n ≤ length memo.old) × (n ≤ 1048576) × (c < n) }
    ensures { Moved memo.old n memo.new }
{
    let e = memo[HEAD + c];
    if e == 0 {
        return;
    }
    memo[HEAD + c] = 0;
    let f = NodeNo((e / PAIRS % NUMBERS) as u16);
    let g = NodeNo((e / NUMBERS % NUMBERS) as u16);
    let home = home_of(n, mixed(f, g));
    if n <= home {
        return;
    }
    memo[HEAD + home] = e;
}

// Moves the results in the first m of n cells to their homes. A home among more cells is no lower, and the last cell comes first: so a
// result is moved once, and gives way only to one that has the same home.
fn move_all(memo: &mut [u64], m: usize, n: usize)
    requires { (3 + n ≤ length memo.old) × (n ≤ 1048576) × (m ≤ n) }
    ensures { Moved memo.old n memo.new }
{
    let mut c = m;
    while 0 < c {
        c -= 1;
        move_one(memo, c, n);
    }
}

// Makes `more` cells live where n were, and keeps their results.
fn grow(memo: &mut [u64], n: usize, more: usize)
    requires { (3 + more ≤ length memo.old) × (more ≤ 1048576) × (n ≤ more) × (live memo.old ≡ n) }
    ensures { Follows memo.old memo.new }
{
    clear_places(memo, HEAD + n, HEAD + more);
    move_all(memo, n, more);
    memo[LIVE] = more as u64;
}

// Where half of the cells may be used and there are more: goes on with eight times as many. A small memo keeps its results; a large one
// begins anew, so that what is lost costs less than what comes. With all of the slice in use, and four times as many results stored as
// there are cells: begins anew with the next step.
fn make_room(memo: &mut [u64])
    requires { Shaped memo.old }
    ensures { Follows memo.old memo.new }
{
    let n = memo[LIVE] as usize;
    let stored = memo[STORED];
    if stored < (n / 2) as u64 {
        return;
    }
    let all = lesser(memo.len() - HEAD, 1048576);
    if n < all {
        let more = lesser(8 * n + 512, all);
        if n < KEPT {
            grow(memo, n, more);
            return;
        }
        restart(memo, more, 1);
        return;
    }
    if stored < (4 * n) as u64 {
        return;
    }
    let step = memo[STEP] % 64 + 1;
    restart(memo, n, step);
}

// The cell for a new result among n live ones: its home while the memo grows; then that of f and g, else one of the eight in turn.
fn cell_for(memo: &[u64], n: usize, mix: u64, f: NodeNo, g: NodeNo) -> usize
    requires { (3 + n ≤ length memo.now) × (n ≤ 1048576) × (mix < 4294967296) }
{
    if HEAD + n < memo.len() {
        return home_of(n, mix);
    }
    let c = cell_of(memo, n, mix, f, g);
    if c < n {
        return c;
    }
    home_of(n, mix) + (memo[STORED] % 8) as usize
}

// The depth of a call's own calls.
pub fn next_depth(depth: u64) -> u64 {
    std::num::wrapping_add_u64(depth, 1)
}

// Stores the result for f and g, mixed to `mix`, which is made `depth` calls below the first.
pub fn memo_put(memo: &mut [u64], mix: u64, depth: u64, f: NodeNo, g: NodeNo, r: NodeNo)
    requires { Shaped memo.old × (mix < 4294967296) }
    ensures { Stores memo.old f.0 g.0 r.0 memo.new }
{
    if !is_held(memo[STEP], depth) {
        return;
    }
    make_room(memo);
    let n = memo[LIVE] as usize;
    let c = cell_for(memo, n, mix, f, g);
    if n <= c {
        return;
    }
    memo[STORED] = std::num::wrapping_add_u64(memo[STORED], 1);
    let a = f.0 as u64;
    let b = g.0 as u64;
    let d = r.0 as u64;
    memo[HEAD + c] = a * PAIRS + b * NUMBERS + d;
}

// Empties the memo: no cell is live.
pub fn clear_memo(memo: &mut [u64])
    requires { 3 ≤ length memo.old }
    ensures { EmptyMemo memo.new }
{
    memo[STEP] = 1;
    memo[STORED] = 0;
    memo[LIVE] = 0;
}

// For the next operation: empties a memo that has forgotten results, so that what one operation asked for is no burden to the next.
pub fn clear_forgetful(memo: &mut [u64])
    requires { Shaped memo.old }
    ensures { Follows memo.old memo.new }
{
    if 1 < memo[STEP] || memo[LIVE] < memo[STORED] {
        clear_memo(memo);
    }
}
