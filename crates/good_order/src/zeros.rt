// Whether places hold zeros: all of them or-ed together and tested once; and how many zeros there are. A compiler does both many at a time.
ghost use Rattle.std.specs.Prelude.{◌≡◌, ◌+◌, ◌-◌, ◌≤◌, ◌<◌, length};
ghost use Rattle.good_order.specs.Tested.{Decides, Empty, zeros_in};

// How many numbers are counted in 16 bits, so that a compiler counts eight at a time.
const BLOCK: usize = 4096;

// Whether the bytes from `from` up to `to` are 0.
pub fn bytes_empty(bytes: &[u8], from: usize, to: usize) -> bool
    requires { (from ≤ to) × (to ≤ length bytes.now) }
    ensures { Decides result (Empty bytes.now from to) }
{
    let mut all: u8 = 0;
    for i in from..to {
        all |= bytes[i];
    }
    all == 0
}

// Whether the numbers from `from` up to `to` are 0.
pub fn places_empty(column: &[u16], from: usize, to: usize) -> bool
    requires { (from ≤ to) × (to ≤ length column.now) }
    ensures { Decides result (Empty column.now from to) }
{
    let mut all: u16 = 0;
    for i in from..to {
        all |= column[i];
    }
    all == 0
}

// Where the block that begins at b ends, of n numbers.
fn block_end(b: usize, n: usize) -> usize
    requires { b < n }
    ensures { (b < result) × (result ≤ n) × (result - b ≤ 4096) }
{
    if n - b < BLOCK {
        return n;
    }
    b + BLOCK
}

// How many of the numbers from `from` up to `to` are 0; a block has at most 4,096.
fn zeros_between(column: &[u16], from: usize, to: usize) -> u16
    requires { (from ≤ to) × (to ≤ length column.now) × (to - from ≤ 4096) }
    ensures { zeros_in column.now from + result ≡ zeros_in column.now to }
{
    let mut zeros: u16 = 0;
    for i in from..to {
        if column[i] == 0 {
            zeros += 1;
        }
    }
    zeros
}

// How many numbers are 0: by blocks, each of them counted many at a time.
pub fn zeros_of(column: &[u16]) -> usize
    ensures { result ≡ zeros_in column.now (length column.now) }
{
    let mut zeros: usize = 0;
    let mut b: usize = 0;
    while b < column.len() {
        let end = block_end(b, column.len());
        zeros += zeros_between(column, b, end) as usize;
        b = end;
    }
    zeros
}
