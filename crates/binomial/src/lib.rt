// Binomials read from a stored table, and the number of assignments that "at least k" excludes.
#![tactic(auto)]

mod stored;

ghost use Rattle.std.specs.Prelude.{◌≡◌, ◌≤◌};
ghost use Rattle.binomial.specs.Binomials.{choose, excluded};

// C(n, k), stored.
pub fn binomial(n: usize, k: usize) -> u32
    requires { (n ≤ 32) × (k ≤ 32) }
    ensures { result ≡ choose n k }
{
    let i = 33 * n + k;
    stored::BINOMIALS[i]
}

// How many assignments of n variables make fewer than k of them true. Binomials from 33 on are 0, so the sum ends at 33.
pub fn excluded(n: usize, k: u8) -> u64
    requires { n ≤ 32 }
    ensures { result ≡ excluded n k }
{
    let end = usize::from(k.min(33));
    let mut sum: u64 = 0;
    for j in 0..end {
        let c = binomial(n, j);
        sum += u64::from(c);
    }
    sum
}
