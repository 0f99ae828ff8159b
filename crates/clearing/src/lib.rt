// Columns and lists made all zero.
#![tactic(auto)]

ghost use Rattle.std.specs.Prelude.{◌≡◌, length, replicate};

pub fn clear_bytes(bytes: &mut [u8])
    ensures { bytes.new ≡ replicate (length bytes.old) 0 }
{
    bytes.fill(0);
}

pub fn clear_numbers(numbers: &mut [u16])
    ensures { numbers.new ≡ replicate (length numbers.old) 0 }
{
    numbers.fill(0);
}

// The columns, their index and the member list, all zero.
pub fn empty(
    vars: &mut [u8],
    lows: &mut [u16],
    highs: &mut [u16],
    heads: &mut [u16],
    links: &mut [u16],
    members: &mut [u16],
)
    ensures vars_after { vars.new ≡ replicate (length vars.old) 0 }
    ensures lows_after { lows.new ≡ replicate (length lows.old) 0 }
    ensures highs_after { highs.new ≡ replicate (length highs.old) 0 }
    ensures heads_after { heads.new ≡ replicate (length heads.old) 0 }
    ensures links_after { links.new ≡ replicate (length links.old) 0 }
    ensures members_after { members.new ≡ replicate (length members.old) 0 }
{
    clear_bytes(vars);
    clear_numbers(lows);
    clear_numbers(highs);
    clear_numbers(heads);
    clear_numbers(links);
    clear_numbers(members);
}
