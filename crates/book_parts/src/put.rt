// What an accepted call writes back into the lists that are lent for its book.
ghost use Rattle.std.specs.Prelude.{◌≡◌, map, ℕ, ◌+◌, ◌-◌, ◌≤◌, ◌<◌, length, get_or, take, drop};
ghost use Rattle.table.specs.Indexed.{table_of};
ghost use Rattle.walks.specs.Readable.{nodes_in};
ghost use Rattle.alone.specs.Copies.{Shareable};
ghost use Rattle.book_parts.specs.Gives.{GiveReady, Gives};
ghost use Rattle.shares.specs.Shares.{number_in};
ghost use Rattle.shares.specs.Books.{padded};

// The first m members as numbers of the shared table, from those in the book's own.
pub fn renumber(members: &mut [u16], own: &[u16], found: &[u16], m: usize)
    requires m_in_bounds { (m ≤ length members.old) × (m ≤ length found.now) }
    requires by_index { (i : ℕ) → i < m → get_or found.now i 0 < length own.now + 2 }
    ensures { take m members.new ≡ map (number_in own.now) (take m found.now) }
{
    for i in 0..m {
        let k = alone::number_in(own, found[i]);
        members[i] = k.0;
    }
}

// The first m marks. By a loop: `copy_from_slice` calls `memmove`, which the archive for C would newly need from outside.
pub fn copy_marks(struck: &mut [u8], marks: &[u8], m: usize)
    requires { (m ≤ length struck.old) × (m ≤ length marks.now) }
    ensures { take m struck.new ≡ take m marks.now }
{
    for i in 0..m {
        struck[i] = marks[i];
    }
}

// Zeros from a place on.
pub fn zero_numbers_from(list: &mut [u16], from: usize)
    requires { from ≤ length list.old }
    ensures { list.new ≡ padded (take from list.old) (length list.old) }
{
    list[from..].fill(0);
}

// The same of marks.
pub fn zero_marks_from(list: &mut [u8], from: usize)
    requires { from ≤ length list.old }
    ensures { list.new ≡ padded (take from list.old) (length list.old) }
{
    list[from..].fill(0);
}

// An accepted call: the book's nodes put into the shared table, its members, marks and own nodes written back with zeros above; and the
// shared table's count.
pub fn give(
    ownvars: &[u8],
    ownlows: &[u16],
    ownhighs: &[u16],
    found: &[u16],
    marks: &[u8],
    vars: &mut [u8],
    lows: &mut [u16],
    highs: &mut [u16],
    heads: &mut [u16],
    links: &mut [u16],
    own: &mut [u16],
    members: &mut [u16],
    struck: &mut [u8],
    owncount: usize,
    m: usize,
    count: usize,
) -> usize
    requires fact { let before = table_of vars.old lows.old highs.old heads.old links.old count in
        Shareable before ownvars.now ownlows.now ownhighs.now owncount own.old }
    requires give_ready { GiveReady owncount m found.now marks.now members.old struck.old }
    ensures { let before = table_of vars.old lows.old highs.old heads.old links.old count in
        let after = table_of vars.new lows.new highs.new heads.new links.new result in
        let nodes = drop 2 (nodes_in ownvars.now ownlows.now ownhighs.now owncount) in
        Gives before nodes after (owncount - 2) m found.now marks.now (length own.old)
        (length members.old)
        (length struck.old) own.new members.new struck.new }
{
    let made = alone::share(
        ownvars, ownlows, ownhighs, vars, lows, highs, heads, links, own, owncount, count,
    );
    renumber(members, own, found, m);
    zero_numbers_from(members, m);
    zero_numbers_from(own, owncount - 2);
    copy_marks(struck, marks, m);
    zero_marks_from(struck, m);
    made
}
