// A book's call over working arrays as large as the shared table asks for.
ghost use Rattle.std.specs.Prelude.{◌≡◌, ◌≤◌, length};
ghost use Rattle.table.specs.Columns.{columns_made};
ghost use Rattle.table.specs.Indexed.{table_of, nodes_of, size};
ghost use Rattle.shares.specs.Books.{charged, holding, own_table, book_leaves};
ghost use Rattle.book_line.specs.Says.{lists_made, said_outcome};
ghost use Rattle.book_sizes.specs.Calls.{CallReady};

use book_line::Said;
use shares::Book;

// The memo's cells, for a table of up to so many places.
const CELLS_4096: usize = 8192;

const CELLS_65536: usize = 69632;

// For up to 4,096 places.
pub fn call_4096(
    vars: &mut [u8],
    lows: &mut [u16],
    highs: &mut [u16],
    heads: &mut [u16],
    links: &mut [u16],
    own: &mut [u16],
    members: &mut [u16],
    struck: &mut [u8],
    scratch: &mut [u16],
    count: usize,
    b: Book,
    bytes: &[u8],
) -> Said
    requires { CallReady (table_of vars.old lows.old highs.old heads.old links.old count)
        (lists_made members.old struck.old own.old)
        scratch.old b
        × (length vars.old ≤ 4096) }
    ensures { let c = columns_made vars.old lows.old highs.old heads.old links.old in
        let T = table_of vars.old lows.old highs.old heads.old links.old count in
        let l = lists_made members.old struck.old own.old in
        let left = columns_made vars.new lows.new highs.new heads.new links.new in
        said_outcome left (lists_made members.new struck.new own.new) scratch.new result
        ≡ book_leaves c count l scratch.old b
        (charged 64 (size T) (nodes_of T) (holding b l) bytes.now (own_table b.stage (nodes_of T) (holding b l))) }
{
    let mut ownvars = [0u8; 4096];
    let mut ownlows = [0u16; 4096];
    let mut ownhighs = [0u16; 4096];
    let mut ownheads = [0u16; 8192];
    let mut ownlinks = [0u16; 4096];
    let mut known = [0u16; 4096];
    let mut memo = [0u64; CELLS_4096];
    let mut marks = [0u8; 4096];
    let mut found = [0u16; 2048];
    let mut strikes = [0u8; 2048];
    let places = b.share + 2;
    crate::stage::judge(
        &mut ownvars[..places],
        &mut ownlows[..places],
        &mut ownhighs[..places],
        &mut ownheads[..2 * places],
        &mut ownlinks[..places],
        &mut known,
        &mut memo,
        &mut marks[..places],
        &mut found,
        scratch,
        &mut strikes,
        vars,
        lows,
        highs,
        heads,
        links,
        own,
        members,
        struck,
        count,
        b,
        bytes,
    )
}

// For up to 65,536 places.
pub fn call_65536(
    vars: &mut [u8],
    lows: &mut [u16],
    highs: &mut [u16],
    heads: &mut [u16],
    links: &mut [u16],
    own: &mut [u16],
    members: &mut [u16],
    struck: &mut [u8],
    scratch: &mut [u16],
    count: usize,
    b: Book,
    bytes: &[u8],
) -> Said
    requires { CallReady (table_of vars.old lows.old highs.old heads.old links.old count)
        (lists_made members.old struck.old own.old)
        scratch.old b
        × (length vars.old ≤ 65536) }
    ensures { let c = columns_made vars.old lows.old highs.old heads.old links.old in
        let T = table_of vars.old lows.old highs.old heads.old links.old count in
        let l = lists_made members.old struck.old own.old in
        let left = columns_made vars.new lows.new highs.new heads.new links.new in
        said_outcome left (lists_made members.new struck.new own.new) scratch.new result
        ≡ book_leaves c count l scratch.old b
        (charged 64 (size T) (nodes_of T) (holding b l) bytes.now (own_table b.stage (nodes_of T) (holding b l))) }
{
    let mut ownvars = [0u8; 65536];
    let mut ownlows = [0u16; 65536];
    let mut ownhighs = [0u16; 65536];
    let mut ownheads = [0u16; 131072];
    let mut ownlinks = [0u16; 65536];
    let mut known = [0u16; 65536];
    let mut memo = [0u64; CELLS_65536];
    let mut marks = [0u8; 65536];
    let mut found = [0u16; 2048];
    let mut strikes = [0u8; 2048];
    let places = b.share + 2;
    crate::stage::judge(
        &mut ownvars[..places],
        &mut ownlows[..places],
        &mut ownhighs[..places],
        &mut ownheads[..2 * places],
        &mut ownlinks[..places],
        &mut known,
        &mut memo,
        &mut marks[..places],
        &mut found,
        scratch,
        &mut strikes,
        vars,
        lows,
        highs,
        heads,
        links,
        own,
        members,
        struck,
        count,
        b,
        bytes,
    )
}
