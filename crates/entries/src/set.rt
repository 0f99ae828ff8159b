// Records that make an entry of a set's diagram: an odd or even number of its variables, or at least k of them.
ghost use Rattle.std.specs.Prelude.{◌≡◌, List, ℕ, ◌≤◌, length};
ghost use Rattle.table.specs.Indexed.{table_of, Good, outcome_of};
ghost use Rattle.sets.specs.Building.{placed_in};
ghost use Rattle.verdict.specs.Steps.{beyond, set_diagram, set_step};
ghost use Rattle.state.specs.States.{lent_of, state_of, EntriesHeld, Held, Stepped};
ghost use Rattle.entries.specs.Tests.{set_refusal};

use records::{SetBody, SetKind};
use state::{State, Step};
use table::Placed;

// Whether the set has a variable beyond the header's.
pub fn is_beyond(variables: u8, set: u64) -> bool
    requires { variables ≤ 64 }
    ensures { result ≡ beyond variables set }
{
    if 64 <= variables {
        return false;
    }
    let n = variables as u64;
    let bit: u64 = 1 << n;
    bit <= set
}

// 21, 12 or 29 where the record is refused before anything is made, else 0.
fn set_test(entries: usize, variables: u8, kind: SetKind, b: SetBody) -> u8
    requires { variables ≤ 64 }
    ensures { result ≡ set_refusal variables entries kind b }
{
    if 4096 <= entries {
        return 21;
    }
    if is_beyond(variables, b.set) {
        return 12;
    }
    match kind {
        SetKind::Parity => {
            if 1 < b.byte {
                return 29;
            }
            0
        }
        SetKind::AtLeast => 0,
    }
}

// The diagram of the record, or `full`.
fn set_made(
    vars: &mut [u8],
    lows: &mut [u16],
    highs: &mut [u16],
    heads: &mut [u16],
    links: &mut [u16],
    count: usize,
    kind: SetKind,
    b: SetBody,
) -> Placed
    requires { Good (table_of vars.old lows.old highs.old heads.old links.old count) }
    ensures { let before = table_of vars.old lows.old highs.old heads.old links.old count in
        outcome_of vars.new lows.new highs.new heads.new links.new result
        ≡ placed_in before (set_diagram 64 kind b) }
{
    match kind {
        SetKind::Parity => {
            let odd = b.byte == 1;
            sets::parity(vars, lows, highs, heads, links, count, b.set, odd)
        }
        SetKind::AtLeast => sets::at_least(vars, lows, highs, heads, links, count, b.set, b.byte),
    }
}

// The record makes the next entry, its node in the scratch list; or is refused. A diagram without room leaves none of its nodes.
pub fn set_step(
    vars: &mut [u8],
    lows: &mut [u16],
    highs: &mut [u16],
    heads: &mut [u16],
    links: &mut [u16],
    scratch: &mut [u16],
    st: State,
    variables: u8,
    kind: SetKind,
    b: SetBody,
) -> Step
    requires { let before = table_of vars.old lows.old highs.old heads.old links.old st.count in
        EntriesHeld variables before scratch.old st.entries }
    ensures { (ms ss : List ℕ) → (
        let lent = lent_of vars.old lows.old highs.old heads.old links.old ms
        scratch.old ss in
        let returned = lent_of vars.new lows.new highs.new heads.new links.new ms
        scratch.new ss in
        Held variables lent st →
        Stepped variables lent returned st (set_step variables (length vars.old) (state_of lent st) kind b) result) }
{
    let number = set_test(st.entries, variables, kind, b);
    if number != 0 {
        return Step::Stop { number, offset: 0 };
    }
    let p = set_made(vars, lows, highs, heads, links, st.count, kind, b);
    let peak = table::greater(st.peak, p.count);
    if p.full {
        table::drop_to(vars, lows, highs, heads, links, p.count, st.count);
        return Step::Spent { number: 23, peak };
    }
    let k = p.node;
    let entries = st.entries;
    scratch[entries] = k.0;
    Step::Next(crate::node::with_entry(st, p.count, peak))
}
