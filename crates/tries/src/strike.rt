// A clause struck out: the live member of lowest place that is the same diagram. (02, 4/14)
ghost use Rattle.std.specs.Prelude.{◌≡◌, ◌&&◌, List, ℕ, ◌≤◌, length, eqb};
ghost use Rattle.meaning.specs.Operations.{Literal};
ghost use Rattle.table.specs.Indexed.{table_of, Good};
ghost use Rattle.commands.specs.Inner.{clause_words};
ghost use Rattle.verdict.specs.Clausal.{strike_clause};
ghost use Rattle.state.specs.States.{lent_of, state_of, Held, Stepped};
ghost use Rattle.meaning.specs.Literals.{OfVariables};
ghost use Rattle.tries.specs.Lowest.{Lowest};

use commands::DratClause;
use state::{State, Step};
use table::{Found, NodeNo};

// Whether a member is live and node g, by its mark and its node.
fn is_there(mark: u8, node: u16, g: NodeNo) -> bool
    ensures { result ≡ (eqb mark 0 && eqb node g.0) }
{
    if mark == 0 {
        return node == g.0;
    }
    false
}

// Of the first m members the place of the lowest that is live and node g; m where there is none.
fn lowest(members: &[u16], struck: &[u8], m: usize, g: NodeNo) -> usize
    requires { (m ≤ length members.now) × (m ≤ length struck.now) }
    ensures { Lowest members.now struck.now m g.0 result }
{
    for i in 0..m {
        if is_there(struck[i], members[i], g) {
            return i;
        }
    }
    m
}

// The striking marks the member of lowest place that is the clause's diagram; or 28. No node is placed.
pub fn strike_clause(
    vars: &[u8],
    lows: &[u16],
    highs: &[u16],
    heads: &[u16],
    links: &[u16],
    members: &[u16],
    struck: &mut [u8],
    st: State,
    clause: DratClause,
) -> Step
    requires { Good (table_of vars.now lows.now highs.now heads.now links.now st.count)
        × (st.members ≤ 2048)
        × (st.members ≤ length members.now)
        × (st.members ≤ length struck.old) }
    ensures { (n : ℕ) (cs : List ℕ) (ls : List Literal) → (
        let lent = lent_of vars.now lows.now highs.now heads.now links.now
        members.now cs struck.old in
        let returned = lent_of vars.now lows.now highs.now heads.now links.now
        members.now cs struck.new in
        Held n lent st → OfVariables n ls → clause_words ls ≡ clause →
        Stepped n lent returned st (strike_clause n (state_of lent st) ls) result) }
{
    match clause::find(vars, lows, highs, heads, links, st.count, clause.literals) {
        Found::At(g) => {
            let i = lowest(members, struck, st.members, g);
            if st.members <= i {
                return Step::Stop {
                    number: 28,
                    offset: 0,
                };
            }
            struck[i] = 1;
            Step::Next(st)
        }
        Found::Nothing => Step::Stop {
            number: 28,
            offset: 0,
        },
    }
}
