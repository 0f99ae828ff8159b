// The formula's clauses made in the emptied table; their nodes are the members.
#![tactic(auto)]

ghost use Rattle.std.specs.Prelude.{◌≡◌, List, [], ℕ, ◌≤◌, length};
ghost use Rattle.dimacs.specs.Clauses.{clauses_from};
ghost use Rattle.table.specs.Indexed.{table_of};
ghost use Rattle.commands.specs.declared.Mode.{Mode};
ghost use Rattle.verdict.specs.Steps.{emptied};
ghost use Rattle.verdict.specs.Check.{clauses};
ghost use Rattle.formula.specs.Formula.{Opened, said_from, Begins};

// What the formula comes to: how many nodes and how many members there are before the first record; or a number, a place and the greatest
// count reached.
#[derive(Clone, Copy)]
pub enum Start {
    Begun {
        count: usize,
        made: usize,
    },
    Refused {
        number: u8,
        place: usize,
        peak: usize,
    },
}

// The clauses from `from` on, each made as it closes. What a refused formula leaves is not said.
pub fn read_clauses(
    vars: &mut [u8],
    lows: &mut [u16],
    highs: &mut [u16],
    heads: &mut [u16],
    links: &mut [u16],
    members: &mut [u16],
    formula: &[u8],
    variables: u8,
    wanted: usize,
    from: usize,
) -> Start
    requires opened { Opened (table_of vars.old lows.old highs.old heads.old links.old 2) members.old }
    requires variables_bound { (variables ≤ 64) × (wanted ≤ 1024) × (from ≤ length formula.now) }
    ensures from_value { (mode : Mode) (proof : List ℕ) →
        clauses mode variables (length vars.old) proof emptied [] (clauses_from formula.now variables wanted from)
        ≡ said_from mode variables proof vars.new lows.new highs.new heads.new links.new
        members.new result }
    ensures begins { Begins variables vars.new lows.new highs.new heads.new links.new
        members.new result }
{
    let mut count: usize = 2;
    let mut made: usize = 0;
    let mut at = from;
    loop {
        match dimacs::next_clause(formula, at, variables, wanted - made) {
            Ok(None) => {
                return Start::Begun { count, made };
            }
            Err(refusal) => {
                return Start::Refused {
                    number: refusal.number,
                    place: refusal.place,
                    peak: count,
                };
            }
            Ok(Some(c)) => {
                let p = clause::make(vars, lows, highs, heads, links, count, c.literals);
                if p.full {
                    return Start::Refused {
                        number: 8,
                        place: c.first,
                        peak: p.count,
                    };
                }
                let node = p.node;
                members[made] = node.0;
                made += 1;
                count = p.count;
                at = c.next;
            }
        }
    }
}
