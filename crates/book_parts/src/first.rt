// A book's first call: its formula read, its clauses made in its own table.
ghost use Rattle.std.specs.Prelude.{◌≡◌, [], length};
ghost use Rattle.table.specs.Indexed.{table_of};
ghost use Rattle.commands.specs.Commands.{in_records};
ghost use Rattle.verdict.specs.Check.{verdict};
ghost use Rattle.formula.specs.Formula.{Opened};
ghost use Rattle.book_parts.specs.Firsts.{verdict_by, ReadBy};

use formula::Start;

// All clauses are made; or a number, its place and the greatest count.
#[derive(Clone, Copy)]
pub enum First {
    Made {
        variables: u8,
        count: usize,
        made: usize,
    },
    Refused {
        number: u8,
        place: usize,
        peak: usize,
    },
}

// The formula's clauses made, with table and member list emptied. Where it is refused both are then anything.
pub fn read_formula(
    vars: &mut [u8],
    lows: &mut [u16],
    highs: &mut [u16],
    heads: &mut [u16],
    links: &mut [u16],
    members: &mut [u16],
    formula: &[u8],
) -> First
    requires { Opened (table_of vars.old lows.old highs.old heads.old links.old 2) members.old }
    ensures formula_value { verdict in_records (length vars.old) formula.now []
        ≡ verdict_by vars.new lows.new highs.new heads.new links.new
        members.new result }
    ensures read_by { ReadBy formula.now vars.new lows.new highs.new heads.new
        links.new
        members.new result }
{
    match dimacs::read_header(formula) {
        Err(refusal) => First::Refused {
            number: refusal.number,
            place: refusal.place,
            peak: 2,
        },
        Ok(h) => match formula::read_clauses(
            vars,
            lows,
            highs,
            heads,
            links,
            members,
            formula,
            h.variables,
            h.clauses,
            h.end,
        ) {
            Start::Refused {
                number,
                place,
                peak,
            } => First::Refused {
                number,
                place,
                peak,
            },
            Start::Begun { count, made } => First::Made {
                variables: h.variables,
                count,
                made,
            },
        },
    }
}
