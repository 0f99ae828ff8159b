// The proof judged once the clauses are made, and what it leaves.
ghost use Rattle.std.specs.Prelude.{◌≡◌, ◌≤◌, length, take};
ghost use Rattle.table.specs.Columns.{columns_made};
ghost use Rattle.table.specs.Indexed.{table_of, nodes_of};
ghost use Rattle.walks.specs.Readable.{Roomy};
ghost use Rattle.conflict.specs.Marks.{unmarked};
ghost use Rattle.verdict.specs.Steps.{begun};
ghost use Rattle.verdict.specs.Check.{proof_from, zeros, outcome};
ghost use Rattle.session.specs.Checked.{check_outcome};
ghost use Rattle.formula.specs.Formula.{Built};

use crate::Checked;
use commands::Mode;
use state::State;
use words::Literals;

// The proof judged once the clauses are made. Nodes of entries after the last accepted line are dropped.
pub fn run_proof(
    vars: &mut [u8],
    lows: &mut [u16],
    highs: &mut [u16],
    heads: &mut [u16],
    links: &mut [u16],
    memo: &mut [u64],
    marks: &mut [u8],
    members: &mut [u16],
    scratch: &mut [u16],
    struck: &mut [u8],
    variables: u8,
    count: usize,
    made: usize,
    mode: Mode,
    proof: &[u8],
) -> Checked
    requires { let before = table_of vars.old lows.old highs.old heads.old links.old count in
        Built variables before members.old made
        × (variables ≤ 64)
        × (2048 ≤ length members.old)
        × (4096 ≤ length scratch.old)
        × (marks.old ≡ unmarked (length vars.old))
        × Roomy vars.old memo.old
        × (struck.old ≡ zeros (length members.old)) }
    ensures { let before = table_of vars.old lows.old highs.old heads.old links.old count in
        let left = columns_made vars.new lows.new highs.new heads.new links.new in
        check_outcome left members.new struck.new (zeros (length scratch.old)) result
        ≡ outcome (length vars.old) (length members.old) (length scratch.old)
        (proof_from mode variables (length vars.old) proof.now
        (begun (nodes_of before) (take made members.old))) }
{
    let first = State {
        count,
        kept: count,
        members: made,
        entries: 0,
        witness: Literals {
            positive: 0,
            negative: 0,
        },
        lines: 0,
        rounds: 0,
        peak: count,
        refuted: false,
    };
    let ended = replay::read_commands(
        vars, lows, highs, heads, links, memo, marks, members, scratch, struck, first, variables,
        mode, proof,
    );
    let last = ended.state;
    table::drop_to(vars, lows, highs, heads, links, last.count, last.kept);
    Checked {
        number: ended.number,
        in_proof: true,
        place: ended.place,
        lines: last.lines,
        rounds: last.rounds,
        count: last.kept,
        peak: ended.peak,
    }
}
