// Proof lines over words.
ghost use Rattle.std.specs.Prelude.{◌≡◌, ◌≢◌, List, ℕ, ◌+◌, ◌*◌, ◌≤◌, ◌<◌, length, take};
ghost use Rattle.verdict.specs.Steps.{unstruck};
ghost use Rattle.truth.specs.Tables.{ones};
ghost use Rattle.truth_rules.specs.Lists.{LineSays};
ghost use Rattle.small.specs.WordSteps.{line_by, word_line};
ghost use Rattle.small.specs.Lent.{words_lent, state_of, Held, Stepped, state_with_line, quiet_test, witness_test, root_test, LineTested};

use crate::{State, Stop};
use records::{EntryNo, Rule};
use truth::ONES;
use truth_rules::Judged;
use words::Literals;

// The tests of the root of a RUP or path line: 16, 22 or 17, or its word.
fn quiet_test(witness: Literals, lines: usize, g: u64) -> Result<u64, u8>
    ensures { result ≡ quiet_test witness.positive witness.negative lines g }
{
    if crate::record::waits(witness) {
        return Err(16);
    }
    if 1024 <= lines {
        return Err(22);
    }
    if g == ONES {
        return Err(17);
    }
    Ok(g)
}

// The tests of the root of a PR line: 22, 17 or 18, or its word.
fn witness_test(witness: Literals, lines: usize, g: u64) -> Result<u64, u8>
    ensures { result ≡ witness_test witness.positive witness.negative lines g }
{
    if 1024 <= lines {
        return Err(22);
    }
    if g == ONES {
        return Err(17);
    }
    if truth::by_literals(g, witness) != ONES {
        return Err(18);
    }
    Ok(g)
}

// The tests of a root, in the order of its rule.
fn root_test(rule: Rule, witness: Literals, lines: usize, g: u64) -> Result<u64, u8>
    ensures { result ≡ root_test rule witness.positive witness.negative lines g }
{
    match rule {
        Rule::Rup | Rule::Path => quiet_test(witness, lines, g),
        Rule::Pr => witness_test(witness, lines, g),
    }
}

// 13 where the line has no such root, or what the tests of its rule say.
#[tactic(auto, unfolding(crate::specs::WordSteps::word_line, crate::specs::WordSteps::quiet_line))]
fn line_test(scratch: &[u64], st: State, rule: Rule, root: EntryNo) -> Result<u64, u8>
    requires { (st.entries ≤ 4096) × (4096 ≤ length scratch.now) }
    ensures { (ms ss : List ℕ) → LineTested (state_of (words_lent ms ss scratch.now) st) rule root.0 result }
{
    let entries = st.entries;
    if !crate::entry::is_entry(entries, root) {
        return Err(13);
    }
    let g = crate::entry::entry_word(scratch, entries, root);
    root_test(rule, st.witness, st.lines, g)
}

// The first m members that are not struck, by place, at the front of `live`; and how many they are.
fn live_words(members: &[u64], struck: &[u8], m: usize, live: &mut [u64]) -> usize
    requires { (m ≤ length members.now) × (m ≤ length struck.now) × (m ≤ length live.old) }
    ensures { (result ≤ m) × (take result live.new ≡ unstruck (take m struck.now) (take m members.now)) }
{
    let mut count = 0;
    for i in 0..m {
        if struck[i] == 0 {
            live[count] = members[i];
            count += 1;
        }
    }
    count
}

// Judges the line by its rule over the live members; the entries are gone.
fn judge(live: &[u64], scratch: &mut [u64], rule: Rule, g: u64, witness: Literals) -> Judged
    requires { (length live.now ≤ 2048) × (4096 ≤ length scratch.old) × (g ≢ ones) }
    ensures line_says { LineSays result (line_by rule witness.positive witness.negative live.now g) }
    ensures rounds_bound { result.rounds ≤ 12288 }
{
    let m = live.len();
    match rule {
        Rule::Rup => truth_rules::rup(live, &mut scratch[..m], g),
        Rule::Path => truth_paths::path_line(live, &mut scratch[..m], g),
        Rule::Pr => {
            // Two parts of the scratch list cannot be lent at once.
            let mut second = [0u64; 2048];
            truth_rules::pr(live, &mut scratch[..m], &mut second[..m], g, witness)
        }
    }
}

// The state after a line that is shown.
fn with_line(st: State, rounds: u64, g: u64) -> State
    requires { (st.members ≤ 2048) × (st.lines ≤ 1024) × (st.rounds + rounds ≤ 1025 * 12288) }
    ensures { result ≡ state_with_line st rounds g }
{
    State {
        members: st.members + 1,
        entries: 0,
        witness: Literals {
            positive: 0,
            negative: 0,
        },
        lines: st.lines + 1,
        rounds: st.rounds + rounds,
        refuted: st.refuted || g == 0,
    }
}

// Judges the line over the members that are not struck.
fn judge_live(
    members: &[u64],
    struck: &[u8],
    scratch: &mut [u64],
    st: State,
    rule: Rule,
    g: u64,
) -> Judged
    requires { (st.members ≤ 2048) × (2048 ≤ length members.now) × (length struck.now ≡ length members.now)
        × (4096 ≤ length scratch.old) × (g ≢ ones) }
    ensures fact { let live = unstruck (take st.members struck.now) (take st.members members.now) in
        LineSays result (line_by rule st.witness.positive st.witness.negative live g) }
    ensures rounds_bound { result.rounds ≤ 12288 }
{
    let mut live = [0u64; 2048];
    let m = live_words(members, struck, st.members, &mut live);
    judge(&live[..m], scratch, rule, g, st.witness)
}

// The line is refused, or its root is the next member.
pub fn line_step(
    members: &mut [u64],
    struck: &mut [u8],
    scratch: &mut [u64],
    st: State,
    rule: Rule,
    root: EntryNo,
) -> Result<State, Stop>
    requires { Held 6 (words_lent members.old struck.old scratch.old) st }
    ensures { (n : ℕ) → (
        let lent = words_lent members.old struck.old scratch.old in
        let returned = words_lent members.new struck.new scratch.new in
        Held n lent st → Stepped n returned (word_line (state_of lent st) rule root.0) result) }
{
    let g = line_test(scratch, st, rule, root)?;
    let j = judge_live(members, struck, scratch, st, rule, g);
    if !j.shown {
        return Err(Stop::from(19));
    }
    let m = st.members;
    members[m] = g;
    struck[m] = 0;
    Ok(with_line(st, j.rounds, g))
}
