// Whether a list of nodes conflicts: a member is 0 or the negation of another.
#![tactic(auto)]

ghost use Rattle.std.specs.Prelude.{◌≡◌, List, ℕ, ◌≤◌, ◌<◌, length};
ghost use Rattle.meaning.specs.Rules as rules;
ghost use Rattle.table.specs.Indexed.{table_of, nodes_of, Good};
ghost use Rattle.conflict.specs.Members.{some_negated, asks, Asked, NegationsAsked, NegationSays, NextSays, Marked, AskedThin};
ghost use Rattle.walks.specs.Readable.{Readable, nodes_in, ListReady};
ghost use Rattle.table.specs.Lists.{diagrams_of, Inside};
ghost use Rattle.conflict.specs.Marks.{is_listed, unmarked, set_all, marked_at, FoundInside};

use table::{Found, NodeNo};

// Whether node 0 is listed.
pub fn has_zero(list: &[u16]) -> bool
    ensures { result ≡ is_listed list.now 0 }
{
    let mut i: usize = 0;
    while i < list.len() {
        if list[i] == 0 {
            return true;
        }
        i += 1;
    }
    false
}

// Sets the mark of each listed place.
fn set_all(marks: &mut [u8], list: &[u16], mark: u8)
    requires { Inside (length marks.old) list.now }
    ensures { marks.new ≡ set_all mark marks.old list.now }
{
    let mut i: usize = 0;
    while i < list.len() {
        let k = list[i] as usize;
        marks[k] = mark;
        i += 1;
    }
}

// Whether a place was found and is marked.
fn is_marked(marks: &[u8], found: Found) -> bool
    requires { FoundInside (length marks.now) found }
    ensures { result ≡ marked_at marks.now found }
{
    match found {
        Found::At(node) => {
            let k = node.0 as usize;
            marks[k] == 1
        }
        Found::Nothing => false,
    }
}

// Whether a node is asked for its negation. Where all members may be asked, those that are 0 where all variables are false are enough, for
// of two that are each other's negations one is.
fn is_asked(vars: &[u8], lows: &[u16], highs: &[u16], count: usize, f: NodeNo, all: bool) -> bool
    requires { Readable vars.now lows.now highs.now count × (f.0 < count) }
    ensures { result ≡ asks (nodes_in vars.now lows.now highs.now count) f.0 all }
{
    if all {
        return !walks::value_of(vars, lows, highs, count, f, 0);
    }
    true
}

// What is found of a node's negation without a memo: none that a list without 0 can have; a node; or nothing is known.
#[derive(Clone, Copy)]
enum Negation {
    Unlisted,
    At(NodeNo),
    Unknown,
}

fn negation_of(
    vars: &[u8],
    lows: &[u16],
    highs: &[u16],
    heads: &[u16],
    links: &[u16],
    count: usize,
    f: NodeNo,
) -> Negation
    requires { Good (table_of vars.now lows.now highs.now heads.now links.now count) × (f.0 < count) }
    ensures { let before = table_of vars.now lows.now highs.now heads.now links.now count in
        NegationSays before f.0 result }
{
    let r = negate::negation_thin(vars, lows, highs, heads, links, count, f);
    if !r.known {
        return Negation::Unknown;
    }
    let at = r.at;
    match at {
        Found::At(k) => {
            if k.0 == 0 {
                return Negation::Unlisted;
            }
            Negation::At(k)
        }
        Found::Nothing => Negation::Unlisted,
    }
}

// A place of the asked, or their number; and where it is `found` the node that is the negation of the one there.
#[derive(Clone, Copy)]
struct NextNegation {
    place: usize,
    found: bool,
    node: NodeNo,
}

// The first place from `from` on whose negation is a node other than 0, or has to be looked for with a memo.
fn next_negation(
    vars: &[u8],
    lows: &[u16],
    highs: &[u16],
    heads: &[u16],
    links: &[u16],
    asked: &[u16],
    count: usize,
    all: bool,
    from: usize,
) -> NextNegation
    requires { Good (table_of vars.now lows.now highs.now heads.now links.now count)
        × Inside count asked.now
        × (from ≤ length asked.now) }
    ensures { let before = table_of vars.now lows.now highs.now heads.now links.now count in
        NextSays before asked.now all from result }
{
    let mut i = from;
    while i < asked.len() {
        let f = NodeNo(asked[i]);
        if is_asked(vars, lows, highs, count, f, all) {
            match negation_of(vars, lows, highs, heads, links, count, f) {
                Negation::Unlisted => {
                    i += 1;
                }
                Negation::At(k) => {
                    return NextNegation {
                        place: i,
                        found: true,
                        node: k,
                    };
                }
                Negation::Unknown => {
                    return NextNegation {
                        place: i,
                        found: false,
                        node: f,
                    };
                }
            }
        } else {
            i += 1;
        }
    }
    NextNegation {
        place: i,
        found: false,
        node: NodeNo(0),
    }
}

// What asking members for their negations without a memo comes to: a conflict, or none up to a place.
#[derive(Clone, Copy)]
enum Asking {
    Conflict,
    UpTo(usize),
}

// Asks in order, from a place before which none has its negation listed, up to the first whose negation has to be looked for with a
// memo. The members of a list are marked; the other arguments are those of `conflicts`.
fn thin_negated(
    vars: &[u8],
    lows: &[u16],
    highs: &[u16],
    heads: &[u16],
    links: &[u16],
    marks: &[u8],
    asked: &[u16],
    count: usize,
    all: bool,
    from: usize,
) -> Asking
    requires { let before = table_of vars.now lows.now highs.now heads.now links.now count in
        Good before × Inside count asked.now × (from ≤ length asked.now) × (length marks.now ≡ length vars.now) }
    ensures { (list : List ℕ) →
        let before = table_of vars.now lows.now highs.now heads.now links.now count in
        Marked before list asked.now marks.now all →
        NegationsAsked (nodes_of before) list asked.now all from →
        AskedThin (nodes_of before) list asked.now all result }
{
    let mut i = from;
    while i < asked.len() {
        let next = next_negation(vars, lows, highs, heads, links, asked, count, all, i);
        if !next.found {
            return Asking::UpTo(next.place);
        }
        let node = next.node;
        let k = node.0 as usize;
        if marks[k] == 1 {
            return Asking::Conflict;
        }
        i = next.place + 1;
    }
    Asking::UpTo(i)
}

// The same with a memo, cleared first: whether the negation of a member is marked.
fn rest_negated(
    vars: &[u8],
    lows: &[u16],
    highs: &[u16],
    heads: &[u16],
    links: &[u16],
    memo: &mut [u64],
    marks: &[u8],
    asked: &[u16],
    count: usize,
    all: bool,
    from: usize,
) -> bool
    requires { let before = table_of vars.now lows.now highs.now heads.now links.now count in
        ListReady before asked.now memo.old × (from ≤ length asked.now) × (length marks.now ≡ length vars.now) }
    ensures { (list : List ℕ) →
        let before = table_of vars.now lows.now highs.now heads.now links.now count in
        Marked before list asked.now marks.now all →
        NegationsAsked (nodes_of before) list asked.now all from →
        result ≡ some_negated (diagrams_of (nodes_of before) list) }
{
    walks::clear_cells(memo, count);
    let mut i = from;
    while i < asked.len() {
        let f = NodeNo(asked[i]);
        if is_asked(vars, lows, highs, count, f, all) {
            let r = negate::negation_from(vars, lows, highs, heads, links, memo, count, f);
            if is_marked(marks, r) {
                return true;
            }
        }
        i += 1;
    }
    false
}

// Whether the negation of a member is marked: with a memo only from the first asked that wants one.
fn some_negated(
    vars: &[u8],
    lows: &[u16],
    highs: &[u16],
    heads: &[u16],
    links: &[u16],
    memo: &mut [u64],
    marks: &[u8],
    asked: &[u16],
    count: usize,
    all: bool,
    from: usize,
) -> bool
    requires { let before = table_of vars.now lows.now highs.now heads.now links.now count in
        ListReady before asked.now memo.old × (from ≤ length asked.now) × (length marks.now ≡ length vars.now) }
    ensures { (list : List ℕ) →
        let before = table_of vars.now lows.now highs.now heads.now links.now count in
        Marked before list asked.now marks.now all →
        NegationsAsked (nodes_of before) list asked.now all from →
        result ≡ some_negated (diagrams_of (nodes_of before) list) }
{
    match thin_negated(
        vars, lows, highs, heads, links, marks, asked, count, all, from,
    ) {
        Asking::Conflict => true,
        Asking::UpTo(place) => {
            if asked.len() <= place {
                return false;
            }
            rest_negated(
                vars, lows, highs, heads, links, memo, marks, asked, count, all, place,
            )
        }
    }
}

// Whether a member is 0 or the negation of another. Only the nodes of `asked` are asked, which are enough of the members, or `all`. The
// members are marked, and unmarked again, only where the negation of one that is asked is a node, or may be.
pub fn conflicts(
    vars: &[u8],
    lows: &[u16],
    highs: &[u16],
    heads: &[u16],
    links: &[u16],
    memo: &mut [u64],
    marks: &mut [u8],
    list: &[u16],
    asked: &[u16],
    count: usize,
    all: bool,
) -> bool
    requires fact { let before = table_of vars.now lows.now highs.now heads.now links.now count in
        ListReady before list.now memo.old × (marks.old ≡ unmarked (length vars.now)) }
    requires fact_2 { let before = table_of vars.now lows.now highs.now heads.now links.now count in
        Asked (nodes_of before) list.now asked.now all }
    ensures result_value { let before = table_of vars.now lows.now highs.now heads.now links.now count in
        result ≡ rules.conflicts 64 (diagrams_of (nodes_of before) list.now) }
    ensures marks_after { marks.new ≡ unmarked (length vars.now) }
{
    if has_zero(asked) {
        return true;
    }
    let next = next_negation(vars, lows, highs, heads, links, asked, count, all, 0);
    if asked.len() <= next.place {
        return false;
    }
    set_all(marks, list, 1);
    let r = some_negated(
        vars, lows, highs, heads, links, memo, marks, asked, count, all, next.place,
    );
    set_all(marks, list, 0);
    r
}
