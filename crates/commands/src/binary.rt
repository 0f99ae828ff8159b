// Binary DRAT: the clause that stands next, added or struck out. (02, 9/14)
ghost use Rattle.std.specs.Prelude.{◌≡◌, ◌+◌, ◌-◌, ◌≤◌, ◌<◌, length, drop};
ghost use Rattle.dimacs.specs.Text.{past};
ghost use Rattle.dimacs.specs.Inner.{token_read, open_of};
ghost use Rattle.commands.specs.Commands.{groups_in, clause_read, binary_from, binary_read};
ghost use Rattle.commands.specs.Inner.{is_open_group, literal_coded, groups_read, fault_place, command_for, read_of};

use crate::{Command, DratClause, Read};
use dimacs::{ClosedClause, Literal, Refusal};
use words::Literals;

// What groups say, as a token does, or 6 where they are cut; and the place behind them.
#[derive(Clone, Copy)]
pub struct GroupsRead {
    pub token: Result<Option<Literal>, u8>,
    pub end: usize,
}

// The place of the last of the groups that begin at `at`; the length where they are cut.
fn last_group(s: &[u8], at: usize) -> usize
    requires { at ≤ length s.now }
    ensures value { result ≡ past is_open_group s.now at }
    ensures lower_bound { (at ≤ result) × (result ≤ length s.now) }
{
    for i in at..s.len() {
        if s[i] < 128 {
            return i;
        }
    }
    s.len()
}

// The literal of a number, in a formula of so many variables.
fn literal_of(number: u16, variables: u8) -> Result<Option<Literal>, u8>
    ensures { result ≡ token_read (literal_coded variables number) }
{
    let v = number / 2;
    if u16::from(variables) < v {
        return Err(4);
    }
    Ok(Some(Literal {
        variable: v as u8,
        positive: number % 2 == 0,
    }))
}

// The groups at `at`. Three groups whose last is not 0 make more than any variable's number.
pub fn groups_at(s: &[u8], at: usize, variables: u8) -> GroupsRead
    requires { (at ≤ length s.now) × (variables ≤ 64) }
    ensures { result ≡ groups_read variables at (groups_in (drop at s.now)) }
{
    let last = last_group(s, at);
    if last == s.len() {
        return GroupsRead {
            token: Err(6),
            end: at,
        };
    }
    let top = s[last];
    let end = last + 1;
    if last == at {
        if top == 0 {
            return GroupsRead {
                token: Ok(None),
                end,
            };
        }
        if top == 1 {
            return GroupsRead {
                token: Err(31),
                end,
            };
        }
        return GroupsRead {
            token: literal_of(top as u16, variables),
            end,
        };
    }
    if top == 0 {
        return GroupsRead {
            token: Err(31),
            end,
        };
    }
    if end - at == 2 {
        let number = ((s[at] - 128) as u16) + 128 * (top as u16);
        return GroupsRead {
            token: literal_of(number, variables),
            end,
        };
    }
    GroupsRead { token: Err(4), end }
}

// The place of a fault of form: 6 at the opening byte, the others at the literal.
pub fn fault_place(number: u8, first: usize, at: usize) -> usize
    ensures { result ≡ fault_place number first at }
{
    if number == 6 {
        return first;
    }
    at
}

// The clause of the literals from `from` on, up to its zero byte; `first` is its opening byte.
fn open_groups(s: &[u8], first: usize, from: usize, variables: u8) -> Result<ClosedClause, Refusal>
    requires { (from ≤ length s.now) × (variables ≤ 64) }
    ensures { result ≡ open_of (binary_from s.now variables (length s.now - from) first from) }
{
    let mut literals = Literals {
        positive: 0,
        negative: 0,
    };
    let mut at = from;
    while at < s.len() {
        let groups = groups_at(s, at, variables);
        let end = groups.end;
        let token = groups.token;
        match token {
            Ok(None) => {
                return Ok(ClosedClause {
                    literals,
                    first,
                    next: end,
                });
            }
            Err(number) => {
                return Err(Refusal {
                    number,
                    place: fault_place(number, first, at),
                });
            }
            Ok(Some(l)) => {
                literals = words::with_literal(literals, l.variable, l.positive);
                at = end;
            }
        }
    }
    Err(Refusal {
        number: 6,
        place: first,
    })
}

// The command whose opening byte is at `at`.
fn clause_in(s: &[u8], at: usize, variables: u8, strikes: bool) -> Result<Read, Refusal>
    requires { (at < length s.now) × (variables ≤ 64) }
    ensures { let next = binary_from s.now variables (length s.now - (at + 1)) at (at + 1) in
        result ≡ read_of at (clause_read (λ end. end) at (command_for strikes) next) }
{
    let closed = open_groups(s, at, at + 1, variables)?;
    let literals = closed.literals;
    let groups = groups_at(s, at + 1, variables);
    let pivot = groups.token.unwrap_or(None);
    let clause = DratClause { literals, pivot };
    Ok(Read {
        command: crate::clause_command(strikes, clause),
        next: closed.next,
    })
}

// The command of a binary proof whose first byte is at `at`. 97 is `61`, 100 is `64`.
pub fn binary_at(s: &[u8], at: usize, variables: u8) -> Result<Read, Refusal>
    requires { (at ≤ length s.now) × (variables ≤ 64) }
    ensures { result ≡ read_of at (binary_read s.now variables at) }
{
    if at < s.len() {
        let kind = s[at];
        if kind == 97 {
            return clause_in(s, at, variables, false);
        }
        if kind == 100 {
            return clause_in(s, at, variables, true);
        }
        return Err(Refusal {
            number: 9,
            place: at,
        });
    }
    Ok(Read {
        command: Command::Finished,
        next: at,
    })
}
