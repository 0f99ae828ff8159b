// The formula: its header, and its clauses one at a time; and its tokens, for texts that are parted likewise. (01, The formula)
#![tactic(auto)]

mod clauses;
mod header_line;
mod numbers;
mod text;

pub use clauses::{next_clause, open_clause, token_at};
pub use header_line::{is_letter, judged_line, read_header};
pub use text::{Class, past_class, skip_between};
use words::Literals;

// A variable's literal, positive or with a minus.
#[derive(Clone, Copy)]
pub struct Literal {
    pub variable: u8,
    pub positive: bool,
}

// Why a file is refused, and where. The number is one of those that 01 and 02 list: it stays a number, since the definition `verdict` and
// the calls of C give it as one.
#[derive(Clone, Copy)]
pub struct Refusal {
    pub number: u8,
    pub place: usize,
}

// The variables, the clauses and the end of the header's line.
#[derive(Clone, Copy)]
pub struct Header {
    pub variables: u8,
    pub clauses: usize,
    pub end: usize,
}

// The clause's literals, the place of its first token, and that behind the closing 0.
#[derive(Clone, Copy)]
pub struct ClosedClause {
    pub literals: Literals,
    pub first: usize,
    pub next: usize,
}
