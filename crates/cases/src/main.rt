// Document 01's examples through the face: a line for each, its label and then the numbers that came.
#![tactic(auto)]

mod checks;
mod singles;

use std::io;

fn main(rt: HostRuntime) -> io::Result<()> {
    checks::cases_a_to_c(&rt)?;
    checks::cases_d_to_f(&rt)?;
    singles::case_g(&rt)?;
    checks::cases_i_and_j(&rt)?;
    checks::formulas(&rt)?;
    checks::one_place(&rt)?;
    checks::two_places(&rt)?;
    checks::records(&rt)?;
    checks::witnesses_and_ends(&rt)?;
    checks::too_many_entries(&rt)?;
    checks::too_many_lines(&rt)?;
    checks::three_places(&rt)?;
    singles::wrong_size(&rt)?;
    singles::not_in_order(&rt)?;
    singles::wrong_operands(&rt)?;
    singles::full(&rt)
}
