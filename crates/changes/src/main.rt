// Document 02's examples through the face, in the order in which its requests landed: a line for each, its label and then the numbers that
// came.
#![tactic(auto)]

mod comments;
mod indexes;
mod orders;
mod set_lines;
mod strikes;
mod texts;

use std::io;

fn main(rt: HostRuntime) -> io::Result<()> {
    comments::everywhere(&rt)?;
    comments::whole_line(&rt)?;
    comments::tokens(&rt)?;
    comments::places(&rt)?;
    strikes::refused(&rt)?;
    strikes::case_a(&rt)?;
    strikes::others(&rt)?;
    strikes::no_proof(&rt)?;
    strikes::too_few_marks(&rt)?;
    orders::rounds(&rt)?;
    orders::little_room(&rt)?;
    orders::pr_with_more(&rt)?;
    indexes::wrong_heads(&rt)?;
    indexes::wrong_links(&rt)?;
    indexes::single_calls(&rt)?;
    indexes::checked(&rt)?;
    set_lines::parities(&rt)?;
    set_lines::at_leasts(&rt)?;
    set_lines::five_places(&rt)?;
    set_lines::single_calls(&rt)?;
    texts::accepted(&rt)?;
    texts::refused(&rt)?;
    texts::in_formula(&rt)?;
    texts::five_places(&rt)
}
