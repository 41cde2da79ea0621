// Reads one line of a listing: its event, or the column of the first byte that continues none of the five forms.
#![tactic(auto)]

mod field;
mod part;

pub use field::line::read_line;
