// The edges in force of a run, drawn into a lent table of bytes.
#![tactic(auto)]

mod edges;
mod levels;
mod run;

pub use run::draw;
