// The order of a run's committed transactions, or the first finding of closed walks, by searching the edges in force.
#![tactic(auto)]

mod decision;
mod findings;
mod searching;
mod spans;

pub use decision::Decision;
pub use findings::decide;
