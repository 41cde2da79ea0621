// The committed transactions of a run as vertices, numbered from 0 as they committed.
#![tactic(auto)]

mod numbering;

pub use numbering::Vertices;
