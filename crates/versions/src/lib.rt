// Version orders, and the next version of an item.
#![tactic(auto)]

mod order;
mod successor;

pub use order::{Rule, VersionOrder};
pub use successor::{Versions, comes_after, is_ordered};
