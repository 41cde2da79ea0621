// Listings: a text read into a recorder line by line, and any history written as one.
#![tactic(auto)]

mod fault;
mod reading;
mod writing;

pub use fault::{Fault, Layer, LineFault, WriteFault};
pub use reading::read_listing;
pub use writing::write_listing;
