// The transaction table: what a run says of each transaction and item, kept up in constant time an event.
#![tactic(auto)]

mod table;

pub use table::{Entry, Modifications, Stage, TransactionTable, Unfit};
