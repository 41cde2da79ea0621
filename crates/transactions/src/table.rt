// The parts of a transaction table.
ghost use Rattle.std.specs.Prelude.{◌≡◌, vec_len};

use events::{Level, Refusal};

mod calls;
mod lookups;

// How far a transaction has come.
#[derive(Clone, Copy, PartialEq, Eq, Debug)]
pub enum Stage {
    NotBegun,
    Running,
    Committed,
    Aborted,
}

// What is known of a transaction; what a stage has not come to is none or 0. A position is 0 where there is no such event, as in the rules, which compare positions
// as numbers: an `Option` would be taken apart wherever one is read.
#[derive(Clone, Copy, PartialEq, Eq, Debug)]
pub struct Entry {
    pub stage: Stage,
    pub level: Option<Level>,
    pub begin: u16,
    pub commit: u16,
}

// What is known of a transaction's writes of an item: how many, and the position of the last, 0 where there is none, as above.
#[derive(Clone, Copy, PartialEq, Eq, Debug)]
pub struct Modifications {
    pub made: u16,
    pub last: u16,
}

// An entry for each of 256 transactions, the modifications for each of them and each of 1,024 items, and how many events
// have entered. Which list of events it tracks is a premise of its promises: only a struct whose memory is proved by hand may hold a list
// in a ghost field.
#[derive(Drop)]
pub struct TransactionTable {
    entries: Vec<Entry>,
    modifications: Vec<Modifications>,
    count: u16,
    ghost long: { vec_len entries ≡ 256 },
    ghost wide: { vec_len modifications ≡ 262144 },
}

// The first event of a history that a question refuses after those before it, and that refusal.
#[derive(Clone, Copy, PartialEq, Eq, Debug)]
pub struct Unfit {
    pub position: u16,
    pub refusal: Refusal,
}
