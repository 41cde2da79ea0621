// What a transaction table says of a transaction and of its writes, as the events that it tracks have it.
ghost use Rattle.std.specs.Prelude.{◌≡◌, List};
ghost use Rattle.events.specs.declared.Event.{Event as AnEvent};
ghost use Rattle.events.specs.Numbers.{code_or0};
ghost use Rattle.events.specs.Runs.{has_committed, level as level_at, begin_at, commit_at, modifications as modifications_of, last_write};
ghost use Rattle.transactions.specs.Entries.{committed_in};
ghost use Rattle.transactions.specs.Tracks.{Tracks};

use super::{Entry, Modifications, Stage, TransactionTable};

impl Entry {
    // Whether the transaction has committed.
    pub fn has_committed(self) -> bool
        ensures { result ≡ committed_in self.stage }
    {
        self.stage == Stage::Committed
    }
}

impl TransactionTable {
    // What is known of a transaction; of one that has not begun, and of a number that is none, that it has not begun.
    pub fn transaction(&self, transaction: u16) -> Entry
        ensures stage { (es : List AnEvent) → Tracks self.now es → committed_in result.stage ≡ has_committed es transaction }
        ensures level { (es : List AnEvent) → Tracks self.now es → code_or0 result.level ≡ level_at es transaction }
        ensures begin { (es : List AnEvent) → Tracks self.now es → result.begin ≡ begin_at es transaction }
        ensures commit { (es : List AnEvent) → Tracks self.now es → result.commit ≡ commit_at es transaction }
    {
        self.entry(transaction)
    }

    // What is known of a transaction's writes of an item; none where a number is no transaction's or no item's.
    pub fn writes(&self, transaction: u16, item: u16) -> Modifications
        ensures made { (es : List AnEvent) → Tracks self.now es → result.made ≡ modifications_of es transaction item }
        ensures last { (es : List AnEvent) → Tracks self.now es → result.last ≡ last_write es transaction item }
    {
        self.modifications(transaction, item)
    }
}
