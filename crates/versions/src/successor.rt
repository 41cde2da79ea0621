// The versions of a run's items, one after another. The table tracks the run.
ghost use Rattle.std.specs.Prelude.{◌≡◌, List};
ghost use Rattle.events.specs.declared.Event.{Event as AnEvent};
ghost use Rattle.transactions.specs.Tracks.{Tracks};
ghost use Rattle.verdicts.specs.Versions.{committed as committed_in, has_version, is_ordered, rank_of, after};
ghost use Rattle.versions.specs.Successors.{Successor, lesser};

use crate::order::VersionOrder;
use transactions::TransactionTable;

// The rank of a writer's version of an item.
fn rank_of<O: VersionOrder>(table: &TransactionTable, order: &O, item: u16, writer: u16) -> u32
    ensures { (es : List AnEvent) → Tracks table.now es → result ≡ rank_of (O.ranks order.now) es item writer }
{
    order.rank(
        table.writes(writer, item).last,
        table.transaction(writer).commit,
    )
}

// Whether a writer's versions stand in the order of versions: it has committed, or it is 0, the writer of the initial ones.
pub fn is_ordered(table: &TransactionTable, writer: u16) -> bool
    ensures { (es : List AnEvent) → Tracks table.now es → result ≡ is_ordered es writer }
{
    writer == 0 || table.transaction(writer).has_committed()
}

// Whether a transaction has a version of an item.
fn has_version(table: &TransactionTable, item: u16, transaction: u16) -> bool
    ensures { (es : List AnEvent) → Tracks table.now es → result ≡ has_version es item transaction }
{
    table.transaction(transaction).has_committed() && table.writes(transaction, item).made > 0
}

// Whether a transaction has a version of an item that comes after the writer's.
pub fn comes_after<O: VersionOrder>(
    table: &TransactionTable,
    order: &O,
    item: u16,
    writer: u16,
    transaction: u16,
) -> bool
    ensures { (es : List AnEvent) → Tracks table.now es → result ≡ after (O.ranks order.now) es item writer transaction }
{
    if !has_version(table, item, transaction) {
        return false;
    }
    writer == 0 || rank_of(table, order, item, writer) < rank_of(table, order, item, transaction)
}

// The one of lesser rank: the least so far, or a transaction with its rank.
fn lesser_of(least: Option<(u16, u32)>, transaction: u16, rank: u32) -> Option<(u16, u32)>
    ensures { result ≡ lesser least transaction rank }
{
    match least {
        Some((_, low)) if low <= rank => least,
        _ => Some((transaction, rank)),
    }
}

// The versions of a run's items in a version order. The table tracks the run, and its committed transactions are listed.
#[derive(Clone, Copy)]
pub struct Versions<'a, O> {
    pub table: &'a TransactionTable,
    pub committed: &'a [u16],
    pub order: &'a O,
}

impl<'a, O: VersionOrder> Versions<'a, O> {
    // Whether a writer's versions stand in the order of versions.
    pub fn is_ordered(&self, writer: u16) -> bool
        ensures { (es : List AnEvent) → Tracks self.now.table.now es → result ≡ is_ordered es writer }
    {
        is_ordered(self.table, writer)
    }

    // Whether a transaction has a version of an item that comes after the writer's.
    pub fn comes_after(&self, item: u16, writer: u16, transaction: u16) -> bool
        ensures { (es : List AnEvent) → Tracks self.now.table.now es → result ≡ after (O.ranks self.now.order.now) es item writer transaction }
    {
        comes_after(self.table, self.order, item, writer, transaction)
    }

    // The next version of an item after the writer's, as its writer and the number of that one's last modification; none
    // after the last version.
    pub fn next(&self, item: u16, writer: u16) -> Option<(u16, u16)>
        ensures { (es : List AnEvent) → Tracks self.now.table.now es → self.now.committed.now ≡ committed_in es → Successor (O.ranks self.now.order.now) es item writer result }
    {
        let mut least = None;
        for transaction in self.committed {
            if self.comes_after(item, writer, *transaction) {
                let rank = rank_of(self.table, self.order, item, *transaction);
                least = lesser_of(least, *transaction, rank);
            }
        }
        let (next, _) = least?;
        Some((next, self.table.writes(next, item).made))
    }
}
