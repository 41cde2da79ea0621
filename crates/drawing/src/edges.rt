// The edges of a write and of a read.
ghost use Rattle.std.specs.Prelude.{◌≡◌, ℕ, ◌≤◌, List, [], length, drop};
ghost use Rattle.events.specs.declared.Event.{Event as AnEvent};
ghost use Rattle.events.specs.declared.Event.TheVariants.{Write, Read};
ghost use Rattle.events.specs.Questions.{unfit_at};
ghost use Rattle.graph.specs.declared.Kind.TheVariants.{Ww, Wr, Rw};
ghost use Rattle.verdicts.specs.Versions.{committed};
ghost use Rattle.drawing.specs.Drawable.{Drawable};
ghost use Rattle.drawing.specs.EdgeSets.{EdgeSet, Shows, adding, edge, draws, drawing};

use crate::levels::{above_pl1, at_pl3};
use events::Event;
use graph::Kind;
use kind_table::add;
use transactions::TransactionTable;
use versions::{VersionOrder, Versions};
use vertices::Vertices;

// What edges are drawn from: the versions of a run's items, and the vertices that its committed transactions are.
#[derive(Drop)]
pub struct Drawing<'a, O> {
    versions: Versions<'a, O>,
    vertices: &'a Vertices,
    ghost listed: { versions.committed.now ≡ vertices.now },
}

impl<'a, O: VersionOrder> Drawing<'a, O> {
    // From a table that tracks the run, and the vertices that are its committed transactions.
    pub fn of(table: &'a TransactionTable, vertices: &'a Vertices, order: &'a O) -> Drawing<'a, O>
        ensures { (result.versions.table.now ≡ table.now) × (result.vertices.now ≡ vertices.now) × (result.versions.order.now ≡ order.now) }
    {
        let versions = Versions {
            table,
            committed: vertices.transactions(),
            order,
        };
        Drawing { versions, vertices }
    }

    // Draws an edge; none where its ends are one transaction, or one of them has not committed.
    fn join(&self, tail: u16, head: u16, kind: Kind, bytes: &mut [u8])
        ensures { (es : List AnEvent) (set : EdgeSet) → self.now.vertices.now ≡ committed es → unfit_at [] es ≡ 0 → 65536 ≤ length bytes.old → Shows es set bytes.old → Shows es (adding kind (edge tail head) set) bytes.new }
    {
        if tail == head {
            return;
        }
        let Some(from) = self.vertices.vertex(tail) else {
            return;
        };
        let Some(to) = self.vertices.vertex(head) else {
            return;
        };
        add(bytes, from, to, kind);
    }

    // Draws the ww edge of a write: to the writer of the next version.
    fn draw_ww(&self, transaction: u16, item: u16, bytes: &mut [u8])
        ensures { (es : List AnEvent) (set : EdgeSet) → Drawable self.now.versions.table.now self.now.vertices.now es bytes.old → Shows es set bytes.old → Shows es (adding Ww (draws (O.ranks self.now.versions.order.now) es Ww (Write transaction item)) set) bytes.new }
    {
        if let Some((next, _)) = self.versions.next(item, transaction) {
            self.join(transaction, next, Kind::Ww, bytes);
        }
    }

    // Draws the wr edge of a read: from the writer of the version, where the reader is above PL-1.
    fn draw_wr(&self, reader: u16, writer: u16, bytes: &mut [u8])
        ensures { (es : List AnEvent) (set : EdgeSet) → Drawable self.now.versions.table.now self.now.vertices.now es bytes.old → (rank : ℕ → ℕ → ℕ) (x n : ℕ) → Shows es set bytes.old → Shows es (adding Wr (draws rank es Wr (Read reader x (writer, n))) set) bytes.new }
    {
        if above_pl1(self.versions.table, reader) {
            self.join(writer, reader, Kind::Wr, bytes);
        }
    }

    // Draws the rw edge of a read: to the writer of the next version, where the reader is at PL-3.
    fn draw_rw(&self, reader: u16, item: u16, writer: u16, bytes: &mut [u8])
        ensures { (es : List AnEvent) (set : EdgeSet) → Drawable self.now.versions.table.now self.now.vertices.now es bytes.old → (n : ℕ) → Shows es set bytes.old → Shows es (adding Rw (draws (O.ranks self.now.versions.order.now) es Rw (Read reader item (writer, n))) set) bytes.new }
    {
        if !at_pl3(self.versions.table, reader) || !self.versions.is_ordered(writer) {
            return;
        }
        if let Some((next, _)) = self.versions.next(item, writer) {
            self.join(reader, next, Kind::Rw, bytes);
        }
    }

    // Draws the edges in force of an event; none where its transaction has not committed.
    pub fn draw_event(&self, event: Event, bytes: &mut [u8])
        ensures { (es : List AnEvent) (set : EdgeSet) → Drawable self.now.versions.table.now self.now.vertices.now es bytes.old → Shows es set bytes.old → Shows es (drawing (O.ranks self.now.versions.order.now) es event set) bytes.new }
    {
        if !self
            .versions
            .table
            .transaction(event.transaction())
            .has_committed()
        {
            return;
        }
        match event {
            Event::Write { transaction, item } => self.draw_ww(transaction, item, bytes),
            Event::Read {
                transaction,
                item,
                version: (writer, _),
            } => {
                self.draw_wr(transaction, writer, bytes);
                self.draw_rw(transaction, item, writer, bytes);
            }
            _ => {}
        }
    }
}
