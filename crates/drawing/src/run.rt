// The drawing of a run: its events one after another, each with the edges that it draws.
ghost use Rattle.std.specs.Prelude.{◌≡◌, ◌≤◌, List, [], length, drop};
ghost use Rattle.events.specs.declared.Event.{Event as AnEvent};
ghost use Rattle.events.specs.Questions.{unfit_at};
ghost use Rattle.transactions.specs.Tracks.{Tracks};
ghost use Rattle.verdicts.specs.Versions.{committed};
ghost use Rattle.verdicts.specs.Tables.{Drawn};
ghost use Rattle.drawing.specs.Drawable.{Drawable};
ghost use Rattle.drawing.specs.EdgeSets.{EdgeSet, Shows, drawing};

use crate::edges::Drawing;
use history::History;
use kind_table::clear;
use transactions::TransactionTable;
use versions::VersionOrder;
use vertices::Vertices;

// Draws the edges in force of a run into bytes that held anything: byte 256 * tail + head gets the sum of the kinds from the
// transaction of vertex tail to that of vertex head, and every other of the first 65,536 bytes 0. The table tracks the run,
// and the vertices are its committed transactions.
pub fn draw<H: History, O: VersionOrder>(
    history: &H,
    table: &TransactionTable,
    vertices: &Vertices,
    order: &O,
    bytes: &mut [u8],
)
    ensures drawn { Tracks table.now (H.events history.now) → vertices.now ≡ committed (H.events history.now) → unfit_at [] (H.events history.now) ≡ 0 → 65536 ≤ length bytes.old → Drawn (O.ranks order.now) (H.events history.now) bytes.old bytes.new }
    ensures later { drop 65536 bytes.new ≡ drop 65536 bytes.old }
{
    let drawing = Drawing::of(table, vertices, order);
    let end = bytes.len().min(65536);
    let (pairs, _) = bytes.split_at_mut(end);
    clear(pairs);
    for event in history.iter() {
        drawing.draw_event(event, pairs);
    }
}
