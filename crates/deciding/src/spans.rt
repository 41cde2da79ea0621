// Where the transaction of each vertex began and committed.
ghost use Rattle.std.specs.Prelude.{◌≡◌, List};
ghost use Rattle.events.specs.declared.Event.{Event as AnEvent};
ghost use Rattle.graph.specs.Starts.{begins_of, ends_of};
ghost use Rattle.transactions.specs.Tracks.{Tracks};
ghost use Rattle.verdicts.specs.Versions.{committed};
ghost use Rattle.vertex_laws.specs.Laws.{Spans};

use arrayvec::ArrayVec;
use graph::Span;
use transactions::TransactionTable;
use vertices::Vertices;

// The positions of all begins and commits, by vertex.
pub(crate) fn spans_of(table: &TransactionTable, vertices: &Vertices) -> ArrayVec<Span, 256>
    ensures { (es : List AnEvent) → Tracks table.now es → vertices.now ≡ committed es → Spans es (begins_of result.items) (ends_of result.items) }
{
    let mut spans = ArrayVec::new();
    for transaction in vertices.transactions() {
        let entry = table.transaction(*transaction);
        spans.push(Span {
            begin: entry.begin,
            end: entry.commit,
        });
    }
    spans
}
