// Searches of a run's edges in force.
ghost use Rattle.std.specs.Prelude.{◌≡◌, ℕ, ◌≤◌, Bool, true, List, [], length, take, drop};
ghost use Rattle.events.specs.declared.Event.{Event as AnEvent};
ghost use Rattle.events.specs.Questions.{unfit_at};
ghost use Rattle.graph.specs.declared.Kind.{Kind as AKind};
ghost use Rattle.graph.specs.Edges.{joined, filtered, tabled};
ghost use Rattle.search.specs.Answer.{Filled};
ghost use Rattle.transactions.specs.Tracks.{Tracks};
ghost use Rattle.verdicts.specs.Versions.{committed};
ghost use Rattle.verdicts.specs.Edges.{every_kind};
ghost use Rattle.verdicts.specs.Tables.{ShowsKinds};
ghost use Rattle.vertex_laws.specs.Vertices.{named};
ghost use Rattle.vertex_laws.specs.Laws.{ShowsEdges};
ghost use Rattle.deciding.specs.Searches.{Searched, found_count};

use crate::spans::spans_of;
use graph::{Filter, Graph, Starts, Table, Union};
use search::Found;
use transactions::TransactionTable;
use vertices::Vertices;

// The edges in force of a run: the table that tracks it, the vertices that are its committed transactions, and the bytes that
// show its kinds.
#[derive(Clone, Copy)]
pub(crate) struct Edges<'a> {
    pub(crate) table: &'a TransactionTable,
    pub(crate) vertices: &'a Vertices,
    pub(crate) bytes: &'a [u8],
}

// Searches any graph. A search fills the front of a lent report; an array of 256 has room for every vertex.
fn search_in<G: Graph>(graph: &G, found: &mut [u16; 256]) -> Found
    ensures { Filled (G.Graph.vertices graph.now) (joined (G.Graph.edges graph.now)) found.old found.new result }
{
    match search::find(graph, found) {
        Ok(answer) => answer,
        Err(_) => unreachable(),
    }
}

impl<'a> Edges<'a> {
    // Searches along kinds of the table, by a set of bits that shows the edges of these kinds.
    pub(crate) fn search_kinds(&self, set: u8, found: &mut [u16; 256]) -> Found
        ensures few { found_count result ≤ 256 }
        ensures searched { (rank : ℕ → ℕ → ℕ) (es : List AnEvent) (real_time : Bool) (kinds : List AKind) → self.now.vertices.now ≡ committed es → unfit_at [] es ≡ 0 → ShowsEdges rank es real_time kinds (length (committed es)) (joined (filtered (tabled (length (committed es)) self.now.bytes.now) set)) → Searched rank es real_time kinds found.new result }
    {
        let graph = self.kinds();
        search_in(&Filter { graph, kinds: set }, found)
    }

    // Searches along all kinds, with real time on: those of the table and the start edges.
    pub(crate) fn search_all(&self, found: &mut [u16; 256]) -> Found
        ensures few { found_count result ≤ 256 }
        ensures searched { (rank : ℕ → ℕ → ℕ) (es : List AnEvent) → Tracks self.now.table.now es → self.now.vertices.now ≡ committed es → unfit_at [] es ≡ 0 → ShowsKinds rank es self.now.bytes.now → Searched rank es true every_kind found.new result }
    {
        let spans = spans_of(self.table, self.vertices);
        let graph = Union {
            first: self.kinds(),
            second: Starts {
                spans: spans.as_slice(),
            },
        };
        search_in(&graph, found)
    }

    // The edges of the table.
    fn kinds(&self) -> Table<'a>
        ensures bytes { result.bytes.now ≡ self.now.bytes.now }
        ensures all { result.size ≡ length self.now.vertices.now }
        ensures few { result.size ≤ 256 }
    {
        Table {
            bytes: self.bytes,
            size: self.vertices.count() as usize,
        }
    }
}

// Writes to the front of a report which transactions the first so many vertices of a list are. By place: of what is written
// through a zip of iter_mut, a proof knows nothing.
pub(crate) fn write_names(vertices: &Vertices, found: &[u16; 256], count: usize, report: &mut [u16])
    requires { (count ≤ 256) × (256 ≤ length report.old) }
    ensures names { take count report.new ≡ named vertices.now (take count found.now) }
    ensures later { drop count report.new ≡ drop count report.old }
{
    for place in 0..count {
        report[place] = vertices.transaction(found[place]);
    }
}
