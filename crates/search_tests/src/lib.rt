// What code above the search looks like, over any graphs and over a graph of another make, and the tests of the search.
#![tactic(auto)]

ghost use Rattle.std.specs.Prelude.{◌≡◌, ℕ, max, true, List, Decides, ◌≢◌};
ghost use Rattle.graph.specs.Edges.{joined, filtered, united};
ghost use Rattle.graph.specs.Starts.{begun, starts, starts_well};
ghost use Rattle.search.specs.Answer.{Answer};
ghost use Rattle.search.specs.Walks.{closed};

use graph::{Filter, Graph, Kind, Union};
use search::{Found, Short};

#[cfg(test)]
mod tests;

// An example of a user's own graph, which the search takes as it takes those of `graph`. From a tail that ended before a head began goes an
// edge of kind start. There are as many vertices as both lists tell of, at most 256.
#[derive(Clone, Copy)]
pub struct Starts<'a> {
    pub begins: &'a [u16],
    pub ends: &'a [u16],
}

impl<'a> Graph for Starts<'a> {
    ghost vertices = { λ s. begun s.begins.now s.ends.now };

    ghost edges = { λ s. starts s.begins.now s.ends.now };

    ghost well = { λ s. starts_well s.begins.now s.ends.now };

    fn size(&self) -> usize {
        self.begins.len().min(self.ends.len()).min(256)
    }

    fn kinds(&self, tail: usize, head: usize) -> u8 {
        let size = self.size();
        let may_join = tail < size && head < size && tail != head;
        if may_join && self.ends[tail] < self.begins[head] {
            Kind::Start.bit()
        } else {
            0
        }
    }
}

// The search over a filter of a union, of which both graphs come back.
pub fn find_in_both<A: Graph, B: Graph>(
    first: A,
    second: B,
    kinds: u8,
    report: &mut [u16],
) -> (Result<Found, Short>, A, B)
    ensures found { Answer (max (A.Graph.vertices first) (B.Graph.vertices second)) (joined (filtered (united (A.Graph.edges first) (B.Graph.edges second)) kinds)) report.old report.new result.0 }
    ensures back { (result.1 ≡ first) × (result.2 ≡ second) }
{
    let both = Filter {
        graph: Union { first, second },
        kinds,
    };
    let found = search::find(&both, report);
    let (union, _) = both.into_parts();
    let (first, second) = union.into_parts();
    (found, first, second)
}

// Whether no walk of a graph is closed.
pub fn is_acyclic<G: Graph>(graph: &G) -> bool
    ensures { Decides result ((ws : List ℕ) → closed (G.Graph.vertices graph.now) (joined (G.Graph.edges graph.now)) ws ≢ true) }
{
    let mut report = [0; 256];
    match search::find(graph, &mut report) {
        Ok(Found::Order(_)) => true,
        Ok(Found::Walk(_)) => false,
        Err(Short) => unreachable(),
    }
}
