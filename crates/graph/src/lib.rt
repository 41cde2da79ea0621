// Graphs of at most 256 vertices, whose edges have kinds: a table of bytes, two worked out from where vertices begin and end, and layers over any graphs. A vertex is a number, from 0 on.
#![tactic(auto)]

ghost use Rattle.std.specs.Prelude.{◌≡◌, ℕ, min, max, not, ◌&&◌, ◌==◌, nat_lt};
ghost use Rattle.graph.specs.Edges.{WellFormed, tabled, filtered, united};
ghost use Rattle.graph.specs.Graphs.{tabled_well, filtered_well, united_well};
ghost use Rattle.graph.specs.Kinds.{bit_of};

mod starts;

pub use starts::{ListedStarts, Span, Starts};

// What an edge stands for. A set of kinds is the sum of their bits, in one byte, since a table holds it so.
#[derive(Clone, Copy, PartialEq, Eq, Debug)]
pub enum Kind {
    // The head wrote the version next after the tail's.
    Ww = 1,
    // The head read what the tail wrote.
    Wr = 2,
    // The head wrote the version next after the one that the tail read: an anti-dependency.
    Rw = 4,
    // The tail ended before the head started.
    Start = 8,
}

impl Kind {
    // The bit of a kind in a set of kinds.
    pub fn bit(self) -> u8
        ensures { result ≡ bit_of self }
    {
        self as u8
    }
}

// A graph means how many vertices there are, and for each tail and head the set of kinds of the edges between them. To look changes nothing.
pub trait Graph {
    // How many vertices there are: the numbers below this one.
    ghost vertices: { Self → ℕ };

    // The set of kinds from a tail to a head.
    ghost edges: { Self → ℕ → ℕ → ℕ };

    // The proof that this is a graph.
    ghost well: { (x : Self) → WellFormed (vertices x) (edges x) };

    // The number of vertices.
    fn size(&self) -> usize
        ensures { result ≡ vertices self.now };

    // The set of kinds from a tail to a head; 0 where the two are equal, or one of them is no vertex.
    fn kinds(&self, tail: usize, head: usize) -> u8
        ensures { result ≡ edges self.now tail head };
}

// Whether two numbers are different vertices of so many, so that an edge may join them.
fn may_join(vertices: usize, tail: usize, head: usize) -> bool
    ensures { result ≡ (nat_lt tail vertices && nat_lt head vertices && not (tail == head)) }
{
    tail < vertices && head < vertices && tail != head
}

// Lent, a graph is the same graph.
impl<'a, G: Graph> Graph for &'a G {
    ghost vertices = { λ s. G.Graph.vertices s.now };

    ghost edges = { λ s. G.Graph.edges s.now };

    ghost well = { λ s. G.Graph.well s.now };

    fn size(&self) -> usize {
        (**self).size()
    }

    fn kinds(&self, tail: usize, head: usize) -> u8 {
        (**self).kinds(tail, head)
    }
}

// A lent table of `size` vertices, at most 256: byte 256 * tail + head has the kinds from tail to head in its four low bits. There are as
// many bytes as the lender has, whatever the size; those past the end count as 0.
#[derive(Clone, Copy)]
pub struct Table<'a> {
    pub bytes: &'a [u8],
    pub size: usize,
}

impl<'a> Graph for Table<'a> {
    ghost vertices = { λ s. min s.size 256 };

    ghost edges = { λ s. tabled (min s.size 256) s.bytes.now };

    ghost well = { λ s. tabled_well s.size s.bytes.now };

    fn size(&self) -> usize {
        self.size.min(256)
    }

    fn kinds(&self, tail: usize, head: usize) -> u8 {
        if !may_join(self.size(), tail, head) {
            return 0;
        }
        self.bytes
            .get(256 * tail + head)
            .map_or(0, |kinds| *kinds % 16)
    }
}

// The edges of a graph that have a kind of the set `kinds`, with no other kinds.
#[derive(Drop)]
pub struct Filter<G> {
    pub graph: G,
    pub kinds: u8,
}

impl<G> Filter<G> {
    // Takes the filter off: gives the graph back, and the set of kinds.
    pub fn into_parts(self) -> (G, u8)
        ensures { (result.0 ≡ self.graph) × (result.1 ≡ self.kinds) }
    {
        let Filter { graph, kinds } = self;
        (graph, kinds)
    }
}

impl<G: Graph> Graph for Filter<G> {
    ghost vertices = { λ s. G.Graph.vertices s.graph };

    ghost edges = { λ s. filtered (G.Graph.edges s.graph) s.kinds };

    ghost well = { λ s. filtered_well s.kinds (G.Graph.well s.graph) };

    fn size(&self) -> usize {
        self.graph.size()
    }

    fn kinds(&self, tail: usize, head: usize) -> u8 {
        self.graph.kinds(tail, head) & self.kinds
    }
}

// The edges of two graphs together; it is as large as the larger of the two.
#[derive(Drop)]
pub struct Union<A, B> {
    pub first: A,
    pub second: B,
}

impl<A, B> Union<A, B> {
    // Takes the two graphs apart, and gives both back.
    pub fn into_parts(self) -> (A, B)
        ensures { (result.0 ≡ self.first) × (result.1 ≡ self.second) }
    {
        let Union { first, second } = self;
        (first, second)
    }
}

impl<A: Graph, B: Graph> Graph for Union<A, B> {
    ghost vertices = { λ s. max (A.Graph.vertices s.first) (B.Graph.vertices s.second) };

    ghost edges = { λ s. united (A.Graph.edges s.first) (B.Graph.edges s.second) };

    ghost well = { λ s. united_well (A.Graph.well s.first) (B.Graph.well s.second) };

    fn size(&self) -> usize {
        self.first.size().max(self.second.size())
    }

    fn kinds(&self, tail: usize, head: usize) -> u8 {
        self.first.kinds(tail, head) | self.second.kinds(tail, head)
    }
}
