// Graphs worked out from where each vertex begins and ends.
ghost use Rattle.graph.specs.Starts.{begins_of, ends_of, begun, starts, starts_well};

use super::{Graph, Kind, may_join};

// Where a vertex begins and ends.
#[derive(Clone, Copy, PartialEq, Eq, Default, Debug)]
pub struct Span {
    pub begin: u16,
    pub end: u16,
}

// From a tail that ended before a head began goes an edge of kind start. There are as many vertices as spans, at most 256.
#[derive(Clone, Copy)]
pub struct Starts<'a> {
    pub spans: &'a [Span],
}

impl<'a> Graph for Starts<'a> {
    ghost vertices = { λ s. begun (begins_of s.spans.now) (ends_of s.spans.now) };

    ghost edges = { λ s. starts (begins_of s.spans.now) (ends_of s.spans.now) };

    ghost well = { λ s. starts_well (begins_of s.spans.now) (ends_of s.spans.now) };

    fn size(&self) -> usize {
        self.spans.len().min(256)
    }

    fn kinds(&self, tail: usize, head: usize) -> u8 {
        if may_join(self.size(), tail, head) && self.spans[tail].end < self.spans[head].begin {
            Kind::Start.bit()
        } else {
            0
        }
    }
}

// The same over two lists, lent as they are. Take this where begins and ends lie in two lists already, and `Starts` where they are found
// together. There are as many vertices as both lists tell of, at most 256: the rest of the longer one counts for nothing.
#[derive(Clone, Copy)]
pub struct ListedStarts<'a> {
    pub begins: &'a [u16],
    pub ends: &'a [u16],
}

impl<'a> Graph for ListedStarts<'a> {
    ghost vertices = { λ s. begun s.begins.now s.ends.now };

    ghost edges = { λ s. starts s.begins.now s.ends.now };

    ghost well = { λ s. starts_well s.begins.now s.ends.now };

    fn size(&self) -> usize {
        self.begins.len().min(self.ends.len()).min(256)
    }

    fn kinds(&self, tail: usize, head: usize) -> u8 {
        if may_join(self.size(), tail, head) && self.ends[tail] < self.begins[head] {
            Kind::Start.bit()
        } else {
            0
        }
    }
}
