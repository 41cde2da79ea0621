// The parts of a numbering.
use std::marker::Model;

mod listing;
mod lookups;

// The transaction of each vertex, and the vertex of each of 256 transactions; none where it is no vertex. Made once, with
// memory for 256 vertices; listing a run then needs none. A caller sees the list of the transactions.
#[derive(Drop)]
pub struct Vertices {
    transactions: Vec<u16>,
    vertices: Vec<Option<u16>>,
}

impl Model for Vertices {
    ghost use Rattle.std.specs.Prelude.{ℕ, List, vec_items};

    ghost Value = { List ℕ };

    ghost use Rattle.vertices.specs.Numbering.{Numbering};

    ghost view = { λ v. vec_items v.transactions };

    ghost invariant = { Numbering };
}
