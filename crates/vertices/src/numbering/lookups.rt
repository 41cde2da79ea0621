// What is asked of a numbering.
ghost use Rattle.std.specs.Prelude.{◌≡◌, ◌≤◌, length, nat_eq, slice_index};
ghost use Rattle.events.specs.Lists.{first};
ghost use Rattle.vertices.specs.Places.{place_of};

use super::Vertices;

impl Vertices {
    // How many vertices there are.
    pub fn count(&self) -> u16
        ensures all { result ≡ length self.now }
        ensures few { result ≤ 256 }
    {
        self.transactions.len() as u16
    }

    // The transaction that is this vertex; 0, which no transaction has, where there is no such vertex.
    pub fn transaction(&self, vertex: u16) -> u16
        ensures { result ≡ slice_index self.now vertex }
    {
        match self.transactions.get(vertex as usize) {
            Some(transaction) => *transaction,
            None => 0,
        }
    }

    // The transactions, in the order of their vertices.
    pub fn transactions(&self) -> &[u16]
        ensures all { result.now ≡ self.now }
        ensures few { length result.now ≤ 256 }
    {
        &self.transactions
    }

    // The vertex that is this transaction; none where it has not committed. A vertex is below 256.
    #[tactic(auto, using(crate::proofs::Firsts::first_within))]
    pub fn vertex(&self, transaction: u16) -> Option<u16>
        ensures place { place_of result ≡ first (nat_eq transaction) self.now }
        ensures few { place_of result ≤ 256 }
    {
        let vertices = &self.vertices;
        if transaction == 0 || transaction > 256 {
            return None;
        }
        vertices[transaction as usize - 1]
    }
}
