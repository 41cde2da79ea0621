// How the committed transactions of a run become vertices.
ghost use Rattle.std.specs.Prelude.{◌≡◌, true, [], ◌∷◌, ◌++◌, IfOk, nat_eq};
ghost use Rattle.events.specs.Lists.{first};
ghost use Rattle.events.specs.Questions.{is_transaction, unfit_at};
ghost use Rattle.verdicts.specs.Versions.{committed};

use super::Vertices;
use events::Event;
use history::History;
use std::alloc::{AllocError, Global};

impl Vertices {
    // No vertices: those of an empty run.
    pub fn new(heap: Global) -> Result<Vertices, AllocError>
        ensures { IfOk result (λ vertices. vertices ≡ []) }
    {
        Ok(Vertices {
            transactions: Vec::with_capacity(heap, 256)?,
            vertices: vec![in heap; None; 256]?,
        })
    }

    // The committed transactions of an admitted run become the vertices; those that were are forgotten. Goes once through
    // the history.
    pub fn list<H: History>(&mut self, history: &H)
        ensures { unfit_at [] (H.events history.now) ≡ 0 → self.new ≡ committed (H.events history.now) }
    {
        self.clear();
        for event in history.iter() {
            if let Event::Commit { transaction } = event {
                self.add(transaction);
            }
        }
    }

    // No vertex is left.
    fn clear(&mut self)
        ensures { self.new ≡ [] }
    {
        self.transactions.clear();
        self.vertices.fill(None);
    }

    // The transaction becomes the next vertex, where its number is one and it is not yet a vertex. There is room then, since
    // none of the 256 is a vertex twice.
    fn add(&mut self, transaction: u16)
        ensures { is_transaction transaction ≡ true → first (nat_eq transaction) self.old ≡ 0 → self.new ≡ self.old ++ transaction ∷ [] }
    {
        if transaction == 0 || transaction > 256 || self.vertex(transaction).is_some() {
            return;
        }
        let vertex = self.transactions.len() as u16;
        self.transactions.push_reserved(transaction);
        self.vertices[transaction as usize - 1] = Some(vertex);
    }
}
