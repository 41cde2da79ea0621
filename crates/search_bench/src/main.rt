// search_bench: searches graphs of 256 vertices many times over, and prints what was found and how often the graph was looked at.
// It prints no times: measure the whole run.
#![tactic(auto)]

use graph::{Graph, Table};
use search::{Found, find};
use std::alloc::{AllocError, Global};
use std::cell::Cell;
use std::io;

const SEARCHES: u32 = 1000;

// A graph that counts how often its kinds are asked.
#[derive(Drop)]
struct Counted<'a, G> {
    graph: &'a G,
    looks: Cell<u64>,
}

impl<'a, G: Graph> Graph for Counted<'a, G> {
    ghost vertices = { λ s. G.Graph.vertices s.graph.now };

    ghost edges = { λ s. G.Graph.edges s.graph.now };

    ghost well = { λ s. G.Graph.well s.graph.now };

    fn size(&self) -> usize {
        self.graph.size()
    }

    fn kinds(&self, tail: usize, head: usize) -> u8 {
        self.looks.set(self.looks.get().wrapping_add(1));
        self.graph.kinds(tail, head)
    }
}

// The bytes of a table of 256 vertices, joined where a test of tail and head says so.
fn joined_where<F: Fn(u8, u8) -> bool>(heap: Global, joined: F) -> Result<Vec<u8>, AllocError>
    requires { F.IsAlwaysCallable joined }
{
    let mut bytes = Vec::with_capacity(heap, 65536)?;
    for tail in 0..=255 {
        for head in 0..=255 {
            bytes.push(u8::from(joined(tail, head)))?;
        }
    }
    Ok(bytes)
}

// How many orders and how many walks of 256 vertices so many searches find.
fn searched<G: Graph>(graph: &G, times: u32) -> (u32, u32) {
    let mut orders: u32 = 0;
    let mut walks: u32 = 0;
    for _ in 0..times {
        let mut report = [0; 256];
        match find(graph, &mut report) {
            Ok(Found::Order(256)) => orders = orders.wrapping_add(1),
            Ok(Found::Walk(256)) => walks = walks.wrapping_add(1),
            _ => {}
        }
    }
    (orders, walks)
}

fn tell(rt: &HostRuntime, name: &str, bytes: &[u8]) -> io::Result<()> {
    let table = Table { bytes, size: 256 };
    let (orders, walks) = searched(&table, SEARCHES);
    let counted = Counted {
        graph: &table,
        looks: Cell::new(0),
    };
    let _ = searched(&counted, 1);
    let looks = counted.looks.get();
    println!(rt; "{name}: {orders} orders, {walks} walks, {looks} looks a search")
}

// One table at a time: each goes at the end of its statement.
fn main(rt: HostRuntime) -> io::Result<()> {
    // Every vertex joined to every later one.
    tell(
        &rt,
        "dense",
        &joined_where(rt.alloc(), |tail, head| tail < head)?,
    )?;
    // Every vertex joined to the next, and the last to the first.
    tell(
        &rt,
        "ring",
        &joined_where(rt.alloc(), |tail, head| tail.wrapping_add(1) == head)?,
    )
}
