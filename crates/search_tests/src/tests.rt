// Small graphs in a table, each with what the search must find, graphs of all 256 vertices, a union, lists of unequal lengths, and a short report.
use super::*;
use graph::{ListedStarts, Span, Table};
use std::alloc::{AllocError, Global};
use std::array;
use std::process::Abort;
use std::test::Fail;

// What an entry of the report holds before a search.
const BEFORE: u16 = 777;

// A tail, a head and what the edge between them stands for.
type Edge = (u8, u8, Kind);

const CHAIN: [Edge; 3] = [(0, 1, Kind::Ww), (1, 2, Kind::Rw), (2, 3, Kind::Ww)];

const REVERSE: [Edge; 3] = [(3, 2, Kind::Ww), (2, 1, Kind::Rw), (1, 0, Kind::Ww)];

// Two chains that cross in 2.
const CROSSING: [Edge; 4] = [
    (0, 2, Kind::Ww),
    (2, 4, Kind::Ww),
    (3, 2, Kind::Rw),
    (2, 1, Kind::Rw),
];

const CYCLE: [Edge; 2] = [(0, 1, Kind::Ww), (1, 0, Kind::Rw)];

// A cycle of the last three vertices.
const LAST_THREE: [Edge; 3] = [
    (253, 254, Kind::Wr),
    (254, 255, Kind::Wr),
    (255, 253, Kind::Wr),
];

// A table's size and edges, the kinds that the search sees, what it finds, and the order where it is one.
#[derive(Clone, Copy)]
struct Case<'a>(usize, &'a [Edge], u8, Found, &'a [u16]);

fn join(bytes: &mut [u8], tail: u8, head: u8, kind: Kind) {
    if let Some(kinds) = bytes.get_mut(256 * usize::from(tail) + usize::from(head)) {
        *kinds |= kind.bit();
    }
}

fn table(heap: Global, edges: &[Edge]) -> Result<Vec<u8>, AllocError> {
    let mut bytes = vec![in heap; 0; 65536]?;
    for (tail, head, kind) in edges {
        join(&mut bytes, *tail, *head, *kind);
    }
    Ok(bytes)
}

// The report begins so, and the rest is as before.
fn begins(rt: &impl Abort, report: &[u16], front: &[u16]) {
    let rest = report.strip_prefix(front);
    assert!(rt; rest.is_some_and(|rest| rest.iter().all(|entry| *entry == BEFORE)));
}

// Each vertex is joined to the next, and the last to the first.
fn comes_back<G: Graph>(rt: &impl Abort, graph: &G, walk: &[u16]) {
    for (vertex, next) in walk.iter().zip(walk.iter().cycle().skip(1)) {
        assert!(rt; graph.kinds(usize::from(*vertex), usize::from(*next)) != 0);
    }
}

// The search finds that order, or a closed walk of so many vertices.
fn finds<G: Graph>(rt: &impl Abort, graph: &G, found: Found, order: &[u16]) {
    let mut report = [BEFORE; 300];
    assert_eq!(rt; search::find(graph, &mut report), Ok(found));
    match found {
        Found::Order(_) => begins(rt, &report, order),
        Found::Walk(count) => {
            assert!(rt; count <= 300);
            let walk = &report[0..count];
            comes_back(rt, graph, walk);
            begins(rt, &report, walk);
        }
    }
}

// The same, of a table of all 256 vertices.
fn finds_in(rt: &impl Abort, bytes: &[u8], found: Found, order: &[u16]) {
    finds(rt, &Table { bytes, size: 256 }, found, order);
}

#[test]
fn small_graphs(rt: HostRuntime) -> Result<(), Fail> {
    let cases = [
        Case(0, &CHAIN, 15, Found::Order(0), &[]),
        Case(1, &CHAIN, 15, Found::Order(1), &[0]),
        Case(4, &CHAIN, 15, Found::Order(4), &[0, 1, 2, 3]),
        Case(4, &REVERSE, 15, Found::Order(4), &[3, 2, 1, 0]),
        Case(5, &CROSSING, 15, Found::Order(5), &[0, 3, 2, 1, 4]),
        Case(2, &CYCLE, 15, Found::Walk(2), &[]),
        Case(2, &CYCLE, 1, Found::Order(2), &[0, 1]),
        Case(2, &CYCLE, 4, Found::Order(2), &[1, 0]),
        Case(2, &CYCLE, 10, Found::Order(2), &[0, 1]),
    ];
    for Case(size, edges, kinds, found, order) in cases {
        let bytes = table(rt.alloc(), edges)?;
        let graph = Table {
            bytes: &bytes,
            size,
        };
        finds(&rt, &Filter { graph, kinds }, found, order);
    }
    Ok(())
}

#[test]
fn all_vertices(rt: HostRuntime) -> Result<(), Fail> {
    let heap = rt.alloc();
    let falling: [u16; 256] = array::from_fn(|at| 255 - at as u16);
    let mut reverse = table(heap, &[])?;
    let mut cycle = table(heap, &[])?;
    let mut into_cycle = table(heap, &LAST_THREE)?;
    let mut out_of_cycle = table(heap, &LAST_THREE)?;
    for v in 0..=255u8 {
        join(&mut reverse, v, v.saturating_sub(1), Kind::Rw);
        join(&mut cycle, v, v.wrapping_add(1), Kind::Wr);
        join(&mut into_cycle, v.min(252), v.min(252) + 1, Kind::Ww);
        join(&mut out_of_cycle, v.min(252) + 1, v.min(252), Kind::Ww);
    }
    finds_in(&rt, &reverse, Found::Order(256), &falling);
    finds_in(&rt, &cycle, Found::Walk(256), &[]);
    finds_in(&rt, &into_cycle, Found::Walk(3), &[]);
    finds_in(&rt, &out_of_cycle, Found::Walk(3), &[]);
    Ok(())
}

#[test]
fn union_closes_a_cycle(rt: HostRuntime) -> Result<(), Fail> {
    let bytes = table(rt.alloc(), &[(1, 0, Kind::Rw)])?;
    let first = Table {
        bytes: &bytes,
        size: 2,
    };
    let second = graph::Starts {
        spans: &[
            Span { begin: 5, end: 10 },
            Span { begin: 20, end: 30 },
            Span { begin: 1, end: 40 },
        ],
    };
    finds(&rt, &first, Found::Order(2), &[1, 0]);
    finds(&rt, &second, Found::Order(3), &[0, 1, 2]);
    finds(&rt, &Union { first, second }, Found::Walk(2), &[]);
    let mut report = [BEFORE; 256];
    let (found, first, second) = find_in_both(first, second, Kind::Rw.bit(), &mut report);
    assert_eq!(rt; found, Ok(Found::Order(3)));
    assert!(rt; is_acyclic(&first) && !is_acyclic(&Union { first, second }));
    Ok(())
}

// Of two lists of unequal lengths the rest of the longer one counts for nothing.
#[test]
fn unequal_lists(rt: HostRuntime) {
    let begins: &[u16] = &[5, 20, 1];
    let ends: &[u16] = &[10, 30, 40, 7];
    let listed = ListedStarts { begins, ends };
    let own = Starts { begins, ends };
    finds(&rt, &listed, Found::Order(3), &[0, 1, 2]);
    finds(&rt, &own, Found::Order(3), &[0, 1, 2]);
}

#[test]
fn short_report(rt: HostRuntime) {
    let mut report = [BEFORE; 255];
    let graph = graph::Starts { spans: &[] };
    assert_eq!(rt; search::find(&graph, &mut report), Err(Short));
    begins(&rt, &report, &[]);
}
