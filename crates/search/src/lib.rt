// One search over every graph: it finds the order of the vertices, or else a closed walk.
#![tactic(auto)]

ghost use Rattle.std.specs.Prelude.{◌≡◌, ℕ, ◌+◌, ◌<◌, ◌≤◌, true, false, not, ◌&&◌, ◌||◌, length, take, drop, position, ◌==◌, nat_lt};
ghost use Rattle.graph.specs.Edges.{joined};
ghost use Rattle.marks.specs.Members.{marked};
ghost use Rattle.search.specs.Answer.{Answer, Filled};
ghost use Rattle.search.specs.Examples.{OrderExamples, WalkExamples};
ghost use Rattle.search.specs.Laws.{KeepsEdges, Excludes, Unique};
ghost use Rattle.search.specs.Orders.{order};
ghost use Rattle.search.specs.Tails.{tail, empty, tailless, lost, Within, Placed};
ghost use Rattle.search.specs.Walks.{closed};
ghost use Rattle.search.specs.Words.{distinct};

use arrayvec::ArrayVec;
use graph::Graph;
use marks::Marks;

// What the report begins with, and how many vertices that are. Either is what was asked for, so this is no Result: a walk is no failure.
#[derive(Clone, Copy, PartialEq, Eq, Debug)]
pub enum Found {
    // The order of all vertices.
    Order(usize),
    // A closed walk.
    Walk(usize),
}

// The report has no room for 256 vertices.
#[derive(Clone, Copy, PartialEq, Eq, Debug)]
pub struct Short;

// So many sets without a tail.
fn no_tails(size: usize) -> ArrayVec<Marks, 256>
    requires { size ≤ 256 }
    ensures each { length result.items ≡ size }
    ensures none { (t h : ℕ) → tail result.items t h ≡ false }
{
    let mut tails = ArrayVec::new();
    for _ in 0..size {
        tails.push(Marks::new());
    }
    tails
}

// Adds a vertex to the tails of a head that it is joined to.
fn add_tail<G: Graph>(graph: &G, vertex: usize, head: usize, tails: &mut Marks)
    ensures { (t : ℕ) → marked tails.new t ≡ (marked tails.old t || (t == vertex && joined (G.Graph.edges graph.now) t head)) }
{
    if graph.kinds(vertex, head) != 0 {
        tails.insert(vertex);
    }
}

// Adds a vertex to the tails of each head that it is joined to. By the number of the head: as `iter_mut().enumerate()` each look at a table
// took a third more instructions.
fn add_tails<G: Graph>(graph: &G, vertex: usize, tails: &mut [Marks])
    requires { length tails.old ≡ G.Graph.vertices graph.now }
    ensures { (t h : ℕ) → tail tails.new t h ≡ (tail tails.old t h || (t == vertex && joined (G.Graph.edges graph.now) t h)) }
{
    for head in 0..graph.size() {
        add_tail(graph, vertex, head, &mut tails[head]);
    }
}

// For each vertex, as a head, the set of its tails. Goes by tails, in the order in which a table holds its bytes.
fn tails_of<G: Graph>(graph: &G) -> ArrayVec<Marks, 256>
    ensures each { length result.items ≡ G.Graph.vertices graph.now }
    ensures tails { (t h : ℕ) → tail result.items t h ≡ joined (G.Graph.edges graph.now) t h }
{
    let mut tails = no_tails(graph.size());
    for vertex in 0..graph.size() {
        add_tails(graph, vertex, tails.as_mut_slice());
    }
    tails
}

// Whether no mark is set.
fn is_empty(marks: &Marks) -> bool
    ensures { result ≡ empty marks.now }
{
    marks.lowest().is_none()
}

// The vertices that have no tail.
fn without_tails(tails: &[Marks]) -> Marks
    requires { length tails.now ≤ 256 }
    ensures { (h : ℕ) → marked result h ≡ (nat_lt h (length tails.now) && tailless tails.now h) }
{
    let mut ready = Marks::new();
    for (head, its_tails) in tails.iter().enumerate() {
        if is_empty(its_tails) {
            ready.insert(head);
        }
    }
    ready
}

// Takes a vertex out of a set of tails, and says whether it was the last one there.
fn remove_tail(tails: &mut Marks, vertex: usize) -> bool
    ensures tails { (t : ℕ) → marked tails.new t ≡ (marked tails.old t && not (t == vertex)) }
    ensures last { result ≡ (marked tails.old vertex && empty tails.new) }
{
    if !tails.contains(vertex) {
        return false;
    }
    tails.remove(vertex);
    is_empty(tails)
}

// Takes a vertex out of the tails of all heads, and marks those as ready that then have none left.
fn release(vertex: usize, tails: &mut [Marks], ready: &mut Marks)
    requires { length tails.old ≤ 256 }
    ensures tails { (t h : ℕ) → tail tails.new t h ≡ (tail tails.old t h && not (t == vertex)) }
    ensures ready { (h : ℕ) → marked ready.new h ≡ (marked ready.old h || lost tails.old tails.new vertex h) }
{
    for (head, its_tails) in tails.iter_mut().enumerate() {
        if remove_tail(its_tails, vertex) {
            ready.insert(head);
        }
    }
}

// Places vertices, each time the least that is ready, until none is: gives them, and which are left.
fn place_all(tails: &mut [Marks]) -> (ArrayVec<u16, 256>, Marks)
    requires few { length tails.old ≤ 256 }
    requires within { Within (length tails.old) tails.old }
    ensures { Placed (length tails.old) tails.old tails.new result.0.items (marked result.1) }
{
    let mut placed = ArrayVec::new();
    let mut unplaced = Marks::first(tails.len());
    let mut ready = without_tails(tails);
    while let Some(vertex) = ready.lowest() {
        placed.push(vertex as u16);
        unplaced.remove(vertex);
        ready.remove(vertex);
        release(vertex, tails, &mut ready);
    }
    (placed, unplaced)
}

// Goes from a vertex to a tail of it, from there on likewise, until a vertex comes again: the way back from there is a closed walk.
fn follow(tails: &[Marks], start: usize) -> ArrayVec<u16, 256>
    requires few { length tails.now ≤ 256 }
    requires begins { tailless tails.now start ≡ false }
    requires continues { (t h : ℕ) → tail tails.now t h ≡ true → tailless tails.now t ≡ false }
    ensures closed { closed 256 (tail tails.now) result.items ≡ true }
    ensures distinct { distinct result.items ≡ true }
{
    let mut path = ArrayVec::new();
    let mut vertex = start;
    loop {
        path.push(vertex as u16);
        let Some(tail) = tails[vertex].lowest() else {
            unreachable()
        };
        if let Some(first) = place_of(&path, tail) {
            path.reverse();
            path.truncate(path.len() - first);
            return path;
        }
        vertex = tail;
    }
}

// The first place at which a vertex stands.
fn place_of(path: &[u16], vertex: usize) -> Option<usize>
    ensures { result ≡ position (λ passed. passed == vertex) path.now }
{
    path.iter()
        .position(|passed| usize::from(*passed) == vertex)
}

// Writes vertices to the front of the report, and says how many they are.
fn write(vertices: &ArrayVec<u16, 256>, report: &mut [u16]) -> usize
    requires { 256 ≤ length report.old }
    ensures front { take result report.new ≡ vertices.now.items }
    ensures rest { drop result report.new ≡ drop result report.old }
    ensures count { result ≡ length vertices.now.items }
    ensures few { result ≤ 256 }
{
    let count = vertices.len();
    report[..count].copy_from_slice(vertices);
    count
}

// Searches a graph, with room in the report.
fn search_into<G: Graph>(graph: &G, report: &mut [u16]) -> Found
    requires { 256 ≤ length report.old }
    ensures { Filled (G.Graph.vertices graph.now) (joined (G.Graph.edges graph.now)) report.old report.new result }
{
    let mut tails = tails_of(graph);
    let tails = tails.as_mut_slice();
    let (placed, unplaced) = place_all(tails);
    match unplaced.lowest() {
        None => Found::Order(write(&placed, report)),
        Some(vertex) => Found::Walk(write(&follow(tails, vertex), report)),
    }
}

// Finds the order of all vertices, where each place goes to the least vertex whose tails are all placed before it, or else a closed walk.
// Its vertices then stand at the front of the report, and later entries stay. A report of fewer than 256 entries is refused, and stays.
pub fn find<G: Graph>(graph: &G, report: &mut [u16]) -> Result<Found, Short>
    ensures { Answer (G.Graph.vertices graph.now) (joined (G.Graph.edges graph.now)) report.old report.new result }
{
    if report.len() < 256 {
        return Err(Short);
    }
    Ok(search_into(graph, report))
}

// What holds of the order, whatever the graph.
fn laws()
    ensures { KeepsEdges order × Excludes order closed × Unique order }
{}

// Small graphs, as examples of the definitions.
fn examples()
    ensures { OrderExamples × WalkExamples }
{}

// The laws of the order, over any graph: it has each vertex once and no edge backwards, there is no closed walk beside it, and it is the only one.
pub fn order_stands()
    ensures laws { KeepsEdges order × Excludes order closed × Unique order }
    ensures examples { OrderExamples × WalkExamples }
{
    laws();
    examples();
}
