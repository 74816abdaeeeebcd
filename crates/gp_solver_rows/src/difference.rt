use gp_clause::Edge;
use gp_difference::{Asserted, Graph, GraphFault, keeps};
use std::process::Abort;

// Asserts a bound that is within the graph, with room made for it. Tells whether the answer is the one that is due.
fn asserts(
    rt: &impl Abort,
    graph: &mut Graph,
    bound: (u32, u32, i64),
    tag: u32,
    due: Asserted,
) -> bool {
    let (a, b, c) = bound;
    assert!(rt; graph.mark() < 1_000_000);
    graph.reserve(1).expect(rt, "memory");
    let points = graph.places().len();
    assert!(rt; (a as usize) < points && (b as usize) < points);
    assert!(rt; c >= -4096 && c <= 4096);
    graph.assert(Edge { a, b, c }, tag) == due
}

// Takes back the bounds since a mark that the graph has reached.
fn undo(rt: &impl Abort, graph: &mut Graph, mark: u32) {
    assert!(rt; mark <= graph.mark());
    graph.undo_to(mark);
}

fn has_places(graph: &Graph, places: &[i64]) -> bool {
    graph.places() == places
}

fn has_cycle(graph: &Graph, tags: &[u32]) -> bool {
    graph.cycle() == tags
}

fn keep_all(places: &[i64], edges: &[Edge]) -> bool {
    edges.iter().all(|edge| keeps(places, *edge))
}

// Three bounds, of which the last closes a cycle with the first two and the fixed edge, and is kept when they are gone.
fn explains(rt: &impl Abort, graph: &mut Graph) -> bool {
    assert!(rt; graph.mark() == 0);
    graph.reserve(4).expect(rt, "memory");
    let first = asserts(rt, graph, (1, 0, 5), 6, Asserted::Kept);
    let second = asserts(rt, graph, (1, 2, -1), 7, Asserted::Kept);
    let rises = graph.places().len() == 3 && graph.places().is_sorted();
    let third = asserts(rt, graph, (2, 0, -1), 8, Asserted::Cycle);
    let told = has_cycle(graph, &[7, 8]) && graph.mark() == 2;
    undo(rt, graph, 0);
    let again = asserts(rt, graph, (2, 0, -1), 8, Asserted::Kept);
    first && second && rises && third && told && again && graph.mark() == 1
}

#[test]
fn explains_a_cycle_and_takes_bounds_back(rt: HostRuntime) {
    let mut graph = Graph::new(rt.alloc(), 3, &[Edge { a: 0, b: 1, c: -1 }]).expect(&rt, "a graph");
    let holds = explains(&rt, &mut graph);
    drop(graph);
    assert!(rt; holds);
}

#[test]
fn refuses_a_fixed_cycle(rt: HostRuntime) {
    let edges = [Edge { a: 0, b: 1, c: -1 }, Edge { a: 1, b: 0, c: 0 }];
    let fault = Graph::new(rt.alloc(), 2, &edges).err();
    assert!(rt; fault == Some(GraphFault::FixedCycle));
}

#[test]
fn places_a_chain_given_from_either_end(rt: HostRuntime) {
    let first = Edge { a: 0, b: 1, c: -1 };
    let second = Edge { a: 1, b: 2, c: -1 };
    for edges in [[first, second], [second, first]] {
        let graph = Graph::new(rt.alloc(), 3, &edges).expect(&rt, "a graph");
        assert!(rt; has_places(&graph, &[-2, -1, 0]));
    }
}

// Places stay where a bound is taken back, and where they keep the next one.
fn stays(rt: &impl Abort, graph: &mut Graph) -> bool {
    let start = has_places(graph, &[0, 0, 0, 0]);
    let lowered = asserts(rt, graph, (1, 0, -1), 1, Asserted::Kept);
    let below = has_places(graph, &[0, -1, 0, 0]);
    undo(rt, graph, 0);
    let after = has_places(graph, &[0, -1, 0, 0]);
    let kept = asserts(rt, graph, (2, 3, 5), 2, Asserted::Kept);
    start && lowered && below && after && kept && has_places(graph, &[0, -1, 0, 0])
}

#[test]
fn leaves_places_that_keep_the_bound(rt: HostRuntime) {
    let mut graph = Graph::new(rt.alloc(), 4, &[]).expect(&rt, "a graph");
    let holds = stays(&rt, &mut graph);
    drop(graph);
    assert!(rt; holds);
}

// A chain of so many points, each before the next, asserted from its end; all places then keep it.
fn chains(rt: &impl Abort, graph: &mut Graph, points: u32) -> bool {
    let mut all = true;
    for step in 1..points {
        let point = points - step;
        all = all && asserts(rt, graph, (point - 1, point, -1), point, Asserted::Kept);
    }
    all && graph.places().is_sorted()
}

// A chain of 2000 points, of which the last one cannot be less than 1999 behind the first.
fn closes(rt: &impl Abort, graph: &mut Graph) -> bool {
    const ENDS: [Edge; 1] = [Edge {
        a: 0,
        b: 1999,
        c: -1999,
    }];
    let kept = chains(rt, graph, 2000);
    let closed = asserts(rt, graph, (1999, 0, 1998), 0, Asserted::Cycle);
    kept && closed && graph.cycle().len() == 2000 && keep_all(graph.places(), &ENDS)
}

#[test]
fn keeps_a_long_chain(rt: HostRuntime) {
    let mut graph = Graph::new(rt.alloc(), 2000, &[]).expect(&rt, "a graph");
    let holds = closes(&rt, &mut graph);
    drop(graph);
    assert!(rt; holds);
}
