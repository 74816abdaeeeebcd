ghost use Rattle.std.specs.Prelude.{◌≡◌, ◌+◌, ◌-◌, ◌<◌, ◌≤◌, [], ◌++◌, length, take, false, IfOk, OnOk, All, MatchBool};
ghost use Rattle.gp_clause.specs.Clause.{NamesBelow};
ghost use Rattle.gp_clause.specs.Problem.{IsValidEdge, IsValidKind};
ghost use Rattle.gp_clause.specs.Walk.{HasNegativeCycle};
ghost use Rattle.gp_difference.specs.Bounds.{edges_of};
ghost use Rattle.gp_certificate.specs.Places.{bounds_at, AreFixed, KeepsMore, KeepsAll};

use gp_base::Row;
use gp_clause::{Edge, Kind, Lit};
use gp_difference::{Asserted, Graph, GraphFault};
use std::alloc::{AllocError, Global};

// Fixed edges, and a graph that tells whether bounds close a negative cycle with them. Where they hold one themselves
// the graph has none of them.
#[derive(Drop)]
pub(crate) struct Places {
    edges: Row<Edge>,
    graph: Graph,
    cyclic: bool,
}

impl Places {
    // Places of so many points, with room for so many bounds.
    pub(crate) fn new(
        alloc: Global,
        points: u32,
        edges: &[Edge],
        count: u32,
    ) -> Result<Places, AllocError>
        requires few { points ≤ 65536 }
        requires within { All (IsValidEdge points) edges.now }
        ensures fixed { IfOk result AreFixed }
        ensures none { IfOk result (λ made. made.graph.kept ≡ []) }
        ensures room { IfOk result (λ made. count ≤ made.graph.room) }
        ensures points { IfOk result (λ made. made.graph.points ≡ points) }
        ensures edges { IfOk result (λ made. made.edges ≡ edges.now) }
    {
        let copy = Row::from_vec(Vec::from_slice(alloc, edges)?);
        let (mut graph, cyclic) = graph_of(alloc, points, edges)?;
        match graph.reserve(count) {
            Ok(()) => Ok(Places {
                edges: copy,
                graph,
                cyclic,
            }),
            Err(error) => {
                drop((copy, graph));
                Err(error)
            }
        }
    }

    // Makes room for so many bounds.
    pub(crate) fn reserve(&mut self, count: u32) -> Result<(), AllocError>
        requires { self.old.graph.kept ≡ [] }
        ensures same { self.new ≡ record self.old { graph = self.new.graph } }
        ensures graph { self.new.graph ≡ record self.old.graph { room = self.new.graph.room } }
        ensures room { OnOk result (count ≤ self.new.graph.room) }
        ensures more { self.old.graph.room ≤ self.new.graph.room }
    {
        self.graph.reserve(count)
    }

    // Whether the fixed edges hold a negative cycle.
    pub(crate) fn is_cyclic(&self) -> bool
        ensures { result ≡ self.now.cyclic }
    {
        self.cyclic
    }

    // The number of kept bounds.
    pub(crate) fn mark(&self) -> u32
        ensures { result ≡ length self.now.graph.kept }
    {
        self.graph.mark()
    }

    // Keeps the bounds of literals until one closes a negative cycle. Tells whether one did.
    pub(crate) fn extend(&mut self, kinds: &[Kind], lits: &[Lit]) -> bool
        requires fixed { AreFixed self.old }
        requires some { self.old.cyclic ≡ false }
        requires acyclic { HasNegativeCycle (self.old.edges ++ edges_of self.old.graph.kept) → ⊥ }
        requires room { length lits.now ≤ self.old.graph.room }
        requires kinds { All (IsValidKind self.old.graph.points) kinds.now }
        requires within { NamesBelow (length kinds.now) lits.now }
        ensures gives { MatchBool result (HasNegativeCycle (self.old.edges ++ (edges_of self.old.graph.kept ++ bounds_at kinds.now lits.now))) (KeepsAll self.old.edges kinds.now lits.now self.old.graph self.new.graph) }
        ensures more { KeepsMore self.old.graph self.new.graph }
        ensures same { self.new ≡ record self.old { graph = self.new.graph } }
    {
        add_bounds(&mut self.graph, kinds, lits)
    }

    // Takes back the bounds that were kept since a mark.
    pub(crate) fn undo_to(&mut self, mark: u32)
        requires { mark ≤ length self.old.graph.kept }
        ensures same { self.new ≡ record self.old { graph = self.new.graph } }
        ensures graph { self.new.graph ≡ record self.old.graph { kept = take mark self.old.graph.kept; room = self.old.graph.room + (length self.old.graph.kept - mark) } }
    {
        self.graph.undo_to(mark);
    }
}

// A graph of the fixed edges, or of points alone where they hold a negative cycle. Tells whether they do.
fn graph_of(alloc: Global, points: u32, edges: &[Edge]) -> Result<(Graph, bool), AllocError>
    requires few { points ≤ 65536 }
    requires within { All (IsValidEdge points) edges.now }
    ensures fixed { IfOk result (λ made. MatchBool made.1 (HasNegativeCycle edges.now) ((made.0.edges ≡ edges.now) × (HasNegativeCycle edges.now → ⊥))) }
    ensures none { IfOk result (λ made. made.0.kept ≡ []) }
    ensures points { IfOk result (λ made. made.0.points ≡ points) }
{
    match Graph::new(alloc, points, edges) {
        Ok(graph) => Ok((graph, false)),
        Err(GraphFault::FixedCycle) => Ok((without_edges(alloc, points)?, true)),
        Err(GraphFault::Memory) => Err(AllocError),
    }
}

// A graph of points alone.
fn without_edges(alloc: Global, points: u32) -> Result<Graph, AllocError>
    requires { points ≤ 65536 }
    ensures { IfOk result (λ graph. (graph.points ≡ points) × (graph.kept ≡ [])) }
{
    match Graph::new(alloc, points, &[]) {
        Ok(graph) => Ok(graph),
        Err(_) => Err(AllocError),
    }
}

// Keeps the bounds of literals until one closes a negative cycle. Tells whether one did.
fn add_bounds(graph: &mut Graph, kinds: &[Kind], lits: &[Lit]) -> bool
    requires acyclic { HasNegativeCycle (graph.old.edges ++ edges_of graph.old.kept) → ⊥ }
    requires room { length lits.now ≤ graph.old.room }
    requires kinds { All (IsValidKind graph.old.points) kinds.now }
    requires within { NamesBelow (length kinds.now) lits.now }
    ensures gives { MatchBool result (HasNegativeCycle (graph.old.edges ++ (edges_of graph.old.kept ++ bounds_at kinds.now lits.now))) (KeepsAll graph.old.edges kinds.now lits.now graph.old graph.new) }
    ensures more { KeepsMore graph.old graph.new }
{
    for lit in lits {
        let Some(edge) = kinds[lit.variable as usize].bound(lit.positive) else {
            continue;
        };
        match graph.assert(edge, 0) {
            Asserted::Kept => {}
            Asserted::Cycle => return true,
        }
    }
    false
}
