ghost use Rattle.std.specs.Prelude.{◌≡◌, ◌+◌, ◌-◌, ◌<◌, ◌≤◌, All, length, take};
ghost use Rattle.gp_difference.specs.Bounds.{tagged};
ghost use Rattle.gp_difference.specs.Graph.{AddGives, NewGives};
ghost use Rattle.gp_difference.specs.Places.{IsEdgeOf};

use gp_clause::Edge;
use gp_difference::{Asserted, Graph, GraphFault};
use std::alloc::Global;

/// As `Graph::new`.
pub fn graph(alloc: Global, points: u32, edges: &[Edge]) -> Result<Graph, GraphFault>
    requires few { points ≤ 65536 }
    requires within { All (IsEdgeOf points) edges.now }
    ensures { NewGives points edges.now result }
{
    Graph::new(alloc, points, edges)
}

/// As `Graph::assert`.
pub fn assert(graph: &mut Graph, edge: Edge, tag: u32) -> Asserted
    requires room { 0 < graph.old.room }
    requires within { IsEdgeOf graph.old.points edge }
    ensures { AddGives graph.old (tagged edge tag) graph.new result }
{
    graph.assert(edge, tag)
}

/// As `Graph::undo_to`.
pub fn undo_to(graph: &mut Graph, mark: u32)
    requires { mark ≤ length graph.old.kept }
    ensures { graph.new ≡ record graph.old {
      kept = take mark graph.old.kept;
      room = graph.old.room + (length graph.old.kept - mark);
    } }
{
    graph.undo_to(mark);
}
