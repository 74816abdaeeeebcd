ghost use Rattle.std.specs.Prelude.{◌≡◌, ◌+◌, ◌-◌, ◌^◌, ◌<◌, ◌≤◌, [], length, take, All, OnOk, OnErr, IfOk};

use crate::bound::Bound;
use crate::bounds::Bounds;
use crate::fault::{Asserted, GraphFault};
use crate::lower::put_tags;
use crate::placement::Placement;
use crate::settle::{any_below, settle};
use crate::start::start_places;
use gp_clause::Edge;
use std::alloc::{AllocError, Global};
use std::marker::Model;

/// Places that were made anew are not below this.
const FRESH: i64 = -(1 << 28);

/// A graph of difference constraints: points with a place each, fixed edges, and bounds that are kept on top of them
/// and taken back in the reverse of the order in which they came.
#[derive(Drop)]
pub struct Graph {
    fixed: usize,
    room: usize,
    low: bool,
    bounds: Bounds,
    placement: Placement,
    tags: Vec<u32>,
}

impl Model for Graph {
    ghost use Rattle.std.specs.Prelude.{length, take, drop};
    ghost use Rattle.gp_difference.specs.Graph.{GraphForm};

    ghost Value = { GraphForm };

    ghost use Rattle.gp_difference.specs.Bounds.{edges_of};
    ghost use Rattle.gp_difference.specs.Inside.{IsSound};

    ghost view = { λ g. record {
      points = length g.placement.places;
      edges = edges_of (take g.fixed g.bounds.bounds);
      kept = drop g.fixed g.bounds.bounds;
      room = g.room;
      places = g.placement.places;
      cycle = g.tags.items;
    } };

    ghost invariant = { IsSound };
}

impl Graph {
    ghost use Rattle.gp_difference.specs.Places.{IsEdgeOf, AreFresh};
    ghost use Rattle.gp_difference.specs.Bounds.{tagged};
    ghost use Rattle.gp_difference.specs.Graph.{HasPlaces, bare_graph, NewGives, FixGives, FreshGives, AddGives};

    /// A graph of these points and fixed edges, with no bound kept and no room for one. The fault is a negative cycle
    /// of fixed edges, or want of memory.
    pub fn new(alloc: Global, points: u32, edges: &[Edge]) -> Result<Graph, GraphFault>
        requires few { points ≤ 65536 }
        requires within { All (IsEdgeOf points) edges.now }
        ensures { NewGives points edges.now result }
    {
        let places = start_places(alloc, points as usize, edges)?;
        let mut graph = Graph::bare(alloc, places)?;
        for &edge in edges {
            graph.fix(edge)?;
        }
        graph.freshen();
        Ok(graph)
    }

    /// Makes room for this many more bounds. On an error all is as before.
    pub fn reserve(&mut self, count: u32) -> Result<(), AllocError>
        requires { length self.old.kept + count < 2 ^ 32 }
        ensures ok { OnOk result (self.new ≡ record self.old { room = self.new.room }) }
        ensures room { OnOk result (count ≤ self.new.room) }
        ensures more { OnOk result (self.old.room ≤ self.new.room) }
        ensures err { OnErr result (self.new ≡ self.old) }
    {
        self.bounds.reserve(count as usize)?;
        self.room = self.room.max(count as usize);
        Ok(())
    }

    /// Keeps a bound under a tag, or refuses it where it closes a negative cycle with the fixed edges and the kept
    /// bounds; `cycle` then gives the tags. The places move by Dijkstra's rule with the old places as potential: the
    /// point that fell most is settled first, and a cycle is closed where the bound's second point would fall. It
    /// takes time by the points that fall, the bounds out of them, and the logarithm of all points; a bound that the
    /// places keep takes none of this.
    pub fn assert(&mut self, edge: Edge, tag: u32) -> Asserted
        requires room { 0 < self.old.room }
        requires within { IsEdgeOf self.old.points edge }
        ensures { AddGives self.old (tagged edge tag) self.new result }
    {
        if let Some(count) = settle(&self.bounds, edge, &mut self.placement, &mut self.low) {
            put_tags(&self.bounds, self.placement.walk(count), &mut self.tags);
            self.tags.push_reserved(tag);
            return Asserted::Cycle;
        }
        self.bounds.push(Bound {
            edge,
            tag: Some(tag),
        });
        self.room -= 1;
        Asserted::Kept
    }

    /// The tags of the bounds on the cycle that the last refused bound closed, that bound's own tag last.
    pub fn cycle(&self) -> &[u32]
        ensures { result.now ≡ self.now.cycle }
    {
        &self.tags
    }

    /// The number of kept bounds.
    pub fn mark(&self) -> u32
        ensures { result ≡ length self.now.kept }
    {
        (self.bounds.len() - self.fixed) as u32
    }

    /// Takes back all bounds that were kept since the mark. The places stay as they are.
    pub fn undo_to(&mut self, mark: u32)
        requires { mark ≤ length self.old.kept }
        ensures { self.new ≡ record self.old {
          kept = take mark self.old.kept;
          room = self.old.room + (length self.old.kept - mark);
        } }
    {
        let len = self.bounds.len();
        let taken = len - self.fixed - mark as usize;
        self.room += taken;
        self.bounds.truncate(len - taken);
    }

    /// A place for each point, which keep all fixed edges and kept bounds.
    pub fn places(&self) -> &[i64]
        ensures places { result.now ≡ self.now.places }
        ensures feasible { HasPlaces self.now }
    {
        self.placement.places()
    }

    /// A graph with these places and no edges.
    fn bare(alloc: Global, places: Vec<i64>) -> Result<Graph, AllocError>
        requires few { length places.items ≤ 65536 }
        requires fresh { AreFresh places.items }
        ensures { IfOk result (λ graph. graph ≡ bare_graph places.items) }
    {
        let points = places.len();
        Ok(Graph {
            fixed: 0,
            room: 0,
            low: false,
            bounds: Bounds::new(alloc, points)?,
            placement: Placement::new(alloc, places)?,
            tags: Vec::with_capacity(alloc, points + 1)?,
        })
    }

    /// Adds a fixed edge, or finds that it closes a negative cycle.
    fn fix(&mut self, edge: Edge) -> Result<(), GraphFault>
        requires none { self.old.kept ≡ [] }
        requires within { IsEdgeOf self.old.points edge }
        ensures { FixGives self.old edge self.new result }
    {
        self.bounds.reserve(self.room + 1)?;
        match settle(&self.bounds, edge, &mut self.placement, &mut self.low) {
            Some(_) => Err(GraphFault::FixedCycle),
            None => {
                self.bounds.push(Bound { edge, tag: None });
                self.fixed = self.bounds.len();
                Ok(())
            }
        }
    }

    /// Makes the places anew where one of them is too low for new ones.
    fn freshen(&mut self)
        ensures { FreshGives self.old self.new }
    {
        if any_below(self.placement.places(), FRESH) {
            self.placement.make_anew();
            self.low = false;
        }
    }
}
