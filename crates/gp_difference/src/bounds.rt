ghost use Rattle.std.specs.Prelude.{◌≡◌, ◌+◌, ◌-◌, ◌<◌, ◌≤◌, [], ◌∷◌, ◌++◌, length, take, OnOk, OnErr, IfOk};
ghost use Rattle.gp_difference.specs.Bounds.{edge_at, no_bound};
ghost use Rattle.gp_difference.specs.Links.{IsLatest};
ghost use Rattle.std.specs.Prelude.{slice_index_or};

use crate::bound::Bound;
use std::alloc::{AllocError, Global};
use std::marker::Model;

/// Bounds in the order in which they came. The bounds out of a point, those with it as second point, are linked by
/// number, the newest first, so that the last bound is taken back by one write.
#[derive(Drop)]
pub struct Bounds {
    bounds: Vec<Bound>,
    links: Vec<usize>,
    heads: Vec<usize>,
    room: usize,
}

impl Model for Bounds {
    ghost use Rattle.std.specs.Prelude.{◌+◌, ◌≤◌, ◌<◌, length, vec_len, vec_capacity};
    ghost use Rattle.gp_difference.specs.Links.{BoundList, IsLinked};

    ghost Value = { BoundList };

    ghost view = { λ b. record { points = length b.heads.items; bounds = b.bounds.items; room = b.room } };

    ghost invariant = { λ b. IsLinked b.bounds.items b.heads.items b.links.items
        × (vec_len b.bounds + b.room ≤ vec_capacity b.bounds)
        × (vec_len b.links + b.room ≤ vec_capacity b.links) };
}

impl Bounds {
    /// No bounds over this many points.
    pub fn new(alloc: Global, points: usize) -> Result<Bounds, AllocError>
        ensures { IfOk result (λ b. b ≡ record { points = points; bounds = []; room = 0 }) }
    {
        let mut heads = Vec::new(alloc);
        heads.resize(points, 0)?;
        Ok(Bounds {
            bounds: Vec::new(alloc),
            links: Vec::new(alloc),
            heads,
            room: 0,
        })
    }

    pub fn len(&self) -> usize
        ensures { result ≡ length self.now.bounds }
    {
        self.bounds.len()
    }

    pub fn room(&self) -> usize
        ensures { result ≡ self.now.room }
    {
        self.room
    }

    pub fn get(&self, number: usize) -> Bound
        requires { number < length self.now.bounds }
        ensures { result ≡ slice_index_or self.now.bounds number no_bound }
    {
        self.bounds[number]
    }

    /// One more than the number of the latest bound out of the point, 0 where there is none.
    pub fn latest(&self, point: usize) -> usize
        requires { point < self.now.points }
        ensures { IsLatest self.now.bounds (length self.now.bounds) point result }
    {
        self.heads[point]
    }

    /// One more than the number of the next older bound out of the same point, 0 where there is none.
    pub fn earlier(&self, number: usize) -> usize
        requires { number < length self.now.bounds }
        ensures { IsLatest self.now.bounds number (edge_at self.now.bounds number).b result }
    {
        self.links[number]
    }

    /// Makes room for this many more bounds.
    pub fn reserve(&mut self, count: usize) -> Result<(), AllocError>
        ensures ok { OnOk result (self.new ≡ record self.old { room = self.new.room }) }
        ensures room { OnOk result (count ≤ self.new.room) }
        ensures more { OnOk result (self.old.room ≤ self.new.room) }
        ensures err { OnErr result (self.new ≡ self.old) }
    {
        if count <= self.room {
            return Ok(());
        }
        self.bounds.reserve(count)?;
        self.links.reserve(count)?;
        self.room = count;
        Ok(())
    }

    pub fn push(&mut self, bound: Bound)
        requires room { 0 < self.old.room }
        requires second { bound.edge.b < self.old.points }
        ensures { self.new ≡ record self.old { bounds = self.old.bounds ++ bound ∷ []; room = self.old.room - 1 } }
    {
        let point = bound.edge.b as usize;
        self.links.push_reserved(self.heads[point]);
        self.bounds.push_reserved(bound);
        self.heads[point] = self.bounds.len();
        self.room -= 1;
    }

    /// Takes back the last bound.
    pub fn pop(&mut self)
        requires some { 0 < length self.old.bounds }
        ensures { self.new ≡ record self.old { bounds = take (length self.old.bounds - 1) self.old.bounds; room = self.old.room + 1 } }
    {
        let last = self.bounds.len() - 1;
        let point = self.bounds[last].edge.b as usize;
        self.heads[point] = self.links[last];
        self.links.truncate(last);
        self.bounds.truncate(last);
        self.room += 1;
    }

    /// Takes back the bounds from this number on.
    pub fn truncate(&mut self, count: usize)
        requires { count ≤ length self.old.bounds }
        ensures { self.new ≡ record self.old { bounds = take count self.old.bounds; room = self.old.room + (length self.old.bounds - count) } }
    {
        while self.len() > count {
            self.pop();
        }
    }
}
