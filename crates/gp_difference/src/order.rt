ghost use Rattle.std.specs.Prelude.{◌≡◌, ℕ, ◌<◌, ◌≤◌, length, slice_index, IfOk};
ghost use Rattle.std.specs.List.{swap};
ghost use Rattle.gp_difference.specs.Order.{IsSpot, HasAll};

use std::alloc::{AllocError, Global};
use std::marker::Model;

/// All points, each once, in an order, and the spot of each in it.
#[derive(Drop)]
pub struct Order {
    points: Vec<u32>,
    spots: Vec<u32>,
}

impl Model for Order {
    ghost use Rattle.std.specs.Prelude.{ℕ, List};
    ghost use Rattle.gp_difference.specs.Order.{AreInverse};

    ghost Value = { List ℕ };

    ghost view = { λ o. o.points.items };

    ghost invariant = { λ o. AreInverse o.points.items o.spots.items };
}

impl Order {
    pub fn new(alloc: Global, count: usize) -> Result<Order, AllocError>
        requires { count ≤ 65536 }
        ensures { IfOk result (λ order. length order ≡ count) }
    {
        let mut points = Vec::new(alloc);
        points.resize(count, 0)?;
        number(&mut points);
        let spots = points.clone()?;
        Ok(Order { points, spots })
    }

    /// The point at a spot.
    pub fn at(&self, spot: usize) -> usize
        requires { spot < length self.now }
        ensures point { result ≡ slice_index self.now spot }
        ensures within { result < length self.now }
        ensures all { HasAll self.now }
    {
        self.points[spot] as usize
    }

    /// The spot of a point.
    pub fn spot(&self, point: usize) -> usize
        requires { point < length self.now }
        ensures { IsSpot self.now point result }
    {
        self.spots[point] as usize
    }

    /// Puts each of the points at two spots in the other's place.
    pub fn exchange(&mut self, one: usize, other: usize)
        requires one { one < length self.old }
        requires other { other < length self.old }
        ensures { self.new ≡ swap self.old one other }
    {
        let first = self.points[one] as usize;
        let second = self.points[other] as usize;
        self.points.swap(one, other);
        self.spots.swap(first, second);
    }
}

/// Writes at each index the index.
fn number(points: &mut [u32])
    requires { length points.old ≤ 65536 }
    ensures size { length points.new ≡ length points.old }
    ensures numbers { (k : ℕ) → k < length points.old → slice_index points.new k ≡ k }
{
    for index in 0..points.len() {
        points[index] = index as u32;
    }
}
