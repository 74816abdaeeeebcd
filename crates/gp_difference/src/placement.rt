ghost use Rattle.std.specs.Prelude.{◌≡◌, ℕ, ◌+◌, ◌^◌, ◌<◌, ◌≤◌, pos, ◌+ℤ◌, ◌≤ℤ◌, [], length, take, replicate, All, IfOk, MatchBool, slice_index, slice_set};
ghost use Rattle.gp_difference.specs.Places.{place_at};
ghost use Rattle.gp_difference.specs.Anew.{AreAnew};
ghost use Rattle.gp_difference.specs.Settle.{SomeBelow};
ghost use Rattle.gp_difference.specs.Falls.{IsMost};
ghost use Rattle.gp_difference.specs.Placement.{DifferFrom, IsAtRest, IsUntidy, PointsAbove, still, lowered, with_fallen};

use crate::anew::make_anew;
use crate::falls::Falls;
use std::alloc::{AllocError, Global};
use std::marker::Model;

/// The places of a graph's points, and the buffers in which they are moved. A run lowers labels, and lists the points
/// that fell; then it either keeps the labels as places or restores them, at these points alone.
#[derive(Drop)]
pub struct Placement {
    places: Vec<i64>,
    labels: Vec<i64>,
    via: Vec<usize>,
    fallen: Vec<usize>,
    falls: Falls,
    walk: Vec<usize>,
}

impl Model for Placement {
    ghost use Rattle.std.specs.Prelude.{◌≤◌, length, vec_capacity};
    ghost use Rattle.gp_difference.specs.Placement.{PlacementForm};

    ghost Value = { PlacementForm };

    ghost view = { λ p. record {
      places = p.places.items;
      labels = p.labels.items;
      via = p.via.items;
      fallen = p.fallen.items;
      falls = p.falls;
      walk = p.walk.items;
    } };

    ghost invariant = { λ p. length p.places.items ≤ vec_capacity p.fallen };
}

impl Placement {
    pub fn new(alloc: Global, places: Vec<i64>) -> Result<Placement, AllocError>
        requires { length places.items ≤ 65536 }
        ensures { IfOk result (λ placement. placement ≡ still places.items) }
    {
        let points = places.len();
        let labels = places.clone()?;
        let via = zeros(alloc, points)?;
        let walk = zeros(alloc, points)?;
        Ok(Placement {
            places,
            labels,
            via,
            fallen: Vec::with_capacity(alloc, points)?,
            falls: Falls::new(alloc, points)?,
            walk,
        })
    }

    pub fn places(&self) -> &[i64]
        ensures { result.now ≡ self.now.places }
    {
        &self.places
    }

    pub fn place(&self, point: usize) -> i64
        requires { point < length self.now.places }
        ensures { result ≡ place_at self.now.places point }
    {
        self.places[point]
    }

    pub fn label(&self, point: usize) -> i64
        requires { point < length self.now.labels }
        ensures { result ≡ place_at self.now.labels point }
    {
        self.labels[point]
    }

    pub fn via(&self, point: usize) -> usize
        requires { point < length self.now.via }
        ensures { result ≡ slice_index self.now.via point }
    {
        self.via[point]
    }

    /// The open point that fell most, where one fell.
    pub fn most(&self) -> Option<usize>
        requires { 0 < length self.now.falls }
        ensures { IsMost self.now.falls result }
    {
        self.falls.most()
    }

    /// The first numbers of the walk.
    pub fn walk(&self, count: usize) -> &[usize]
        requires { count ≤ length self.now.walk }
        ensures { result.now ≡ take count self.now.walk }
    {
        &self.walk[..count]
    }

    /// Forgets which points fell in the run before.
    pub fn begin(&mut self)
        ensures { self.new ≡ record self.old { fallen = [] } }
    {
        self.fallen.clear();
    }

    /// Lowers the label of a point that fell already.
    pub fn lower(&mut self, point: usize, label: i64, number: usize)
        requires places { point < length self.old.places }
        requires labels { point < length self.old.labels }
        requires via { point < length self.old.via }
        requires falls { point < length self.old.falls }
        requires bottom { pos 0 ≤ℤ (label +ℤ pos (2 ^ 62 + 2 ^ 30)) }
        requires below { label ≤ℤ place_at self.old.places point }
        requires top { place_at self.old.places point ≤ℤ pos 0 }
        ensures { self.new ≡ lowered self.old point label number }
    {
        self.labels[point] = label;
        self.via[point] = number;
        self.falls.put(point, self.places[point] - label);
    }

    /// Lowers the label of a point that did not fall yet.
    pub fn fall(&mut self, point: usize, label: i64, number: usize)
        requires places { point < length self.old.places }
        requires labels { point < length self.old.labels }
        requires via { point < length self.old.via }
        requires falls { point < length self.old.falls }
        requires room { length self.old.fallen < length self.old.places }
        requires bottom { pos 0 ≤ℤ (label +ℤ pos (2 ^ 62 + 2 ^ 30)) }
        requires below { label ≤ℤ place_at self.old.places point }
        requires top { place_at self.old.places point ≤ℤ pos 0 }
        ensures { self.new ≡ lowered (with_fallen self.old point) point label number }
    {
        self.fallen.push_reserved(point);
        self.lower(point, label, number);
    }

    /// The point's label is final: its fall is not sought again.
    pub fn close(&mut self, point: usize)
        requires { point < length self.old.falls }
        ensures { self.new ≡ record self.old { falls = slice_set self.old.falls point (pos 0) } }
    {
        self.falls.put(point, 0);
    }

    /// Writes a number of the walk.
    pub fn write_walk(&mut self, index: usize, number: usize)
        requires { index < length self.old.walk }
        ensures { self.new ≡ record self.old { walk = slice_set self.old.walk index number } }
    {
        self.walk[index] = number;
    }

    /// Makes the labels the places.
    pub fn keep(&mut self)
        requires { IsUntidy self.old 0 }
        ensures { self.new ≡ record self.old {
          places = self.old.labels;
          falls = replicate (length self.old.places) (pos 0);
        } }
    {
        copy_at(
            &self.fallen,
            &self.labels,
            &mut self.places,
            &mut self.falls,
        );
    }

    /// Makes the places the labels again.
    pub fn restore(&mut self)
        requires { IsUntidy self.old 0 }
        ensures { self.new ≡ record self.old {
          labels = self.old.places;
          falls = replicate (length self.old.places) (pos 0);
        } }
    {
        copy_at(
            &self.fallen,
            &self.places,
            &mut self.labels,
            &mut self.falls,
        );
    }

    /// Whether the place of a fallen point is below the limit.
    pub fn fell_below(&self, limit: i64) -> bool
        requires { All (λ point. point < length self.now.places) self.now.fallen }
        ensures { MatchBool result (SomeBelow self.now.places limit) (PointsAbove self.now.places self.now.fallen limit) }
    {
        any_at_below(&self.places, &self.fallen, limit)
    }

    /// Makes all places anew.
    pub fn make_anew(&mut self)
        requires rest { IsAtRest self.old }
        requires few { length self.old.places ≤ 65536 }
        requires bottom { (v : ℕ) → pos 0 ≤ℤ (place_at self.old.places v +ℤ pos (2 ^ 62 + 2 ^ 29)) }
        requires top { (v : ℕ) → place_at self.old.places v ≤ℤ pos 0 }
        ensures anew { AreAnew self.old.places self.new.places }
        ensures rest { IsAtRest self.new }
        ensures walk { self.new.walk ≡ self.old.walk }
    {
        make_anew(&self.places, &mut self.labels);
        self.places.copy_from_slice(&self.labels);
    }
}

/// So many zeros.
fn zeros(alloc: Global, count: usize) -> Result<Vec<usize>, AllocError>
    ensures { IfOk result (λ numbers. numbers.items ≡ replicate count 0) }
{
    let mut numbers = Vec::new(alloc);
    numbers.resize(count, 0)?;
    Ok(numbers)
}

/// Copies the numbers at the points, where alone the lists differ, and takes back the falls of these points.
fn copy_at(points: &[usize], from: &[i64], to: &mut [i64], falls: &mut Falls)
    requires size { length to.old ≡ length from.now }
    requires falls { length falls.old ≡ length from.now }
    requires small { All (λ point. point < length from.now) points.now }
    requires others { DifferFrom points.now 0 from.now to.old falls.old }
    ensures to { to.new ≡ from.now }
    ensures falls { falls.new ≡ replicate (length from.now) (pos 0) }
{
    for &point in points {
        to[point] = from[point];
        falls.put(point, 0);
    }
}

/// Whether the place of one of the points is below the limit.
fn any_at_below(places: &[i64], points: &[usize], limit: i64) -> bool
    requires { All (λ point. point < length places.now) points.now }
    ensures { MatchBool result (SomeBelow places.now limit) (PointsAbove places.now points.now limit) }
{
    for &point in points {
        if places[point] < limit {
            return true;
        }
    }
    false
}
