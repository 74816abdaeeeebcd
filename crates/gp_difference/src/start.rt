ghost use Rattle.std.specs.Prelude.{◌≡◌, ◌<◌, ◌≤◌, length, All, IfOk, MatchOption};
ghost use Rattle.gp_difference.specs.Places.{IsEdgeOf, AreFresh};
ghost use Rattle.gp_difference.specs.Start.{IsStart, AreBoundsOf};

use crate::bound::Bound;
use crate::bounds::Bounds;
use gp_clause::Edge;
use std::alloc::{AllocError, Global};

/// No place to begin with is below this.
const LOW: i64 = -(1 << 28);

/// Places to begin with, which keep all edges where those hold no cycle: each point is placed once all points that an
/// edge below zero puts above it are placed. They are a guess: where the edges hold a cycle some may be broken.
pub fn start_places(alloc: Global, points: usize, edges: &[Edge]) -> Result<Vec<i64>, AllocError>
    requires within { All (IsEdgeOf points) edges.now }
    ensures { IfOk result (λ places. IsStart points places.items) }
{
    let bounds = linked(alloc, points, edges)?;
    let places = places_of(alloc, points, edges, &bounds);
    drop(bounds);
    places
}

/// Places to begin with, by the edges and their bounds.
fn places_of(
    alloc: Global,
    points: usize,
    edges: &[Edge],
    bounds: &Bounds,
) -> Result<Vec<i64>, AllocError>
    requires within { All (IsEdgeOf points) edges.now }
    requires bounds { AreBoundsOf points bounds.now }
    ensures { IfOk result (λ places. IsStart points places.items) }
{
    let mut waits = waits_of(alloc, points, edges)?;
    let mut places = Vec::new(alloc);
    places.resize(points, 0)?;
    place_all(alloc, bounds, &mut places, &mut waits)?;
    Ok(places)
}

/// How many edges below zero begin at each point.
fn waits_of(alloc: Global, points: usize, edges: &[Edge]) -> Result<Vec<usize>, AllocError>
    requires within { All (IsEdgeOf points) edges.now }
    ensures { IfOk result (λ waits. length waits.items ≡ points) }
{
    let mut waits = Vec::new(alloc);
    waits.resize(points, 0)?;
    count_waits(edges, &mut waits);
    Ok(waits)
}

/// Places each point once, and after it those that wait for it alone.
fn place_all(
    alloc: Global,
    bounds: &Bounds,
    places: &mut [i64],
    waits: &mut [usize],
) -> Result<(), AllocError>
    requires bounds { AreBoundsOf (length places.old) bounds.now }
    requires fresh { AreFresh places.old }
    requires waits { length waits.old ≡ length places.old }
    ensures { AreFresh places.new }
{
    let mut ready = Vec::new(alloc);
    for point in 0..places.len() {
        add_ready(waits, point, &mut ready)?;
    }
    let mut left = places.len();
    'placing: for _ in 0..places.len() {
        let Some(point) = next(&mut ready, waits, &mut left) else {
            break;
        };
        follow(bounds, point, places, waits, &mut ready)?;
    }
    Ok(())
}

/// Readies the point where it waits for none.
fn add_ready(waits: &[usize], point: usize, ready: &mut Vec<usize>) -> Result<(), AllocError>
    requires point { point < length waits.now }
    requires ready { All (λ point. point < length waits.now) ready.old.items }
    ensures { All (λ point. point < length waits.now) ready.new.items }
{
    if waits[point] > 0 {
        return Ok(());
    }
    ready.push(point)?;
    Ok(())
}

/// The edges, linked by their second points.
fn linked(alloc: Global, points: usize, edges: &[Edge]) -> Result<Bounds, AllocError>
    requires within { All (IsEdgeOf points) edges.now }
    ensures { IfOk result (λ bounds. AreBoundsOf points bounds) }
{
    let mut bounds = Bounds::new(alloc, points)?;
    link_all(edges, &mut bounds)?;
    Ok(bounds)
}

/// Adds the edges to the bounds.
fn link_all(edges: &[Edge], bounds: &mut Bounds) -> Result<(), AllocError>
    requires within { All (IsEdgeOf bounds.old.points) edges.now }
    requires bounds { AreBoundsOf bounds.old.points bounds.old }
    ensures { AreBoundsOf bounds.old.points bounds.new }
{
    for &edge in edges {
        let room = bounds.room();
        bounds.reserve(room.saturating_add(1))?;
        bounds.push(Bound { edge, tag: None });
    }
    Ok(())
}

/// Counts for each point the edges below zero that begin at it.
fn count_waits(edges: &[Edge], waits: &mut [usize])
    requires within { All (IsEdgeOf (length waits.old)) edges.now }
{
    for &edge in edges {
        count_wait(edge, waits);
    }
}

/// Counts an edge at its first point where it is below zero.
fn count_wait(edge: Edge, waits: &mut [usize])
    requires within { IsEdgeOf (length waits.old) edge }
{
    if edge.c < 0 {
        let point = edge.a as usize;
        waits[point] = waits[point].saturating_add(1);
    }
}

/// A point that is ready, or else the last one that still waits, which then waits no more.
fn next(ready: &mut Vec<usize>, waits: &mut [usize], left: &mut usize) -> Option<usize>
    requires ready { All (λ point. point < length waits.old) ready.old.items }
    requires left { left.old ≤ length waits.old }
    ensures point { MatchOption result (Unit {0}) (λ point. point < length waits.new) }
    ensures ready { All (λ point. point < length waits.new) ready.new.items }
    ensures left { left.new ≤ length waits.new }
{
    if let Some(point) = ready.pop() {
        return Some(point);
    }
    while *left > 0 {
        *left -= 1;
        if waits[*left] > 0 {
            waits[*left] = 0;
            return Some(*left);
        }
    }
    None
}

/// Relaxes the edges out of a placed point, and finds the points that are ready then.
fn follow(
    bounds: &Bounds,
    point: usize,
    places: &mut [i64],
    waits: &mut [usize],
    ready: &mut Vec<usize>,
) -> Result<(), AllocError>
    requires bounds { AreBoundsOf (length places.old) bounds.now }
    requires point { point < length places.old }
    requires fresh { AreFresh places.old }
    requires waits { length waits.old ≡ length places.old }
    requires ready { All (λ point. point < length places.old) ready.old.items }
    ensures fresh { AreFresh places.new }
    ensures ready { All (λ point. point < length places.new) ready.new.items }
{
    let mut left = bounds.latest(point);
    while left > 0 {
        let edge = bounds.get(left - 1).edge;
        relax(edge, places);
        if edge.c < 0 && is_last(waits, edge.a as usize) {
            ready.push(edge.a as usize)?;
        }
        left = bounds.earlier(left - 1);
    }
    Ok(())
}

/// Lowers the first point of an edge that the places break.
fn relax(edge: Edge, places: &mut [i64])
    requires within { IsEdgeOf (length places.old) edge }
    requires fresh { AreFresh places.old }
    ensures { AreFresh places.new }
{
    let point = edge.a as usize;
    let place = (places[edge.b as usize] + edge.c).max(LOW);
    if place < places[point] {
        places[point] = place;
    }
}

/// Counts one down at a point that still waits, and says whether it was the last.
fn is_last(waits: &mut [usize], point: usize) -> bool
    requires { point < length waits.old }
{
    if waits[point] == 0 {
        return false;
    }
    waits[point] -= 1;
    waits[point] == 0
}
