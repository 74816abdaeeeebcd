ghost use Rattle.std.specs.Prelude.{◌≡◌, ◌<◌, ◌≤◌, ◌↔◌, ℕ, IfOk, IsTrue, false, length};
ghost use Rattle.gp_cycle.specs.DeadEnds.{AreCounts, IsDeadEnd, SparesCycles, StopsAt};

use crate::order::Order;
use std::alloc::{AllocError, Global};

/// For each order how many first orders it does not go on by: it does not lead to them, or they are dead ends. It is a dead end where
/// it goes on by none, and then no cycle leads through it.
///
/// It takes the square of the number of orders, since no count ever falls.
pub(crate) fn dead_ends(alloc: Global, orders: &[Order]) -> Result<Vec<usize>, AllocError>
    ensures { IfOk result (λ counts. SparesCycles orders.now counts.items) }
{
    let mut counts = Vec::new(alloc);
    counts.resize(orders.len(), 0)?;
    count_all(orders, counts.as_mut_slice());
    Ok(counts)
}

/// Whether the order at a place is a dead end.
pub(crate) fn is_dead_end(orders: &[Order], counts: &[usize], place: usize) -> bool
    ensures { IsTrue result ↔ IsDeadEnd orders.now counts.now place }
{
    match counts.get(place) {
        Some(count) => *count >= orders.len(),
        None => orders.is_empty(),
    }
}

/// Counts on until there is no further dead end.
fn count_all(orders: &[Order], counts: &mut [usize])
    requires { AreCounts orders.now counts.old }
    ensures { AreCounts orders.now counts.new }
{
    for _round in 0..orders.len() {
        if !count_each(orders, counts) {
            return;
        }
    }
}

/// Counts on for each order. Tells whether there are further dead ends.
fn count_each(orders: &[Order], counts: &mut [usize]) -> bool
    requires { AreCounts orders.now counts.old }
    ensures { AreCounts orders.now counts.new }
{
    let mut is_more = false;
    for place in 0..orders.len() {
        is_more = count(orders, counts, place) || is_more;
    }
    is_more
}

/// Counts on for the order at a place. Tells whether it has become a dead end.
fn count(orders: &[Order], counts: &mut [usize], place: usize) -> bool
    requires within { place < length orders.now }
    requires counts { AreCounts orders.now counts.old }
    ensures { AreCounts orders.now counts.new }
{
    if is_dead_end(orders, counts, place) {
        return false;
    }
    let next = next_place(orders, counts, orders[place], counts[place]);
    counts[place] = next;
    next == orders.len()
}

/// The place, from this one on, of the first order by which an order goes on, or the number of orders.
fn next_place(orders: &[Order], counts: &[usize], order: Order, from: usize) -> usize
    requires { (place : ℕ) → place < from → StopsAt orders.now counts.now order place }
    ensures { (place : ℕ) → place < result → StopsAt orders.now counts.now order place }
{
    for place in from..orders.len() {
        if goes_on(orders, counts, order, place) {
            return place;
        }
    }
    orders.len()
}

/// Whether an order leads to the one at a place, and that is no dead end.
fn goes_on(orders: &[Order], counts: &[usize], order: Order, place: usize) -> bool
    requires { place < length orders.now }
    ensures { result ≡ false → StopsAt orders.now counts.now order place }
{
    order.leads(orders[place]) && !is_dead_end(orders, counts, place)
}
