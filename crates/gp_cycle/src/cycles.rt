ghost use Rattle.std.specs.Prelude.{◌≡◌, ◌<◌, ◌∷◌, IfOk, length, slice_get};
ghost use Rattle.gp_cycle.specs.declared.order.Order.{Order};
ghost use Rattle.gp_cycle.specs.Cycle.{cycle_at, cycle_of, shortest};
ghost use Rattle.gp_cycle.specs.DeadEnds.{SparesCycles};
ghost use Rattle.gp_cycle.specs.Levels.{first_levels};

use crate::ends::{dead_ends, is_dead_end};
use crate::levels::Levels;
use crate::order::Order;
use gp_base::Row;
use std::alloc::{AllocError, Global};

/// A cycle of orders, each of which leads to the next and the last to the first: the shortest one through the first order that has
/// one, and of these the one that goes on by the first order that it can.
///
/// It takes the square of their number, and as much again for each order that is tried in vain: one that leads on to a cycle and lies
/// on none.
pub fn cycle_of(alloc: Global, orders: &[Order]) -> Result<Option<Row<Order>>, AllocError>
    ensures { IfOk result (λ cycle. cycle ≡ cycle_of orders.now) }
{
    let counts = dead_ends(alloc, orders)?;
    for place in 0..orders.len() {
        if let Some(cycle) = cycle_from(alloc, orders, counts.as_slice(), place)? {
            return Ok(Some(cycle));
        }
    }
    Ok(None)
}

/// The shortest cycle through the order at a place, which has none where it is a dead end.
fn cycle_from(
    alloc: Global,
    orders: &[Order],
    counts: &[usize],
    place: usize,
) -> Result<Option<Row<Order>>, AllocError>
    requires within { place < length orders.now }
    requires spares { SparesCycles orders.now counts.now }
    ensures { IfOk result (λ cycle. (order : Order) → slice_get orders.now place ≡ Some order → cycle ≡ cycle_at orders.now order) }
{
    if is_dead_end(orders, counts, place) {
        return Ok(None);
    }
    cycle_at(alloc, orders, orders[place])
}

/// The shortest cycle through an order, where there is one.
fn cycle_at(alloc: Global, orders: &[Order], order: Order) -> Result<Option<Row<Order>>, AllocError>
    ensures { IfOk result (λ cycle. cycle ≡ cycle_at orders.now order) }
{
    match shortest(alloc, orders, order)? {
        Some(chain) => Ok(Some(with_first(alloc, order, chain.as_slice())?)),
        None => Ok(None),
    }
}

fn with_first(alloc: Global, order: Order, chain: &[Order]) -> Result<Row<Order>, AllocError>
    ensures { IfOk result (λ cycle. cycle ≡ order ∷ chain.now) }
{
    let mut cycle = Vec::new(alloc);
    cycle.push(order)?;
    cycle.extend_from_slice(chain)?;
    Ok(Row::from_vec(cycle))
}

/// The shortest chain from an order back to itself, where there is one.
fn shortest(alloc: Global, orders: &[Order], order: Order) -> Result<Option<Row<Order>>, AllocError>
    ensures { IfOk result (λ chain. chain ≡ shortest orders.now (length orders.now) 0 order order) }
{
    let mut levels = Levels::new(alloc, orders, order)?;
    let chain = shortest_by(alloc, orders, order, &mut levels);
    drop(levels);
    chain
}

/// The same by levels, of which there is none yet.
fn shortest_by(
    alloc: Global,
    orders: &[Order],
    order: Order,
    levels: &mut Levels,
) -> Result<Option<Row<Order>>, AllocError>
    requires { levels.old ≡ first_levels orders.now order }
    ensures { IfOk result (λ chain. chain ≡ shortest orders.now (length orders.now) 0 order order) }
{
    for _count in 0..orders.len() {
        if let Some(chain) = levels.chain(alloc, order)? {
            return Ok(Some(chain));
        }
        levels.add_level(alloc)?;
        if levels.is_over() {
            return Ok(None);
        }
    }
    Ok(None)
}
