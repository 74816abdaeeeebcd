ghost use Rattle.std.specs.Prelude.{◌≡◌, ◌++◌, IfOk, OnOk};
ghost use Rattle.gp_cycle.specs.Cycle.{cycle_events, events_behind, order_events};

use crate::order::Order;
use gp_base::Row;
use gp_window::EventId;
use std::alloc::{AllocError, Global};

/// The events of a cycle, in order: both of each of its orders, but where an order begins with the event with which the one before
/// ends, that is told once.
pub fn cycle_events(alloc: Global, cycle: &[Order]) -> Result<Row<EventId>, AllocError>
    ensures { IfOk result (λ events. events ≡ cycle_events cycle.now) }
{
    match cycle.last() {
        Some(last) => events_behind(alloc, last.other, cycle),
        None => Ok(Row::new(alloc)),
    }
}

fn events_behind(
    alloc: Global,
    before: EventId,
    orders: &[Order],
) -> Result<Row<EventId>, AllocError>
    ensures { IfOk result (λ events. events ≡ events_behind before orders.now) }
{
    let mut events = Row::new(alloc);
    let mut last = before;
    for order in orders {
        push_events(&mut events, last, *order)?;
        last = order.other;
    }
    Ok(events)
}

/// Adds the events of an order, but not the one before it.
fn push_events(events: &mut Row<EventId>, before: EventId, order: Order) -> Result<(), AllocError>
    ensures { OnOk result (events.new ≡ events.old ++ order_events before order) }
{
    if order.one == before {
        return events.push(order.other);
    }
    events.push(order.one)?;
    events.push(order.other)
}
