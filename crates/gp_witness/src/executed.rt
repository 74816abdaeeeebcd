ghost use Rattle.std.specs.Prelude.{◌≡◌, ◌+◌, ◌<◌, ◌^◌, ◌++◌, flat_map, length, map, IfOk, OnOk};
ghost use Rattle.gp_clause.specs.Valuation.{place_of, truth_of};
ghost use Rattle.gp_constraint.specs.Points.{points_in, points_of};
ghost use Rattle.gp_witness.specs.Placed.{placed_at, placed_of};
ghost use Rattle.gp_witness.specs.Witness.{IsByPlace};

use gp_base::Row;
use gp_clause::Valuation;
use gp_trace::Event;
use gp_window::{EventId, Schedule, Window, windows_are_formed};
use std::alloc::{AllocError, Global};

/// An executed event, and the place that the answer gives it.
#[derive(Clone, Copy)]
pub struct Placed {
    pub place: i64,
    pub id: EventId,
}

/// The executed events of an answer, in the order of their places; of those at one place, in the order of thread and
/// index. Takes the time of a sort.
pub fn executed_events(
    alloc: Global,
    window: &Window,
    valuation: &Valuation,
) -> Result<Schedule, AllocError>
    ensures { IfOk result (λ schedule. IsByPlace window.now valuation.now schedule.events) }
{
    let mut placed = placed_events(alloc, window, valuation)?;
    placed.sort_unstable_by_key(|event| (event.place, event.id.thread, event.id.index));
    let events = ids_of(alloc, placed.as_slice())?;
    Ok(Schedule { events })
}

fn ids_of(alloc: Global, placed: &[Placed]) -> Result<Row<EventId>, AllocError>
    ensures { IfOk result (λ ids. ids ≡ map (λ event. event.id) placed.now) }
{
    let mut ids = Row::new(alloc);
    for event in placed {
        ids.push(event.id)?;
    }
    Ok(ids)
}

/// The executed events of a window with their places, in the order of thread and index.
fn placed_events(
    alloc: Global,
    window: &Window,
    valuation: &Valuation,
) -> Result<Vec<Placed>, AllocError>
    ensures { IfOk result (λ placed. placed.items ≡ flat_map (placed_of valuation.now) (points_of window.now)) }
{
    windows_are_formed();
    let mut placed = Vec::new(alloc);
    let mut number = 0;
    for (place, segment) in window.segments().iter().enumerate() {
        let thread = place as u32 + 1;
        add_placed(&mut placed, valuation, thread, number, segment.as_slice())?;
        number += segment.len();
    }
    Ok(placed)
}

/// Adds the executed events of a thread, the first of which has this number.
fn add_placed(
    placed: &mut Vec<Placed>,
    valuation: &Valuation,
    thread: u32,
    number: usize,
    events: &[Event],
) -> Result<(), AllocError>
    requires short { length events.now < 2 ^ 32 }
    requires fits { number + length events.now < 2 ^ 64 }
    ensures { OnOk result (placed.new.items ≡ placed.old.items ++ flat_map (placed_of valuation.now) (points_in thread 0 number events.now)) }
{
    for (index, _event) in events.iter().enumerate() {
        let id = EventId {
            thread,
            index: index as u32,
        };
        put_placed(placed, valuation, number + index, id)?;
    }
    Ok(())
}

/// Adds the event of this number, where it is executed.
fn put_placed(
    placed: &mut Vec<Placed>,
    valuation: &Valuation,
    number: usize,
    id: EventId,
) -> Result<(), AllocError>
    ensures { OnOk result (placed.new.items ≡ placed.old.items ++ placed_at valuation.now number id) }
{
    if !truth_of(valuation, number) {
        return Ok(());
    }
    let place = place_of(valuation, number);
    placed.push(Placed { place, id })?;
    Ok(())
}

fn truth_of(valuation: &Valuation, variable: usize) -> bool
    ensures { result ≡ truth_of valuation.now variable }
{
    valuation
        .truth
        .as_slice()
        .get(variable)
        .copied()
        .unwrap_or(false)
}

fn place_of(valuation: &Valuation, point: usize) -> i64
    ensures { result ≡ place_of valuation.now point }
{
    valuation.places.as_slice().get(point).copied().unwrap_or(0)
}
