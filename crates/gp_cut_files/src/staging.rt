ghost use Rattle.std.specs.Prelude.{◌≡◌, ◌++◌, IfOk, OnOk, map};
ghost use Rattle.gp_cut.specs.Cut.{staged, taking};
ghost use Rattle.gp_trace.specs.declared.event.Event.TheVariants.{Begin};

use gp_base::{Row, Table};
use gp_text::Name;
use gp_trace::{Event, LockMode, Standing};
use std::alloc::{AllocError, Global};

/// The events that bring a thread where it stands: it takes its locks, and begins its regions.
pub(crate) fn staged(alloc: Global, standing: &Standing) -> Result<Row<Event>, AllocError>
    ensures { IfOk result (λ events. events ≡ staged standing.now) }
{
    let mut events = Row::new(alloc);
    put_takings(&mut events, &standing.held)?;
    put_beginnings(&mut events, standing.begun.as_slice())?;
    Ok(events)
}

fn put_takings(events: &mut Row<Event>, held: &Table<Name, LockMode>) -> Result<(), AllocError>
    ensures { OnOk result (events.new ≡ events.old ++ map taking held.now) }
{
    for (lock, mode) in held.iter() {
        events.push(taking(*lock, *mode))?;
    }
    Ok(())
}

fn taking(lock: Name, mode: LockMode) -> Event
    ensures { result ≡ taking (lock, mode) }
{
    match mode {
        LockMode::Exclusive => Event::Acquire(lock),
        LockMode::Shared => Event::RAcquire(lock),
    }
}

fn put_beginnings(events: &mut Row<Event>, begun: &[Name]) -> Result<(), AllocError>
    ensures { OnOk result (events.new ≡ events.old ++ map Begin begun.now) }
{
    for region in begun {
        events.push(Event::Begin(*region))?;
    }
    Ok(())
}
