ghost use Rattle.std.specs.Prelude.{◌≡◌};

use crate::operation::Operation;
use gp_text::Name;
use std::alloc::AllocError;
use std::mem::size_of;

/// What one thread did at one step of the recorded run.
#[derive(Drop)]
pub enum Event {
    /// Read this variable, and found this value.
    Read(Name, i64),
    /// Wrote this value to this variable.
    Write(Name, i64),
    /// Took this lock.
    Acquire(Name),
    /// Gave this lock back.
    Release(Name),
    /// Took this lock as a reader.
    RAcquire(Name),
    /// Gave this lock back as a reader.
    RRelease(Name),
    /// Started the thread of this number.
    Start(u32),
    /// Waited for the end of the thread of this number.
    Join(u32),
    /// Did this operation, on four objects at the most.
    Op(Operation),
    /// Began this region.
    Begin(Name),
    /// Ended this region, the innermost one.
    End(Name),
}

impl Clone for Event {
    ghost is_clone = { λ event copy. copy ≡ event };

    fn clone(&self) -> Result<Event, AllocError> {
        match self {
            Event::Read(name, value) => Ok(Event::Read(*name, *value)),
            Event::Write(name, value) => Ok(Event::Write(*name, *value)),
            Event::Acquire(lock) => Ok(Event::Acquire(*lock)),
            Event::Release(lock) => Ok(Event::Release(*lock)),
            Event::RAcquire(lock) => Ok(Event::RAcquire(*lock)),
            Event::RRelease(lock) => Ok(Event::RRelease(*lock)),
            Event::Start(thread) => Ok(Event::Start(*thread)),
            Event::Join(thread) => Ok(Event::Join(*thread)),
            Event::Op(operation) => Ok(Event::Op(operation.clone()?)),
            Event::Begin(region) => Ok(Event::Begin(*region)),
            Event::End(region) => Ok(Event::End(*region)),
        }
    }
}

// A window can have tens of millions of events.
const _: () = prove!(size_of::<Event>() <= 48);
