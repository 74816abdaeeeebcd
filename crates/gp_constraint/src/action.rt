ghost use Rattle.std.specs.Prelude.{◌≡◌};
ghost use Rattle.gp_constraint.specs.Action.{action_of};

use gp_text::Name;
use gp_trace::{Event, LockUse};

/// What an event does to a variable, to a lock or to a thread.
#[derive(Clone, Copy)]
pub enum Action {
    Read(Name, i64),
    Write(Name, i64),
    Lock(LockUse),
    Start(u32),
    Join(u32),
    /// None of these: an operation, or the begin or end of a region.
    Other,
}

impl Action {
    pub fn of(event: &Event) -> Action
        ensures { result ≡ action_of event.now }
    {
        match event {
            Event::Read(name, value) => Action::Read(*name, *value),
            Event::Write(name, value) => Action::Write(*name, *value),
            Event::Start(thread) => Action::Start(*thread),
            Event::Join(thread) => Action::Join(*thread),
            _ => match event.lock_use() {
                Some(lock_use) => Action::Lock(lock_use),
                None => Action::Other,
            },
        }
    }
}
