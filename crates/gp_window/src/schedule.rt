ghost use Rattle.std.specs.Prelude.{◌≡◌};
ghost use Rattle.gp_window.specs.Ids.{contains_event, is_less};

use gp_base::Row;

/// An event of a window: the number of its thread, and its place in the thread's segment, from 0.
#[derive(Clone, Copy, Debug, PartialEq, Eq, PartialOrd, Ord)]
pub struct EventId {
    pub thread: u32,
    pub index: u32,
}

/// Events of a window, in the order in which they are to happen.
#[derive(Drop)]
pub struct Schedule {
    pub events: Row<EventId>,
}

impl EventId {
    /// Whether this event stands before another, by thread and then index.
    pub fn is_less(self, other: EventId) -> bool
        ensures { result ≡ is_less self other }
    {
        self.thread < other.thread || (self.thread == other.thread && self.index < other.index)
    }
}

/// Whether an event is one of these.
pub fn contains_event(events: &[EventId], id: EventId) -> bool
    ensures { result ≡ contains_event events.now id }
{
    events.iter().any(|other| *other == id)
}
