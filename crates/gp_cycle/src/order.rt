ghost use Rattle.std.specs.Prelude.{◌≡◌};
ghost use Rattle.gp_cycle.specs.Cycle.{leads};

use gp_window::EventId;

/// That one event is before another.
#[derive(Clone, Copy)]
pub struct Order {
    pub one: EventId,
    pub other: EventId,
}

impl Order {
    /// Whether the other event of this order is the first of the next, or is before that in the same thread.
    pub fn leads(self, next: Order) -> bool
        ensures { result ≡ leads self next }
    {
        self.other.thread == next.one.thread && self.other.index <= next.one.index
    }
}
