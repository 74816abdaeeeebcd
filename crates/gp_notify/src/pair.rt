use gp_window::EventId;

/// A wake, and the signal that woke it.
#[derive(Clone, Copy, PartialEq, Eq)]
pub struct Pair {
    pub wake: EventId,
    pub signal: EventId,
}
