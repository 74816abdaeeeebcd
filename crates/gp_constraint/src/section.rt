use crate::point::Point;
use gp_text::Name;
use gp_trace::LockMode;

/// What a thread does while it holds a lock.
#[derive(Clone, Copy)]
pub struct Section {
    /// The event that takes the lock.
    pub begin: Point,
    pub mode: LockMode,
    pub lock: Name,
    /// The event that gives the lock back, where the thread does so in the window.
    pub end: Option<Point>,
}
