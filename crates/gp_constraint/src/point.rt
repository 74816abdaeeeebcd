use crate::action::Action;
use gp_window::EventId;

/// An event of a window, with its number among all of the window's events in the order of thread and index.
#[derive(Clone, Copy)]
pub struct Point {
    pub number: u32,
    pub id: EventId,
    pub action: Action,
}
