use gp_trace::LockMode;
use gp_window::EventId;

/// An event that takes a lock, and how its thread holds another lock just before it.
#[derive(Clone, Copy)]
pub struct Holder {
    pub id: EventId,
    pub mode: LockMode,
}
