use crate::paired::Paired;
use gp_base::Row;
use gp_report::WindowRecordOf;
use gp_window::EventId;

/// A window that is left out, and the first wake of it before which its thread does not sleep.
#[derive(Drop)]
pub struct Unpaired {
    pub window: u32,
    pub wake: EventId,
}

/// What is answered for each window of a recording, in order, with the budget of each query, and the windows that are left out
/// since a wake has no sleep. Such a window has a record without properties.
#[derive(Drop)]
pub struct NotifyReport {
    pub budget: u64,
    pub windows: Row<WindowRecordOf<Paired>>,
    pub unpaired: Row<Unpaired>,
}
