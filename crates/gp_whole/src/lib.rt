// Schedules of several windows, one after another. A schedule links a window to the next where it can happen in the
// window, has each of its events, and leaves each variable the value with which the next window begins; the locks and the
// started threads are then those of the next window too. So schedules that link one window after another, and any feasible
// schedule of the window after them, replay from the recording's very start: between two windows only the counts begin
// again.
#![tactic(auto)]

mod laws;

pub use laws::{
    found_schedules_replay, linked_schedules_replay, links_lead_on, starts_of_recordings,
};
