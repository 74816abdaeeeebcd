// What may stand beside a report for people: where in the program each event of the recording is, and which instances were seen to happen.
// Both are told by texts that others made: a place has a file, a line and a function, a sighting a text for an instance.
#![tactic(auto)]

mod beside;
mod places;

pub use beside::{Beside, Sighting};
pub use places::{Place, Places, place_at, put_behind, put_named};
