// From a valuation of a window's constraints to a schedule, and back. The constraints say of the events which are
// executed, at which places, and what each read sees. A feasible schedule that matches an instance makes the constraints
// and the query true; and where they are true, the executed events in the order of their places are such a schedule.
#![tactic(auto)]

mod cutting;
mod encoded_laws;
mod executed;
mod laws;
mod schedules;
mod sound;

pub use encoded_laws::{law_base, law_complete, law_sound};
pub use executed::executed_events;
pub use laws::schedules_are_complete;
pub use schedules::{executed_of, schedule_of};
pub use sound::witnesses_are_sound;
