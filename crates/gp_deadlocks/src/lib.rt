// Deadlocks: the question which cycles of waiting threads are stuck in each window of a recording, and the report that answers
// it. Each cycle is answered once, by a schedule that ends with its threads blocking one another, by a certificate that none
// does, or by the part of a worker's log that spent the budget.
#![tactic(auto)]

mod analysing;
mod deadlocks;
mod laws;

pub use analysing::{analyse, too_much};
pub use deadlocks::Deadlocks;
pub use laws::stuck_cycles_are_answered;
