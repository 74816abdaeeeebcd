// Resumed analysis: the question which instances of properties are possible, where an old report may have answered some. What
// still stands of the old answers is kept, over the shared steps that still pass, and the other instances are asked.
#![tactic(auto)]

mod analysing;
mod laws;
mod naming;
mod numbered;
mod resumed;

pub use analysing::{analyse, too_much};
pub use laws::old_answers_are_told;
