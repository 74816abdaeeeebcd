// That reasons are right. The constraints of a window alone are never contradictory, so the reason why an instance is impossible
// assumes something of it. What it tells, step by step, is true of each feasible schedule of the window. And a step has a cycle
// wherever orders of events lead round.
#![tactic(auto)]

mod laws;

pub use laws::{cycles_are_told, grounds_are_told, something_is_assumed, steps_are_true};
