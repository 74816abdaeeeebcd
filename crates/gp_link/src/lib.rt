// Linked windows: whether a window can run wholly and end in the start values of the next. To the constraints of a window come
// clauses that say so: the last event of each thread is executed; of each variable that is written some write of the next
// window's start value is the last, after each write of another value; and one that is not written keeps its value.
#![tactic(auto)]

mod fault;
mod last_events;
mod last_writes;
mod laws;
mod link;
mod problem;
mod variables;

pub use fault::LinkFault;
pub use laws::{encodes_examples, links_are_complete, links_are_sound, links_are_valid};
pub use problem::link_problem;
