// The check of a report of deadlocks, which trusts nobody: not the one who wrote it, and no solver.
//
// The checker makes the constraints of each window anew and lists its cycles anew. It replays each schedule and sees that the threads
// of its cycle have come just before their events, and tests each step of each certificate. So what it accepts is true.
#![tactic(auto)]

mod answer;
mod checking;
mod entries;
mod laws;
mod property;
mod schedule;
mod window;

pub use checking::check_deadlocks;
pub use laws::accepted_deadlocks_are_true;
