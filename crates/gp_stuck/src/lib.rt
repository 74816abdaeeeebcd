// Deadlocks: the cycles of waiting threads of a window, and what a feasible schedule has to do with them. In a cycle two to four
// threads wait for each other: each is to take a lock that the thread after it, just before its own event, holds in a way that
// excludes it. A cycle is stuck where some feasible schedule ends with each thread just before its event.
#![tactic(auto)]

mod closing;
mod cycle_query;
mod event;
mod first;
mod holder;
mod holding;
mod laws;
mod link;
mod links;
mod listing;
mod narrowing;
mod noting;
mod search;
mod waiting;

pub use cycle_query::stuck_query;
pub use laws::{
    cycles_are_listed, cycles_block, lists_examples, stuck_answers_are_sound,
    stuck_cycles_wait_for_ever, stuck_queries_are_valid, stuck_schedules_are_complete,
};
pub use listing::cycles;
pub use search::MOST_CYCLES;
