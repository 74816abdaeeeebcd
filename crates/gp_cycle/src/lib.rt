// A cycle of events by which a clause follows, for people who read why. From the negations of the clause's literals other clauses
// force literals, one after another (`forced`). Where a literal says that one event is before another, it is an order, and orders
// that lead from one to the next, along threads, may lead round (`cycle_of`): then the events on the way cannot all be as the
// orders say (`cycle_events`).
#![tactic(auto)]

mod cycles;
mod ends;
mod events;
mod forcing;
mod known;
mod laws;
mod levels;
mod order;

pub use cycles::cycle_of;
pub use events::cycle_events;
pub use forcing::forced;
pub use laws::{
    cycle_events_go_round, cycles_are_cycles, cycles_are_found, forced_is_derived, gives_examples,
};
pub use order::Order;
