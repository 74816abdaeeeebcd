// The public calls of the solver side, each handed on by a function that promises what the call promises. The wrong bodies that
// turn what a call means stand here, in a crate that is proved in seconds, so that the crates below are proved once.
#![tactic(auto)]

mod certificates;
mod clauses;
mod cones;
mod graphs;
mod inboxes;
mod queues;
mod searches;
mod solvers;
mod tickets;
mod workers;

pub use certificates::{check_certificate, check_shared, first_to_fail};
pub use clauses::{bound, clause_of};
pub use cones::{cone, small_cone, tighten};
pub use graphs::{assert, graph, undo_to};
pub use inboxes::{offer, rejoin, renew, take};
pub use queues::{grow, to_front};
pub use searches::ask;
pub use solvers::{analyse, attach, backjump, propagate};
pub use tickets::{draw, in_order, take_drawn};
pub use workers::{certificate_by, work_all, work_in_turn, work_one};
