// The constraints of a window, and the query of an instance. Each event of a window is a point, which gets a place in
// time. First come clauses over symbols: an event is executed; one event is before another; a read sees a write, or the
// start value; of two sections of a lock the first comes first. A symbol with a constant value, such as the order of two
// events of one thread, is taken out. Then each symbol becomes a variable, numbered at its first mention. A family of
// clauses is a file of its own: program order, starts, joins, what a read sees, sections, locks held at the start.
#![tactic(auto)]

mod action;
mod adding;
mod base_family;
mod encoded;
mod extending;
mod extension;
mod families;
mod family;
mod fault;
mod groups;
mod held_locks;
mod instance_query;
mod joins;
mod laws;
mod limited;
mod naming;
mod numbering;
mod numbering_laws;
mod numbers;
mod point;
mod points;
mod program_order;
mod query_names;
mod reads;
mod section;
mod sections;
mod starts;
mod symbol;
mod term;
mod window_base;

pub use action::Action;
pub use base_family::{BaseFamily, family_size};
pub use encoded::Encoded;
pub use extending::{ExtendedProblem, extended};
pub use extension::{Extension, extended_beside};
pub use family::Family;
pub use fault::{BaseFault, Full, MOST_CLAUSES, MOST_POINTS};
pub use groups::Groups;
pub use instance_query::{query, query_symbols};
pub use laws::{
    answers_mean, extensions_mean, models_extend, problems_are_valid, truths_are_numbered,
};
pub use limited::LimitedClauses;
pub use numbering_laws::points_come_first;
pub use point::Point;
pub use points::Points;
pub use symbol::{Symbol, SymbolicLit};
pub use term::{Term, before, executed, literal};
pub use window_base::base;
