// The language that the solver crates share. A problem has points, each of which gets an integer place, and variables,
// each of which is true or false. An edge bounds the difference of two places. A variable of kind Order or Span is true
// exactly where two places stand in a certain way, and a free variable stands for nothing else. A literal is a variable
// or its negation, and a clause is true where one of its literals is. A query adds variables of its own, the locals, and
// literals that it assumes. A clause follows from others where each valuation that makes them true makes it true.
#![tactic(auto)]

mod clause;
mod closure;
mod edge;
mod follows;
mod kind;
mod lit;
mod problem;
mod valuation;
mod walk;

pub use clause::{BadClause, Clause, clauses_are_few, names_below, true_or_false};
pub use closure::{closure_is_least, derived_means};
pub use edge::Edge;
pub use follows::{follows_from_more, follows_through, locals_change_nothing, members_follow};
pub use kind::Kind;
pub use lit::{Lit, opposite_means};
pub use problem::{Problem, Query};
pub use valuation::{Valuation, bounds_mean, valuations_extend, valuations_meet};
pub use walk::keeping_leaves_no_cycle;
