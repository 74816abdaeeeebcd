// Certificates and their test: all that vouches for the answer that nothing meets a problem and a query. A step is a
// clause that passes with some clauses: unit clauses carry the negation of its literals to a false clause or to a negative
// cycle of the fixed edges and the bounds of what they derive. A certificate is a list of steps, each of which passes with
// clauses of the problem, of a list of steps that it may share with others, and of earlier steps, so that each clause of
// it follows from the problem.
#![tactic(auto)]

mod assignment;
mod bench;
mod certificate;
mod check;
mod clause_list;
mod judge;
mod level;
mod loaded;
mod places;
mod shared;
mod step;

pub use bench::Bench;
pub use certificate::{Certificate, certificate_follows, checks_without_locals, refuted_means};
pub use check::{check_certificate, check_shared};
pub use judge::Judge;
pub use shared::{refuted_over_means, shared_follows, shares_nothing};
pub use step::{Step, more_passes, passing_follows};
