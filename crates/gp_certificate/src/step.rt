ghost use Rattle.gp_certificate.specs.Step.{PassingFollows, MorePasses};

use gp_base::Row;
use gp_clause::{Clause, bounds_mean, derived_means, keeping_leaves_no_cycle, true_or_false};

/// A clause, and the numbers of the clauses that it was derived from: a number below that of the base clauses names a
/// base clause, and a greater one an earlier step, or in a log an earlier entry. In a certificate a step without hints
/// may use every clause before it, but not the steps that the certificates of a window share.
#[derive(Drop)]
pub struct Step {
    pub clause: Clause,
    pub hints: Row<u32>,
}

/// A law: a clause that passes with some clauses follows from them.
pub fn passing_follows()
    ensures { PassingFollows }
{
    derived_means();
    bounds_mean();
    keeping_leaves_no_cycle();
    true_or_false();
}

/// A law: more clauses and more literals leave a clause that passes passing.
pub fn more_passes()
    ensures { MorePasses }
{}
