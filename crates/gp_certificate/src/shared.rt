ghost use Rattle.gp_certificate.specs.Shared.{RefutedOverMeans, SharedFollows, SharesNothing};

use gp_clause::{bounds_mean, derived_means, keeping_leaves_no_cycle, true_or_false};

/// A law: over the empty list, checking and refuting are what they are without a list.
pub fn shares_nothing()
    ensures { SharesNothing }
{}

/// A law: each clause of a shared list that passes follows from the problem, and so does each clause of a certificate
/// that checks over it.
pub fn shared_follows()
    ensures { SharedFollows }
{
    derived_means();
    bounds_mean();
    keeping_leaves_no_cycle();
    true_or_false();
}

/// A law: nothing makes a problem and a query true that a certificate refutes over a shared list.
pub fn refuted_over_means()
    ensures { RefutedOverMeans }
{
    derived_means();
    bounds_mean();
    keeping_leaves_no_cycle();
    true_or_false();
}
