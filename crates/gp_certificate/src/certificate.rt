ghost use Rattle.gp_certificate.specs.Certificate.{CertificateFollows, RefutedMeans, ChecksWithoutLocals};

use crate::step::Step;
use gp_base::Row;
use gp_clause::{
    bounds_mean, derived_means, keeping_leaves_no_cycle, locals_change_nothing, true_or_false,
};

/// Steps, each of which may use the base clauses and the steps before it.
#[derive(Drop)]
pub struct Certificate {
    pub steps: Row<Step>,
}

/// A law: each clause of a certificate that checks follows from the problem.
pub fn certificate_follows()
    ensures { CertificateFollows }
{
    derived_means();
    bounds_mean();
    keeping_leaves_no_cycle();
    true_or_false();
    locals_change_nothing();
}

/// A law: nothing makes a problem and a query true that a certificate refutes.
pub fn refuted_means()
    ensures { RefutedMeans }
{
    derived_means();
    bounds_mean();
    keeping_leaves_no_cycle();
    true_or_false();
}

/// A law: a certificate that checks for a query and has problem variables only checks for the empty query.
pub fn checks_without_locals()
    ensures { ChecksWithoutLocals }
{}
