ghost use Rattle.gp_derivation.specs.Exchange.{FitIsGood, GoodFollows};

use gp_certificate::{Certificate, certificate_follows};
use gp_clause::Clause;
use std::sync::Arc;

/// A clause that one search passes to another over the same problem, with its sender's number and a certificate of it.
#[derive(Drop)]
pub struct SharedClause {
    pub sender: u32,
    pub clause: Clause,
    pub certificate: Arc<Certificate>,
}

/// A law: in a log whose entries pass, the clause of an entry that is fit to share is good by its cone.
pub fn fit_is_good()
    ensures { FitIsGood }
{}

/// A law: a clause that is good for a problem follows from it.
pub fn good_follows()
    ensures { GoodFollows }
{
    certificate_follows();
}
