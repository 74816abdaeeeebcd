ghost use Rattle.std.specs.Prelude.{◌≡◌, ◌↔◌, true, IsTrue, IfOk, All, Contains};
ghost use Rattle.gp_clause.specs.Lit.{opposite};
ghost use Rattle.gp_clause.specs.Problem.{IsValidQuery};
ghost use Rattle.gp_constraint.specs.Base.{base_of};
ghost use Rattle.gp_constraint.specs.Query.{query_of};
ghost use Rattle.gp_instance.specs.Instance.{is_instance};
ghost use Rattle.gp_checker.specs.Accepted.{RefutesAtLast};
ghost use Rattle.gp_checker.specs.Finds.{FindsCertificate};

use crate::checker::Checker;
use crate::failure::{Failure, Reason};
use gp_certificate::{Certificate, Step};
use gp_clause::{Lit, Query};
use gp_instance::Instance;
use gp_property::Property;
use std::alloc::{AllocError, Global};

impl<'a> Checker<'a> {
    // How the certificate of an instance fails.
    pub(crate) fn check_certificate(
        &mut self,
        alloc: Global,
        property: &Property,
        instance: &Instance,
        certificate: &Certificate,
    ) -> Result<Option<Failure>, AllocError>
        requires { is_instance self.old.window property.now instance.now.events ≡ true }
        ensures found { IfOk result (FindsCertificate self.old (query_of self.old.window property.now instance.now.events) certificate.now) }
        ensures same { self.new ≡ self.old }
    {
        let query = self.query(alloc, property, instance)?;
        self.check_steps(&query, certificate)
    }

    /// How a certificate fails for a query: a step does, or the last one does not refute it.
    pub fn check_steps(
        &mut self,
        query: &Query,
        certificate: &Certificate,
    ) -> Result<Option<Failure>, AllocError>
        requires { IsValidQuery (base_of self.old.window) query.now }
        ensures found { IfOk result (FindsCertificate self.old query.now certificate.now) }
        ensures same { self.new ≡ self.old }
    {
        if let Some(place) = self.first_to_fail(query, certificate)? {
            return Ok(Some(Failure::of(Reason::BadStep, place)));
        }
        if !refutes_at_last(query, certificate.steps.as_slice()) {
            return Ok(Some(Failure::of(Reason::Unrefuted, 0)));
        }
        Ok(None)
    }
}

// Whether there is a last step and it has negations of assumptions alone.
fn refutes_at_last(query: &Query, steps: &[Step]) -> bool
    ensures { IsTrue result ↔ RefutesAtLast query.now steps.now }
{
    match steps.last() {
        Some(step) => are_negated(query.assumed.as_slice(), step.clause.lits()),
        None => false,
    }
}

// Whether the negation of each literal is assumed.
fn are_negated(assumed: &[Lit], lits: &[Lit]) -> bool
    ensures { IsTrue result ↔ All (λ lit. Contains assumed.now (opposite lit)) lits.now }
{
    for lit in lits {
        if !is_among(assumed, lit.negated()) {
            return false;
        }
    }
    true
}

fn is_among(lits: &[Lit], lit: Lit) -> bool
    ensures { IsTrue result ↔ Contains lits.now lit }
{
    lits.contains(&lit)
}
