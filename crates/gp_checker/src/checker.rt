ghost use Rattle.std.specs.Prelude.{◌≡◌, true, IfOk};
ghost use Rattle.gp_clause.specs.Problem.{IsValidQuery};
ghost use Rattle.gp_constraint.specs.Base.{base_of};
ghost use Rattle.gp_constraint.specs.Query.{query_of};
ghost use Rattle.gp_instance.specs.Instance.{is_instance};
ghost use Rattle.gp_checker.specs.Basis.{IsReady};
ghost use Rattle.gp_checker.specs.Finds.{FindsStep};

use crate::laws::laws;
use gp_certificate::{Certificate, Judge, Step};
use gp_clause::Query;
use gp_constraint::{Encoded, query};
use gp_instance::Instance;
use gp_property::Property;
use gp_window::Window;
use std::alloc::{AllocError, Global};
use std::marker::Model;

/// By what the answers of a window are checked: its constraints, the budget of each query, the steps that its certificates
/// share, which pass, and the judge of its problem.
#[derive(Drop)]
pub struct Checker<'a> {
    encoded: &'a Encoded,
    budget: u64,
    shared: &'a [Step],
    judge: Judge,
}

impl<'a> Model for Checker<'a> {
    ghost use Rattle.gp_checker.specs.Basis.{Basis, IsReady};

    ghost Value = { Basis };

    ghost view = { λ c. record { window = c.encoded.now; budget = c.budget; shared = c.shared.now } };

    ghost invariant = { λ c. IsReady c.judge c.encoded.now c.shared.now };
}

impl<'a> Checker<'a> {
    pub fn new(encoded: &'a Encoded, budget: u64, shared: &'a [Step], judge: Judge) -> Checker<'a>
        requires { IsReady judge encoded.now shared.now }
        ensures { result ≡ record { window = encoded.now; budget = budget; shared = shared.now } }
    {
        Checker {
            encoded,
            budget,
            shared,
            judge,
        }
    }

    /// The window with its constraints.
    pub fn encoded(&self) -> &Encoded
        ensures { result.now ≡ self.now.window }
    {
        self.encoded
    }

    pub fn window(&self) -> &Window
        ensures { result.now ≡ self.now.window }
    {
        self.encoded.window()
    }

    pub fn budget(&self) -> u64
        ensures { result ≡ self.now.budget }
    {
        self.budget
    }

    // The query of an instance.
    pub(crate) fn query(
        &self,
        alloc: Global,
        property: &Property,
        instance: &Instance,
    ) -> Result<Query, AllocError>
        requires { is_instance self.now.window property.now instance.now.events ≡ true }
        ensures asked { IfOk result (λ query. query ≡ query_of self.now.window property.now instance.now.events) }
        ensures valid { IfOk result (IsValidQuery (base_of self.now.window)) }
    {
        property.keeps_rules();
        laws();
        query(alloc, self.encoded, property, instance)
    }

    // The first step of a certificate that fails over the shared ones, or none where all pass.
    pub(crate) fn first_to_fail(
        &mut self,
        query: &Query,
        certificate: &Certificate,
    ) -> Result<Option<u64>, AllocError>
        requires { IsValidQuery (base_of self.old.window) query.now }
        ensures first { IfOk result (FindsStep self.old query.now certificate.now) }
        ensures same { self.new ≡ self.old }
    {
        let problem = self.encoded.problem();
        self.judge
            .first_to_fail(problem, self.shared, query, certificate)
    }
}
