ghost use Rattle.std.specs.Prelude.{◌≡◌, ◌↔◌, IsTrue, IfOk, All, Contains};
ghost use Rattle.gp_clause.specs.Lit.{opposite};
ghost use Rattle.gp_clause.specs.Problem.{IsValidQuery};
ghost use Rattle.gp_certificate.specs.Shared.{SharedPasses};
ghost use Rattle.gp_decided.specs.Refuting.{AreNegations, Ends, refutes_over, shared_passes};

use gp_certificate::{Certificate, Judge, Step};
use gp_clause::{Lit, Problem, Query};
use std::alloc::AllocError;

/// Whether each step of a shared list passes, by the judge of its problem.
pub fn shared_passes(
    judge: &mut Judge,
    problem: &Problem,
    shared: &[Step],
) -> Result<bool, AllocError>
    requires { problem.now ≡ judge.old }
    ensures passes { IfOk result (λ passes. passes ≡ shared_passes problem.now shared.now) }
    ensures same { judge.new ≡ judge.old }
{
    match judge.first_shared_to_fail(problem, shared)? {
        None => Ok(true),
        Some(_place) => Ok(false),
    }
}

/// Whether a certificate refutes a query over a shared list that passes, by the judge of its problem.
pub fn refutes_over(
    judge: &mut Judge,
    problem: &Problem,
    shared: &[Step],
    query: &Query,
    certificate: &Certificate,
) -> Result<bool, AllocError>
    requires same { problem.now ≡ judge.old }
    requires asked { IsValidQuery problem.now query.now }
    requires shared { SharedPasses problem.now shared.now }
    ensures refutes { IfOk result (λ refutes. refutes ≡ refutes_over problem.now shared.now query.now certificate.now) }
    ensures same { judge.new ≡ judge.old }
{
    match judge.first_to_fail(problem, shared, query, certificate)? {
        None => Ok(refutes_at_last(query, certificate.steps.as_slice())),
        Some(_place) => Ok(false),
    }
}

// Whether there is a last step and it has negations of assumptions alone.
fn refutes_at_last(query: &Query, steps: &[Step]) -> bool
    ensures { IsTrue result ↔ Ends (AreNegations query.now) steps.now }
{
    match steps.last() {
        Some(step) => are_negated(query.assumed.as_slice(), step.clause.lits()),
        None => false,
    }
}

// Whether the negation of each literal is assumed.
fn are_negated(assumed: &[Lit], lits: &[Lit]) -> bool
    ensures { IsTrue result ↔ All (λ lit. Contains assumed.now (opposite lit)) lits.now }
{
    for lit in lits {
        if !is_among(assumed, lit.negated()) {
            return false;
        }
    }
    true
}

fn is_among(lits: &[Lit], lit: Lit) -> bool
    ensures { IsTrue result ↔ Contains lits.now lit }
{
    lits.contains(&lit)
}
