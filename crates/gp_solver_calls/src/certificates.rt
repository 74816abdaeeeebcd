ghost use Rattle.std.specs.Prelude.{◌≡◌, ◌+◌, ◌++◌, ◌↔◌, All, IfOk, IsTrue, MatchOption, length};
ghost use Rattle.gp_clause.specs.Clause.{NamesBelow};
ghost use Rattle.gp_clause.specs.Problem.{IsValidProblem, IsValidQuery};
ghost use Rattle.gp_certificate.specs.Certificate.{clauses_of};
ghost use Rattle.gp_certificate.specs.Shared.{FirstFails, FirstOwnFails, PassesOver, SharedPasses};

use gp_certificate::{Certificate, Judge, Step};
use gp_clause::{Problem, Query};
use std::alloc::{AllocError, Global};

/// As `gp_certificate::check_certificate`.
pub fn check_certificate(
    alloc: Global,
    problem: &Problem,
    shared: &[Step],
    query: &Query,
    certificate: &Certificate,
) -> Result<bool, AllocError>
    requires valid { IsValidProblem problem.now }
    requires asked { IsValidQuery problem.now query.now }
    requires shared { All (NamesBelow (length problem.now.kinds + length query.now.locals)) (clauses_of shared.now) }
    ensures { IfOk result (λ passes. IsTrue passes ↔ PassesOver problem.now shared.now query.now certificate.now) }
{
    gp_certificate::check_certificate(alloc, problem, shared, query, certificate)
}

/// As `gp_certificate::check_shared`.
pub fn check_shared(
    alloc: Global,
    problem: &Problem,
    shared: &[Step],
) -> Result<Option<u64>, AllocError>
    requires { IsValidProblem problem.now }
    ensures { IfOk result (λ first. MatchOption first (SharedPasses problem.now shared.now) (FirstFails problem.now shared.now)) }
{
    gp_certificate::check_shared(alloc, problem, shared)
}

/// As `Judge::first_to_fail`.
pub fn first_to_fail(
    judge: &mut Judge,
    problem: &Problem,
    shared: &[Step],
    query: &Query,
    certificate: &Certificate,
) -> Result<Option<u64>, AllocError>
    requires same { problem.now ≡ judge.old }
    requires asked { IsValidQuery problem.now query.now }
    requires shared { All (NamesBelow (length problem.now.kinds + length query.now.locals)) (clauses_of shared.now) }
    ensures first { IfOk result (λ first. MatchOption first (PassesOver problem.now shared.now query.now certificate.now) (FirstOwnFails problem.now.edges (problem.now.kinds ++ query.now.locals) problem.now.clauses (clauses_of shared.now) certificate.now.steps)) }
    ensures same { judge.new ≡ judge.old }
{
    judge.first_to_fail(problem, shared, query, certificate)
}
