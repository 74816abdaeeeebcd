ghost use Rattle.std.specs.Prelude.{◌≡◌, ◌+◌, ◌++◌, length, IfOk, All, Contains};
ghost use Rattle.gp_clause.specs.Clause.{NamesBelow};
ghost use Rattle.gp_clause.specs.Problem.{IsValidProblem, IsValidQuery};
ghost use Rattle.gp_derivation.specs.Log.{logged};
ghost use Rattle.gp_certificate.specs.Step.{Passes, named};
ghost use Rattle.gp_derivation.specs.Tight.{IsTight};

use crate::log::LogEntry;
use crate::tester::Tester;
use gp_certificate::Step;
use gp_clause::{Problem, Query};
use std::alloc::{AllocError, Global};

/// A step with the same hints and some of the literals of its clause. It makes a tester, which `Tester::tighten` does
/// not.
pub fn tight(
    alloc: Global,
    problem: &Problem,
    query: &Query,
    log: &[LogEntry],
    step: Step,
) -> Result<Step, AllocError>
    requires valid { IsValidProblem problem.now }
    requires asked { IsValidQuery problem.now query.now }
    requires within { All (NamesBelow (length problem.now.kinds + length query.now.locals)) (named (logged problem.now log.now) step.hints) }
    requires passes { Passes problem.now.edges (problem.now.kinds ++ query.now.locals) (named (logged problem.now log.now) step.hints) step.clause }
    ensures hints { IfOk result (λ left. left.hints ≡ step.hints) }
    ensures some { IfOk result (λ left. All (Contains step.clause) left.clause) }
    ensures passes { IfOk result (λ left. Passes problem.now.edges (problem.now.kinds ++ query.now.locals) (named (logged problem.now log.now) step.hints) left.clause) }
    ensures tight { IfOk result (λ left. IsTight problem.now.edges (problem.now.kinds ++ query.now.locals) (named (logged problem.now log.now) step.hints) left.clause) }
{
    match Tester::new(alloc, problem, query.locals.as_slice()) {
        Ok(mut tester) => {
            let told = tightened_step(&mut tester, problem, log, step);
            drop(tester);
            told
        }
        Err(error) => {
            drop(step);
            Err(error)
        }
    }
}

// The same by a tester.
fn tightened_step(
    tester: &mut Tester,
    problem: &Problem,
    log: &[LogEntry],
    step: Step,
) -> Result<Step, AllocError>
    requires within { All (NamesBelow (length tester.old.kinds)) (named (logged problem.now log.now) step.hints) }
    requires passes { Passes tester.old.edges tester.old.kinds (named (logged problem.now log.now) step.hints) step.clause }
    ensures hints { IfOk result (λ left. left.hints ≡ step.hints) }
    ensures some { IfOk result (λ left. All (Contains step.clause) left.clause) }
    ensures passes { IfOk result (λ left. Passes tester.old.edges tester.old.kinds (named (logged problem.now log.now) step.hints) left.clause) }
    ensures tight { IfOk result (λ left. IsTight tester.old.edges tester.old.kinds (named (logged problem.now log.now) step.hints) left.clause) }
{
    let Step { clause, hints } = step;
    let clause = tester.tighten(problem, log, hints.as_slice(), clause)?;
    Ok(Step { clause, hints })
}
