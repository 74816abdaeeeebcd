ghost use Rattle.std.specs.Prelude.{◌≡◌, true, IfOk};
ghost use Rattle.gp_clause.specs.Problem.{IsValidQuery};
ghost use Rattle.gp_checker.specs.Finds.{FindsCertificate};
ghost use Rattle.gp_constraint.specs.Base.{base_of};
ghost use Rattle.gp_stuck.specs.Cycle.{is_cycle};
ghost use Rattle.gp_stuck.specs.StuckQuery.{stuck_query_of};
ghost use Rattle.gp_deadlock_checker.specs.Finds.{FindsAnswer};

use crate::laws::laws;
use crate::schedule::check_schedule;
use gp_certificate::Certificate;
use gp_checker::{Checker, Failure, check_budget};
use gp_clause::Query;
use gp_instance::Instance;
use gp_report::Answer;
use gp_stuck::stuck_query;
use std::alloc::{AllocError, Global};

// How the answer to a cycle fails.
pub(crate) fn check_answer(
    alloc: Global,
    checker: &mut Checker<'_>,
    cycle: &Instance,
    answer: &Answer,
) -> Result<Option<Failure>, AllocError>
    requires { is_cycle checker.old.window cycle.now.events ≡ true }
    ensures found { IfOk result (FindsAnswer checker.old cycle.now.events answer.now) }
    ensures same { checker.new ≡ checker.old }
{
    match answer {
        Answer::Found(schedule) => check_schedule(alloc, checker.window(), cycle, schedule),
        Answer::Impossible(certificate) => check_certificate(alloc, checker, cycle, certificate),
        Answer::Undecided { from, to, .. } => Ok(check_budget(checker.budget(), *from, *to)),
    }
}

// How the certificate of a cycle fails.
fn check_certificate(
    alloc: Global,
    checker: &mut Checker<'_>,
    cycle: &Instance,
    certificate: &Certificate,
) -> Result<Option<Failure>, AllocError>
    requires { is_cycle checker.old.window cycle.now.events ≡ true }
    ensures found { IfOk result (FindsCertificate checker.old (stuck_query_of checker.old.window cycle.now.events) certificate.now) }
    ensures same { checker.new ≡ checker.old }
{
    let query = query_of(alloc, checker, cycle)?;
    let found = checker.check_steps(&query, certificate);
    drop(query);
    found
}

fn query_of(alloc: Global, checker: &Checker<'_>, cycle: &Instance) -> Result<Query, AllocError>
    requires { is_cycle checker.now.window cycle.now.events ≡ true }
    ensures asked { IfOk result (λ query. query ≡ stuck_query_of checker.now.window cycle.now.events) }
    ensures valid { IfOk result (IsValidQuery (base_of checker.now.window)) }
{
    laws();
    stuck_query(alloc, checker.encoded(), cycle)
}
