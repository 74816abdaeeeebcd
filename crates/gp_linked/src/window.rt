ghost use Rattle.std.specs.Prelude.{◌≡◌, ◌≤◌, [], ◌∷◌, IfOk, length};
ghost use Rattle.gp_certificate.specs.Certificate.{Refutes};
ghost use Rattle.gp_constraint.specs.Extended.{nothing_asked};
ghost use Rattle.gp_link.specs.LinkProblem.{link_problem_of};
ghost use Rattle.gp_workers.specs.Work.{IsRefutedBy};
ghost use Rattle.gp_linked.specs.Answered.{AnswersLink, IsAnswer, TellsFault};
ghost use Rattle.gp_linked.specs.Due.{IsSized};

use crate::answer::LinkAnswer;
use crate::asking::{Asked, ask};
use crate::laws::links_are_answered;
use crate::problem::problem_of;
use gp_certificate::{Certificate, Step, refuted_means};
use gp_clause::Problem;
use gp_constraint::{ExtendedProblem, extensions_mean, problems_are_valid};
use gp_derivation::WorkerRecord;
use gp_link::{LinkFault, links_are_valid};
use gp_window::Window;
use gp_witness::executed_events;
use gp_workers::{WorkAnswer, certificate_by};
use std::alloc::{AllocError, Global};
use std::slice;

/// Whether a window is linked to the next, by one search with this budget.
pub fn link_window(
    alloc: Global,
    window: Window,
    next: &Window,
    budget: u64,
) -> Result<LinkAnswer, AllocError>
    requires budget { (1 ≤ budget) × (budget ≤ 1000000) }
    ensures { IfOk result (AnswersLink window next.now budget) }
{
    match problem_of(alloc, window, next) {
        Ok(extended) => {
            let answer = answer_to(alloc, &extended, next, budget);
            drop(extended);
            answer
        }
        Err(fault) => answer_of(fault),
    }
}

// A fault as an answer. Want of memory is none.
fn answer_of(fault: LinkFault) -> Result<LinkAnswer, AllocError>
    ensures { IfOk result (TellsFault fault) }
{
    match fault {
        LinkFault::TooLarge { events, clauses } => Ok(LinkAnswer::TooLarge { events, clauses }),
        LinkFault::Memory => Err(AllocError),
    }
}

// The answer to the problem of a window and the next.
fn answer_to(
    alloc: Global,
    extended: &ExtendedProblem,
    next: &Window,
    budget: u64,
) -> Result<LinkAnswer, AllocError>
    requires problem { extended.now.problem ≡ link_problem_of extended.now.window next.now }
    requires sized { IsSized extended.now.window next.now }
    requires budget { (1 ≤ budget) × (budget ≤ 1000000) }
    ensures { IfOk result (IsAnswer extended.now.window next.now budget) }
{
    extensions_mean();
    problems_are_valid();
    links_are_valid();
    links_are_answered();
    refuted_means();
    let window = extended.window();
    window.comes_from_recording();
    next.comes_from_recording();
    let problem = extended.problem();
    let asked = ask(alloc, problem, budget)?;
    let Asked { answer, own } = asked;
    match answer {
        WorkAnswer::Model(valuation) => {
            let schedule = executed_events(alloc, window, &valuation);
            drop((valuation, own));
            Ok(LinkAnswer::Linked(schedule?))
        }
        WorkAnswer::Refuted { worker, last } => {
            let certificate = certificate_of(alloc, problem, &own, worker, &last);
            drop((own, last));
            Ok(LinkAnswer::Unlinkable(certificate?))
        }
        WorkAnswer::Spent { from, to, .. } => Ok(undecided(own, from, to)),
    }
}

// The certificate of a refutation by the one worker of a problem.
fn certificate_of(
    alloc: Global,
    problem: &Problem,
    own: &WorkerRecord,
    worker: u32,
    last: &Step,
) -> Result<Certificate, AllocError>
    requires few { length problem.now.clauses ≤ 500000 }
    requires refuted { IsRefutedBy problem.now nothing_asked (own.now ∷ []) worker last.now }
    ensures { IfOk result (Refutes problem.now nothing_asked) }
{
    let clauses = problem.clauses.len() as u32;
    let certificate = certificate_by(alloc, clauses, slice::from_ref(own), worker, last)?;
    Ok(certificate)
}

// The log of a worker whose one turn spent the budget on these entries.
fn undecided(own: WorkerRecord, from: u32, to: u32) -> LinkAnswer
    ensures { result ≡ LinkAnswer.Undecided own.log from to }
{
    let WorkerRecord { log, .. } = own;
    LinkAnswer::Undecided { log, from, to }
}
