ghost use Rattle.std.specs.Prelude.{◌≡◌, ◌*◌, ◌≤◌, All, IfOk, None, []};
ghost use Rattle.gp_clause.specs.Edge.{IsSolvable};
ghost use Rattle.gp_clause.specs.Problem.{IsValidProblem, IsValidQuery};
ghost use Rattle.gp_workers.specs.Prefixes.{AreSharing};
ghost use Rattle.gp_workers.specs.Sharing.{ShareNothing};
ghost use Rattle.gp_workers.specs.Work.{CanBeAsked, IsWork};
ghost use Rattle.gp_analysis.specs.Answered.{RecordsLeftOut};
ghost use Rattle.gp_analysis.specs.Recorded.{CanBeAnswered};
ghost use Rattle.gp_analysis.specs.Task.{IsOrder};
ghost use Rattle.gp_analysis.specs.Telling.{RecordsAs};

use crate::listing::{Listing, listing_of};
use crate::question::{EncodeFault, LeftOut, Question};
use crate::subjects::{Told, told_subjects};
use crate::task::{Instructions, Order};
use gp_base::Row;
use gp_certificate::{refuted_means, shares_nothing};
use gp_clause::{Problem, Query};
use gp_outside::Gate;
use gp_raise::raised_refutes;
use gp_report::{WindowBodyOf, WindowRecordOf};
use gp_window::Window;
use gp_workers::{WindowWork, takes_prefixes, work_all, work_in_turn};
use std::alloc::{AllocError, Global};
use std::sync::Wait;
use std::thread::Threads;

// What is recorded of a window: it is left out, or each of its asks is answered. Beside it comes the order for the next window.
pub(crate) fn window_record<R: Threads + Wait + Sync, G: Gate + Sync, Q: Question>(
    rt: &R,
    alloc: Global,
    window: Window,
    task: &Instructions<'_, Q, G>,
    order: Order,
) -> Result<(WindowRecordOf<Q::Shown>, Order), AllocError>
    requires workers { (1 ≤ task.now.workers) × (task.now.workers ≤ 16) }
    requires can { CanBeAnswered (Q.form task.now.question.now) task.now.budget window }
    requires order { IsOrder task.now.workers order }
    ensures records { IfOk result (λ made. RecordsAs (Q.form task.now.question.now) task.now.telling task.now.workers task.now.budget window made.0) }
    ensures order { IfOk result (λ made. IsOrder task.now.workers made.1) }
{
    let number = window.number();
    match task.question.encode(alloc, window) {
        Ok(encoded) => answered_record(rt, alloc, &encoded, task, order),
        Err(EncodeFault::LeftOut(why)) => Ok((left_out_record(alloc, number, why), order)),
        Err(EncodeFault::Memory) => {
            drop(order);
            Err(AllocError)
        }
    }
}

// What is recorded of a window that is left out. Takes no memory.
fn left_out_record<S: Drop>(alloc: Global, number: u32, why: LeftOut) -> WindowRecordOf<S>
    ensures number { result.number ≡ number }
    ensures shared { result.shared ≡ [] }
    ensures body { RecordsLeftOut why result.body }
    ensures workers { result.records ≡ [] }
{
    let body = match why {
        LeftOut::TooLarge(large) => WindowBodyOf::TooLarge {
            events: large.events,
            clauses: large.clauses,
        },
        LeftOut::Unasked => WindowBodyOf::Answers(Row::new(alloc)),
    };
    WindowRecordOf {
        number,
        shared: Row::new(alloc),
        body,
        records: Row::new(alloc),
    }
}

// What is recorded of a window that has constraints: the workers answer the queries; then each answer is recorded, subject by
// subject.
fn answered_record<R: Threads + Wait + Sync, G: Gate + Sync, Q: Question>(
    rt: &R,
    alloc: Global,
    encoded: &Q::Encoded,
    task: &Instructions<'_, Q, G>,
    order: Order,
) -> Result<(WindowRecordOf<Q::Shown>, Order), AllocError>
    requires fits { (Q.form task.now.question.now).left_out (Q.window_in encoded.now) ≡ None }
    requires workers { (1 ≤ task.now.workers) × (task.now.workers ≤ 16) }
    requires can { CanBeAnswered (Q.form task.now.question.now) task.now.budget (Q.window_in encoded.now) }
    requires order { IsOrder task.now.workers order }
    ensures records { IfOk result (λ made. RecordsAs (Q.form task.now.question.now) task.now.telling task.now.workers task.now.budget (Q.window_in encoded.now) made.0) }
    ensures order { IfOk result (λ made. IsOrder task.now.workers made.1) }
{
    refuted_means();
    shares_nothing();
    raised_refutes();
    let question = task.question;
    question.laws();
    let number = question.window_of(encoded).number();
    let Ok(listing) = listing_of(alloc, question, encoded) else {
        drop(order);
        return Err(AllocError);
    };
    let Listing { listed, queries } = listing;
    let problem = question.problem(encoded);
    let worked = work(rt, alloc, problem, queries.as_slice(), task, order);
    drop(queries);
    let Ok((done, next)) = worked else {
        drop(listed);
        return Err(AllocError);
    };
    let WindowWork {
        answers,
        records,
        passes,
    } = done;
    drop(passes);
    match told_subjects(alloc, encoded, task, listed, answers, records.as_slice()) {
        Ok(told) => {
            let Told { shared, body } = told;
            let own = WindowRecordOf {
                number,
                shared,
                body: WindowBodyOf::Answers(body),
                records,
            };
            Ok((own, next))
        }
        Err(error) => {
            drop(records);
            drop(next);
            Err(error)
        }
    }
}

// What the workers answer to these queries, and the order for the next window.
fn work<R: Threads + Wait + Sync, G: Gate + Sync, Q>(
    rt: &R,
    alloc: Global,
    problem: &Problem,
    queries: &[Query],
    task: &Instructions<'_, Q, G>,
    order: Order,
) -> Result<(WindowWork, Order), AllocError>
    requires workers { (1 ≤ task.now.workers) × (task.now.workers ≤ 16) }
    requires asked { CanBeAsked problem.now queries.now task.now.budget }
    requires order { IsOrder task.now.workers order }
    ensures work { IfOk result (λ made. IsWork problem.now queries.now task.now.workers task.now.budget made.0) }
    ensures alone { IfOk result (λ made. task.now.workers ≡ 1 → ShareNothing made.0.records) }
    ensures shared { IfOk result (λ made. 2 ≤ task.now.workers → AreSharing problem.now task.now.workers made.0.records) }
    ensures order { IfOk result (λ made. IsOrder task.now.workers made.1) }
{
    takes_prefixes();
    let workers = task.workers;
    let budget = task.budget;
    match order {
        Order::SideBySide => {
            let done = work_all(rt, alloc, problem, queries, workers, budget, task.gate)?;
            Ok((done, Order::SideBySide))
        }
        Order::InTurn(post) => {
            let (done, post) = work_in_turn(
                rt, alloc, problem, queries, workers, budget, task.gate, post,
            )?;
            Ok((done, Order::InTurn(post)))
        }
    }
}
