ghost use Rattle.std.specs.Prelude.{◌≤◌, All, IsTrue};
ghost use Rattle.gp_clause.specs.Problem.{IsValidProblem, IsValidQuery};
ghost use Rattle.gp_workers.specs.Post.{IsPost};
ghost use Rattle.gp_workers.specs.Work.{CanBeCertified, CanBeWorked};

use crate::fixture::{EIGHT, FREE, Rows, is_asked, is_solvable, is_valid, problem_of, query_of};
use crate::meeting::MeetGate;
use gp_certificate::Step;
use gp_clause::{Problem, Query};
use gp_derivation::{LogEntry, Offered, Origin, Sent, Turn, WorkerRecord, can_be_numbered};
use gp_outside::{FreeGate, Gate, HoldGate};
use gp_tickets::Tickets;
use gp_workers::{Post, WindowWork, WorkAnswer, certificate_by, work_all, work_in_turn};
use std::alloc::{AllocError, Global};
use std::process::Abort;
use std::sync::Wait;
use std::thread::Threads;

// Whether two drawers of two tickets draw one each, and are then told, again and again, that none is left.
fn two_draw_two(alloc: Global) -> Result<bool, AllocError> {
    let (tickets, mut drawers) = Tickets::new(alloc, 2, 2)?;
    let Some(mut one) = drawers.pop() else {
        return Ok(false);
    };
    let Some(mut other) = drawers.pop() else {
        return Ok(false);
    };
    let mut both = || [tickets.draw(&mut one), tickets.draw(&mut other)];
    Ok(both() == [Some(0), Some(1)] && both() == [None, None] && both() == [None, None])
}

#[test]
fn draws_tickets_until_none_is_left(rt: HostRuntime) {
    assert!(rt; two_draw_two(rt.alloc()).expect(&rt, "memory"));
}

// Enough for a verdict: 3 to the number of variables.
const BUDGET: u64 = 27;

// No valuation meets these clauses, so that every query is refuted.
const ROWS: Rows = Rows {
    points: 0,
    kinds: &FREE,
    edges: &[],
    clauses: &EIGHT,
};

// How many clauses these are.
const CLAUSES: u32 = 8;

// Three queries that assume nothing.
fn queries(rt: &impl Abort, alloc: Global) -> Vec<Query> {
    let mut queries = Vec::new(alloc);
    for _ in 0..3 {
        queries
            .push(query_of(rt, alloc, &[], &[]))
            .expect(rt, "memory");
    }
    queries
}

// Whether each query may be asked of a problem.
fn are_asked(problem: &Problem, queries: &[Query]) -> bool
    requires { IsValidProblem problem.now }
    ensures { IsTrue result → All (IsValidQuery problem.now) queries.now }
{
    queries.iter().all(|query| is_asked(problem, query))
}

// Whether there are few enough clauses and queries to ask workers.
fn are_few(problem: &Problem, queries: &[Query]) -> bool
    ensures { IsTrue result → CanBeWorked problem.now queries.now BUDGET }
{
    problem.clauses.len() < 1000 && queries.len() < 1000
}

// Whether the cone of a step over the log of the worker of a number can be made.
fn can_be_certified(records: &[WorkerRecord], worker: u32, last: &Step) -> bool
    ensures { IsTrue result → CanBeCertified CLAUSES records.now worker last.now }
{
    if worker == 0 {
        return false;
    }
    match records.get((worker - 1) as usize) {
        Some(own) => can_be_numbered(CLAUSES, own.log.as_slice(), last),
        None => false,
    }
}

// Whether the certificate of a refutation ends with the clause of no literal.
fn ends_empty(
    rt: &impl Abort,
    alloc: Global,
    records: &[WorkerRecord],
    worker: u32,
    last: &Step,
) -> bool {
    if !can_be_certified(records, worker, last) {
        return false;
    }
    let certificate = certificate_by(alloc, CLAUSES, records, worker, last).expect(rt, "memory");
    match certificate.steps.as_slice().last() {
        Some(step) => step.clause.lits().is_empty(),
        None => false,
    }
}

// Whether an answer is a refutation whose certificate ends so.
fn is_refuted(
    rt: &impl Abort,
    alloc: Global,
    records: &[WorkerRecord],
    answer: &WorkAnswer,
) -> bool {
    match answer {
        WorkAnswer::Refuted { worker, last } => ends_empty(rt, alloc, records, *worker, last),
        _ => false,
    }
}

// Whether all answers are.
fn are_refuted(rt: &impl Abort, alloc: Global, work: &WindowWork) -> bool {
    let mut all = true;
    for answer in work.answers.as_slice() {
        all &= is_refuted(rt, alloc, work.records.as_slice(), answer);
    }
    all
}

// The tickets of the turns of all workers, sorted.
fn tickets_of(rt: &impl Abort, alloc: Global, workers: &[WorkerRecord]) -> Vec<u64> {
    let mut tickets = Vec::new(alloc);
    for worker in workers {
        for turn in worker.turns.as_slice() {
            tickets.push(turn.ticket).expect(rt, "memory");
        }
    }
    tickets.sort_unstable();
    tickets
}

// Whether so many workers refuted three queries, in one turn for each.
fn is_due(rt: &impl Abort, alloc: Global, work: &WindowWork, workers: usize) -> bool {
    let tickets = tickets_of(rt, alloc, work.records.as_slice());
    work.answers.len() == 3
        && are_refuted(rt, alloc, work)
        && work.records.len() == workers
        && tickets.as_slice() == [0, 1, 2].as_slice()
}

// Whether an offer was pushed to each of so many others.
fn is_pushed(offered: &Offered, others: usize) -> bool {
    offered.sent.len() == others
        && offered
            .sent
            .as_slice()
            .iter()
            .all(|sent| *sent == Sent::Pushed)
}

// Whether all that a worker offered was pushed to each of so many others.
fn are_pushed(worker: &WorkerRecord, others: usize) -> bool {
    worker
        .offered
        .as_slice()
        .iter()
        .all(|offered| is_pushed(offered, others))
}

fn offers_none(worker: &WorkerRecord) -> bool {
    worker.offered.is_empty()
}

// Whether a worker shares nothing alone, and so many share what they learned: there is a pass of each one's inbox, some of
// them offered a clause, and all that they offered was pushed.
fn shares(work: &WindowWork, workers: usize) -> bool {
    let records = work.records.as_slice();
    let none = records.iter().all(offers_none);
    if workers == 1 {
        return none && work.passes.is_empty();
    }
    let others = workers.saturating_sub(1);
    !none && work.passes.len() == workers && records.iter().all(|worker| are_pushed(worker, others))
}

// Whether workers that go one after another share: some offered a clause where there are several, and all that they offered
// was pushed to each of so many others.
fn share_in_turn(work: &WindowWork, others: usize) -> bool {
    let records = work.records.as_slice();
    records.iter().all(offers_none) == (others == 0)
        && records.iter().all(|worker| are_pushed(worker, others))
}

// The work of so many workers on these queries.
fn work_on<R: Threads + Wait + Sync + Abort, G: Gate + Sync>(
    rt: &R,
    alloc: Global,
    problem: &Problem,
    queries: &[Query],
    workers: u32,
    gate: &G,
) -> WindowWork
    requires { (1 ≤ workers) × (workers ≤ 16) }
{
    assert!(rt; is_valid(problem));
    assert!(rt; is_solvable(&[], problem.edges.as_slice()));
    assert!(rt; are_asked(problem, queries));
    assert!(rt; are_few(problem, queries));
    work_all(rt, alloc, problem, queries, workers, BUDGET, gate).expect(rt, "memory")
}

// The work of so many workers on three queries that assume nothing.
fn work_on_three<R: Threads + Wait + Sync + Abort, G: Gate + Sync>(
    rt: &R,
    alloc: Global,
    workers: u32,
    gate: &G,
) -> WindowWork
    requires { (1 ≤ workers) × (workers ≤ 16) }
{
    let problem = problem_of(rt, alloc, &ROWS);
    let queries = queries(rt, alloc);
    let work = work_on(rt, alloc, &problem, queries.as_slice(), workers, gate);
    drop(queries);
    drop(problem);
    work
}

// The work of so many workers, one after another, on these queries, and the post for the next window.
fn work_in_turn_on<R: Wait + Abort>(
    rt: &R,
    alloc: Global,
    problem: &Problem,
    queries: &[Query],
    workers: u32,
    post: Post,
) -> (WindowWork, Post)
    requires workers { (1 ≤ workers) × (workers ≤ 16) }
    requires post { IsPost workers post }
    ensures { IsPost workers result.1 }
{
    assert!(rt; is_valid(problem));
    assert!(rt; is_solvable(&[], problem.edges.as_slice()));
    assert!(rt; are_asked(problem, queries));
    assert!(rt; are_few(problem, queries));
    work_in_turn(
        rt, alloc, problem, queries, workers, BUDGET, &FreeGate, post,
    )
    .expect(rt, "memory")
}

// Their work on three queries that assume nothing.
fn work_in_turn_on_three<R: Wait + Abort>(
    rt: &R,
    alloc: Global,
    workers: u32,
    post: Post,
) -> (WindowWork, Post)
    requires workers { (1 ≤ workers) × (workers ≤ 16) }
    requires post { IsPost workers post }
    ensures { IsPost workers result.1 }
{
    let problem = problem_of(rt, alloc, &ROWS);
    let queries = queries(rt, alloc);
    let made = work_in_turn_on(rt, alloc, &problem, queries.as_slice(), workers, post);
    drop(queries);
    drop(problem);
    made
}

// Whether so many workers that go one after another refute three queries in each of two windows, and share in both: the
// inboxes of the first serve the second.
fn refute_three_twice<R: Wait + Abort>(rt: &R, alloc: Global, workers: u32) -> bool
    requires { (1 ≤ workers) × (workers ≤ 16) }
{
    let (first, post) = work_in_turn_on_three(rt, alloc, workers, Post::none(alloc));
    let (second, post) = work_in_turn_on_three(rt, alloc, workers, post);
    drop(post);
    let workers = workers as usize;
    let others = workers.saturating_sub(1);
    let due = is_due(rt, alloc, &first, workers) && is_due(rt, alloc, &second, workers);
    let shared = share_in_turn(&first, others) && share_in_turn(&second, others);
    drop(second);
    drop(first);
    due && shared
}

// Whether one worker, two and four do.
fn crews_refute_three_twice<R: Wait + Abort>(rt: &R, alloc: Global) -> bool {
    refute_three_twice(rt, alloc, 1)
        && refute_three_twice(rt, alloc, 2)
        && refute_three_twice(rt, alloc, 4)
}

#[test]
fn inboxes_serve_one_window_after_another(rt: HostRuntime) {
    assert!(rt; crews_refute_three_twice(&rt, rt.alloc()));
}

// Whether so many workers refute three queries, in one turn for each, and share what they learn.
fn refute_three<R: Threads + Wait + Sync + Abort, G: Gate + Sync>(
    rt: &R,
    alloc: Global,
    workers: u32,
    gate: &G,
) -> bool
    requires { (1 ≤ workers) × (workers ≤ 16) }
{
    let work = work_on_three(rt, alloc, workers, gate);
    let workers = workers as usize;
    let due = is_due(rt, alloc, &work, workers) && shares(&work, workers);
    drop(work);
    due
}

// Whether one worker, two, four and sixteen do, and two, of which the second passes the gate while the first is held at it.
fn crews_refute_three<R: Threads + Wait + Sync + Abort>(rt: &R, alloc: Global) -> bool {
    let gate = HoldGate::new(10_000_000);
    refute_three(rt, alloc, 1, &FreeGate)
        && refute_three(rt, alloc, 2, &gate)
        && gate.met()
        && refute_three(rt, alloc, 2, &FreeGate)
        && refute_three(rt, alloc, 4, &FreeGate)
        && refute_three(rt, alloc, 16, &FreeGate)
}

#[test]
fn several_workers_refute_what_one_refutes(rt: HostRuntime) {
    assert!(rt; crews_refute_three(&rt, rt.alloc()));
}

// Whether an entry was taken from the worker of this number.
fn is_taken(entry: &LogEntry, number: u32) -> bool {
    match &entry.origin {
        Origin::Learned => false,
        Origin::Taken { sender, .. } => *sender == number,
    }
}

// Whether a turn begins with entries of a log that were taken from the worker of this number.
fn begins_by_taking(log: &[LogEntry], turn: &Turn, number: u32) -> bool {
    let Some(taken) = log.get(turn.begins as usize..turn.learned as usize) else {
        return false;
    };
    !taken.is_empty() && taken.iter().all(|entry| is_taken(entry, number))
}

// Whether the first turn of a worker begins with entries that were taken from the worker of this number.
fn begins_with_taken(worker: &WorkerRecord, number: u32) -> bool {
    match worker.turns.as_slice().first() {
        Some(turn) => begins_by_taking(worker.log.as_slice(), turn, number),
        None => false,
    }
}

// Whether the first of two workers begins with what the second one learned and pushed.
fn takes_from_second(work: &WindowWork) -> bool {
    match work.records.as_slice() {
        [first, second] => {
            begins_with_taken(first, 2) && !second.offered.is_empty() && are_pushed(second, 1)
        }
        _ => false,
    }
}

// Whether two workers refute three queries, and the first, held until the second has answered one, begins with what that
// one learned.
fn two_meet<R: Threads + Wait + Sync + Abort>(rt: &R, alloc: Global, gate: &MeetGate) -> bool {
    let work = work_on_three(rt, alloc, 2, gate);
    let due = is_due(rt, alloc, &work, 2) && shares(&work, 2) && takes_from_second(&work);
    drop(work);
    due
}

#[test]
fn a_worker_begins_with_what_another_learned(rt: HostRuntime) {
    let gate = MeetGate::new(10_000_000);
    let taken = two_meet(&rt, rt.alloc(), &gate);
    assert!(rt; gate.met(), "the turns were spent before the workers met");
    assert!(rt; taken);
}
