ghost use Rattle.std.specs.Prelude.{◌≡◌, ◌≤◌, ◌<◌, ◌-◌, ℕ, [], IfOk, Ok, length, map, slice_index_or};
ghost use Rattle.gp_tickets.specs.Tickets.{IsUnused};
ghost use Rattle.gp_workers.specs.Desk.{PassesAre};
ghost use Rattle.gp_workers.specs.Post.{IsPost, IsWholeOf};
ghost use Rattle.gp_workers.specs.SharedCrew.{AreHandedBack, AreSharingJobs, IsHandedBack, IsSharingJob};
ghost use Rattle.gp_workers.specs.Sharing.{AllShared, WorksAlone};
ghost use Rattle.gp_workers.specs.Work.{CanBeAsked, IsWork};

use crate::crew::{Gathered, Hired, Job, Shared, SharingJob, Workload};
use crate::inboxes::hire;
use crate::post::Post;
use crate::sharing::{finish, work_beside};
use crate::work::WindowWork;
use crate::worker::work;
use gp_base::Row;
use gp_clause::{Problem, Query};
use gp_inbox::{Inbox, Pass};
use gp_outside::Gate;
use gp_search::NoMail;
use gp_tickets::{Drawer, Tickets};
use std::alloc::{AllocError, Global};
use std::collections::VecDeque;
use std::sync::Wait;
use std::thread;
use std::thread::Threads;

/// Answers the queries by so many workers, numbered from 1, each by a search of its own. Each draws tickets until none is
/// left, and passes the gate after each. They run side by side, or one after another where no thread can be made, and pass
/// to each other what they learn and is fit to share.
pub fn work_all<R: Threads + Wait + Sync, G: Gate + Sync>(
    rt: &R,
    alloc: Global,
    problem: &Problem,
    queries: &[Query],
    workers: u32,
    budget: u64,
    gate: &G,
) -> Result<WindowWork, AllocError>
    requires workers { (1 ≤ workers) × (workers ≤ 16) }
    requires asked { CanBeAsked problem.now queries.now budget }
    ensures work { IfOk result (IsWork problem.now queries.now workers budget) }
    ensures alone { workers ≡ 1 → IfOk result WorksAlone }
    ensures shared { 2 ≤ workers → IfOk result (λ work. AllShared problem.now workers work.records work.passes) }
{
    if workers == 1 {
        return work_one(alloc, problem, queries, budget, gate);
    }
    work_together(rt, alloc, problem, queries, workers, budget, gate)
}

// Two workers or more, side by side.
fn work_together<R: Threads + Wait + Sync, G: Gate + Sync>(
    rt: &R,
    alloc: Global,
    problem: &Problem,
    queries: &[Query],
    workers: u32,
    budget: u64,
    gate: &G,
) -> Result<WindowWork, AllocError>
    requires workers { (2 ≤ workers) × (workers ≤ 16) }
    requires asked { CanBeAsked problem.now queries.now budget }
    ensures work { IfOk result (IsWork problem.now queries.now workers budget) }
    ensures shared { IfOk result (λ work. AllShared problem.now workers work.records work.passes) }
{
    let Hired {
        inboxes,
        tickets,
        jobs,
    } = hire(
        alloc,
        problem,
        queries.len() as u64,
        workers,
        Post::none(alloc),
    )?;
    let load = Workload {
        tickets: &tickets,
        problem,
        queries,
        budget,
        gate,
    };
    let made = work_side_by_side(rt, alloc, &load, inboxes.as_slice(), jobs);
    drop(tickets);
    drop(inboxes);
    let (work, passes) = made?;
    let passes = Row::from_vec(passes);
    Ok(WindowWork { passes, ..work })
}

// The work of workers that were hired, side by side, and the pass of each inbox.
fn work_side_by_side<R: Threads + Wait + Sync, G: Gate + Sync>(
    rt: &R,
    alloc: Global,
    load: &Workload<'_, G>,
    inboxes: &[Inbox],
    jobs: Vec<SharingJob>,
) -> Result<(WindowWork, Vec<Pass>), AllocError>
    requires asked { CanBeAsked load.now.problem.now load.now.queries.now load.now.budget }
    requires count { load.now.tickets.now.count ≡ length load.now.queries.now }
    requires crew { load.now.tickets.now.crew ≡ length inboxes.now }
    requires few { (1 ≤ length inboxes.now) × (length inboxes.now ≤ 16) × (length jobs.items ≡ length inboxes.now) }
    requires jobs { AreSharingJobs load.now.tickets.now load.now.problem.now inboxes.now jobs.items }
    ensures work { IfOk result (λ made. IsWork load.now.problem.now load.now.queries.now (length inboxes.now) load.now.budget made.0) }
    ensures shared { IfOk result (λ made. AllShared load.now.problem.now (length inboxes.now) made.0.records made.1.items) }
{
    let crew = run_side_by_side(rt, alloc, load, inboxes, jobs)?;
    finish(rt, alloc, load, inboxes, crew)
}

// What each worker hands back, by number, where they work side by side.
fn run_side_by_side<R: Threads + Wait + Sync, G: Gate + Sync>(
    rt: &R,
    alloc: Global,
    load: &Workload<'_, G>,
    inboxes: &[Inbox],
    jobs: Vec<SharingJob>,
) -> Result<VecDeque<Shared>, AllocError>
    requires asked { CanBeAsked load.now.problem.now load.now.queries.now load.now.budget }
    requires count { load.now.tickets.now.count ≡ length load.now.queries.now }
    requires few { (length inboxes.now ≤ 16) × (length jobs.items ≡ length inboxes.now) }
    requires jobs { AreSharingJobs load.now.tickets.now load.now.problem.now inboxes.now jobs.items }
    ensures len { IfOk result (λ crew. length crew.items ≡ length inboxes.now) }
    ensures back { IfOk result (λ crew. AreHandedBack load.now.tickets.now load.now.problem.now load.now.queries.now load.now.budget inboxes.now 0 crew.items) }
{
    let handed = run_all(rt, alloc, load, inboxes, jobs)?;
    in_order(alloc, handed)
}

// What each job gives, by its place.
fn run_all<R: Threads + Wait + Sync, G: Gate + Sync>(
    rt: &R,
    alloc: Global,
    load: &Workload<'_, G>,
    inboxes: &[Inbox],
    jobs: Vec<SharingJob>,
) -> Result<Vec<Result<Shared, AllocError>>, AllocError>
    requires asked { CanBeAsked load.now.problem.now load.now.queries.now load.now.budget }
    requires count { load.now.tickets.now.count ≡ length load.now.queries.now }
    requires few { (length inboxes.now ≤ 16) × (length jobs.items ≡ length inboxes.now) }
    requires jobs { AreSharingJobs load.now.tickets.now load.now.problem.now inboxes.now jobs.items }
    ensures len { IfOk result (λ handed. length handed.items ≡ length jobs.items) }
    ensures done { IfOk result (λ handed. (place : ℕ) (d : _) → place < length handed.items → IfOk (slice_index_or handed.items place d) (IsHandedBack load.now.tickets.now load.now.problem.now load.now.queries.now load.now.budget inboxes.now place)) }
{
    thread::map_vec(
        rt,
        jobs,
        &|sharing: SharingJob| -> Result<Shared, AllocError>
            requires { CanBeAsked load.now.problem.now load.now.queries.now load.now.budget × (load.now.tickets.now.count ≡ length load.now.queries.now) × (length inboxes.now ≤ 16) × (1 ≤ sharing.job.number) × (sharing.job.number ≤ length inboxes.now) × IsSharingJob load.now.tickets.now load.now.problem.now inboxes.now (sharing.job.number - 1) sharing }
            ensures { IfOk result (IsHandedBack load.entry.now.tickets.now load.entry.now.problem.now load.entry.now.queries.now load.entry.now.budget inboxes.entry.now (sharing.job.number - 1)) }
        { work_beside(rt, alloc, load, inboxes, sharing) },
    )
}

// What each worker handed back, by number.
fn in_order(
    alloc: Global,
    mut handed: Vec<Result<Shared, AllocError>>,
) -> Result<VecDeque<Shared>, AllocError>
    ensures { IfOk result (λ crew. handed.items ≡ map Ok crew.items) }
{
    let mut crew = VecDeque::new(alloc);
    while let Some(shared) = handed.pop() {
        crew.push_front(shared?)?;
    }
    Ok(crew)
}

/// Answers the queries by so many workers, numbered from 1, one after another in the calling thread, for windows of few
/// queries that are worked on side by side. Each draws tickets until none is left, passes the gate after each, and passes to
/// the others what it learns and is fit to share. So the first answers all queries, and the others make no search. Beside the
/// work comes the post for the next window, which has the passes of this one.
pub fn work_in_turn<R: Wait, G: Gate>(
    rt: &R,
    alloc: Global,
    problem: &Problem,
    queries: &[Query],
    workers: u32,
    budget: u64,
    gate: &G,
    post: Post,
) -> Result<(WindowWork, Post), AllocError>
    requires workers { (1 ≤ workers) × (workers ≤ 16) }
    requires asked { CanBeAsked problem.now queries.now budget }
    requires post { IsPost workers post }
    ensures work { IfOk result (λ made. IsWork problem.now queries.now workers budget made.0) }
    ensures none { IfOk result (λ made. made.0.passes ≡ []) }
    ensures post { IfOk result (λ made. IsPost workers made.1) }
    ensures alone { workers ≡ 1 → IfOk result (λ made. WorksAlone made.0 × (made.1 ≡ post)) }
    ensures shared { 2 ≤ workers → IfOk result (λ made. AllShared problem.now workers made.0.records made.1.passes.items) }
{
    if workers == 1 {
        let work = work_one(alloc, problem, queries, budget, gate)?;
        return Ok((work, post));
    }
    work_one_by_one(rt, alloc, problem, queries, workers, budget, gate, post)
}

// Two workers or more, one after another.
fn work_one_by_one<R: Wait, G: Gate>(
    rt: &R,
    alloc: Global,
    problem: &Problem,
    queries: &[Query],
    workers: u32,
    budget: u64,
    gate: &G,
    post: Post,
) -> Result<(WindowWork, Post), AllocError>
    requires workers { (2 ≤ workers) × (workers ≤ 16) }
    requires asked { CanBeAsked problem.now queries.now budget }
    requires post { IsPost workers post }
    ensures work { IfOk result (λ made. IsWork problem.now queries.now workers budget made.0) }
    ensures none { IfOk result (λ made. made.0.passes ≡ []) }
    ensures post { IfOk result (λ made. IsPost workers made.1) }
    ensures shared { IfOk result (λ made. AllShared problem.now workers made.0.records made.1.passes.items) }
{
    let Hired {
        inboxes,
        tickets,
        jobs,
    } = hire(alloc, problem, queries.len() as u64, workers, post)?;
    let load = Workload {
        tickets: &tickets,
        problem,
        queries,
        budget,
        gate,
    };
    let made = work_after_another(rt, alloc, &load, inboxes.as_slice(), jobs);
    drop(tickets);
    match made {
        Ok((work, passes)) => Ok((work, Post { inboxes, passes })),
        Err(error) => {
            drop(inboxes);
            Err(error)
        }
    }
}

// The work of workers that were hired, one after another, and the pass of each inbox.
fn work_after_another<R: Wait, G: Gate>(
    rt: &R,
    alloc: Global,
    load: &Workload<'_, G>,
    inboxes: &[Inbox],
    jobs: Vec<SharingJob>,
) -> Result<(WindowWork, Vec<Pass>), AllocError>
    requires asked { CanBeAsked load.now.problem.now load.now.queries.now load.now.budget }
    requires count { load.now.tickets.now.count ≡ length load.now.queries.now }
    requires crew { load.now.tickets.now.crew ≡ length inboxes.now }
    requires few { (1 ≤ length inboxes.now) × (length inboxes.now ≤ 16) × (length jobs.items ≡ length inboxes.now) }
    requires jobs { AreSharingJobs load.now.tickets.now load.now.problem.now inboxes.now jobs.items }
    ensures work { IfOk result (λ made. IsWork load.now.problem.now load.now.queries.now (length inboxes.now) load.now.budget made.0) }
    ensures none { IfOk result (λ made. made.0.passes ≡ []) }
    ensures shared { IfOk result (λ made. AllShared load.now.problem.now (length inboxes.now) made.0.records made.1.items) }
    ensures whole { IfOk result (λ made. PassesAre inboxes.now (IsWholeOf (length inboxes.now)) made.1.items) }
{
    let crew = run_in_turn(rt, alloc, load, inboxes, jobs)?;
    finish(rt, alloc, load, inboxes, crew)
}

// What each worker hands back, by number, where one works after another.
fn run_in_turn<R: Wait, G: Gate>(
    rt: &R,
    alloc: Global,
    load: &Workload<'_, G>,
    inboxes: &[Inbox],
    jobs: Vec<SharingJob>,
) -> Result<VecDeque<Shared>, AllocError>
    requires asked { CanBeAsked load.now.problem.now load.now.queries.now load.now.budget }
    requires count { load.now.tickets.now.count ≡ length load.now.queries.now }
    requires few { (length inboxes.now ≤ 16) × (length jobs.items ≡ length inboxes.now) }
    requires jobs { AreSharingJobs load.now.tickets.now load.now.problem.now inboxes.now jobs.items }
    ensures len { IfOk result (λ crew. length crew.items ≡ length inboxes.now) }
    ensures back { IfOk result (λ crew. AreHandedBack load.now.tickets.now load.now.problem.now load.now.queries.now load.now.budget inboxes.now 0 crew.items) }
{
    let mut crew = VecDeque::new(alloc);
    for sharing in jobs {
        let shared = work_beside(rt, alloc, load, inboxes, sharing)?;
        crew.push_back(shared)?;
    }
    Ok(crew)
}

/// Answers the queries by one search, as worker 1, which passes the gate after each ticket that it draws.
pub fn work_one<G: Gate>(
    alloc: Global,
    problem: &Problem,
    queries: &[Query],
    budget: u64,
    gate: &G,
) -> Result<WindowWork, AllocError>
    requires asked { CanBeAsked problem.now queries.now budget }
    ensures work { IfOk result (IsWork problem.now queries.now 1 budget) }
    ensures alone { IfOk result WorksAlone }
{
    let (tickets, mut drawers) = Tickets::new(alloc, queries.len() as u64, 1)?;
    let Some(drawer) = drawers.pop() else {
        unreachable!()
    };
    drop(drawers);
    let load = Workload {
        tickets: &tickets,
        problem,
        queries,
        budget,
        gate,
    };
    let made = work_alone(alloc, &load, drawer);
    drop(tickets);
    made
}

// The work of one worker, which draws all tickets.
fn work_alone<G: Gate>(
    alloc: Global,
    load: &Workload<'_, G>,
    drawer: Drawer,
) -> Result<WindowWork, AllocError>
    requires asked { CanBeAsked load.now.problem.now load.now.queries.now load.now.budget }
    requires count { load.now.tickets.now.count ≡ length load.now.queries.now }
    requires crew { load.now.tickets.now.crew ≡ 1 }
    requires drawer { IsUnused load.now.tickets.now drawer }
    ensures work { IfOk result (IsWork load.now.problem.now load.now.queries.now 1 load.now.budget) }
    ensures alone { IfOk result WorksAlone }
{
    let mut mail = NoMail::new(load.problem);
    let worked = work(alloc, load, Job { number: 1, drawer }, &mut mail)?;
    Gathered::of(alloc, worked)?.into_work(alloc)
}
