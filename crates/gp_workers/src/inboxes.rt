ghost use Rattle.std.specs.Prelude.{◌≡◌, ◌+◌, ◌-◌, ◌<◌, ◌≤◌, ◌++◌, ◌∷◌, [], ℕ, Some, IfOk, OnOk, length, slice_get, true};
ghost use Rattle.std.specs.List.{range_with_len};
ghost use Rattle.gp_workers.specs.Post.{IsPost};
ghost use Rattle.gp_workers.specs.Sharing.{others};
ghost use Rattle.gp_workers.specs.SharedCrew.{AreHired, AreSharingJobs, IsRow, Drains, JoinsAt};
ghost use Rattle.gp_workers.specs.Inboxes.{AreColumns, IsDealt, AreJoined, AreRows, DrainsAt, IsOfEach};
ghost use Rattle.crossbeam_queue.specs.Passes.{view};
ghost use Rattle.gp_inbox.specs.Passes.{IsOf};

use crate::crew::{Hired, Job, SharingJob};
use crate::post::Post;
use gp_clause::Problem;
use gp_inbox::{Inbox, Pass};
use gp_tickets::Tickets;
use std::alloc::{AllocError, Global};
use std::collections::VecDeque;
use std::sync::Wait;

// So many workers that share so many tickets, each with an inbox of this post.
pub(crate) fn hire(
    alloc: Global,
    problem: &Problem,
    count: u64,
    workers: u32,
    post: Post,
) -> Result<Hired, AllocError>
    requires count { count ≤ 1000000 }
    requires workers { (2 ≤ workers) × (workers ≤ 16) }
    requires post { IsPost workers post }
    ensures { IfOk result (AreHired problem.now count workers) }
{
    let (inboxes, columns) = post.open(alloc, problem, workers)?;
    let (tickets, jobs) = hire_sharing(alloc, count, workers, columns)?;
    Ok(Hired {
        inboxes,
        tickets,
        jobs,
    })
}

// An inbox for each of so many workers, and the passes of each worker.
pub(crate) fn open_inboxes(
    alloc: Global,
    problem: &Problem,
    workers: u32,
) -> Result<(Vec<Inbox>, VecDeque<Vec<Pass>>), AllocError>
    requires workers { (2 ≤ workers) × (workers ≤ 16) }
    ensures inboxes { IfOk result (λ opened. length opened.0.items ≡ workers) }
    ensures passes { IfOk result (λ opened. AreColumns problem.now workers opened.0.items opened.1.items) }
{
    let mut inboxes = Vec::new(alloc);
    let mut columns = empty_columns(alloc, workers)?;
    for taker in 0..workers {
        let (inbox, row) = open_inbox(alloc, problem, workers, taker)?;
        inboxes.push(inbox)?;
        deal(&mut columns, row)?;
    }
    Ok((inboxes, columns))
}

// No pass yet for each of so many workers.
pub(crate) fn empty_columns(alloc: Global, workers: u32) -> Result<VecDeque<Vec<Pass>>, AllocError>
    ensures { (problem : _) → IfOk result (λ columns. AreColumns problem workers [] columns.items) }
{
    let mut columns = VecDeque::new(alloc);
    for _ in 0..workers {
        columns.push_back(Vec::new(alloc))?;
    }
    Ok(columns)
}

// The inbox of one worker, and a pass of it for each worker.
fn open_inbox(
    alloc: Global,
    problem: &Problem,
    workers: u32,
    taker: u32,
) -> Result<(Inbox, Vec<Pass>), AllocError>
    requires workers { (2 ≤ workers) × (workers ≤ 16) }
    requires taker { taker < workers }
    ensures { IfOk result (λ opened. IsRow problem.now workers taker opened.0 opened.1.items) }
{
    let senders = others_of(alloc, workers, taker)?;
    let (inbox, mut row, pass) = Inbox::new(alloc, problem, senders.as_slice())?;
    row.insert(taker as usize, pass)?;
    Ok((inbox, row))
}

// The numbers of the other workers.
pub(crate) fn others_of(alloc: Global, workers: u32, taker: u32) -> Result<Vec<u32>, AllocError>
    requires { (taker < workers) × (workers ≤ 16) }
    ensures { IfOk result (λ numbers. numbers.items ≡ others workers taker) }
{
    let mut numbers = Vec::new(alloc);
    add_range(&mut numbers, 1, taker + 1)?;
    add_range(&mut numbers, taker + 2, workers + 1)?;
    Ok(numbers)
}

// Adds the numbers from one on that are below another.
fn add_range(numbers: &mut Vec<u32>, from: u32, to: u32) -> Result<(), AllocError>
    requires { from ≤ to }
    ensures { OnOk result (numbers.new.items ≡ numbers.old.items ++ range_with_len from (to - from)) }
{
    for number in from..to {
        numbers.push(number)?;
    }
    Ok(())
}

// Each worker gets its pass of one inbox more.
pub(crate) fn deal(columns: &mut VecDeque<Vec<Pass>>, mut row: Vec<Pass>) -> Result<(), AllocError>
    requires { length row.items ≡ length columns.old.items }
    ensures len { length columns.new.items ≡ length columns.old.items }
    ensures dealt { OnOk result ((place : ℕ) (column : _) → slice_get columns.new.items place ≡ Some column → IsDealt columns.old.items row.items place column) }
{
    while let Some(pass) = row.pop() {
        let place = row.len();
        columns[place].push(pass)?;
    }
    Ok(())
}

// So many tickets, and a job for each worker with its passes.
fn hire_sharing(
    alloc: Global,
    count: u64,
    workers: u32,
    mut columns: VecDeque<Vec<Pass>>,
) -> Result<(Tickets, Vec<SharingJob>), AllocError>
    requires count { count ≤ 1000000 }
    requires workers { (1 ≤ workers) × (workers ≤ 16) }
    requires columns { length columns.items ≡ workers }
    ensures count { IfOk result (λ hired. hired.0.count ≡ count) }
    ensures crew { IfOk result (λ hired. hired.0.crew ≡ workers) }
    ensures len { IfOk result (λ hired. length hired.1.items ≡ workers) }
    ensures jobs { (problem : _) (inboxes : _) → AreColumns problem workers inboxes columns.items → length inboxes ≡ workers → IfOk result (λ hired. AreSharingJobs hired.0 problem inboxes hired.1.items) }
{
    let (tickets, mut drawers) = Tickets::new(alloc, count, workers)?;
    let mut jobs = Vec::new(alloc);
    while let Some(drawer) = drawers.pop() {
        let Some(passes) = columns.pop_front() else {
            unreachable!()
        };
        let number = jobs.len() as u32 + 1;
        let job = Job { number, drawer };
        jobs.push(SharingJob { job, passes })?;
    }
    Ok((tickets, jobs))
}

// The passes of all workers, joined by inbox.
pub(crate) fn join_all(inboxes: &[Inbox], mut rows: VecDeque<Vec<Pass>>) -> Vec<Pass>
    requires some { 1 ≤ length rows.items }
    requires rows { AreRows inboxes.now rows.items }
    ensures { AreJoined inboxes.now rows.items result.items }
{
    let Some(mut joined) = rows.pop_front() else {
        unreachable!()
    };
    while let Some(row) = rows.pop_front() {
        join_row(inboxes, &mut joined, row);
    }
    joined
}

// The passes of one worker are joined to those of others.
fn join_row(inboxes: &[Inbox], joined: &mut Vec<Pass>, mut row: Vec<Pass>)
    requires joined { IsOfEach inboxes.now joined.old.items }
    requires row { IsOfEach inboxes.now row.items }
    ensures own { IsOfEach inboxes.now joined.new.items }
    ensures each { (place : ℕ) (pass : _) → slice_get joined.new.items place ≡ Some pass → JoinsAt joined.old.items row.items place pass }
{
    while let Some(pass) = row.pop() {
        let place = row.len();
        inboxes[place].rejoin(&mut joined[place], pass);
    }
}

// Takes from each inbox what is left.
pub(crate) fn drain_all<R: Wait>(rt: &R, inboxes: &[Inbox], passes: &mut Vec<Pass>)
    requires own { IsOfEach inboxes.now passes.old.items }
    requires takers { (place : ℕ) (pass : _) → slice_get passes.old.items place ≡ Some pass → (view pass).takes ≡ true }
    ensures own { IsOfEach inboxes.now passes.new.items }
    ensures each { (place : ℕ) (pass : _) → slice_get passes.new.items place ≡ Some pass → DrainsAt passes.old.items place pass }
{
    for place in 0..inboxes.len() {
        drain(rt, &inboxes[place], &mut passes[place]);
    }
}

// Takes what is left.
fn drain<R: Wait>(rt: &R, inbox: &Inbox, pass: &mut Pass)
    requires own { IsOf inbox.now pass.old }
    requires taker { (view pass.old).takes ≡ true }
    ensures own { IsOf inbox.now pass.new }
    ensures all { Drains (view pass.old) (view pass.new) }
{
    for _ in rt.forever() {
        let Some(_taken) = inbox.take(rt, pass) else {
            return;
        };
    }
}
