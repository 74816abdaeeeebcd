ghost use Rattle.std.specs.Prelude.{◌≡◌, ◌<◌, ◌≤◌, ℕ, [], IfOk, length};
ghost use Rattle.crossbeam_queue.specs.Passes.{view};
ghost use Rattle.gp_inbox.specs.Passes.{IsOf};
ghost use Rattle.gp_workers.specs.Desk.{PassesAre};
ghost use Rattle.gp_workers.specs.Inboxes.{AreColumns};
ghost use Rattle.gp_workers.specs.Post.{IsPost, IsWholeOf};
ghost use Rattle.gp_workers.specs.SharedCrew.{IsRow};

use crate::inboxes::{deal, empty_columns, open_inboxes, others_of};
use gp_clause::Problem;
use gp_inbox::{Inbox, Pass};
use std::alloc::{AllocError, Global};
use std::collections::VecDeque;

/// The inboxes of workers that work on one window after another, each with the pass to which those of all workers were joined.
/// They are made for the first window, and renewed for each later one.
#[derive(Drop)]
pub struct Post {
    pub(crate) inboxes: Vec<Inbox>,
    pub(crate) passes: Vec<Pass>,
}

impl Post {
    /// No inbox yet.
    pub fn none(alloc: Global) -> Post
        ensures none { (result.inboxes.items ≡ []) × (result.passes.items ≡ []) }
        ensures post { (workers : ℕ) → IsPost workers result }
    {
        Post {
            inboxes: Vec::new(alloc),
            passes: Vec::new(alloc),
        }
    }

    // The inboxes for a window, one for each of so many workers, and the passes of each worker.
    pub(crate) fn open(
        self,
        alloc: Global,
        problem: &Problem,
        workers: u32,
    ) -> Result<(Vec<Inbox>, VecDeque<Vec<Pass>>), AllocError>
        requires workers { (2 ≤ workers) × (workers ≤ 16) }
        requires post { IsPost workers self }
        ensures inboxes { IfOk result (λ opened. length opened.0.items ≡ workers) }
        ensures passes { IfOk result (λ opened. AreColumns problem.now workers opened.0.items opened.1.items) }
    {
        let Post { inboxes, passes } = self;
        if inboxes.is_empty() {
            return open_inboxes(alloc, problem, workers);
        }
        let columns = renew_inboxes(alloc, problem, workers, inboxes.as_slice(), passes)?;
        Ok((inboxes, columns))
    }
}

// The passes of each worker, where each inbox is renewed.
fn renew_inboxes(
    alloc: Global,
    problem: &Problem,
    workers: u32,
    inboxes: &[Inbox],
    passes: Vec<Pass>,
) -> Result<VecDeque<Vec<Pass>>, AllocError>
    requires workers { (2 ≤ workers) × (workers ≤ 16) }
    requires len { length inboxes.now ≡ workers }
    requires whole { PassesAre inboxes.now (IsWholeOf workers) passes.items }
    ensures { IfOk result (λ columns. AreColumns problem.now workers inboxes.now columns.items) }
{
    let mut columns = empty_columns(alloc, workers)?;
    let mut left = VecDeque::from_vec(passes);
    for taker in 0..workers {
        let Some(pass) = left.pop_front() else {
            unreachable!()
        };
        let row = renew_inbox(
            alloc,
            problem,
            workers,
            taker,
            &inboxes[taker as usize],
            pass,
        )?;
        deal(&mut columns, row)?;
    }
    Ok(columns)
}

// A pass of the inbox of one worker for each worker, where the inbox is renewed.
fn renew_inbox(
    alloc: Global,
    problem: &Problem,
    workers: u32,
    taker: u32,
    inbox: &Inbox,
    mut pass: Pass,
) -> Result<Vec<Pass>, AllocError>
    requires workers { (2 ≤ workers) × (workers ≤ 16) }
    requires taker { taker < workers }
    requires own { IsOf inbox.now pass }
    requires whole { IsWholeOf workers taker (view pass) }
    ensures { IfOk result (λ row. IsRow problem.now workers taker inbox.now row.items) }
{
    let senders = others_of(alloc, workers, taker)?;
    let mut row = inbox.renew(alloc, &mut pass, problem, senders.as_slice())?;
    row.insert(taker as usize, pass)?;
    Ok(row)
}
