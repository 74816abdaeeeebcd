ghost use Rattle.std.specs.Prelude.{◌≡◌, ◌-◌, ◌<◌, ◌≤◌, ◌++◌, [], Some, IfOk, OnOk, length, map};
ghost use Rattle.gp_workers.specs.Crew.{IsDone};
ghost use Rattle.gp_workers.specs.Desk.{IsDesk, PassesAre, offers_of, told_by};
ghost use Rattle.gp_workers.specs.Mail.{SharesSoFar};
ghost use Rattle.gp_workers.specs.Post.{IsWholeOf};
ghost use Rattle.gp_workers.specs.SharedCrew.{IsShared, IsSharingJob, SameButOffers, AreHandedBack};
ghost use Rattle.gp_workers.specs.Work.{CanBeAsked, IsWork};
ghost use Rattle.gp_workers.specs.Sharing.{AllShared};

use crate::crew::{Shared, SharingJob, Worked, Workload, gather};
use crate::desk::{Desk, Outgoing};
use crate::inboxes::{drain_all, join_all};
use crate::mail::{Naming, WorkerMail};
use crate::work::WindowWork;
use crate::worker::work;
use gp_base::Row;
use gp_derivation::{Offered, WorkerRecord};
use gp_inbox::{Inbox, Pass};
use gp_outside::Gate;
use std::alloc::{AllocError, Global};
use std::collections::VecDeque;
use std::marker::Brand;
use std::sync::Wait;

// A worker among others works, takes from its inbox and offers to theirs.
pub(crate) fn work_beside<R: Wait, G: Gate>(
    rt: &R,
    alloc: Global,
    load: &Workload<'_, G>,
    inboxes: &[Inbox],
    sharing: SharingJob,
) -> Result<Shared, AllocError>
    requires asked { CanBeAsked load.now.problem.now load.now.queries.now load.now.budget }
    requires count { load.now.tickets.now.count ≡ length load.now.queries.now }
    requires few { length inboxes.now ≤ 16 }
    requires number { (1 ≤ sharing.job.number) × (sharing.job.number ≤ length inboxes.now) }
    requires job { IsSharingJob load.now.tickets.now load.now.problem.now inboxes.now (sharing.job.number - 1) sharing }
    ensures done { IfOk result (λ shared. IsDone load.now.tickets.now load.now.problem.now load.now.queries.now load.now.budget sharing.job.number shared.worked) }
    ensures shared { IfOk result (λ shared. IsShared load.now.problem.now inboxes.now (sharing.job.number - 1) shared.worked.record shared.passes.items) }
{
    work_named::<R, G, Brand>(rt, alloc, load, inboxes, sharing)
}

// The same, where the inboxes have a name.
fn work_named<R: Wait, G: Gate, N: Naming>(
    rt: &R,
    alloc: Global,
    load: &Workload<'_, G>,
    inboxes: &[Inbox],
    sharing: SharingJob,
) -> Result<Shared, AllocError>
    requires named { inboxes.now ≡ N.inboxes }
    requires asked { CanBeAsked load.now.problem.now load.now.queries.now load.now.budget }
    requires count { load.now.tickets.now.count ≡ length load.now.queries.now }
    requires few { length inboxes.now ≤ 16 }
    requires number { (1 ≤ sharing.job.number) × (sharing.job.number ≤ length inboxes.now) }
    requires job { IsSharingJob load.now.tickets.now load.now.problem.now inboxes.now (sharing.job.number - 1) sharing }
    ensures done { IfOk result (λ shared. IsDone load.now.tickets.now load.now.problem.now load.now.queries.now load.now.budget sharing.job.number shared.worked) }
    ensures shared { IfOk result (λ shared. IsShared load.now.problem.now inboxes.now (sharing.job.number - 1) shared.worked.record shared.passes.items) }
{
    let SharingJob { job, passes } = sharing;
    let desk = Desk {
        problem: load.problem,
        inboxes,
        place: job.number as usize - 1,
        passes,
        outgoing: Vec::new(alloc),
        empty: 0,
    };
    let mut mail: WorkerMail<R, N> = WorkerMail::new(rt, desk);
    let worked = work(alloc, load, job, &mut mail)?;
    mail.into_desk().hand_back(alloc, worked)
}

impl<'a> Desk<'a> {
    // What a worker hands back: its work with its offers, and its passes.
    fn hand_back(self, alloc: Global, worked: Worked) -> Result<Shared, AllocError>
        requires desk { IsDesk self }
        requires shares { SharesSoFar self.problem.now worked.record.log (Some (told_by self)) }
        ensures same { IfOk result (λ shared. SameButOffers worked shared.worked) }
        ensures shared { IfOk result (λ shared. IsShared self.entry.problem.now self.entry.inboxes.now self.entry.place shared.worked.record shared.passes.items) }
    {
        let Desk {
            passes,
            outgoing,
            ..
        } = self;
        let Worked { drawn, record } = worked;
        let WorkerRecord { log, turns, .. } = record;
        let offered = Row::from_vec(offers_of(alloc, outgoing)?);
        let record = WorkerRecord {
            log,
            turns,
            offered,
        };
        let worked = Worked { drawn, record };
        Ok(Shared { worked, passes })
    }
}

// What is recorded of the offers.
fn offers_of(alloc: Global, outgoing: Vec<Outgoing>) -> Result<Vec<Offered>, AllocError>
    ensures { IfOk result (λ offers. offers.items ≡ offers_of outgoing.items) }
{
    outgoing.into_iter().map(|one| one.offered).collect(alloc)
}

// What the workers handed back, put together, and the pass of each inbox: the passes of all are joined, and what is left is
// taken.
pub(crate) fn finish<R: Wait, G: Gate>(
    rt: &R,
    alloc: Global,
    load: &Workload<'_, G>,
    inboxes: &[Inbox],
    crew: VecDeque<Shared>,
) -> Result<(WindowWork, Vec<Pass>), AllocError>
    requires some { (1 ≤ length crew.items) × (length crew.items ≡ length inboxes.now) }
    requires crew { load.now.tickets.now.crew ≡ length inboxes.now }
    requires count { load.now.tickets.now.count ≡ length load.now.queries.now }
    requires back { AreHandedBack load.now.tickets.now load.now.problem.now load.now.queries.now load.now.budget inboxes.now 0 crew.items }
    ensures work { IfOk result (λ made. IsWork load.now.problem.now load.now.queries.now (length inboxes.now) load.now.budget made.0) }
    ensures none { IfOk result (λ made. made.0.passes ≡ []) }
    ensures shared { IfOk result (λ made. AllShared load.now.problem.now (length inboxes.now) made.0.records made.1.items) }
    ensures whole { IfOk result (λ made. PassesAre inboxes.now (IsWholeOf (length inboxes.now)) made.1.items) }
{
    let (crew, rows) = parted(alloc, crew)?;
    let mut passes = join_all(inboxes, rows);
    drain_all(rt, inboxes, &mut passes);
    let work = gather(alloc, load.tickets, crew)?.into_work(alloc)?;
    Ok((work, passes))
}

// The work of each worker, and its passes.
fn parted(
    alloc: Global,
    mut crew: VecDeque<Shared>,
) -> Result<(VecDeque<Worked>, VecDeque<Vec<Pass>>), AllocError>
    ensures worked { IfOk result (λ parts. parts.0.items ≡ map (λ shared. shared.worked) crew.items) }
    ensures passes { IfOk result (λ parts. parts.1.items ≡ map (λ shared. shared.passes) crew.items) }
{
    let mut all = VecDeque::new(alloc);
    let mut rows = VecDeque::new(alloc);
    let done = part_all(&mut crew, &mut all, &mut rows);
    drop(crew);
    match done {
        Ok(()) => Ok((all, rows)),
        Err(error) => {
            drop((all, rows));
            Err(error)
        }
    }
}

// Puts the work of each worker behind that of others, and its passes behind theirs.
fn part_all(
    crew: &mut VecDeque<Shared>,
    all: &mut VecDeque<Worked>,
    rows: &mut VecDeque<Vec<Pass>>,
) -> Result<(), AllocError>
    ensures worked { OnOk result (all.new.items ≡ all.old.items ++ map (λ shared. shared.worked) crew.old.items) }
    ensures passes { OnOk result (rows.new.items ≡ rows.old.items ++ map (λ shared. shared.passes) crew.old.items) }
{
    while let Some(shared) = crew.pop_front() {
        let Shared { worked, passes } = shared;
        let Ok(()) = all.push_back(worked) else {
            drop(passes);
            return Err(AllocError);
        };
        rows.push_back(passes)?;
    }
    Ok(())
}
