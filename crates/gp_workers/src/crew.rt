ghost use Rattle.std.specs.Prelude.{◌≡◌, ◌≤◌, ◌+◌, ℕ, List, All, IfOk, length, map, ◌++◌, ◌∷◌, [], OnOk};
ghost use Rattle.gp_clause.specs.declared.problem.Problem.{Problem};
ghost use Rattle.gp_clause.specs.declared.problem.Query.{Query};
ghost use Rattle.gp_workers.specs.Crew.{AreDone, IsGathered, IsDone};
ghost use Rattle.gp_tickets.specs.Drawn.{HasDrawn};
ghost use Rattle.gp_tickets.specs.declared.tickets.Tickets.{Tickets};
ghost use Rattle.gp_workers.specs.Work.{IsWork};

use crate::work::{WindowWork, WorkAnswer};
use gp_base::Row;
use gp_clause::{Problem, Query};
use gp_derivation::WorkerRecord;
use gp_inbox::{Inbox, Pass};
use gp_tickets::{Drawer, Drawn, Tickets};
use std::alloc::{AllocError, Global};
use std::collections::VecDeque;

// What the workers of a window work on: the queries of a problem, whose tickets they draw, each with a budget of its own, and
// the gate that they pass after each ticket.
#[derive(Drop)]
pub(crate) struct Workload<'a, G> {
    pub(crate) tickets: &'a Tickets,
    pub(crate) problem: &'a Problem,
    pub(crate) queries: &'a [Query],
    pub(crate) budget: u64,
    pub(crate) gate: &'a G,
}

// What a worker does: its number, from 1, and the drawer of its tickets.
#[derive(Drop)]
pub(crate) struct Job {
    pub(crate) number: u32,
    pub(crate) drawer: Drawer,
}

// What a worker hands back: its drawer with the answers to the tickets that it drew, and its record.
#[derive(Drop)]
pub(crate) struct Worked {
    pub(crate) drawn: Drawn<WorkAnswer>,
    pub(crate) record: WorkerRecord,
}

// What a worker does that shares: a job, and its passes of the inboxes.
#[derive(Drop)]
pub(crate) struct SharingJob {
    pub(crate) job: Job,
    pub(crate) passes: Vec<Pass>,
}

// Workers that share, before they begin: the inboxes, the tickets, and the job of each.
#[derive(Drop)]
pub(crate) struct Hired {
    pub(crate) inboxes: Vec<Inbox>,
    pub(crate) tickets: Tickets,
    pub(crate) jobs: Vec<SharingJob>,
}

// What a worker hands back that shared, with its passes.
#[derive(Drop)]
pub(crate) struct Shared {
    pub(crate) worked: Worked,
    pub(crate) passes: Vec<Pass>,
}

// What was gathered of the first workers: one drawer for theirs with all their answers, and their records by number.
#[derive(Drop)]
pub(crate) struct Gathered {
    pub(crate) drawn: Drawn<WorkAnswer>,
    pub(crate) records: Vec<WorkerRecord>,
}

// All that the workers handed back. One drawer takes in those of the others.
pub(crate) fn gather(
    alloc: Global,
    tickets: &Tickets,
    mut crew: VecDeque<Worked>,
) -> Result<Gathered, AllocError>
    requires some { 1 ≤ length crew.items }
    requires drawn { All (λ worked. HasDrawn tickets.now worked.drawn) crew.items }
    ensures len { IfOk result (λ gathered. length gathered.records.items ≡ length crew.items) }
    ensures records { IfOk result (λ gathered. gathered.records.items ≡ map (λ worked. worked.record) crew.items) }
    ensures gathered { (problem : Problem) (queries : List Query) (budget : ℕ) → AreDone tickets.now problem queries budget 1 crew.items → IfOk result (IsGathered tickets.now problem queries budget) }
{
    let Some(first) = crew.pop_front() else {
        unreachable!()
    };
    let mut gathered = Gathered::of(alloc, first)?;
    while let Some(worked) = crew.pop_front() {
        gathered.take(tickets, worked)?;
    }
    Ok(gathered)
}

impl Gathered {
    // What the first worker handed back.
    pub(crate) fn of(alloc: Global, worked: Worked) -> Result<Gathered, AllocError>
        ensures first { IfOk result (λ gathered. length gathered.records.items ≡ 1) }
        ensures drawn { IfOk result (λ gathered. gathered.drawn ≡ worked.drawn) }
        ensures records { IfOk result (λ gathered. gathered.records.items ≡ worked.record ∷ []) }
        ensures gathered { (tickets : Tickets) (problem : Problem) (queries : List Query) (budget : ℕ) → IsDone tickets problem queries budget 1 worked → IfOk result (IsGathered tickets problem queries budget) }
    {
        let Worked { drawn, record } = worked;
        let records = vec![in alloc; record]?;
        Ok(Gathered { drawn, records })
    }

    // What the next worker handed back goes to the rest.
    pub(crate) fn take(&mut self, tickets: &Tickets, worked: Worked) -> Result<(), AllocError>
        requires own { HasDrawn tickets.now self.old.drawn }
        requires other { HasDrawn tickets.now worked.drawn }
        ensures drawn { OnOk result (HasDrawn tickets.now self.new.drawn) }
        ensures records { OnOk result (self.new.records.items ≡ self.old.records.items ++ worked.record ∷ []) }
        ensures one_more { OnOk result (length self.new.records.items ≡ length self.old.records.items + 1) }
        ensures gathered { (problem : Problem) (queries : List Query) (budget : ℕ) → IsGathered tickets.now problem queries budget self.old → IsDone tickets.now problem queries budget (length self.old.records.items + 1) worked → OnOk result (IsGathered tickets.now problem queries budget self.new) }
    {
        let Worked { drawn, record } = worked;
        self.records.push(record)?;
        self.drawn.take(tickets, drawn)?;
        Ok(())
    }

    // The answers in the order of their tickets, beside no passes.
    pub(crate) fn into_work(self, alloc: Global) -> Result<WindowWork, AllocError>
        ensures records { IfOk result (λ work. work.records ≡ self.records.items) }
        ensures passes { IfOk result (λ work. work.passes ≡ []) }
        ensures work { (tickets : Tickets) (problem : Problem) (queries : List Query) (budget : ℕ) → IsGathered tickets problem queries budget self → length self.records.items ≡ tickets.crew → tickets.count ≡ length queries → IfOk result (IsWork problem queries tickets.crew budget) }
    {
        let Gathered { drawn, records } = self;
        let answers = drawn.in_order(alloc)?;
        Ok(WindowWork {
            answers: Row::from_vec(answers),
            records: Row::from_vec(records),
            passes: Row::new(alloc),
        })
    }
}
