ghost use Rattle.std.specs.Prelude.{◌≡◌, ◌≢◌, ◌+◌, ◌-◌, ◌<◌, ◌≤◌, ◌++◌, ◌∷◌, [], All, IfOk, OnErr, OnOk, length, map, replicate, IfSome};
ghost use Rattle.gp_derivation.specs.Exchange.{IsGood};
ghost use Rattle.gp_workers.specs.Desk.{IsDesk, IsLastOffer, PushesBelow, taken_of, told_by, IsCopyOf, IsOutgoing, KeepsRest, Notes, OffersOne, SameWorker, TakesOne};

use gp_base::Row;
use gp_clause::{Clause, Problem};
use gp_derivation::{Offered, Sent, SharedClause};
use gp_inbox::{Inbox, Pass};
use std::alloc::{AllocError, Global};
use std::sync::{Arc, Wait};

// What was offered to the other workers, and its clause.
#[derive(Drop)]
pub(crate) struct Outgoing {
    pub(crate) offered: Offered,
    pub(crate) clause: Clause,
}

// Where a worker takes what others learned, and offers what it learned: the inboxes of all workers, in the order of their
// numbers, and a pass of each. The worker at a place takes from the inbox at that place.
#[derive(Drop)]
pub(crate) struct Desk<'a> {
    pub(crate) problem: &'a Problem,
    pub(crate) inboxes: &'a [Inbox],
    pub(crate) place: usize,
    pub(crate) passes: Vec<Pass>,
    pub(crate) outgoing: Vec<Outgoing>,
    pub(crate) empty: u64,
}

// How many clauses are pushed to each other worker at most.
const MOST_PUSHED: usize = 1024;

impl<'a> Desk<'a> {
    // Offers the clause of an entry to each other worker. It is pushed where fewer than 1,024 were.
    pub(crate) fn offer<R: Wait>(
        &mut self,
        rt: &R,
        entry: u32,
        shared: SharedClause,
    ) -> Result<(), AllocError>
        requires desk { IsDesk self.old }
        requires good { IsGood self.old.problem.now shared }
        requires sender { shared.sender ≡ self.old.place + 1 }
        ensures desk { IsDesk self.new }
        ensures same { SameWorker self.old self.new }
        ensures ok { OnOk result (OffersOne entry shared.clause self.old self.new) }
        ensures err { OnErr result (told_by self.new ≡ told_by self.old) }
    {
        if self.outgoing.len() >= MOST_PUSHED {
            return self.note(entry, Sent::Full, shared);
        }
        let alloc = *self.outgoing.allocator();
        let copies = copies_of(alloc, &shared, self.inboxes.len() - 1)?;
        self.note(entry, Sent::Pushed, shared)?;
        self.push_all(rt, copies);
        Ok(())
    }

    // Keeps an offer with its mark.
    fn note(&mut self, entry: u32, mark: Sent, shared: SharedClause) -> Result<(), AllocError>
        requires some { 1 ≤ length self.old.inboxes.now }
        ensures rest { KeepsRest self.old self.new }
        ensures ok { OnOk result (Notes entry mark shared.clause self.old self.new) }
        ensures err { OnErr result (self.new.outgoing.items ≡ self.old.outgoing.items) }
    {
        let SharedClause { clause, .. } = shared;
        let alloc = *self.outgoing.allocator();
        let outgoing = marked(alloc, entry, mark, self.inboxes.len() - 1, clause)?;
        self.outgoing.push(outgoing)?;
        Ok(())
    }

    // Pushes the last offer to each other worker.
    fn push_all<R: Wait>(&mut self, rt: &R, mut copies: Vec<SharedClause>)
        requires none { PushesBelow 0 self.old }
        requires len { length copies.items + 1 ≡ length self.old.inboxes.now }
        requires copies { All (IsLastOffer self.old) copies.items }
        ensures same { SameWorker self.old self.new }
        ensures outgoing { self.new.outgoing ≡ self.old.outgoing }
        ensures empty { self.new.empty ≡ self.old.empty }
        ensures taken { taken_of self.new ≡ taken_of self.old }
        ensures all { PushesBelow (length self.old.inboxes.now) self.new }
    {
        for taker in 0..self.inboxes.len() {
            if taker == self.place {
                continue;
            }
            let Some(copy) = copies.pop() else {
                unreachable!()
            };
            self.push_to(rt, taker, copy);
        }
    }

    // Pushes the last offer to the worker at a place.
    fn push_to<R: Wait>(&mut self, rt: &R, taker: usize, copy: SharedClause)
        requires other { (taker < length self.old.inboxes.now) × (taker ≢ self.old.place) }
        requires below { PushesBelow taker self.old }
        requires copy { IsLastOffer self.old copy }
        ensures same { SameWorker self.old self.new }
        ensures outgoing { self.new.outgoing ≡ self.old.outgoing }
        ensures empty { self.new.empty ≡ self.old.empty }
        ensures taken { taken_of self.new ≡ taken_of self.old }
        ensures next { PushesBelow (taker + 1) self.new }
    {
        let inbox = &self.inboxes[taker];
        inbox.offer(rt, &mut self.passes[taker], copy);
    }
}

// An offer with one mark for each other worker.
fn marked(
    alloc: Global,
    entry: u32,
    mark: Sent,
    others: usize,
    clause: Clause,
) -> Result<Outgoing, AllocError>
    ensures { IfOk result (IsOutgoing entry mark others clause) }
{
    match marks_of(alloc, mark, others) {
        Ok(sent) => Ok(Outgoing {
            offered: Offered { entry, sent },
            clause,
        }),
        Err(error) => {
            drop(clause);
            Err(error)
        }
    }
}

// So many marks.
fn marks_of(alloc: Global, mark: Sent, count: usize) -> Result<Row<Sent>, AllocError>
    ensures { IfOk result (λ marks. marks ≡ replicate count mark) }
{
    let mut marks = Vec::new(alloc);
    for _ in 0..count {
        marks.push(mark)?;
    }
    Ok(Row::from_vec(marks))
}

// So many copies of a shared clause.
fn copies_of(
    alloc: Global,
    shared: &SharedClause,
    count: usize,
) -> Result<Vec<SharedClause>, AllocError>
    ensures len { IfOk result (λ copies. length copies.items ≡ count) }
    ensures copies { IfOk result (λ copies. All (IsCopyOf shared.now) copies.items) }
{
    let mut copies = Vec::new(alloc);
    for _ in 0..count {
        copies.push(copy_of(shared)?)?;
    }
    Ok(copies)
}

// A copy of a shared clause, with the same certificate.
fn copy_of(shared: &SharedClause) -> Result<SharedClause, AllocError>
    ensures { IfOk result (IsCopyOf shared.now) }
{
    let clause = shared.clause.clone()?;
    match Arc::try_clone(&shared.certificate) {
        Ok(certificate) => Ok(SharedClause {
            sender: shared.sender,
            clause,
            certificate,
        }),
        Err(error) => {
            drop(clause);
            Err(error)
        }
    }
}

impl<'a> Desk<'a> {
    // Takes the next clause from the worker's own inbox.
    pub(crate) fn take<R: Wait>(&mut self, rt: &R) -> Option<SharedClause>
        requires desk { IsDesk self.old }
        ensures desk { IsDesk self.new }
        ensures same { SameWorker self.old self.new }
        ensures good { IfSome result (IsGood self.old.problem.now) }
        ensures told { TakesOne result self.old self.new }
    {
        let inbox = &self.inboxes[self.place];
        match inbox.take(rt, &mut self.passes[self.place]) {
            Some(shared) => Some(shared),
            None => {
                self.empty = self.empty.saturating_add(1);
                None
            }
        }
    }
}
