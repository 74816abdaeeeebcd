ghost use Rattle.crossbeam_queue.specs.Passes.{view};
ghost use Rattle.gp_inbox.specs.History.{sent_by};
ghost use Rattle.gp_inbox.specs.Passes.{IsOf};
ghost use Rattle.gp_inbox.specs.Senders.{AllDifferent};
ghost use Rattle.gp_inbox.specs.Views.{IsDrained, IsGoodFor, IsWhole, joined, MayPush, pushed_one, sender_view, taker_view, Takes};
ghost use Rattle.std.specs.Prelude.{◌≡◌, ◌<◌, ◌≤◌, true, All, IfNone, IfOk, length, map, MatchOption};

use crate::rule::{Both, InboxRule, Push, Take, View};
use crossbeam_queue::RuledArrayQueue;
use gp_clause::Problem;
use gp_derivation::SharedClause;
use std::alloc::{AllocError, Global};
use std::marker::Brand;
use std::sync::Wait;

/// What one thread may do with an inbox: push under some senders' numbers, take, or both.
pub type Pass = crossbeam_queue::Pass<SharedClause, View>;

/// Clauses on their way from several senders to one taker, with 1,024 places for each sender.
#[derive(Drop)]
pub struct Inbox {
    pub(crate) queue: RuledArrayQueue<SharedClause, View, InboxRule>,
}

impl Inbox {
    /// The inbox, a pass for each sender in their order, and the taker's pass.
    pub fn new(
        alloc: Global,
        base: &Problem,
        senders: &[u32],
    ) -> Result<(Inbox, Vec<Pass>, Pass), AllocError>
        requires few { (1 ≤ length senders.now) × (length senders.now ≤ 15) }
        requires different { AllDifferent senders.now }
        ensures own { IfOk result (λ made. All (IsOf made.0) made.1.items × IsOf made.0 made.2) }
        ensures senders { IfOk result (λ made. map view made.1.items ≡ map (sender_view base.now senders.now) senders.now) }
        ensures taker { IfOk result (λ made. view made.2 ≡ taker_view base.now senders.now) }
    {
        let (inbox, mut pass) = Inbox::blank(alloc, senders.len())?;
        inbox.open::<Brand>(&mut pass, base, senders);
        let passes = inbox.cut(alloc, &mut pass, base, senders)?;
        Ok((inbox, passes, pass))
    }

    /// The inbox serves another problem, once all its passes were joined into this one and all that was pushed was taken: a pass
    /// for each sender in their order, and this one is the taker's.
    pub fn renew(
        &self,
        alloc: Global,
        pass: &mut Pass,
        base: &Problem,
        senders: &[u32],
    ) -> Result<Vec<Pass>, AllocError>
        requires own { IsOf self.now pass.old }
        requires whole { IsWhole (view pass.old) }
        requires same { senders.now ≡ (view pass.old).senders }
        ensures own { IfOk result (λ passes. All (IsOf self.now) passes.items × IsOf self.now pass.new) }
        ensures senders { IfOk result (λ passes. map view passes.items ≡ map (sender_view base.now senders.now) senders.now) }
        ensures taker { IfOk result (λ _. view pass.new ≡ taker_view base.now senders.now) }
    {
        self.reopen::<Brand>(pass, base, senders);
        self.cut(alloc, pass, base, senders)
    }

    /// Pushes the clause. The queue has a place for it. It takes no memory.
    pub fn offer<R: Wait>(&self, rt: &R, pass: &mut Pass, clause: SharedClause)
        requires pass { IsOf self.now pass.old }
        requires good { IsGoodFor (view pass.old).base clause }
        requires sender { MayPush (view pass.old) clause.sender }
        requires room { length (sent_by clause.sender (view pass.old).pushed) < 1024 }
        ensures pass { IsOf self.now pass.new }
        ensures pushed { view pass.new ≡ pushed_one (view pass.old) clause }
    {
        match self.queue.push_as::<Push, R>(rt, pass, clause) {
            Ok(()) => {}
            Err(_) => unreachable!(),
        }
    }

    /// Takes the next clause, or `None` where the inbox was empty at a moment of the call. It takes no memory.
    pub fn take<R: Wait>(&self, rt: &R, pass: &mut Pass) -> Option<SharedClause>
        requires pass { IsOf self.now pass.old }
        requires taker { (view pass.old).takes ≡ true }
        ensures pass { IsOf self.now pass.new }
        ensures clause { MatchOption result (view pass.new ≡ view pass.old) (λ clause. Takes (view pass.old) clause (view pass.new)) }
        ensures empty { IfNone result (IsDrained (view pass.old)) }
    {
        self.queue.pop_as::<Take, R>(rt, pass)
    }

    /// Leaves in `into` the numbers, the right to take and the lists of both.
    pub fn rejoin(&self, into: &mut Pass, other: Pass)
        requires into { IsOf self.now into.old }
        requires other { IsOf self.now other }
        ensures own { IsOf self.now into.new }
        ensures both { view into.new ≡ joined (view into.old) (view other) }
    {
        self.queue.absorb::<Both>(into, other);
    }
}
