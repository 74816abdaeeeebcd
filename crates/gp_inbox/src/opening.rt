ghost use Rattle.crossbeam_queue.specs.Passes.{IsPassOf, ruled_capacity, view};
ghost use Rattle.gp_inbox.specs.Passes.{IsOf};
ghost use Rattle.gp_inbox.specs.Senders.{AllDifferent};
ghost use Rattle.gp_inbox.specs.Views.{blank, IsWhole, opened, sender_view, taker_view};
ghost use Rattle.std.specs.Prelude.{◌≡◌, ◌*◌, ◌≤◌, Some, All, IfOk, length, map};

use crate::inbox::{Inbox, Pass};
use crate::rule::{HandOver, Naming, Open};
use crossbeam_queue::RuledArrayQueue;
use gp_clause::Problem;
use std::alloc::{AllocError, Global};

impl Inbox {
    // An inbox for so many senders, whose pass knows neither them nor the base.
    pub(crate) fn blank(alloc: Global, senders: usize) -> Result<(Inbox, Pass), AllocError>
        requires few { (1 ≤ senders) × (senders ≤ 15) }
        ensures pass { IfOk result (λ made. IsPassOf made.0.queue made.1 × (view made.1 ≡ blank)) }
        ensures room { IfOk result (λ made. ruled_capacity made.0.queue ≡ 1024 * senders) }
    {
        let (queue, pass) = RuledArrayQueue::ruled(alloc, 1024 * senders)?;
        Ok((Inbox { queue }, pass))
    }

    // From here on the inbox is one of this base and of these senders.
    pub(crate) fn open<N: Naming>(&self, pass: &mut Pass, _base: &Problem, _senders: &[u32])
        requires named { (N.base ≡ Some _base.now) × (N.senders ≡ _senders.now) }
        requires pass { IsPassOf self.now.queue pass.old × (view pass.old ≡ blank) }
        requires different { AllDifferent _senders.now }
        ensures { IsPassOf self.now.queue pass.new × (view pass.new ≡ opened (Some _base.now) _senders.now) }
    {
        let _ = self.queue.another::<Open<N>>(pass);
    }

    // From here on the inbox is one of this base, for the senders that it has.
    pub(crate) fn reopen<N: Naming>(&self, pass: &mut Pass, _base: &Problem, _senders: &[u32])
        requires named { (N.base ≡ Some _base.now) × (N.senders ≡ _senders.now) }
        requires own { IsOf self.now pass.old }
        requires whole { IsWhole (view pass.old) }
        requires same { _senders.now ≡ (view pass.old).senders }
        ensures { IsPassOf self.now.queue pass.new × (view pass.new ≡ opened (Some _base.now) _senders.now) }
    {
        let _ = self.queue.another::<Open<N>>(pass);
    }

    // Hands each sender's number over to a pass of its own.
    pub(crate) fn cut(
        &self,
        alloc: Global,
        pass: &mut Pass,
        _base: &Problem,
        senders: &[u32],
    ) -> Result<Vec<Pass>, AllocError>
        requires pass { IsPassOf self.now.queue pass.old × (view pass.old ≡ opened (Some _base.now) senders.now) }
        requires room { ruled_capacity self.now.queue ≡ 1024 * length senders.now }
        ensures own { IfOk result (λ passes. All (IsOf self.now) passes.items) }
        ensures senders { IfOk result (λ passes. map view passes.items ≡ map (sender_view _base.now senders.now) senders.now) }
        ensures taker { IfOk result (λ _. IsOf self.now pass.new × (view pass.new ≡ taker_view _base.now senders.now)) }
    {
        let mut passes = Vec::new(alloc);
        'senders: for _ in 0..senders.len() {
            let one = self.queue.another::<HandOver>(pass);
            passes.push(one)?;
        }
        Ok(passes)
    }
}
