ghost use Rattle.std.specs.Prelude.{◌≡◌, ◌<◌, true, All, IfNone, IfOk, MatchOption, length, map};
ghost use Rattle.crossbeam_queue.specs.Passes.{view};
ghost use Rattle.gp_inbox.specs.History.{sent_by};
ghost use Rattle.gp_inbox.specs.Passes.{IsOf};
ghost use Rattle.gp_inbox.specs.Views.{IsDrained, IsGoodFor, IsWhole, MayPush, Takes, joined, pushed_one, sender_view, taker_view};

use gp_clause::Problem;
use gp_derivation::SharedClause;
use gp_inbox::{Inbox, Pass};
use std::alloc::{AllocError, Global};
use std::sync::Wait;

/// As `Inbox::renew`.
pub fn renew(
    inbox: &Inbox,
    alloc: Global,
    pass: &mut Pass,
    base: &Problem,
    senders: &[u32],
) -> Result<Vec<Pass>, AllocError>
    requires own { IsOf inbox.now pass.old }
    requires whole { IsWhole (view pass.old) }
    requires same { senders.now ≡ (view pass.old).senders }
    ensures own { IfOk result (λ passes. All (IsOf inbox.now) passes.items × IsOf inbox.now pass.new) }
    ensures senders { IfOk result (λ passes. map view passes.items ≡ map (sender_view base.now senders.now) senders.now) }
    ensures taker { IfOk result (λ _. view pass.new ≡ taker_view base.now senders.now) }
{
    inbox.renew(alloc, pass, base, senders)
}

/// As `Inbox::offer`.
pub fn offer<R: Wait>(inbox: &Inbox, rt: &R, pass: &mut Pass, clause: SharedClause)
    requires pass { IsOf inbox.now pass.old }
    requires good { IsGoodFor (view pass.old).base clause }
    requires sender { MayPush (view pass.old) clause.sender }
    requires room { length (sent_by clause.sender (view pass.old).pushed) < 1024 }
    ensures pass { IsOf inbox.now pass.new }
    ensures pushed { view pass.new ≡ pushed_one (view pass.old) clause }
{
    inbox.offer(rt, pass, clause);
}

/// As `Inbox::take`.
pub fn take<R: Wait>(inbox: &Inbox, rt: &R, pass: &mut Pass) -> Option<SharedClause>
    requires pass { IsOf inbox.now pass.old }
    requires taker { (view pass.old).takes ≡ true }
    ensures pass { IsOf inbox.now pass.new }
    ensures clause { MatchOption result (view pass.new ≡ view pass.old) (λ clause. Takes (view pass.old) clause (view pass.new)) }
    ensures empty { IfNone result (IsDrained (view pass.old)) }
{
    inbox.take(rt, pass)
}

/// As `Inbox::rejoin`.
pub fn rejoin(inbox: &Inbox, into: &mut Pass, other: Pass)
    requires into { IsOf inbox.now into.old }
    requires other { IsOf inbox.now other }
    ensures own { IsOf inbox.now into.new }
    ensures both { view into.new ≡ joined (view into.old) (view other) }
{
    inbox.rejoin(into, other);
}
