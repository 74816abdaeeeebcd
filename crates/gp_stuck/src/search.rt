ghost use Rattle.std.specs.Prelude.{◌≡◌, ◌∷◌, ◌++◌, ◌≤◌, ◌&&◌, [], filter, if◌then◌else◌, length, map, nat_lt, true, IfOk, OnOk};
ghost use Rattle.std.specs.List.{flat_map, list_all};
ghost use Rattle.gp_instance.specs.Instances.{numbered};
ghost use Rattle.gp_instance.specs.Search.{first_instances, instance_after};
ghost use Rattle.gp_stuck.specs.Closing.{IsFirst};
ghost use Rattle.gp_stuck.specs.Cycle.{are_apart, waits_for};
ghost use Rattle.gp_stuck.specs.Links.{AreLinked};
ghost use Rattle.gp_stuck.specs.Noted.{holders_of, may_stand, standing};
ghost use Rattle.gp_stuck.specs.Search.{closed, completions, going_on, may_follow, takers_of};

use crate::closing::keeps_out;
use crate::event::{exclude, may_be_next, use_at};
use crate::first::First;
use crate::holder::Holder;
use crate::link::Link;
use crate::narrowing::{may_begin, may_go_on};
use crate::noting::keep_id;
use crate::waiting::Waiting;
use gp_base::Row;
use gp_instance::Instance;
use gp_text::Name;
use gp_trace::{LockMode, LockUse};
use gp_window::{EventId, Window};
use std::alloc::{AllocError, Global};

/// The most cycles of a window that are listed.
pub const MOST_CYCLES: usize = 10_000;

/// Adds all cycles that begin with the first event, until there is one more than are listed.
pub fn extend_first(
    alloc: Global,
    waiting: &Waiting,
    links: &[Link],
    first: &First,
    found: &mut Row<Instance>,
) -> Result<(), AllocError>
    requires first { IsFirst waiting.now first.now }
    requires linked { first.now.narrows ≡ true → AreLinked waiting.now (takers_of waiting.now) links.now }
    requires room { length found.old ≤ 10001 }
    ensures { OnOk result (found.new ≡ first_instances found.old (map (instance_after 0 (first.now.holding.id ∷ [])) (completions waiting.now (takers_of waiting.now) first.now.holding.id [] first.now.holding.id 3))) }
{
    if !may_begin(waiting, first, links) {
        return Ok(());
    }
    extend(alloc, waiting, first, &[], first.holding.id, 3, found)
}

/// Adds all cycles that begin with the first event and those that passed since, and go on with up to `left`
/// more of the events that take locks, until there is one more than are listed.
pub fn extend(
    alloc: Global,
    waiting: &Waiting,
    first: &First,
    passed: &[EventId],
    last: EventId,
    left: u32,
    found: &mut Row<Instance>,
) -> Result<(), AllocError>
    requires first { IsFirst waiting.now first.now }
    requires room { length found.old ≤ 10001 }
    ensures { OnOk result (found.new ≡ first_instances found.old (map (instance_after 0 (first.now.holding.id ∷ passed.now)) (completions waiting.now (takers_of waiting.now) first.now.holding.id passed.now last left))) }
{
    close(alloc, waiting, first, passed, last, found)?;
    let Some(fewer) = left.checked_sub(1) else {
        return Ok(());
    };
    let nexts = followers(alloc, waiting, first, passed, last, fewer)?;
    for id in nexts.as_slice() {
        if found.len() > MOST_CYCLES {
            return Ok(());
        }
        let longer = extended(alloc, passed, *id)?;
        extend(alloc, waiting, first, longer.as_slice(), *id, fewer, found)?;
    }
    Ok(())
}

/// The events that may follow the last one of a chain, but for those where it cannot close with so few more.
fn followers(
    alloc: Global,
    waiting: &Waiting,
    first: &First,
    passed: &[EventId],
    last: EventId,
    fewer: u32,
) -> Result<Row<EventId>, AllocError>
    requires { IsFirst waiting.now first.now }
    ensures { IfOk result (λ kept. flat_map (going_on waiting.now first.now.holding.id passed.now fewer) kept ≡ flat_map (going_on waiting.now first.now.holding.id passed.now fewer) (filter (may_follow waiting.now first.now.holding.id passed.now last) (takers_of waiting.now))) }
{
    let Some(lock_use) = use_at(waiting.window(), last) else {
        return Ok(Row::new(alloc));
    };
    match lock_use {
        LockUse::Take(mode, lock) => standing(alloc, waiting, first, passed, mode, lock, fewer),
        LockUse::GiveBack(..) => Ok(Row::new(alloc)),
    }
}

/// Of those whose threads hold this lock, and that may follow an event that takes it so.
fn standing(
    alloc: Global,
    waiting: &Waiting,
    first: &First,
    passed: &[EventId],
    mode: LockMode,
    lock: Name,
    fewer: u32,
) -> Result<Row<EventId>, AllocError>
    requires { IsFirst waiting.now first.now }
    ensures { IfOk result (λ kept. flat_map (going_on waiting.now first.now.holding.id passed.now fewer) kept ≡ flat_map (going_on waiting.now first.now.holding.id passed.now fewer) (standing waiting.now mode first.now.holding.id passed.now (holders_of waiting.now lock (takers_of waiting.now)))) }
{
    let mut kept = Row::new(alloc);
    for holder in waiting.holders(&lock) {
        let keep = may_enter(waiting, mode, first, passed, holder, fewer);
        keep_id(&mut kept, holder.id, keep)?;
    }
    Ok(kept)
}

fn may_enter(
    waiting: &Waiting,
    mode: LockMode,
    first: &First,
    passed: &[EventId],
    holder: &Holder,
    fewer: u32,
) -> bool
    requires { IsFirst waiting.now first.now }
    ensures { flat_map (going_on waiting.now first.now.holding.id passed.now fewer) (if result then holder.now.id ∷ [] else []) ≡ flat_map (going_on waiting.now first.now.holding.id passed.now fewer) (if may_stand waiting.now mode first.now.holding.id passed.now holder.now then holder.now.id ∷ [] else []) }
{
    if !may_stand(waiting.window(), mode, first.holding.id, passed, holder) {
        return false;
    }
    may_go_on(waiting, first, passed, holder.id, fewer)
}

fn may_stand(
    window: &Window,
    mode: LockMode,
    first: EventId,
    passed: &[EventId],
    holder: &Holder,
) -> bool
    ensures { result ≡ may_stand window.now mode first passed.now holder.now }
{
    first.thread < holder.id.thread
        && is_apart(passed, holder.id)
        && may_be_next(window, holder.id)
        && exclude(holder.mode, mode)
}

/// Whether an event is of none of the threads of these.
fn is_apart(passed: &[EventId], id: EventId) -> bool
    ensures { result ≡ list_all (λ other. are_apart other id) passed.now }
{
    passed.iter().all(|other| other.thread != id.thread)
}

/// Adds the chain as a cycle, where its last event waits for its first.
fn close(
    alloc: Global,
    waiting: &Waiting,
    first: &First,
    passed: &[EventId],
    last: EventId,
    found: &mut Row<Instance>,
) -> Result<(), AllocError>
    requires first { IsFirst waiting.now first.now }
    requires room { length found.old ≤ 10001 }
    ensures { OnOk result (found.new ≡ first_instances found.old (map (instance_after 0 (first.now.holding.id ∷ passed.now)) (closed waiting.now first.now.holding.id passed.now last))) }
{
    if !closes(waiting, first, passed, last) {
        return Ok(());
    }
    add(alloc, first.holding.id, passed, found)
}

fn closes(waiting: &Waiting, first: &First, passed: &[EventId], last: EventId) -> bool
    requires { IsFirst waiting.now first.now }
    ensures { result ≡ (nat_lt 0 (length passed.now) && waits_for waiting.now last first.now.holding.id) }
{
    !passed.is_empty() && waits_for(waiting, last, first)
}

/// Whether an event takes a lock that the thread of the first one, just before that one, holds against it.
fn waits_for(waiting: &Waiting, one: EventId, first: &First) -> bool
    requires { IsFirst waiting.now first.now }
    ensures { result ≡ waits_for waiting.now one first.now.holding.id }
{
    let Some(lock_use) = use_at(waiting.window(), one) else {
        return false;
    };
    match lock_use {
        LockUse::Take(mode, lock) => keeps_out(&first.holding.held, mode, &lock),
        LockUse::GiveBack(..) => false,
    }
}

fn extended(alloc: Global, front: &[EventId], id: EventId) -> Result<Row<EventId>, AllocError>
    ensures { IfOk result (λ longer. longer ≡ front.now ++ id ∷ []) }
{
    let mut longer = Row::from_vec(Vec::from_slice(alloc, front)?);
    longer.push(id)?;
    Ok(longer)
}

/// Adds the cycle of these events, where there is room.
#[tactic(auto, using(gp_instance::specs::LimitLaws::one_more))]
fn add(
    alloc: Global,
    first: EventId,
    passed: &[EventId],
    found: &mut Row<Instance>,
) -> Result<(), AllocError>
    requires { length found.old ≤ 10001 }
    ensures { OnOk result (found.new ≡ first_instances found.old (numbered 0 (first ∷ passed.now) ∷ [])) }
{
    if found.len() > MOST_CYCLES {
        return Ok(());
    }
    let events = all_of(alloc, first, passed)?;
    found.push(Instance {
        property: 0,
        events,
    })
}

fn all_of(alloc: Global, first: EventId, passed: &[EventId]) -> Result<Row<EventId>, AllocError>
    ensures { IfOk result (λ all. all ≡ first ∷ passed.now) }
{
    let mut all = Row::new(alloc);
    all.push(first)?;
    for id in passed {
        all.push(*id)?;
    }
    Ok(all)
}
