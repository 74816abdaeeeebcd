ghost use Rattle.std.specs.Prelude.{ℕ, ◌≡◌, ◌<◌, ◌++◌, ◌∷◌, ◌^◌, [], List, if◌then◌else◌, length, IfOk, OnOk};
ghost use Rattle.gp_trace.specs.LockUse.{held_after_use, lock_use_of, mode_held};
ghost use Rattle.gp_window.specs.Events.{segment_of};
ghost use Rattle.gp_window.specs.Formed.{IsFormed, mode_at_start};
ghost use Rattle.gp_window.specs.Modes.{mode_before};
ghost use Rattle.gp_instance.specs.Instances.{ids_in};
ghost use Rattle.gp_constraint.specs.Tables.{entry_at};
ghost use Rattle.gp_stuck.specs.Noted.{AreNoted, NotesMore, holder_with, with_all_own, with_own};
ghost use Rattle.gp_stuck.specs.Search.{takers_of};

use crate::event::{may_be_next, takes_lock};
use crate::holder::Holder;
use gp_base::{Row, Table};
use gp_constraint::Groups;
use gp_text::Name;
use gp_trace::{Event, LockMode, LockUse};
use gp_window::{EventId, Window};
use std::alloc::{AllocError, Global};

/// Notes of all events that take locks which locks their threads hold just before them.
pub fn note_window(
    alloc: Global,
    window: &Window,
    starts: &mut Row<EventId>,
    holders: &mut Groups<Holder>,
) -> Result<(), AllocError>
    requires formed { IsFormed window.now }
    requires starts { starts.old ≡ [] }
    requires holders { holders.old ≡ [] }
    ensures { OnOk result (AreNoted window.now (takers_of window.now) starts.new holders.new) }
{
    let threads = window.segments().len() as u32;
    for place in 0..threads {
        note_thread(alloc, window, place + 1, starts, holders)?;
    }
    Ok(())
}

fn note_thread(
    alloc: Global,
    window: &Window,
    thread: u32,
    starts: &mut Row<EventId>,
    holders: &mut Groups<Holder>,
) -> Result<(), AllocError>
    requires { IsFormed window.now }
    ensures { OnOk result (NotesMore window.now (ids_in thread 0 (segment_of window.now thread)) starts.old holders.old starts.new holders.new) }
{
    let mut held = held_at_start(alloc, window, thread)?;
    let segment = window.segment(thread);
    note_segment(window, thread, segment, &mut held, starts, holders)
}

/// Notes the events of a thread, one after another, from the locks that it holds when the window begins.
fn note_segment(
    window: &Window,
    thread: u32,
    segment: &[Event],
    held: &mut Table<Name, LockMode>,
    starts: &mut Row<EventId>,
    holders: &mut Groups<Holder>,
) -> Result<(), AllocError>
    requires segment { segment.now ≡ segment_of window.now thread }
    requires few { length segment.now < 2 ^ 32 }
    requires held { (lock : List ℕ) → mode_held held.old lock ≡ mode_at_start window.now thread lock }
    ensures { OnOk result (NotesMore window.now (ids_in thread 0 segment.now) starts.old holders.old starts.new holders.new) }
{
    for (index, event) in segment.iter().enumerate() {
        let id = EventId {
            thread,
            index: index as u32,
        };
        note_event(window, id, held, starts, holders)?;
        use_lock(held, event)?;
    }
    Ok(())
}

pub fn use_lock(held: &mut Table<Name, LockMode>, event: &Event) -> Result<(), AllocError>
    ensures { OnOk result (held.new ≡ held_after_use held.old (lock_use_of event.now)) }
{
    let Some(lock_use) = event.lock_use() else {
        return Ok(());
    };
    match lock_use {
        LockUse::Take(mode, lock) => held.put(lock, mode),
        LockUse::GiveBack(_, lock) => {
            held.remove(&lock);
            Ok(())
        }
    }
}

/// Notes an event where it takes a lock and its thread holds one.
fn note_event(
    window: &Window,
    id: EventId,
    held: &Table<Name, LockMode>,
    starts: &mut Row<EventId>,
    holders: &mut Groups<Holder>,
) -> Result<(), AllocError>
    requires { (lock : List ℕ) → mode_held held.now lock ≡ mode_before window.now id lock }
    ensures { OnOk result (NotesMore window.now (id ∷ []) starts.old holders.old starts.new holders.new) }
{
    if !takes_lock(window, id) {
        return Ok(());
    }
    if held.is_empty() {
        return Ok(());
    }
    let may = may_be_next(window, id);
    keep_id(starts, id, may)?;
    note_holds(id, held, holders)
}

/// Notes that the thread of an event holds these locks.
fn note_holds(
    id: EventId,
    held: &Table<Name, LockMode>,
    holders: &mut Groups<Holder>,
) -> Result<(), AllocError>
    ensures { OnOk result ((lock : List ℕ) → entry_at holders.new lock ≡ entry_at holders.old lock ++ holder_with id (mode_held held.now lock)) }
{
    for (lock, mode) in held.iter() {
        holders.push(*lock, Holder { id, mode: *mode })?;
    }
    Ok(())
}

pub fn keep_id(kept: &mut Row<EventId>, id: EventId, keep: bool) -> Result<(), AllocError>
    ensures { OnOk result (kept.new ≡ kept.old ++ (if keep then id ∷ [] else [])) }
{
    if !keep {
        return Ok(());
    }
    kept.push(id)
}

/// The locks that a thread holds when the window begins.
pub fn held_at_start(
    alloc: Global,
    window: &Window,
    thread: u32,
) -> Result<Table<Name, LockMode>, AllocError>
    requires { IsFormed window.now }
    ensures { IfOk result (λ held. (lock : List ℕ) → mode_held held lock ≡ mode_at_start window.now thread lock) }
{
    let mut held = Table::new(alloc);
    match put_all_own(&mut held, thread, window.held()) {
        Ok(()) => Ok(held),
        Err(error) => {
            drop(held);
            Err(error)
        }
    }
}

/// Puts all locks in that this thread holds.
fn put_all_own(
    held: &mut Table<Name, LockMode>,
    thread: u32,
    holdings: &Table<(Name, u32), LockMode>,
) -> Result<(), AllocError>
    ensures { OnOk result (held.new ≡ with_all_own thread held.old holdings.now) }
{
    for (place, mode) in holdings.iter() {
        put_own(held, thread, place, *mode)?;
    }
    Ok(())
}

/// Puts a lock in that this thread holds.
fn put_own(
    held: &mut Table<Name, LockMode>,
    thread: u32,
    place: &(Name, u32),
    mode: LockMode,
) -> Result<(), AllocError>
    ensures { OnOk result (held.new ≡ with_own thread held.old (place.now, mode)) }
{
    let (lock, holder) = *place;
    if holder != thread {
        return Ok(());
    }
    held.put(lock, mode)
}
