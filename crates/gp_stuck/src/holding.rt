ghost use Rattle.std.specs.Prelude.{◌≡◌, ◌≤◌, ℕ, List, take, IfOk, OnOk};
ghost use Rattle.gp_trace.specs.LockUse.{held_after_use, mode_held};
ghost use Rattle.gp_window.specs.Events.{segment_of};
ghost use Rattle.gp_window.specs.Formed.{IsFormed, mode_at_start};
ghost use Rattle.gp_window.specs.Modes.{mode_after};
ghost use Rattle.gp_replay.specs.LockUses.{use_at};
ghost use Rattle.gp_stuck.specs.Links.{IsHolding};

use crate::noting::{held_at_start, use_lock};
use gp_base::Table;
use gp_text::Name;
use gp_trace::LockMode;
use gp_window::{EventId, Window};
use std::alloc::{AllocError, Global};

/// The locks that a thread holds just before one of its events, and how.
#[derive(Drop)]
pub struct Holding {
    pub id: EventId,
    pub held: Table<Name, LockMode>,
}

/// Those of the first thread when the window begins.
pub fn first_holding(alloc: Global, window: &Window) -> Result<Holding, AllocError>
    requires { IsFormed window.now }
    ensures { IfOk result (λ holding. IsHolding window.now holding) }
{
    let held = held_at_start(alloc, window, 1)?;
    let id = EventId {
        thread: 1,
        index: 0,
    };
    Ok(Holding { id, held })
}

/// Goes to another event: in the time of the events between the two, where it is a later one of the same thread.
pub fn go_to(
    alloc: Global,
    window: &Window,
    id: EventId,
    holding: &mut Holding,
) -> Result<(), AllocError>
    requires formed { IsFormed window.now }
    requires holding { IsHolding window.now holding.old }
    ensures there { OnOk result (holding.new.id ≡ id) }
    ensures holding { OnOk result (IsHolding window.now holding.new) }
{
    begin_before(alloc, window, id, holding)?;
    use_until(window, id, holding)
}

/// Goes back to the beginning of an event's segment, unless an earlier event of its thread is reached.
fn begin_before(
    alloc: Global,
    window: &Window,
    id: EventId,
    holding: &mut Holding,
) -> Result<(), AllocError>
    requires formed { IsFormed window.now }
    requires holding { IsHolding window.now holding.old }
    ensures thread { OnOk result (holding.new.id.thread ≡ id.thread) }
    ensures before { OnOk result (holding.new.id.index ≤ id.index) }
    ensures holding { OnOk result (IsHolding window.now holding.new) }
{
    if holding.id.thread == id.thread && holding.id.index <= id.index {
        return Ok(());
    }
    let held = held_at_start(alloc, window, id.thread)?;
    holding.held = held;
    holding.id = EventId {
        thread: id.thread,
        index: 0,
    };
    Ok(())
}

/// Goes over the events of the thread before a later one.
fn use_until(window: &Window, id: EventId, holding: &mut Holding) -> Result<(), AllocError>
    requires thread { holding.old.id.thread ≡ id.thread }
    requires before { holding.old.id.index ≤ id.index }
    requires holding { IsHolding window.now holding.old }
    ensures there { OnOk result (holding.new.id ≡ id) }
    ensures holding { OnOk result (IsHolding window.now holding.new) }
{
    let from = holding.id.index;
    use_locks(window, id.thread, from, id.index, &mut holding.held)?;
    holding.id = id;
    Ok(())
}

fn use_locks(
    window: &Window,
    thread: u32,
    from: u32,
    to: u32,
    held: &mut Table<Name, LockMode>,
) -> Result<(), AllocError>
    requires before { from ≤ to }
    requires held { (lock : List ℕ) → mode_held held.old lock ≡ mode_after lock (mode_at_start window.now thread lock) (take from (segment_of window.now thread)) }
    ensures { OnOk result ((lock : List ℕ) → mode_held held.new lock ≡ mode_after lock (mode_at_start window.now thread lock) (take to (segment_of window.now thread))) }
{
    for index in from..to {
        use_one(window, EventId { thread, index }, held)?;
    }
    Ok(())
}

fn use_one(window: &Window, id: EventId, held: &mut Table<Name, LockMode>) -> Result<(), AllocError>
    ensures { OnOk result (held.new ≡ held_after_use held.old (use_at window.now id)) }
{
    let Some(event) = window.event(id) else {
        return Ok(());
    };
    use_lock(held, event)
}
