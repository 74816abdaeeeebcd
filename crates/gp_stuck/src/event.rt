ghost use Rattle.std.specs.Prelude.{◌≡◌};
ghost use Rattle.gp_constraint.specs.Sections.{exclude, same_mode};
ghost use Rattle.gp_replay.specs.LockUses.{use_at};
ghost use Rattle.gp_stuck.specs.Cycle.{may_be_next};
ghost use Rattle.gp_stuck.specs.Search.{takes_lock};

use gp_trace::{LockMode, LockUse};
use gp_window::{EventId, Window, is_among};

/// How an event uses a lock, where it uses one.
pub fn use_at(window: &Window, id: EventId) -> Option<LockUse>
    ensures { result ≡ use_at window.now id }
{
    match window.event(id) {
        Some(event) => event.lock_use(),
        None => None,
    }
}

/// Whether an event takes a lock.
pub fn takes_lock(window: &Window, id: EventId) -> bool
    ensures { result ≡ takes_lock window.now id }
{
    let Some(lock_use) = use_at(window, id) else {
        return false;
    };
    match lock_use {
        LockUse::Take(..) => true,
        LockUse::GiveBack(..) => false,
    }
}

/// Whether an event can be its thread's next one.
pub fn may_be_next(window: &Window, id: EventId) -> bool
    ensures { result ≡ may_be_next window.now id }
{
    0 < id.index || is_among(window.started(), id.thread)
}

/// Whether a lock cannot be held in both ways at once by different threads.
pub fn exclude(one: LockMode, other: LockMode) -> bool
    ensures { result ≡ exclude one other }
{
    match (one, other) {
        (LockMode::Shared, LockMode::Shared) => false,
        _ => true,
    }
}

pub fn same_mode(one: LockMode, other: LockMode) -> bool
    ensures { result ≡ same_mode one other }
{
    matches!(
        (one, other),
        (LockMode::Exclusive, LockMode::Exclusive) | (LockMode::Shared, LockMode::Shared)
    )
}
