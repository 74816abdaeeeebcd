ghost use Rattle.std.specs.Prelude.{◌≡◌};
ghost use Rattle.gp_window.specs.Contested.{is_contested, is_held_beside};
ghost use Rattle.gp_window.specs.Holders.{is_exclusive};

use crate::holders::Holding;
use gp_text::Name;
use gp_trace::LockMode;

/// Whether a thread holds a lock by an acquire, and another thread holds it in either way.
pub fn is_contested(held: &[Holding], lock: Name) -> bool
    ensures { result ≡ is_contested held.now lock }
{
    for one in held {
        if one.0.0 == lock && is_exclusive(one.1) && is_held_beside(held, lock, one.0.1) {
            return true;
        }
    }
    false
}

/// Whether a thread other than this one holds a lock.
fn is_held_beside(held: &[Holding], lock: Name, thread: u32) -> bool
    ensures { result ≡ is_held_beside held.now lock thread }
{
    held.iter().any(|one| one.0.0 == lock && one.0.1 != thread)
}

pub fn is_exclusive(mode: LockMode) -> bool
    ensures { result ≡ is_exclusive mode }
{
    match mode {
        LockMode::Exclusive => true,
        LockMode::Shared => false,
    }
}
