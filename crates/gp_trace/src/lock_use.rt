ghost use Rattle.std.specs.Prelude.{◌≡◌};
ghost use Rattle.gp_trace.specs.LockUse.{lock_use_of};

use crate::event::Event;
use gp_text::Name;

/// How a thread holds a lock.
#[derive(Clone, Copy)]
pub enum LockMode {
    /// Alone: no other thread holds the lock in either way.
    Exclusive,
    /// As a reader, beside other readers.
    Shared,
}

/// What an event does to a lock.
#[derive(Clone, Copy)]
pub enum LockUse {
    /// The thread takes the lock in this way.
    Take(LockMode, Name),
    /// The thread gives back the lock that it holds in this way.
    GiveBack(LockMode, Name),
}

impl Event {
    /// How the event uses a lock, in no memory; `None` where it uses none.
    pub fn lock_use(&self) -> Option<LockUse>
        ensures { result ≡ lock_use_of self.now }
    {
        match self {
            Event::Acquire(lock) => Some(LockUse::Take(LockMode::Exclusive, *lock)),
            Event::Release(lock) => Some(LockUse::GiveBack(LockMode::Exclusive, *lock)),
            Event::RAcquire(lock) => Some(LockUse::Take(LockMode::Shared, *lock)),
            Event::RRelease(lock) => Some(LockUse::GiveBack(LockMode::Shared, *lock)),
            _ => None,
        }
    }
}
