ghost use Rattle.std.specs.Prelude.{◌≡◌, [], IfOk};
ghost use Rattle.gp_base.specs.Table.{with_entry, without_entry};
ghost use Rattle.gp_trace.specs.LockUse.{lock_use_of};
ghost use Rattle.gp_window.specs.Holders.{held_after, held_after_events, held_after_window, holder_cmp, segment_after};
ghost use Rattle.gp_window.specs.Contested.{first_contested, is_contested};

use crate::contested::is_contested;
use crate::users::{Users, suspect, users_at};
use gp_base::Table;
use gp_text::Name;
use gp_trace::{Event, LocalTrace, LockMode, LockUse};
use std::alloc::{AllocError, Global};
use std::marker::Model;

/// A lock, a thread that holds it, and how.
pub type Holding = ((Name, u32), LockMode);

/// Who holds which lock, which contracts see as a list in the order of the locks' names and then of
/// the threads. Beside it stands how many threads hold each lock, so that the locks that may be
/// contested are known without a look at all holdings.
#[derive(Drop)]
pub struct Holders {
    held: Table<(Name, u32), LockMode>,
    users: Table<Name, Users>,
    suspects: Table<Name, ()>,
}

impl Model for Holders {
    ghost use Rattle.gp_window.specs.Holders.{Holdings};
    ghost use Rattle.gp_window.specs.Users.{IsCounted, IsListed};

    ghost Value = { Holdings };

    ghost view = { λ holders. holders.held };

    ghost invariant = { λ holders. IsCounted holders.held holders.users × IsListed holders.users holders.suspects };
}

impl Holders {
    pub fn new(alloc: Global) -> Holders
        ensures { result ≡ [] }
    {
        Holders {
            held: Table::new(alloc),
            users: Table::new(alloc),
            suspects: Table::new(alloc),
        }
    }

    /// The holders after one more segment of each trace, the one with so many before it.
    pub fn pass(self, before: usize, traces: &[LocalTrace]) -> Result<Holders, AllocError>
        ensures { IfOk result (λ next. next ≡ held_after_window before self traces.now) }
    {
        let mut holders = self;
        for trace in traces {
            holders = holders.follow_all(trace.thread(), segment_after(before, trace))?;
        }
        Ok(holders)
    }

    fn follow_all(self, thread: u32, events: &[Event]) -> Result<Holders, AllocError>
        ensures { IfOk result (λ next. next ≡ held_after_events thread self events.now) }
    {
        let mut holders = self;
        for event in events {
            holders = holders.follow(thread, event.lock_use())?;
        }
        Ok(holders)
    }

    fn follow(self, thread: u32, lock_use: Option<LockUse>) -> Result<Holders, AllocError>
        ensures { IfOk result (λ next. next ≡ held_after thread self lock_use) }
    {
        let Some(lock_use) = lock_use else {
            return Ok(self);
        };
        match lock_use {
            LockUse::Take(mode, lock) => self.take(thread, mode, lock),
            LockUse::GiveBack(_, lock) => self.give_back(thread, lock),
        }
    }

    fn take(self, thread: u32, mode: LockMode, lock: Name) -> Result<Holders, AllocError>
        ensures { IfOk result (λ next. next ≡ with_entry holder_cmp self (lock, thread) mode) }
    {
        let Holders {
            mut held,
            mut users,
            mut suspects,
        } = self;
        held.put((lock, thread), mode)?;
        let more = users_at(&users, &lock).with(mode)?;
        users.put(lock, more)?;
        suspect(&mut suspects, lock, more)?;
        Ok(Holders {
            held,
            users,
            suspects,
        })
    }

    fn give_back(self, thread: u32, lock: Name) -> Result<Holders, AllocError>
        ensures { IfOk result (λ next. next ≡ without_entry holder_cmp self (lock, thread)) }
    {
        let Holders {
            mut held,
            mut users,
            mut suspects,
        } = self;
        let mode = held.get(&(lock, thread)).copied();
        held.remove(&(lock, thread));
        let fewer = users_at(&users, &lock).without(mode);
        users.put(lock, fewer)?;
        suspect(&mut suspects, lock, fewer)?;
        Ok(Holders {
            held,
            users,
            suspects,
        })
    }

    /// The least lock that is contested. Where none is a suspect, no holding is looked at.
    pub fn first_contested(&self, alloc: Global) -> Result<Option<Name>, AllocError>
        ensures { IfOk result (λ found. found ≡ first_contested self.now) }
    {
        if self.suspects.is_empty() {
            return Ok(None);
        }
        let held = self.held.to_row(alloc)?;
        Ok(self.first_suspected(held.as_slice()))
    }

    /// The least lock that is contested among the suspects, of these holdings, which are the holders'.
    fn first_suspected(&self, held: &[Holding]) -> Option<Name>
        requires { held.now ≡ self.now }
        ensures { result ≡ first_contested held.now }
    {
        for one in held {
            if self.is_contested(held, one.0.0) {
                return Some(one.0.0);
            }
        }
        None
    }

    /// Whether a lock is contested among these holdings, which are the holders'.
    fn is_contested(&self, held: &[Holding], lock: Name) -> bool
        requires { held.now ≡ self.now }
        ensures { result ≡ is_contested held.now lock }
    {
        match self.suspects.get(&lock) {
            Some(_) => is_contested(held, lock),
            None => false,
        }
    }

    /// Who holds which lock, in order.
    pub fn held(&self) -> &Table<(Name, u32), LockMode>
        ensures { result.now ≡ self.now }
    {
        &self.held
    }
}

/// The segment of a trace that has so many before it; no events where there is none.
pub fn segment_after(before: usize, trace: &LocalTrace) -> &[Event]
    ensures { result.now ≡ segment_after before trace.now }
{
    match trace.segments().get(before) {
        Some(segment) => segment.as_slice(),
        None => &[],
    }
}
