ghost use Rattle.std.specs.Prelude.{◌≡◌, IfOk, OnOk, if◌then◌else◌};
ghost use Rattle.std.specs.Cmp.Lexicographic.{slice_cmp};
ghost use Rattle.std.specs.Ordering.{nat_cmp};
ghost use Rattle.gp_base.specs.Table.{with_entry, without_entry};
ghost use Rattle.gp_window.specs.Users.{acquires_of, may_contest, without_user, with_user, users_at};

use gp_base::Table;
use gp_text::Name;
use gp_trace::LockMode;
use std::alloc::AllocError;

/// How many threads hold a lock, and how many of them by an acquire.
#[derive(Clone, Copy)]
pub struct Users {
    threads: u64,
    acquires: u64,
}

impl Users {
    /// With one more thread. More than can be counted want more memory than there is.
    pub fn with(self, mode: LockMode) -> Result<Users, AllocError>
        ensures { IfOk result (λ users. users ≡ with_user mode self) }
    {
        let Some(threads) = self.threads.checked_add(1) else {
            return Err(AllocError);
        };
        let Some(acquires) = self.acquires.checked_add(acquires_of(mode)) else {
            return Err(AllocError);
        };
        Ok(Users { threads, acquires })
    }

    /// Without a thread that held the lock in this way; as they were where none did.
    pub fn without(self, held: Option<LockMode>) -> Users
        ensures { result ≡ without_user held self }
    {
        match held {
            Some(mode) => Users {
                threads: self.threads.saturating_sub(1),
                acquires: self.acquires.saturating_sub(acquires_of(mode)),
            },
            None => self,
        }
    }

    /// Whether a lock with so many users may be contested.
    fn may_contest(self) -> bool
        ensures { result ≡ may_contest self }
    {
        self.threads > 1 && self.acquires > 0
    }
}

fn acquires_of(mode: LockMode) -> u64
    ensures { result ≡ acquires_of mode }
{
    match mode {
        LockMode::Exclusive => 1,
        LockMode::Shared => 0,
    }
}

/// The users of a lock, none where the table has no entry for it.
pub fn users_at(users: &Table<Name, Users>, lock: &Name) -> Users
    ensures { result ≡ users_at users.now lock.now }
{
    match users.get(lock) {
        Some(users) => *users,
        None => Users {
            threads: 0,
            acquires: 0,
        },
    }
}

/// Puts a lock among the suspects where one with these users may be contested, and takes it from them
/// where it cannot.
pub fn suspect(suspects: &mut Table<Name, ()>, lock: Name, users: Users) -> Result<(), AllocError>
    ensures { OnOk result (suspects.new ≡ (if may_contest users then with_entry (slice_cmp nat_cmp) suspects.old lock tt else without_entry (slice_cmp nat_cmp) suspects.old lock)) }
{
    if users.may_contest() {
        return suspects.put(lock, ());
    }
    suspects.remove(&lock);
    Ok(())
}
