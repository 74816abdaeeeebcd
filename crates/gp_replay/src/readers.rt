ghost use Rattle.std.specs.Prelude.{◌≡◌, [], IfOk, OnOk, OnErr};
ghost use Rattle.gp_replay.specs.Readers.{has_reader, is_reader, with_reader, without_reader};

use gp_base::Row;
use gp_text::Name;
use std::alloc::{AllocError, Global};
use std::collections::BTreeSet;
use std::marker::Model;

/// Locks with the threads that hold them by a racquire, which contracts see as a list in the order of
/// the locks' names and then of the threads.
#[derive(Drop)]
pub struct Readers {
    set: BTreeSet<(Name, u32)>,
}

impl Model for Readers {
    ghost use Rattle.std.specs.Prelude.{List, ℕ};

    ghost Value = { List (List ℕ × ℕ) };

    ghost view = { λ readers. readers.set.keys };
}

impl Readers {
    /// No readers, which takes no memory.
    pub fn new(alloc: Global) -> Readers
        ensures { result ≡ [] }
    {
        Readers {
            set: BTreeSet::new(alloc),
        }
    }

    /// Adds a thread to the readers of a lock.
    pub fn add(&mut self, lock: Name, thread: u32) -> Result<(), AllocError>
        ensures ok { OnOk result (self.new ≡ with_reader self.old (lock, thread)) }
        ensures err { OnErr result (self.new ≡ self.old) }
    {
        self.set.insert((lock, thread))?;
        Ok(())
    }

    /// Takes a thread away from the readers of a lock.
    pub fn remove(&mut self, lock: &Name, thread: u32)
        ensures { self.new ≡ without_reader self.old (lock.now, thread) }
    {
        let _ = self.set.remove(&(*lock, thread));
    }

    /// Whether a thread is a reader of a lock.
    pub fn is_reader(&self, lock: &Name, thread: u32) -> bool
        ensures { result ≡ is_reader self.now lock.now thread }
    {
        self.set.contains(&(*lock, thread))
    }

    /// Whether a lock has a reader, found without a look at the readers of other locks.
    pub fn has(&self, lock: &Name) -> bool
        ensures { result ≡ has_reader self.now lock.now }
    {
        match self.set.range((*lock, 0)..).next() {
            Some(reader) => reader.0 == *lock,
            None => false,
        }
    }

    /// The locks and their readers, in order.
    pub fn to_row(&self, alloc: Global) -> Result<Row<(Name, u32)>, AllocError>
        ensures { IfOk result (λ row. row ≡ self.now) }
    {
        let readers: Vec<(Name, u32)> = self.set.iter().copied().collect(alloc)?;
        Ok(Row::from_vec(readers))
    }
}
