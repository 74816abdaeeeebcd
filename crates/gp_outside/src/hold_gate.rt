use crate::gates::Gate;
use std::sync::OnceLock;
use std::thread;

/// A gate for tests in which two workers are to meet. Worker 1 is held at its first ticket until
/// worker 2 has passed, for at most a number of turns of a loop. Every other pass returns at once.
#[derive(Drop)]
pub struct HoldGate {
    turns: u64,
    first: OnceLock<First>,
}

// What came first. Once it is written it stays.
#[derive(Clone, Copy, PartialEq, Eq)]
enum First {
    SecondWorker,
    LastTurn,
}

impl HoldGate {
    /// A gate that holds worker 1 for at most so many turns.
    pub fn new(turns: u64) -> HoldGate {
        HoldGate {
            turns,
            first: OnceLock::new(),
        }
    }

    /// Whether worker 2 passed before the turns were spent, as it also did where it passed before
    /// worker 1 came. Where the turns were spent first, it stays false.
    pub fn met(&self) -> bool {
        self.first.get() == Some(&First::SecondWorker)
    }

    // A later call returns at once, since the first one ended with something that came.
    fn hold(&self) {
        for _ in 0..self.turns {
            if self.first.get().is_some() {
                return;
            }
            thread::yield_now();
        }
        self.came(First::LastTurn);
    }

    // Changes nothing where something came before.
    fn came(&self, what: First) {
        let _ = self.first.try_set(what);
    }
}

impl Gate for HoldGate {
    fn pass(&self, worker: u32, _ticket: u64) {
        match worker {
            1 => self.hold(),
            2 => self.came(First::SecondWorker),
            _ => {}
        }
    }
}
