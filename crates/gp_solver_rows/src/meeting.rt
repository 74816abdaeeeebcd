use gp_outside::Gate;
use std::sync::OnceLock;
use std::thread;

/// A gate at which two workers meet. Each is held at its first ticket until the other has one, and worker 1 then until
/// worker 2 has a second one, each time for at most a number of turns of a loop.
#[derive(Drop)]
pub struct MeetGate {
    turns: u64,
    first_worker: Latch,
    second_worker: Latch,
    second_again: Latch,
}

impl MeetGate {
    pub fn new(turns: u64) -> MeetGate {
        MeetGate {
            turns,
            first_worker: Latch::new(),
            second_worker: Latch::new(),
            second_again: Latch::new(),
        }
    }

    /// Whether no worker was held until the turns were spent.
    pub fn met(&self) -> bool {
        self.first_worker.was_lifted()
            && self.second_worker.was_lifted()
            && self.second_again.was_lifted()
    }

    fn pass_first(&self) {
        self.first_worker.lift();
        self.second_worker.hold(self.turns);
        self.second_again.hold(self.turns);
    }

    // Where the worker came before, this is not its first ticket.
    fn pass_second(&self) {
        if self.second_worker.lift() {
            self.first_worker.hold(self.turns);
        } else {
            self.second_again.lift();
        }
    }
}

impl Gate for MeetGate {
    fn pass(&self, worker: u32, _ticket: u64) {
        match worker {
            1 => self.pass_first(),
            2 => self.pass_second(),
            _ => {}
        }
    }
}

// What came first at a latch. Once it is written it stays.
#[derive(Clone, Copy, PartialEq, Eq)]
enum First {
    Lift,
    LastTurn,
}

// What holds one worker until another one lifts it, or until the turns are spent.
#[derive(Drop)]
struct Latch {
    first: OnceLock<First>,
}

impl Latch {
    fn new() -> Latch {
        Latch {
            first: OnceLock::new(),
        }
    }

    // Whether this came first.
    fn lift(&self) -> bool {
        self.first.try_set(First::Lift).is_ok()
    }

    fn was_lifted(&self) -> bool {
        self.first.get() == Some(&First::Lift)
    }

    fn hold(&self, turns: u64) {
        for _ in 0..turns {
            if self.first.get().is_some() {
                return;
            }
            thread::yield_now();
        }
        let _ = self.first.try_set(First::LastTurn);
    }
}
