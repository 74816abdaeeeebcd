ghost use Rattle.std.specs.Prelude.{◌≡◌, ◌+◌, ◌<◌, ◌≤◌, IfSome};
ghost use Rattle.gp_make.specs.Program.{accesses, acts, first_program, gives_back, is_held_by, lock_of, step, wants_lock};

use crate::action::{Action, Event};
use crate::generator::Generator;
use crate::recipe::WINDOW;

pub(crate) const VARIABLES: usize = 20;

const LOCKS: usize = 3;

/// The simulated program between two steps.
#[derive(Drop)]
pub(crate) struct Program {
    pub(crate) generator: Generator,
    /// The value of each variable.
    pub(crate) values: [u32; VARIABLES],
    /// The thread that holds each lock, where one does.
    pub(crate) holders: [Option<u32>; LOCKS],
}

impl Program {
    /// The program before its first step.
    pub(crate) fn new(seed: u64) -> Program
        ensures { result ≡ first_program seed }
    {
        Program {
            generator: Generator { state: seed },
            values: [0; VARIABLES],
            holders: [None; LOCKS],
        }
    }

    /// Does the event of this number, counted from 0.
    #[tactic(auto, unfolding(crate::specs::Program::step))]
    pub(crate) fn step(&mut self, threads: u32, number: u32) -> Event
        requires { 0 < threads }
        ensures event { result ≡ (step threads number self.old).0 }
        ensures after { self.new ≡ (step threads number self.old).1 }
        ensures thread { (1 ≤ result.thread) × (result.thread ≤ threads) }
    {
        let place = number % WINDOW;
        if number < WINDOW && place + 1 < threads {
            return Event {
                thread: 1,
                action: Action::Start(place + 2),
            };
        }
        if place % 28 == 27 {
            return Event {
                thread: threads.min(2),
                action: Action::Use,
            };
        }
        if place % 100 == 50 {
            return Event {
                thread: 1,
                action: Action::Authorise,
            };
        }
        let thread = 1 + self.generator.draw(threads);
        Event {
            thread,
            action: self.act(thread),
        }
    }

    // Lets a thread do something by chance: at times it gives its lock back, or wants one.
    #[tactic(auto, unfolding(crate::specs::Program::acts))]
    fn act(&mut self, thread: u32) -> Action
        ensures action { result ≡ (acts thread self.old).0 }
        ensures after { self.new ≡ (acts thread self.old).1 }
    {
        let chance = self.generator.draw(8);
        match self.lock_held_by(thread) {
            Some(lock) if chance < 3 => self.release(lock),
            None if chance == 0 => self.want_lock(thread),
            _ => self.access(),
        }
    }

    fn lock_held_by(&self, thread: u32) -> Option<usize>
        ensures lock { result ≡ lock_of thread self.now.holders }
        ensures within { IfSome result (λ lock. lock < 3) }
    {
        self.holders
            .iter()
            .position(|holder| is_held_by(thread, *holder))
    }

    fn release(&mut self, lock: usize) -> Action
        requires { lock < 3 }
        ensures action { result ≡ (gives_back lock self.old).0 }
        ensures after { self.new ≡ (gives_back lock self.old).1 }
    {
        self.holders[lock] = None;
        Action::Release(lock as u32)
    }

    // Lets a thread take some lock, or do without where that is not free.
    #[tactic(auto, unfolding(crate::specs::Program::wants_lock))]
    fn want_lock(&mut self, thread: u32) -> Action
        ensures action { result ≡ (wants_lock thread self.old).0 }
        ensures after { self.new ≡ (wants_lock thread self.old).1 }
    {
        let lock = self.generator.draw(3);
        if self.holders[lock as usize].is_some() {
            return self.access();
        }
        self.holders[lock as usize] = Some(thread);
        Action::Acquire(lock)
    }

    // Reads or writes some variable.
    #[tactic(auto, unfolding(crate::specs::Program::accesses))]
    fn access(&mut self) -> Action
        ensures action { result ≡ (accesses self.old).0 }
        ensures after { self.new ≡ (accesses self.old).1 }
    {
        let variable = self.generator.draw(20);
        if self.generator.draw(2) == 0 {
            return Action::Read(variable, self.values[variable as usize]);
        }
        let value = self.generator.draw(4);
        self.values[variable as usize] = value;
        Action::Write(variable, value)
    }
}

fn is_held_by(thread: u32, holder: Option<u32>) -> bool
    ensures { result ≡ is_held_by thread holder }
{
    match holder {
        Some(holder) => holder == thread,
        None => false,
    }
}
