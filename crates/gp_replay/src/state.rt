ghost use Rattle.std.specs.Prelude.{◌≡◌, ◌<◌, ◌-◌, ◌^◌, Some, Ok, Err, IfOk, IfErr, OnOk, OnErr, OnSome, [], length, option_copied, replicate};
ghost use Rattle.std.specs.Cmp.Lexicographic.{slice_cmp};
ghost use Rattle.std.specs.Ordering.{nat_cmp};
ghost use Rattle.gp_base.specs.Table.{with_entries};
ghost use Rattle.gp_window.specs.Events.{event_at};
ghost use Rattle.gp_window.specs.Holders.{holders_among, readers_among};
ghost use Rattle.gp_replay.specs.Readers.{with_readers};
ghost use Rattle.gp_replay.specs.Step.{allowed_in, allowed_use, count_of, counted, effect, has_ended, holder_of, holders_after, is_held_against, next, readers_after, start_state, turn_of, value_of};
ghost use Rattle.gp_replay.specs.StepFault.{BreaksRule};

use crate::laws::states_begin_as_windows;
use crate::readers::Readers;
use crate::rule::{Rule, StepFault};
use gp_base::{Row, Table};
use gp_text::Name;
use gp_trace::{Event, LockMode, LockUse};
use gp_window::{EventId, Window, is_among};
use std::alloc::{AllocError, Global};

/// How far a schedule has come in its window.
#[derive(Drop)]
pub struct State {
    /// How many of its events each thread has done, in order of thread.
    pub counts: Row<u32>,
    /// The value of each variable that is kept; a variable that is not here is 0.
    pub values: Table<Name, i64>,
    /// The thread that holds each lock by an acquire; a lock that is not here has no holder.
    pub holders: Table<Name, u32>,
    /// The threads that hold locks by a racquire.
    pub readers: Readers,
    /// The threads that are started, in the order in which they were started.
    pub started: Row<u32>,
}

impl State {
    /// The state in which a window begins.
    pub fn new(alloc: Global, window: &Window) -> Result<State, AllocError>
        ensures { IfOk result (λ state. state ≡ start_state window.now) }
    {
        states_begin_as_windows();
        let mut state = State::before_locks(alloc, window)?;
        match state.take_all(window.held()) {
            Ok(()) => Ok(state),
            Err(error) => {
                drop(state);
                Err(error)
            }
        }
    }

    /// The state in which a window begins, but that no lock is held.
    fn before_locks(alloc: Global, window: &Window) -> Result<State, AllocError>
        ensures { IfOk result (λ state. state ≡ record {
          counts = replicate (length window.now.segments) 0;
          values = window.now.start_values;
          holders = [];
          readers = [];
          started = window.now.started;
        }) }
    {
        let counts = no_counts(alloc, window)?;
        let started = Vec::from_slice(alloc, window.started())?;
        let values = window.start_values().copy(alloc)?;
        Ok(State {
            counts,
            values,
            holders: Table::new(alloc),
            readers: Readers::new(alloc),
            started: Row::from_vec(started),
        })
    }

    /// Each of these threads takes its lock in its way.
    fn take_all(&mut self, held: &Table<(Name, u32), LockMode>) -> Result<(), AllocError>
        ensures { OnOk result (self.new ≡ record self.old {
          holders = with_entries (slice_cmp nat_cmp) self.old.holders (holders_among held.now);
          readers = with_readers self.old.readers (readers_among held.now);
        }) }
    {
        for (holder, mode) in held.iter() {
            self.use_lock(holder.1, &LockUse::Take(*mode, holder.0))?;
        }
        Ok(())
    }

    /// Does one event. Where it may not happen, or memory is wanting, the state is as before.
    pub fn step(&mut self, window: &Window, id: EventId) -> Result<(), StepFault>
        requires { length self.old.counts ≡ length window.now.segments }
        ensures ok { OnOk result (next window.now self.old id ≡ Ok self.new) }
        ensures size { length self.new.counts ≡ length self.old.counts }
        ensures broken { IfErr result (BreaksRule (next window.now self.old id)) }
        ensures err { OnErr result (self.new ≡ self.old) }
    {
        let event = event_at(window, id).ok_or(Rule::NotNext)?;
        self.turn(id)?;
        self.allowed(window, event)?;
        self.take_effect(id.thread, event)?;
        self.count(id.thread);
        Ok(())
    }

    /// Whether the id is its thread's next one, and the thread is started.
    fn turn(&self, id: EventId) -> Result<(), Rule>
        ensures { result ≡ turn_of self.now id }
    {
        if self.count_of(id.thread) != id.index {
            return Err(Rule::NotNext);
        }
        if !is_among(self.started.as_slice(), id.thread) {
            return Err(Rule::NotStarted);
        }
        Ok(())
    }

    /// Whether the event may happen, where it is its thread's turn.
    fn allowed(&self, window: &Window, event: &Event) -> Result<(), Rule>
        ensures { result ≡ allowed_in window.now self.now event.now }
    {
        match event {
            Event::Read(variable, value) if self.value_of(variable) != *value => {
                Err(Rule::WrongValue)
            }
            Event::Join(thread) if !self.has_ended(window, *thread) => Err(Rule::NotExited),
            _ => self.allowed_use(event.lock_use()),
        }
    }

    fn allowed_use(&self, lock_use: Option<LockUse>) -> Result<(), Rule>
        ensures { result ≡ allowed_use self.now lock_use }
    {
        match lock_use {
            Some(lock_use) => self.allowed_lock(&lock_use),
            None => Ok(()),
        }
    }

    fn allowed_lock(&self, lock_use: &LockUse) -> Result<(), Rule>
        ensures { result ≡ allowed_use self.now (Some lock_use.now) }
    {
        match lock_use {
            LockUse::Take(mode, lock) => self.allowed_take(*mode, lock),
            LockUse::GiveBack(_, _) => Ok(()),
        }
    }

    fn allowed_take(&self, mode: LockMode, lock: &Name) -> Result<(), Rule>
        ensures { result ≡ allowed_use self.now (Some (LockUse.Take mode lock.now)) }
    {
        if self.is_held_against(mode, lock) {
            return Err(Rule::LockHeld);
        }
        Ok(())
    }

    /// Whether some thread holds the lock so that it cannot be taken in this way.
    fn is_held_against(&self, mode: LockMode, lock: &Name) -> bool
        ensures { result ≡ is_held_against self.now mode lock.now }
    {
        let is_held = self.holder_of(lock).is_some();
        match mode {
            LockMode::Exclusive => is_held || self.readers.has(lock),
            LockMode::Shared => is_held,
        }
    }

    fn take_effect(&mut self, thread: u32, event: &Event) -> Result<(), AllocError>
        ensures ok { OnOk result (self.new ≡ effect thread event.now self.old) }
        ensures counts { self.new.counts ≡ self.old.counts }
        ensures err { OnErr result (self.new ≡ self.old) }
    {
        match event {
            Event::Write(variable, value) => self.values.put(*variable, *value),
            Event::Start(other) => self.started.push(*other),
            _ => match event.lock_use() {
                Some(lock_use) => self.use_lock(thread, &lock_use),
                None => Ok(()),
            },
        }
    }

    fn use_lock(&mut self, thread: u32, lock_use: &LockUse) -> Result<(), AllocError>
        ensures ok { OnOk result (self.new ≡ record self.old {
          holders = holders_after thread (Some lock_use.now) self.old.holders;
          readers = readers_after thread (Some lock_use.now) self.old.readers;
        }) }
        ensures counts { self.new.counts ≡ self.old.counts }
        ensures err { OnErr result (self.new ≡ self.old) }
    {
        match lock_use {
            LockUse::Take(LockMode::Exclusive, lock) => self.holders.put(*lock, thread),
            LockUse::Take(LockMode::Shared, lock) => self.readers.add(*lock, thread),
            LockUse::GiveBack(LockMode::Exclusive, lock) => {
                self.holders.remove(lock);
                Ok(())
            }
            LockUse::GiveBack(LockMode::Shared, lock) => {
                self.readers.remove(lock, thread);
                Ok(())
            }
        }
    }

    fn count_of(&self, thread: u32) -> u32
        ensures { result ≡ count_of self.now thread }
    {
        match thread.checked_sub(1) {
            Some(place) => self
                .counts
                .as_slice()
                .get(place as usize)
                .copied()
                .unwrap_or(0),
            None => 0,
        }
    }

    fn value_of(&self, variable: &Name) -> i64
        ensures { result ≡ value_of self.now variable.now }
    {
        self.values.get(variable).copied().unwrap_or(0)
    }

    fn holder_of(&self, lock: &Name) -> Option<u32>
        ensures { result ≡ holder_of self.now lock.now }
    {
        self.holders.get(lock).copied()
    }

    /// Whether the thread is started, exits, and has done its whole segment.
    fn has_ended(&self, window: &Window, thread: u32) -> bool
        ensures { result ≡ has_ended window.now self.now thread }
    {
        is_among(self.started.as_slice(), thread)
            && is_among(window.exited(), thread)
            && window.segment(thread).len() == self.count_of(thread) as usize
    }

    fn count(&mut self, thread: u32)
        requires below { count_of self.old thread < 2 ^ 32 - 1 }
        ensures { self.new ≡ counted thread self.old }
    {
        let Some(place) = thread.checked_sub(1) else {
            return;
        };
        let place = place as usize;
        if place < self.counts.len() {
            let count = self.counts.as_slice()[place] + 1;
            self.counts.set(place, count);
        }
    }
}

/// No thread has done any of its events.
fn no_counts(alloc: Global, window: &Window) -> Result<Row<u32>, AllocError>
    ensures { IfOk result (λ counts. counts ≡ replicate (length window.now.segments) 0) }
{
    let counts = vec![in alloc; 0u32; window.segments().len()]?;
    Ok(Row::from_vec(counts))
}

/// The event that an id names, where there is one. A segment is short enough that the events up to
/// this one can be counted.
fn event_at(window: &Window, id: EventId) -> Option<&Event>
    ensures event { option_copied result ≡ event_at window.now id }
    ensures small { OnSome result (id.index < 2 ^ 32 - 1) }
{
    window.comes_from_recording();
    window.event(id)
}
