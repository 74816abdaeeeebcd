ghost use Rattle.std.specs.Prelude.{◌≡◌, ◌==◌, [], if◌then◌else◌, Some, IfOk, OnOk, option_copied};
ghost use Rattle.std.specs.Cmp.Lexicographic.{slice_cmp};
ghost use Rattle.std.specs.Ordering.{nat_cmp};
ghost use Rattle.gp_base.specs.Table.{value_at, with_entry};
ghost use Rattle.gp_trace.specs.LockUse.{lock_use_of};
ghost use Rattle.gp_story.specs.Deeds.{lock_freed};
ghost use Rattle.gp_story.specs.Past.{after_event, after_id, freed_for, recalled, recalled_event, recalled_starter, recalled_use, with_last};
ghost use Rattle.gp_story.specs.Source.{or_beginning};

use crate::story::Source;
use gp_base::Table;
use gp_text::Name;
use gp_trace::{Event, LockMode, LockUse};
use gp_window::{EventId, Window};
use std::alloc::{AllocError, Global};

/// What later events look back at of the events so far: the last one at each key.
#[derive(Drop)]
pub struct Past {
    /// Who wrote each variable.
    pub written: Table<Name, EventId>,
    /// Who gave each lock back, in either way.
    pub freed: Table<Name, EventId>,
    /// Who gave each lock back that was held alone.
    pub released: Table<Name, EventId>,
    /// Who started each thread.
    pub started: Table<u32, EventId>,
    /// What each thread did.
    pub done: Table<u32, EventId>,
}

impl Past {
    /// Nothing has happened yet.
    pub fn new(alloc: Global) -> Past
        ensures { result ≡ record { written = []; freed = []; released = []; started = []; done = [] } }
    {
        Past {
            written: Table::new(alloc),
            freed: Table::new(alloc),
            released: Table::new(alloc),
            started: Table::new(alloc),
            done: Table::new(alloc),
        }
    }

    /// What is kept after one event more.
    pub fn add(&mut self, window: &Window, id: EventId) -> Result<(), AllocError>
        ensures { OnOk result (self.new ≡ after_id window.now id self.old) }
    {
        let Some(event) = window.event(id) else {
            return Ok(());
        };
        self.done.put(id.thread, id)?;
        self.add_event(event, id)
    }

    fn add_event(&mut self, event: &Event, id: EventId) -> Result<(), AllocError>
        ensures { OnOk result (self.new ≡ record (after_event event.now id self.old) { done = self.old.done }) }
    {
        match event {
            Event::Write(variable, _) => self.written.put(*variable, id),
            Event::Start(thread) => self.started.put(*thread, id),
            _ => match event.lock_use() {
                Some(lock_use) => self.add_use(&lock_use, id),
                None => Ok(()),
            },
        }
    }

    fn add_use(&mut self, lock_use: &LockUse, id: EventId) -> Result<(), AllocError>
        ensures { OnOk result (self.new ≡ record self.old {
          freed = with_last (slice_cmp nat_cmp) self.old.freed (lock_freed LockMode.Exclusive (Some lock_use.now)) id;
          released = with_last (slice_cmp nat_cmp) self.old.released (lock_freed LockMode.Shared (Some lock_use.now)) id;
        }) }
    {
        match lock_use {
            LockUse::Take(_, _) => Ok(()),
            LockUse::GiveBack(LockMode::Shared, lock) => self.freed.put(*lock, id),
            LockUse::GiveBack(LockMode::Exclusive, lock) => {
                self.freed.put(*lock, id)?;
                self.released.put(*lock, id)
            }
        }
    }

    /// What the event that an id names looks back at.
    pub fn source(&self, window: &Window, id: EventId) -> Source
        ensures { result ≡ recalled window.now self.now id }
    {
        match window.event(id) {
            Some(event) => self.source_of_event(event),
            None => Source::Nothing,
        }
    }

    fn source_of_event(&self, event: &Event) -> Source
        ensures { result ≡ recalled_event self.now event.now }
    {
        match event {
            Event::Read(variable, _) => or_beginning(self.written.get(variable)),
            Event::Join(thread) => or_beginning(self.done.get(thread)),
            _ => match event.lock_use() {
                Some(lock_use) => self.source_of_use(&lock_use),
                None => Source::Nothing,
            },
        }
    }

    fn source_of_use(&self, lock_use: &LockUse) -> Source
        ensures { result ≡ recalled_use self.now (Some lock_use.now) }
    {
        match lock_use {
            LockUse::Take(LockMode::Exclusive, lock) => or_beginning(self.freed.get(lock)),
            LockUse::Take(LockMode::Shared, lock) => or_beginning(self.released.get(lock)),
            LockUse::GiveBack(_, _) => Source::Nothing,
        }
    }

    /// Who started the thread of an event, where it is the first one of its thread.
    pub fn starter(&self, window: &Window, id: EventId) -> Option<EventId>
        ensures { result ≡ recalled_starter window.now self.now id }
    {
        match window.event(id) {
            Some(_) => self.starter_of_first(id),
            None => None,
        }
    }

    fn starter_of_first(&self, id: EventId) -> Option<EventId>
        ensures { result ≡ (if id.index == 0 then value_at nat_cmp self.now.started id.thread else None) }
    {
        if id.index == 0 {
            return self.started.get(&id.thread).copied();
        }
        None
    }
}

fn or_beginning(earlier: Option<&EventId>) -> Source
    ensures { result ≡ or_beginning (option_copied earlier.entry) }
{
    match earlier {
        Some(id) => Source::Earlier(*id),
        None => Source::Beginning,
    }
}
