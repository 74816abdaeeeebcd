ghost use Rattle.std.specs.Prelude.{◌≡◌, ◌<◌, ◌^◌, [], length, Some, IfOk, OnOk, option_copied};
ghost use Rattle.gp_window.specs.Events.{segment_of};
ghost use Rattle.gp_window.specs.Formed.{IsFormed};
ghost use Rattle.gp_window.specs.WindowForm.{held_at_start, numbers_from};
ghost use Rattle.gp_story.specs.Deeds.{variable_of};
ghost use Rattle.gp_story.specs.Shared.{is_accessed_beside, is_used_beside, shares, shares_event, shares_use};
ghost use Rattle.gp_story.specs.Touched.{also_by, is_beside, lock_used, with_events, with_holdings, with_threads, with_touch, with_touched};

use crate::deeds::{lock_of, variable_of};
use gp_base::Table;
use gp_text::Name;
use gp_trace::{Event, LockMode, LockUse};
use gp_window::{EventId, Window, windows_are_formed};
use std::alloc::{AllocError, Global};
use std::marker::Model;

/// Which threads touch a variable or a lock that some thread touches.
#[derive(Clone, Copy)]
pub enum Touched {
    /// This one alone.
    ByOne(u32),
    /// Two or more.
    BySeveral,
}

/// A window, with who touches each of its variables and locks. Contracts see the window.
#[derive(Drop)]
pub struct Sharing<'a> {
    window: &'a Window,
    variables: Table<Name, Touched>,
    locks: Table<Name, Touched>,
}

impl<'a> Model for Sharing<'a> {
    ghost use Rattle.gp_window.specs.WindowForm.{WindowForm};
    ghost use Rattle.gp_story.specs.Touched.{TellsSharing};

    ghost Value = { WindowForm };

    ghost view = { λ sharing. sharing.window.now };

    ghost invariant = { λ sharing. TellsSharing sharing.window.now sharing.variables sharing.locks };
}

impl<'a> Sharing<'a> {
    /// Who touches what in a window, found in one pass over its events.
    pub fn of(alloc: Global, window: &'a Window) -> Result<Sharing<'a>, AllocError>
        ensures { IfOk result (λ sharing. sharing ≡ window.now) }
    {
        windows_are_formed();
        window.comes_from_recording();
        let mut variables = Table::new(alloc);
        let mut locks = Table::new(alloc);
        touch_held(&mut locks, window)?;
        touch_all(&mut variables, &mut locks, window)?;
        Ok(Sharing {
            window,
            variables,
            locks,
        })
    }

    pub fn window(&self) -> &Window
        ensures { result.now ≡ self.now }
    {
        self.window
    }

    /// Whether other threads have to do with the event that an id names.
    pub fn shares(&self, id: EventId) -> bool
        ensures { result ≡ shares self.now id }
    {
        match self.window().event(id) {
            Some(event) => self.shares_event(id.thread, event),
            None => false,
        }
    }

    fn shares_event(&self, thread: u32, event: &Event) -> bool
        ensures { result ≡ shares_event self.now thread event.now }
    {
        match event {
            Event::Start(_) => true,
            Event::Join(_) => true,
            Event::Read(variable, _) => self.is_accessed_beside(variable, thread),
            Event::Write(variable, _) => self.is_accessed_beside(variable, thread),
            _ => match event.lock_use() {
                Some(lock_use) => self.is_used_beside(&lock_of(&lock_use), thread),
                None => false,
            },
        }
    }

    fn is_accessed_beside(&self, variable: &Name, thread: u32) -> bool
        ensures { result ≡ is_accessed_beside self.now variable.now thread }
    {
        is_beside(thread, self.variables.get(variable))
    }

    fn is_used_beside(&self, lock: &Name, thread: u32) -> bool
        ensures { result ≡ is_used_beside self.now lock.now thread }
    {
        is_beside(thread, self.locks.get(lock))
    }
}

/// The threads that hold locks when the window begins touch them.
fn touch_held(locks: &mut Table<Name, Touched>, window: &Window) -> Result<(), AllocError>
    ensures { OnOk result (locks.new ≡ with_holdings locks.old (held_at_start window.now)) }
{
    for (place, _) in window.held().iter() {
        touch(locks, place.0, place.1)?;
    }
    Ok(())
}

/// All threads of the window touch what their events use.
fn touch_all(
    variables: &mut Table<Name, Touched>,
    locks: &mut Table<Name, Touched>,
    window: &Window,
) -> Result<(), AllocError>
    requires { IsFormed window.now }
    ensures variables { OnOk result (variables.new ≡ with_threads variable_of window.now variables.old (numbers_from 1 (length window.now.segments))) }
    ensures locks { OnOk result (locks.new ≡ with_threads lock_used window.now locks.old (numbers_from 1 (length window.now.segments))) }
{
    let threads = window.segments().len() as u32;
    for thread in 1..threads + 1 {
        touch_events(variables, locks, thread, window.segment(thread))?;
    }
    Ok(())
}

/// A thread touches what its events use.
fn touch_events(
    variables: &mut Table<Name, Touched>,
    locks: &mut Table<Name, Touched>,
    thread: u32,
    events: &[Event],
) -> Result<(), AllocError>
    ensures variables { OnOk result (variables.new ≡ with_events variable_of thread variables.old events.now) }
    ensures locks { OnOk result (locks.new ≡ with_events lock_used thread locks.old events.now) }
{
    for event in events {
        touch_variable(variables, thread, event)?;
        touch_lock(locks, thread, event)?;
    }
    Ok(())
}

fn touch_variable(
    variables: &mut Table<Name, Touched>,
    thread: u32,
    event: &Event,
) -> Result<(), AllocError>
    ensures { OnOk result (variables.new ≡ with_touched thread variables.old (variable_of event.now)) }
{
    match variable_of(event) {
        Some(variable) => touch(variables, variable, thread),
        None => Ok(()),
    }
}

fn touch_lock(
    locks: &mut Table<Name, Touched>,
    thread: u32,
    event: &Event,
) -> Result<(), AllocError>
    ensures { OnOk result (locks.new ≡ with_touched thread locks.old (lock_used event.now)) }
{
    match event.lock_use() {
        Some(lock_use) => touch(locks, lock_of(&lock_use), thread),
        None => Ok(()),
    }
}

/// A thread touches this name too.
fn touch(touches: &mut Table<Name, Touched>, name: Name, thread: u32) -> Result<(), AllocError>
    ensures { OnOk result (touches.new ≡ with_touch touches.old name thread) }
{
    let touched = also_by(thread, touches.get(&name));
    touches.put(name, touched)
}

fn also_by(thread: u32, touched: Option<&Touched>) -> Touched
    ensures { result ≡ also_by thread (option_copied touched.entry) }
{
    match touched {
        None => Touched::ByOne(thread),
        Some(touched) => joined_by(thread, touched),
    }
}

fn joined_by(thread: u32, touched: &Touched) -> Touched
    ensures { result ≡ also_by thread (Some touched.now) }
{
    match touched {
        Touched::ByOne(one) if *one == thread => *touched,
        _ => Touched::BySeveral,
    }
}

/// Whether a thread other than this one is among those that touch a name.
fn is_beside(thread: u32, touched: Option<&Touched>) -> bool
    ensures { result ≡ is_beside thread (option_copied touched.entry) }
{
    match touched {
        None => false,
        Some(Touched::ByOne(one)) => *one != thread,
        Some(Touched::BySeveral) => true,
    }
}
