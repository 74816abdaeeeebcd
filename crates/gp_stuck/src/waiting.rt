ghost use Rattle.std.specs.Prelude.{◌≡◌, ℕ, List, Some, true, Contains, IfOk};
ghost use Rattle.std.specs.List.{flat_map};
ghost use Rattle.gp_trace.specs.declared.lock_use.LockMode.{LockMode};
ghost use Rattle.gp_window.specs.declared.schedule.EventId.{EventId};
ghost use Rattle.gp_window.specs.Modes.{mode_before};
ghost use Rattle.gp_stuck.specs.Cycle.{may_be_next};
ghost use Rattle.gp_stuck.specs.Noted.{holders_of};
ghost use Rattle.gp_stuck.specs.Search.{cycles_from, found_cycles, takers_of};

use crate::holder::Holder;
use crate::noting::note_window;
use gp_base::Row;
use gp_constraint::Groups;
use gp_text::Name;
use gp_window::{EventId, Window, windows_are_formed};
use std::alloc::{AllocError, Global};
use std::marker::Model;

/// A window, with the events that may begin a cycle, and for each lock the events that take some lock while
/// their threads hold this one. Contracts see the window.
#[derive(Drop)]
pub struct Waiting<'a> {
    window: &'a Window,
    starts: Row<EventId>,
    holders: Groups<Holder>,
}

impl<'a> Model for Waiting<'a> {
    ghost use Rattle.gp_window.specs.WindowForm.{WindowForm};
    ghost use Rattle.gp_stuck.specs.Noted.{AreNoted};
    ghost use Rattle.gp_stuck.specs.Search.{takers_of};

    ghost Value = { WindowForm };

    ghost view = { λ waiting. waiting.window.now };

    ghost invariant = { λ waiting. AreNoted waiting.window.now (takers_of waiting.window.now) waiting.starts waiting.holders };
}

impl<'a> Waiting<'a> {
    /// The notes of a window, in the time of its events and of the locks that their threads hold at each that takes one.
    pub fn of(alloc: Global, window: &'a Window) -> Result<Waiting<'a>, AllocError>
        ensures { IfOk result (λ waiting. waiting ≡ window.now) }
    {
        windows_are_formed();
        window.comes_from_recording();
        let mut starts = Row::new(alloc);
        let mut holders = Groups::new(alloc);
        note_window(alloc, window, &mut starts, &mut holders)?;
        Ok(Waiting {
            window,
            starts,
            holders,
        })
    }

    pub fn window(&self) -> &Window
        ensures { result.now ≡ self.now }
    {
        self.window
    }

    /// The events with which the search begins.
    pub fn starts(&self) -> &[EventId]
        ensures found { flat_map (cycles_from self.now (takers_of self.now)) result.now ≡ found_cycles self.now }
        ensures among { (id : _) → Contains result.now id → Contains (takers_of self.now) id }
        ensures all { (id : EventId) (lock : List ℕ) (mode : LockMode) → Contains (takers_of self.now) id → may_be_next self.now id ≡ true → mode_before self.now id lock ≡ Some mode → Contains result.now id }
    {
        self.starts.as_slice()
    }

    /// The events that take locks and whose threads hold this one just before them.
    pub fn holders(&self, lock: &Name) -> &[Holder]
        ensures { result.now ≡ holders_of self.now lock.now (takers_of self.now) }
    {
        self.holders.at(lock)
    }
}
