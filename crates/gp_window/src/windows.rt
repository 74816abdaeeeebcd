ghost use Rattle.std.specs.Prelude.{◌≡◌, ◌≤◌, ◌+◌, ◌∷◌, IfOk, OnOk, Some, drop};
ghost use Rattle.gp_window.specs.WindowForm.{window_of};
ghost use Rattle.gp_window.specs.Windows.{CanGoTo, TakesFirst, all_windows, windows_from, windows_to};

use crate::recording::Recording;
use crate::walk::WindowWalk;
use crate::window::Window;
use std::alloc::{AllocError, Global};
use std::marker::Model;

/// The windows of a recording that are still to come, in order. Each is cut when it is taken. What
/// holds when it begins is carried on from the window before, so that all of them together cost what
/// the recording's size is.
#[derive(Drop)]
pub struct Windows<'a> {
    // stands at the next window, if one is left
    walk: Option<WindowWalk<'a>>,
    last: u32,
}

impl<'a> Model for Windows<'a> {
    ghost use Rattle.std.specs.Prelude.{List};
    ghost use Rattle.gp_window.specs.WindowForm.{WindowForm};
    ghost use Rattle.gp_window.specs.Windows.{CanGoTo, windows_to};

    ghost Value = { List WindowForm };

    ghost view = { λ w. windows_to w.last w.walk };

    ghost invariant = { λ w. CanGoTo w.last w.walk };
}

impl<'a> Windows<'a> {
    /// All windows of a recording.
    pub fn new(alloc: Global, recording: &'a Recording) -> Result<Windows<'a>, AllocError>
        ensures { IfOk result (λ windows. windows ≡ all_windows recording.now) }
    {
        let epochs = recording.manifest().epochs();
        Windows::from(alloc, recording, 1, epochs)
    }

    /// So many windows of a recording, from window `first` on. The walk goes past those before it.
    pub fn from(
        alloc: Global,
        recording: &'a Recording,
        first: u32,
        count: u32,
    ) -> Result<Windows<'a>, AllocError>
        requires first { 1 ≤ first }
        requires some { 1 ≤ count }
        requires last { first + count ≤ recording.now.manifest.epochs + 1 }
        ensures { IfOk result (λ windows. windows ≡ windows_from recording.now first count) }
    {
        Ok(Windows {
            walk: Some(WindowWalk::at(alloc, recording, first)?),
            last: first + (count - 1),
        })
    }

    /// Takes the next window; `None` after the last. Want of memory ends the walk.
    pub fn next(&mut self, alloc: Global) -> Result<Option<Window>, AllocError>
        ensures { IfOk result (λ window. TakesFirst self.old window self.new) }
    {
        let Some(walk) = self.walk.take() else {
            return Ok(None);
        };
        let window = walk.window(alloc);
        match next_to(walk, self.last) {
            Ok(next) => {
                self.walk = next;
                Ok(Some(window?))
            }
            Err(error) => {
                drop(window);
                Err(error)
            }
        }
    }

    /// Goes past so many windows, or past all where fewer are left. Want of memory ends the walk.
    pub fn skip(&mut self, count: u32) -> Result<(), AllocError>
        ensures { OnOk result (self.new ≡ drop count self.old) }
    {
        let Some(walk) = self.walk.take() else {
            return Ok(());
        };
        self.walk = past(walk, count, self.last)?;
        Ok(())
    }
}

/// The walk at the next window; `None` where it stands at the last.
fn next_to(walk: WindowWalk<'_>, last: u32) -> Result<Option<WindowWalk<'_>>, AllocError>
    requires { CanGoTo last (Some walk) }
    ensures can { IfOk result (CanGoTo last) }
    ensures first { IfOk result (λ next. windows_to last (Some walk.entry) ≡ window_of walk.entry.recording walk.entry.number ∷ windows_to last next) }
{
    if walk.number() < last {
        return walk.advance();
    }
    drop(walk);
    Ok(None)
}

/// The walk past so many windows; `None` where no more are left.
fn past(walk: WindowWalk<'_>, count: u32, last: u32) -> Result<Option<WindowWalk<'_>>, AllocError>
    requires { CanGoTo last (Some walk) }
    ensures can { IfOk result (CanGoTo last) }
    ensures left { IfOk result (λ left. windows_to last left ≡ drop count (windows_to last (Some walk.entry))) }
{
    let mut here = walk;
    for passed in 0..count {
        let Some(next) = next_to(here, last)? else {
            return Ok(None);
        };
        here = next;
    }
    Ok(Some(here))
}
