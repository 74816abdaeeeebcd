ghost use Rattle.std.specs.Prelude.{◌≡◌, ◌<◌, ◌≤◌, IfOk, OnOk};
ghost use Rattle.gp_window.specs.WindowForm.{window_of};
ghost use Rattle.gp_window.specs.Ahead.{AreAhead};

use crate::recording::Recording;
use crate::window::Window;
use crate::windows::Windows;
use std::alloc::{AllocError, Global};

/// The windows of a recording after those that were passed. Windows that are taken in rising order cost one walk over the
/// recording together.
#[derive(Drop)]
pub struct WindowsAhead<'a> {
    windows: Windows<'a>,
    // how many windows come before
    passed: u32,
}

impl<'a> WindowsAhead<'a> {
    /// All windows: none was passed.
    pub fn new(alloc: Global, recording: &'a Recording) -> Result<WindowsAhead<'a>, AllocError>
        ensures all { IfOk result (AreAhead recording.now) }
        ensures none { IfOk result (λ ahead. ahead.passed ≡ 0) }
    {
        Ok(WindowsAhead {
            windows: Windows::new(alloc, recording)?,
            passed: 0,
        })
    }

    /// Window `k`, with which all windows up to it are passed.
    pub fn window(
        &mut self,
        alloc: Global,
        recording: &'a Recording,
        k: u32,
    ) -> Result<Window, AllocError>
        requires ahead { AreAhead recording.now self.old }
        requires k { (1 ≤ k) × (k ≤ recording.now.manifest.epochs) }
        ensures ahead { IfOk result (λ window. AreAhead recording.now self.new) }
        ensures window { IfOk result (λ window. window ≡ window_of recording.now k) }
    {
        self.turn_back(alloc, recording, k)?;
        self.windows.skip(k - 1 - self.passed)?;
        let Some(window) = self.windows.next(alloc)? else {
            unreachable!()
        };
        self.passed = k;
        Ok(window)
    }

    /// Begins anew where window `k` was passed.
    fn turn_back(
        &mut self,
        alloc: Global,
        recording: &'a Recording,
        k: u32,
    ) -> Result<(), AllocError>
        requires ahead { AreAhead recording.now self.old }
        requires k { 1 ≤ k }
        ensures { OnOk result (AreAhead recording.now self.new × (self.new.passed < k)) }
    {
        if k <= self.passed {
            *self = WindowsAhead::new(alloc, recording)?;
        }
        Ok(())
    }
}
