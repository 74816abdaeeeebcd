ghost use Rattle.std.specs.Prelude.{◌≡◌, ◌≢◌, ◌≤◌, ◌+◌, List, Some, Err, IfOk};
ghost use Rattle.gp_outside.specs.Faults.{Rose};
ghost use Rattle.gp_outside.specs.Folders.{File, HasNone};
ghost use Rattle.gp_window.specs.FileNames.{path_of};
ghost use Rattle.gp_window.specs.Gives.{Gives};
ghost use Rattle.gp_window.specs.Recording.{recording_cause, recording_of};
ghost use Rattle.gp_window.specs.WindowForm.{window_of};
ghost use Rattle.gp_window.specs.Windows.{TakesFirst, windows_from};
ghost use Rattle.gp_replay.specs.Feasible.{end_of};

use gp_outside::Folder;
use gp_replay::{ReplayEnd, ReplayFault};
use gp_window::{FileName, Recording, RecordingFault, Schedule, Window, Windows};
use std::alloc::{AllocError, Global};
use std::thread::Threads;

/// As `gp_window::read_recording`.
pub fn read_recording<R: Threads + Sync, F: Folder>(
    rt: &R,
    alloc: Global,
    folder: &mut F,
    directory: &str,
) -> Result<Recording, RecordingFault>
    ensures later { F.faults folder.old ≤ F.faults folder.new }
    ensures kept { F.files folder.new ≡ F.files folder.old }
    ensures told { (files : List File) → F.files folder.old ≡ Some files
        → Gives recording_cause result (recording_of files directory.now) }
    ensures absent { (other : FileName) → result ≡ Err (RecordingFault.Absent other)
        → HasNone (F.files folder.old) (path_of directory.now other) (Rose (F.faults folder.old) (F.faults folder.new)) }
    ensures fault { result ≡ Err RecordingFault.ReadFailed → Rose (F.faults folder.old) (F.faults folder.new) }
{
    gp_window::read_recording(rt, alloc, folder, directory)
}

/// As `gp_window::cut`.
pub fn cut(alloc: Global, recording: &Recording, k: u32) -> Result<Window, AllocError>
    requires first { 1 ≤ k }
    requires last { k ≤ recording.now.manifest.epochs }
    ensures { IfOk result (λ window. window ≡ window_of recording.now k) }
{
    gp_window::cut(alloc, recording, k)
}

/// As `Windows::from` of `gp_window`.
pub fn windows_from<'a>(
    alloc: Global,
    recording: &'a Recording,
    first: u32,
    count: u32,
) -> Result<Windows<'a>, AllocError>
    requires first { 1 ≤ first }
    requires some { 1 ≤ count }
    requires last { first + count ≤ recording.now.manifest.epochs + 1 }
    ensures { IfOk result (λ windows. windows ≡ windows_from recording.now first count) }
{
    Windows::from(alloc, recording, first, count)
}

/// As `Windows::next` of `gp_window`.
pub fn next_window(windows: &mut Windows<'_>, alloc: Global) -> Result<Option<Window>, AllocError>
    ensures { IfOk result (λ window. TakesFirst windows.old window windows.new) }
{
    windows.next(alloc)
}

/// As `gp_replay::replay`.
pub fn replay(alloc: Global, window: &Window, schedule: &Schedule) -> Result<ReplayEnd, ReplayFault>
    ensures { result ≢ Err ReplayFault.Memory → result ≡ end_of window.now schedule.now.events }
{
    gp_replay::replay(alloc, window, schedule)
}
