ghost use Rattle.std.specs.Prelude.{◌≡◌, IfOk};
ghost use Rattle.gp_window.specs.Windows.{all_windows};
ghost use Rattle.gp_deadlock_checker.specs.Checked.{AreCheckedDeadlocks};
ghost use Rattle.gp_deadlock_checker.specs.Finds.{FindsAt};

use crate::window::check_window;
use gp_checker::{Checked, Failure, at_end, wrong_count};
use gp_report::Report;
use gp_window::{Recording, Window, Windows};
use std::alloc::{AllocError, Global};

/// Checks a report on the deadlocks of a recording, whoever wrote it: it is accepted, or rejected by its first failure. The
/// reasons are those of a report on properties; a schedule does not match where it is feasible and does not end stuck.
pub fn check_deadlocks(
    alloc: Global,
    recording: &Recording,
    report: &Report,
) -> Result<Checked, AllocError>
    ensures { IfOk result (AreCheckedDeadlocks recording.now report.now) }
{
    let mut left = Windows::new(alloc, recording)?;
    let checked = check_windows(alloc, &mut left, recording, report);
    drop(left);
    checked
}

// Checks a report on all windows of a recording.
fn check_windows(
    alloc: Global,
    left: &mut Windows,
    recording: &Recording,
    report: &Report,
) -> Result<Checked, AllocError>
    requires { left.old ≡ all_windows recording.now }
    ensures { IfOk result (AreCheckedDeadlocks recording.now report.now) }
{
    while let Some(window) = left.next(alloc)? {
        if let Some(failure) = check_at(alloc, window, report)? {
            return Ok(Checked::Rejected(failure));
        }
    }
    Ok(at_end(recording.manifest().epochs(), report.windows().len()))
}

// How a report fails at a window: it has no record of it, or the record fails.
fn check_at(alloc: Global, window: Window, report: &Report) -> Result<Option<Failure>, AllocError>
    ensures { IfOk result (FindsAt report.now window) }
{
    let number = window.number();
    let Some(told) = report.windows().get(number as usize - 1) else {
        drop(window);
        return Ok(Some(wrong_count(number)));
    };
    if let Some(failure) = check_window(alloc, window, report.budget(), told)? {
        return Ok(Some(Failure {
            window: number,
            ..failure
        }));
    }
    Ok(None)
}
