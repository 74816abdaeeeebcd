ghost use Rattle.std.specs.Prelude.{◌≡◌, ◌+◌, ◌<◌, ◌≤◌, IfOk, length};
ghost use Rattle.gp_window.specs.Windows.{all_windows};
ghost use Rattle.gp_checker.specs.Checked.{IsChecked};
ghost use Rattle.gp_checker.specs.Finds.{FindsAt};
ghost use Rattle.gp_checker.specs.Reasons.{wrong_count};

use crate::failure::{Checked, Failure, Reason};
use crate::window::check_window;
use gp_property::Property;
use gp_report::Report;
use gp_window::{Recording, Window, Windows};
use std::alloc::{AllocError, Global};

/// Checks a report on a recording and its properties, whoever wrote it: it is accepted, or rejected by its first failure.
pub fn check_report(
    alloc: Global,
    recording: &Recording,
    properties: &[Property],
    report: &Report,
) -> Result<Checked, AllocError>
    requires { length properties.now ≤ 64 }
    ensures { IfOk result (IsChecked recording.now properties.now report.now) }
{
    let mut left = Windows::new(alloc, recording)?;
    let checked = check_windows(alloc, &mut left, recording, properties, report);
    drop(left);
    checked
}

// Checks a report on all windows of a recording.
fn check_windows(
    alloc: Global,
    left: &mut Windows,
    recording: &Recording,
    properties: &[Property],
    report: &Report,
) -> Result<Checked, AllocError>
    requires few { length properties.now ≤ 64 }
    requires all { left.old ≡ all_windows recording.now }
    ensures { IfOk result (IsChecked recording.now properties.now report.now) }
{
    while let Some(window) = left.next(alloc)? {
        if let Some(failure) = check_at(alloc, window, properties, report)? {
            return Ok(Checked::Rejected(failure));
        }
    }
    Ok(at_end(recording.manifest().epochs(), report.windows().len()))
}

// How a report fails at a window: it has no record of it, or the record fails.
fn check_at(
    alloc: Global,
    window: Window,
    properties: &[Property],
    report: &Report,
) -> Result<Option<Failure>, AllocError>
    requires { length properties.now ≤ 64 }
    ensures { IfOk result (FindsAt properties.now report.now window) }
{
    let number = window.number();
    let Some(told) = report.windows().get(number as usize - 1) else {
        drop(window);
        return Ok(Some(wrong_count(number)));
    };
    if let Some(failure) = check_window(alloc, window, properties, report.budget(), told)? {
        return Ok(Some(Failure {
            window: number,
            ..failure
        }));
    }
    Ok(None)
}

/// The failure of a window that is missing or surplus.
pub fn wrong_count(number: u32) -> Failure
    ensures { result ≡ wrong_count number }
{
    Failure {
        window: number,
        ..Failure::of(Reason::WindowCount, 0)
    }
}

/// What a check says where all windows are accepted, the last of which has this number: the report has no more.
pub fn at_end(number: u32, count: usize) -> Checked
    requires { number ≤ 4096 }
    ensures last { count ≤ number → result ≡ Checked.Accepted }
    ensures more { number < count → result ≡ Checked.Rejected (wrong_count (number + 1)) }
{
    if (number as usize) < count {
        return Checked::Rejected(wrong_count(number + 1));
    }
    Checked::Accepted
}
