ghost use Rattle.std.specs.Prelude.{◌≡◌, ◌*◌, ◌≤◌, IfOk, length};
ghost use Rattle.gp_analysis.specs.Tickets.{asked_total, too_much};
ghost use Rattle.gp_notified.specs.Answered.{IsAnswered};
ghost use Rattle.gp_notified.specs.Question.{notified};

use crate::notified::Notified;
use crate::report::NotifyReport;
use crate::unpaired::unpaired_of;
use gp_outside::Gate;
use gp_property::Property;
use gp_window::Recording;
use std::alloc::{AllocError, Global};
use std::sync::Wait;
use std::thread::Threads;

/// Answers each instance of each property in each window of a recording where each wake needs a signal, window by window, by so
/// many workers, each of which passes the gate before each of its own. A window with a wake that has no sleep is named, and not
/// asked.
pub fn analyse<R: Threads + Wait + Sync, G: Gate + Sync>(
    rt: &R,
    alloc: Global,
    recording: &Recording,
    properties: &[Property],
    workers: u32,
    budget: u64,
    gate: &G,
) -> Result<NotifyReport, AllocError>
    requires few { length properties.now ≤ 64 }
    requires workers { (1 ≤ workers) × (workers ≤ 16) }
    requires budget { 1 ≤ budget }
    requires limit { asked_total (notified properties.now) recording.now * budget ≤ 1000000 }
    ensures { IfOk result (IsAnswered recording.now properties.now workers budget) }
{
    let question = Notified::of(properties);
    let windows = gp_analysis::analyse(rt, alloc, recording, &question, workers, budget, gate)?;
    let unpaired = unpaired_of(alloc, recording, windows.as_slice())?;
    Ok(NotifyReport {
        budget,
        windows,
        unpaired,
    })
}

/// How many instances are asked in all windows of a recording, where that times the budget of each is over 1,000,000, and `None`
/// where it is not. A window that is left out asks none.
pub fn too_much<R: Threads + Sync>(
    rt: &R,
    alloc: Global,
    recording: &Recording,
    properties: &[Property],
    budget: u64,
) -> Result<Option<u64>, AllocError>
    requires { length properties.now ≤ 64 }
    ensures { IfOk result (λ found. found ≡ too_much (notified properties.now) recording.now budget) }
{
    let question = Notified::of(properties);
    let asked = gp_analysis::too_much(rt, alloc, recording, &question, budget)?;
    Ok(asked)
}
