ghost use Rattle.std.specs.Prelude.{◌≡◌, ◌*◌, ◌≤◌, IfOk};
ghost use Rattle.gp_analysis.specs.Tickets.{asked_total, too_much};
ghost use Rattle.gp_deadlocks.specs.Question.{IsAnswered, deadlocks};

use crate::deadlocks::Deadlocks;
use gp_outside::Gate;
use gp_report::Report;
use gp_window::Recording;
use std::alloc::{AllocError, Global};
use std::sync::Wait;
use std::thread::Threads;

/// Answers each cycle of waiting threads in each window of a recording, window by window, by so many workers, each of which
/// passes the gate before each of its own. The report has format 1, and in each window that is not too large one record, named
/// `deadlock`.
pub fn analyse<R: Threads + Wait + Sync, G: Gate + Sync>(
    rt: &R,
    alloc: Global,
    recording: &Recording,
    workers: u32,
    budget: u64,
    gate: &G,
) -> Result<Report, AllocError>
    requires workers { (1 ≤ workers) × (workers ≤ 16) }
    requires budget { 1 ≤ budget }
    requires most { budget ≤ 1000000 }
    requires limit { asked_total deadlocks recording.now * budget ≤ 1000000 }
    ensures answered { IfOk result (IsAnswered recording.now workers budget) }
    ensures format { IfOk result (λ report. report.format ≡ 1) }
{
    let question = Deadlocks::new();
    let windows = gp_analysis::analyse(rt, alloc, recording, &question, workers, budget, gate)?;
    Ok(Report::new(1, budget, windows))
}

/// How many cycles are asked in all windows of a recording, where that times the budget of each is over 1,000,000, and `None`
/// where it is not.
pub fn too_much<R: Threads + Sync>(
    rt: &R,
    alloc: Global,
    recording: &Recording,
    budget: u64,
) -> Result<Option<u64>, AllocError>
    ensures { IfOk result (λ found. found ≡ too_much deadlocks recording.now budget) }
{
    let question = Deadlocks::new();
    let asked = gp_analysis::too_much(rt, alloc, recording, &question, budget)?;
    Ok(asked)
}
