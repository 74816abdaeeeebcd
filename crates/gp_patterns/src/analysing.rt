ghost use Rattle.std.specs.Prelude.{◌≡◌, ◌*◌, ◌≤◌, IfOk, length};
ghost use Rattle.gp_patterns.specs.Answered.{IsAnswered};
ghost use Rattle.gp_patterns.specs.CompactAnswer.{IsCompactAnswer};
ghost use Rattle.gp_patterns.specs.Tickets.{asked_total, too_much};

use crate::patterns::Patterns;
use gp_outside::Gate;
use gp_property::Property;
use gp_report::Report;
use gp_window::Recording;
use std::alloc::{AllocError, Global};
use std::sync::Wait;
use std::thread::Threads;

/// Answers each instance of each property in each window of a recording, window by window, by so many workers, each of
/// which passes the gate before each of its own. Where no thread can be made, they run one after another. Two or more that
/// work on one window side by side pass each other what they learn, and one may wait there for another.
/// The report has format 1.
pub fn analyse<R: Threads + Wait + Sync, G: Gate + Sync>(
    rt: &R,
    alloc: Global,
    recording: &Recording,
    properties: &[Property],
    workers: u32,
    budget: u64,
    gate: &G,
) -> Result<Report, AllocError>
    requires few { length properties.now ≤ 64 }
    requires workers { (1 ≤ workers) × (workers ≤ 16) }
    requires budget { 1 ≤ budget }
    requires most { budget ≤ 1000000 }
    requires limit { asked_total recording.now properties.now * budget ≤ 1000000 }
    ensures answered { IfOk result (IsAnswered recording.now properties.now workers budget) }
    ensures format { IfOk result (λ report. report.format ≡ 1) }
{
    let question = Patterns::of(properties);
    let windows = gp_analysis::analyse(rt, alloc, recording, &question, workers, budget, gate)?;
    Ok(Report::new(1, budget, windows))
}

/// As `analyse`, in the compact form: the report has format 2, and each window is compacted when it is answered, so that no more
/// than one of its certificates is in memory before.
pub fn analyse_compact<R: Threads + Wait + Sync, G: Gate + Sync>(
    rt: &R,
    alloc: Global,
    recording: &Recording,
    properties: &[Property],
    workers: u32,
    budget: u64,
    gate: &G,
) -> Result<Report, AllocError>
    requires few { length properties.now ≤ 64 }
    requires workers { (1 ≤ workers) × (workers ≤ 16) }
    requires budget { 1 ≤ budget }
    requires most { budget ≤ 1000000 }
    requires limit { asked_total recording.now properties.now * budget ≤ 1000000 }
    ensures { IfOk result (IsCompactAnswer recording.now properties.now workers budget) }
{
    let question = Patterns::of(properties);
    let windows = gp_analysis::analyse_compact(
        rt, alloc, recording, &question, workers, budget, gate,
    )?;
    Ok(Report::new(2, budget, windows))
}

/// How many instances are asked in all windows of a recording, where that times the budget of each is over 1,000,000, and
/// `None` where it is not. Whether a window is too large takes making its constraints, and is looked at only where all
/// instances that are listed would be too many. Runs of windows are counted side by side, and of each run the lists of one
/// window at a time are in memory.
pub fn too_much<R: Threads + Sync>(
    rt: &R,
    alloc: Global,
    recording: &Recording,
    properties: &[Property],
    budget: u64,
) -> Result<Option<u64>, AllocError>
    requires { length properties.now ≤ 64 }
    ensures { IfOk result (λ found. found ≡ too_much recording.now properties.now budget) }
{
    let question = Patterns::of(properties);
    let asked = gp_analysis::too_much(rt, alloc, recording, &question, budget)?;
    Ok(asked)
}
