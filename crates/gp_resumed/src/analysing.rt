ghost use Rattle.std.specs.Prelude.{◌≡◌, ◌*◌, ◌≤◌, IfOk, length};
ghost use Rattle.gp_resumed.specs.Answered.{IsAnswered};
ghost use Rattle.gp_resumed.specs.Question.{asked_total, too_much};

use crate::naming::Naming;
use crate::resumed::Resumed;
use gp_outside::Gate;
use gp_property::Property;
use gp_report::Report;
use gp_window::Recording;
use std::alloc::{AllocError, Global};
use std::marker::Brand;
use std::sync::Wait;
use std::thread::Threads;

/// Answers each instance of each property in each window of a recording that an old report does not answer any more, and keeps
/// the other answers, as `gp_patterns::analyse` does it where nothing is old. The old report may be of anything: each of its
/// answers is tested. The new one has format 2, with the shared lists that are kept.
pub fn analyse<R: Threads + Wait + Sync, G: Gate + Sync>(
    rt: &R,
    alloc: Global,
    recording: &Recording,
    properties: &[Property],
    old: &Report,
    workers: u32,
    budget: u64,
    gate: &G,
) -> Result<Report, AllocError>
    requires few { length properties.now ≤ 64 }
    requires workers { (1 ≤ workers) × (workers ≤ 16) }
    requires budget { 1 ≤ budget }
    requires most { budget ≤ 1000000 }
    requires limit { asked_total recording.now properties.now old.now * budget ≤ 1000000 }
    ensures answered { IfOk result (IsAnswered recording.now properties.now old.now workers budget) }
    ensures format { IfOk result (λ report. report.format ≡ 2) }
{
    analyse_named::<R, G, Brand>(rt, alloc, recording, properties, old, workers, budget, gate)
}

// The same, where the properties and the old report have a name.
fn analyse_named<R: Threads + Wait + Sync, G: Gate + Sync, N: Naming + Send + Sync>(
    rt: &R,
    alloc: Global,
    recording: &Recording,
    properties: &[Property],
    old: &Report,
    workers: u32,
    budget: u64,
    gate: &G,
) -> Result<Report, AllocError>
    requires named { properties.now ≡ N.properties }
    requires named_old { old.now ≡ N.old }
    requires few { length properties.now ≤ 64 }
    requires workers { (1 ≤ workers) × (workers ≤ 16) }
    requires budget { 1 ≤ budget }
    requires most { budget ≤ 1000000 }
    requires limit { asked_total recording.now N.properties N.old * budget ≤ 1000000 }
    ensures answered { IfOk result (IsAnswered recording.now N.properties N.old workers budget) }
    ensures format { IfOk result (λ report. report.format ≡ 2) }
{
    let question: Resumed<'_, N> = Resumed::of(alloc, properties, old)?;
    let windows = gp_analysis::analyse(rt, alloc, recording, &question, workers, budget, gate)?;
    Ok(Report::new(2, budget, windows))
}

/// How many instances are asked in all windows of a recording, those that are kept of the old report left out, where that times
/// the budget of each is over 1,000,000, and `None` where it is not.
pub fn too_much<R: Threads + Sync>(
    rt: &R,
    alloc: Global,
    recording: &Recording,
    properties: &[Property],
    old: &Report,
    budget: u64,
) -> Result<Option<u64>, AllocError>
    requires { length properties.now ≤ 64 }
    ensures { IfOk result (λ found. found ≡ too_much recording.now properties.now old.now budget) }
{
    too_much_named::<R, Brand>(rt, alloc, recording, properties, old, budget)
}

// The same, where the properties and the old report have a name.
fn too_much_named<R: Threads + Sync, N: Naming + Send + Sync>(
    rt: &R,
    alloc: Global,
    recording: &Recording,
    properties: &[Property],
    old: &Report,
    budget: u64,
) -> Result<Option<u64>, AllocError>
    requires named { properties.now ≡ N.properties }
    requires named_old { old.now ≡ N.old }
    requires few { length properties.now ≤ 64 }
    ensures { IfOk result (λ found. found ≡ too_much recording.now N.properties N.old budget) }
{
    let question: Resumed<'_, N> = Resumed::of(alloc, properties, old)?;
    gp_analysis::too_much(rt, alloc, recording, &question, budget)
}
