ghost use Rattle.std.specs.Prelude.{◌≡◌, ◌*◌, ◌≤◌, IfOk, length};
ghost use Rattle.gp_patterns.specs.Answered.{IsAnswered};
ghost use Rattle.gp_patterns.specs.CompactAnswer.{IsCompactAnswer};
ghost use Rattle.gp_patterns.specs.Tickets.{asked_total, too_much};

use gp_outside::Gate;
use gp_property::Property;
use gp_report::Report;
use gp_window::Recording;
use std::alloc::{AllocError, Global};
use std::sync::Wait;
use std::thread::Threads;

/// As `gp_patterns::analyse`.
pub fn analyse<R: Threads + Wait + Sync, G: Gate + Sync>(
    rt: &R,
    alloc: Global,
    recording: &Recording,
    properties: &[Property],
    workers: u32,
    budget: u64,
    gate: &G,
) -> Result<Report, AllocError>
    requires few { length properties.now ≤ 64 }
    requires workers { (1 ≤ workers) × (workers ≤ 16) }
    requires budget { 1 ≤ budget }
    requires most { budget ≤ 1000000 }
    requires limit { asked_total recording.now properties.now * budget ≤ 1000000 }
    ensures answered { IfOk result (IsAnswered recording.now properties.now workers budget) }
    ensures format { IfOk result (λ report. report.format ≡ 1) }
{
    gp_patterns::analyse(rt, alloc, recording, properties, workers, budget, gate)
}

/// As `gp_patterns::analyse_compact`.
pub fn analyse_compact<R: Threads + Wait + Sync, G: Gate + Sync>(
    rt: &R,
    alloc: Global,
    recording: &Recording,
    properties: &[Property],
    workers: u32,
    budget: u64,
    gate: &G,
) -> Result<Report, AllocError>
    requires few { length properties.now ≤ 64 }
    requires workers { (1 ≤ workers) × (workers ≤ 16) }
    requires budget { 1 ≤ budget }
    requires most { budget ≤ 1000000 }
    requires limit { asked_total recording.now properties.now * budget ≤ 1000000 }
    ensures { IfOk result (IsCompactAnswer recording.now properties.now workers budget) }
{
    gp_patterns::analyse_compact(rt, alloc, recording, properties, workers, budget, gate)
}

/// As `gp_patterns::too_much`.
pub fn too_much<R: Threads + Sync>(
    rt: &R,
    alloc: Global,
    recording: &Recording,
    properties: &[Property],
    budget: u64,
) -> Result<Option<u64>, AllocError>
    requires { length properties.now ≤ 64 }
    ensures { IfOk result (λ found. found ≡ too_much recording.now properties.now budget) }
{
    gp_patterns::too_much(rt, alloc, recording, properties, budget)
}
