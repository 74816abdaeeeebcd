ghost use Rattle.std.specs.Prelude.{◌≡◌, ◌*◌, ◌≤◌, IfOk};
ghost use Rattle.gp_analysis.specs.Recorded.{CompactEach, RecordEach};
ghost use Rattle.gp_analysis.specs.Tickets.{asked_total, too_much};
ghost use Rattle.gp_window.specs.Windows.{all_windows};

use gp_analysis::Question;
use gp_base::Row;
use gp_outside::Gate;
use gp_report::WindowRecordOf;
use gp_window::Recording;
use std::alloc::{AllocError, Global};
use std::sync::Wait;
use std::thread::Threads;

/// As `gp_analysis::analyse`.
pub fn analyse<R: Threads + Wait + Sync, G: Gate + Sync, Q: Question + Sync>(
    rt: &R,
    alloc: Global,
    recording: &Recording,
    question: &Q,
    workers: u32,
    budget: u64,
    gate: &G,
) -> Result<Row<WindowRecordOf<Q::Shown>>, AllocError>
where
    Q::Encoded: Send,
    Q::Shown: Send,
    requires workers { (1 ≤ workers) × (workers ≤ 16) }
    requires budget { 1 ≤ budget }
    requires limit { asked_total (Q.form question.now) recording.now * budget ≤ 1000000 }
    ensures { IfOk result (RecordEach (Q.form question.now) workers budget (all_windows recording.now)) }
{
    gp_analysis::analyse(rt, alloc, recording, question, workers, budget, gate)
}

/// As `gp_analysis::analyse_compact`.
pub fn analyse_compact<R: Threads + Wait + Sync, G: Gate + Sync, Q: Question + Sync>(
    rt: &R,
    alloc: Global,
    recording: &Recording,
    question: &Q,
    workers: u32,
    budget: u64,
    gate: &G,
) -> Result<Row<WindowRecordOf<Q::Shown>>, AllocError>
where
    Q::Encoded: Send,
    Q::Shown: Send,
    requires workers { (1 ≤ workers) × (workers ≤ 16) }
    requires budget { 1 ≤ budget }
    requires limit { asked_total (Q.form question.now) recording.now * budget ≤ 1000000 }
    ensures { IfOk result (CompactEach (Q.form question.now) workers budget (all_windows recording.now)) }
{
    gp_analysis::analyse_compact(rt, alloc, recording, question, workers, budget, gate)
}

/// As `gp_analysis::too_much`.
pub fn too_much<R: Threads + Sync, Q: Question + Sync>(
    rt: &R,
    alloc: Global,
    recording: &Recording,
    question: &Q,
    budget: u64,
) -> Result<Option<u64>, AllocError>
where
    Q::Encoded: Send,
    Q::Shown: Send,
    ensures { IfOk result (λ found. found ≡ too_much (Q.form question.now) recording.now budget) }
{
    gp_analysis::too_much(rt, alloc, recording, question, budget)
}
