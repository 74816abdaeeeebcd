ghost use Rattle.std.specs.Prelude.{◌≡◌, ◌*◌, ◌≤◌, IfOk};
ghost use Rattle.std.specs.List.{AllByRecursion};
ghost use Rattle.gp_analysis.specs.Recorded.{CanBeAnalysed, CanBeAnswered, CompactEach, RecordEach};
ghost use Rattle.gp_analysis.specs.Runs.{IsRun, run_windows};
ghost use Rattle.gp_analysis.specs.Telling.{RecordEachAs};
ghost use Rattle.gp_analysis.specs.Tickets.{asked_total};
ghost use Rattle.gp_window.specs.Windows.{all_windows};

use crate::question::Question;
use crate::runs::Run;
use crate::side_by_side::recorded_side_by_side;
use crate::task::{Instructions, Order, Telling};
use crate::window::window_record;
use gp_base::Row;
use gp_outside::Gate;
use gp_report::WindowRecordOf;
use gp_window::{Recording, Windows};
use std::alloc::{AllocError, Global};
use std::sync::Wait;
use std::thread::Threads;

// So many windows for each worker are many: then whole windows are worked side by side, and the workers of each in turn.
const MANY_WINDOWS: u32 = 4;

/// Answers each ask of a question in each window of a recording, window by window, by so many workers, each of which passes
/// the gate before each of its own. Where no thread can be made, they run one after another. Two or more that work on one
/// window pass each other what they learn, and one may wait there for another.
pub fn analyse<R: Threads + Wait + Sync, G: Gate + Sync, Q: Question + Sync>(
    rt: &R,
    alloc: Global,
    recording: &Recording,
    question: &Q,
    workers: u32,
    budget: u64,
    gate: &G,
) -> Result<Row<WindowRecordOf<Q::Shown>>, AllocError>
where
    Q::Encoded: Send,
    Q::Shown: Send,
    requires workers { (1 ≤ workers) × (workers ≤ 16) }
    requires budget { 1 ≤ budget }
    requires limit { asked_total (Q.form question.now) recording.now * budget ≤ 1000000 }
    ensures { IfOk result (RecordEach (Q.form question.now) workers budget (all_windows recording.now)) }
{
    let task = Instructions {
        question,
        workers,
        budget,
        gate,
        telling: Telling::Whole,
    };
    let records = recorded_windows(rt, alloc, recording, &task)?;
    Ok(Row::from_vec(records))
}

/// As `analyse`, with each window told in the compact form: the steps of its certificates that rest on its constraints alone stand
/// once, in its shared steps. A window gets this form when it is answered, and of the certificates of its refutations one at a
/// time is in memory whole.
pub fn analyse_compact<R: Threads + Wait + Sync, G: Gate + Sync, Q: Question + Sync>(
    rt: &R,
    alloc: Global,
    recording: &Recording,
    question: &Q,
    workers: u32,
    budget: u64,
    gate: &G,
) -> Result<Row<WindowRecordOf<Q::Shown>>, AllocError>
where
    Q::Encoded: Send,
    Q::Shown: Send,
    requires workers { (1 ≤ workers) × (workers ≤ 16) }
    requires budget { 1 ≤ budget }
    requires limit { asked_total (Q.form question.now) recording.now * budget ≤ 1000000 }
    ensures { IfOk result (CompactEach (Q.form question.now) workers budget (all_windows recording.now)) }
{
    let task = Instructions {
        question,
        workers,
        budget,
        gate,
        telling: Telling::Compact,
    };
    let records = recorded_windows(rt, alloc, recording, &task)?;
    Ok(Row::from_vec(records))
}

// What is recorded of all windows, in order.
fn recorded_windows<R: Threads + Wait + Sync, G: Gate + Sync, Q: Question + Sync>(
    rt: &R,
    alloc: Global,
    recording: &Recording,
    task: &Instructions<'_, Q, G>,
) -> Result<Vec<WindowRecordOf<Q::Shown>>, AllocError>
where
    Q::Encoded: Send,
    Q::Shown: Send,
    requires { CanBeAnalysed (Q.form task.now.question.now) recording.now task.now.workers task.now.budget }
    ensures { IfOk result (λ records.
        RecordEachAs (Q.form task.now.question.now) task.now.telling task.now.workers task.now.budget (all_windows recording.now) records.items) }
{
    let epochs = recording.manifest().epochs();
    if epochs < MANY_WINDOWS * task.workers {
        let all = Run {
            first: 1,
            count: epochs,
        };
        return recorded_run(rt, alloc, recording, all, task);
    }
    recorded_side_by_side(rt, alloc, recording, task)
}

// What is recorded of the windows of a run, in order. The workers of each work side by side.
fn recorded_run<R: Threads + Wait + Sync, G: Gate + Sync, Q: Question>(
    rt: &R,
    alloc: Global,
    recording: &Recording,
    run: Run,
    task: &Instructions<'_, Q, G>,
) -> Result<Vec<WindowRecordOf<Q::Shown>>, AllocError>
    requires can { CanBeAnalysed (Q.form task.now.question.now) recording.now task.now.workers task.now.budget }
    requires run { IsRun recording.now.manifest.epochs run }
    ensures { IfOk result (λ records.
        RecordEachAs (Q.form task.now.question.now) task.now.telling task.now.workers task.now.budget (run_windows recording.now run) records.items) }
{
    let mut windows = Windows::from(alloc, recording, run.first, run.count)?;
    let records = recorded_left(rt, alloc, &mut windows, task);
    drop(windows);
    records
}

// What is recorded of the windows that are still to come, in order.
fn recorded_left<R: Threads + Wait + Sync, G: Gate + Sync, Q: Question>(
    rt: &R,
    alloc: Global,
    windows: &mut Windows<'_>,
    task: &Instructions<'_, Q, G>,
) -> Result<Vec<WindowRecordOf<Q::Shown>>, AllocError>
    requires workers { (1 ≤ task.now.workers) × (task.now.workers ≤ 16) }
    requires can { AllByRecursion (CanBeAnswered (Q.form task.now.question.now) task.now.budget) windows.old }
    ensures { IfOk result (λ records.
        RecordEachAs (Q.form task.now.question.now) task.now.telling task.now.workers task.now.budget windows.old records.items) }
{
    let mut records = Vec::new(alloc);
    while let Some(window) = windows.next(alloc)? {
        let (own, next) = window_record(rt, alloc, window, task, Order::SideBySide)?;
        drop(next);
        records.push(own)?;
    }
    Ok(records)
}
