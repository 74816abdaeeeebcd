ghost use Rattle.std.specs.Prelude.{◌≡◌, ◌≤◌, All, IfOk, length};
ghost use Rattle.gp_tickets.specs.Tickets.{IsUnused};
ghost use Rattle.gp_window.specs.Windows.{all_windows};
ghost use Rattle.gp_analysis.specs.Drawn.{RecordsDrawn};
ghost use Rattle.gp_analysis.specs.Recorded.{CanBeAnalysed};
ghost use Rattle.gp_analysis.specs.Telling.{RecordEachAs};

use crate::drawn::{gather, record_drawn};
use crate::question::Question;
use crate::task::Instructions;
use gp_outside::Gate;
use gp_report::WindowRecordOf;
use gp_tickets::{Drawer, Drawn, Tickets};
use gp_window::Recording;
use std::alloc::{AllocError, Global};
use std::sync::Wait;
use std::thread;
use std::thread::Threads;

// What is recorded of all windows, in order: as many threads as there are workers draw them side by side.
pub(crate) fn recorded_side_by_side<R: Threads + Wait + Sync, G: Gate + Sync, Q: Question + Sync>(
    rt: &R,
    alloc: Global,
    recording: &Recording,
    task: &Instructions<'_, Q, G>,
) -> Result<Vec<WindowRecordOf<Q::Shown>>, AllocError>
where
    Q::Encoded: Send,
    Q::Shown: Send,
    requires can { CanBeAnalysed (Q.form task.now.question.now) recording.now task.now.workers task.now.budget }
    requires enough { task.now.workers ≤ recording.now.manifest.epochs }
    ensures { IfOk result (λ records.
        RecordEachAs (Q.form task.now.question.now) task.now.telling task.now.workers task.now.budget (all_windows recording.now) records.items) }
{
    let epochs = recording.manifest().epochs();
    let (tickets, drawers) = Tickets::new(alloc, u64::from(epochs), task.workers)?;
    let parts = recorded_by_each(rt, alloc, recording, task, &tickets, drawers)?;
    let records = gather(recording, task, &tickets, parts)?.in_order(alloc)?;
    Ok(records)
}

// What is recorded of the windows that each of these drawers draws. One alone draws in the calling thread.
fn recorded_by_each<R: Threads + Wait + Sync, G: Gate + Sync, Q: Question + Sync>(
    rt: &R,
    alloc: Global,
    recording: &Recording,
    task: &Instructions<'_, Q, G>,
    tickets: &Tickets,
    drawers: Vec<Drawer>,
) -> Result<Vec<Result<Drawn<WindowRecordOf<Q::Shown>>, AllocError>>, AllocError>
where
    Q::Encoded: Send,
    Q::Shown: Send,
    requires can { CanBeAnalysed (Q.form task.now.question.now) recording.now task.now.workers task.now.budget }
    requires count { tickets.now.count ≡ recording.now.manifest.epochs }
    requires drawers { All (IsUnused tickets.now) drawers.items }
    ensures len { IfOk result (λ parts. length parts.items ≡ length drawers.items) }
    ensures drawn { IfOk result (λ parts. All (λ part. IfOk part (RecordsDrawn (Q.form task.now.question.now) task.now.telling tickets.now recording.now task.now.workers task.now.budget 1)) parts.items) }
{
    thread::map_vec(
        rt,
        drawers,
        &|drawer: Drawer| -> Result<Drawn<WindowRecordOf<Q::Shown>>, AllocError>
            requires { CanBeAnalysed (Q.form task.now.question.now) recording.now task.now.workers task.now.budget × (tickets.now.count ≡ recording.now.manifest.epochs) × IsUnused tickets.now drawer }
            ensures { IfOk result (RecordsDrawn (Q.form task.entry.now.question.now) task.entry.now.telling tickets.entry.now recording.entry.now task.entry.now.workers task.entry.now.budget 1) }
        { record_drawn(rt, alloc, recording, task, tickets, drawer) },
    )
}
