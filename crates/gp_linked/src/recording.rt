ghost use Rattle.std.specs.Prelude.{◌≡◌, ◌≤◌, IfOk, length, suc};
ghost use Rattle.gp_linked.specs.Answered.{AnswersFrom};
ghost use Rattle.gp_linked.specs.Report.{AreAnswered};

use crate::answer::{LinkAnswer, LinkReport};
use crate::drawn::links_side_by_side;
use crate::replaying::linked_windows_replay;
use gp_base::Row;
use gp_window::Recording;
use std::alloc::{AllocError, Global};
use std::thread::Threads;

/// Whether each window of a recording but the last is linked to the next, each by a search of its own with this budget. So
/// many threads, but no more than windows, draw the windows and work on them side by side.
pub fn link_recording<R: Threads + Sync>(
    rt: &R,
    alloc: Global,
    recording: &Recording,
    workers: u32,
    budget: u64,
) -> Result<LinkReport, AllocError>
    requires workers { (1 ≤ workers) × (workers ≤ 16) }
    requires budget { (1 ≤ budget) × (budget ≤ 1000000) }
    ensures { IfOk result (AreAnswered recording.now budget) }
{
    recording.keeps_rules();
    linked_windows_replay();
    let links = links_of(rt, alloc, recording, workers, budget)?;
    Ok(LinkReport {
        budget,
        links: Row::from_vec(links),
    })
}

// The answers of all windows but the last, in order.
fn links_of<R: Threads + Sync>(
    rt: &R,
    alloc: Global,
    recording: &Recording,
    workers: u32,
    budget: u64,
) -> Result<Vec<LinkAnswer>, AllocError>
    requires workers { (1 ≤ workers) × (workers ≤ 16) }
    requires budget { (1 ≤ budget) × (budget ≤ 1000000) }
    ensures count { IfOk result (λ links. suc (length links.items) ≡ recording.now.manifest.epochs) }
    ensures answers { IfOk result (λ links. AnswersFrom recording.now budget 1 links.items) }
{
    let count = recording.manifest().epochs() - 1;
    if count == 0 {
        return Ok(Vec::new(alloc));
    }
    links_side_by_side(rt, alloc, recording, count, workers.min(count), budget)
}
