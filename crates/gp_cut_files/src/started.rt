ghost use Rattle.std.specs.Prelude.{◌≡◌, ◌<◌, ◌-◌, ◌^◌, ◌++◌, ◌∷◌, ◌||◌, [], flat_map, if◌then◌else◌, IfOk, OnOk};
ghost use Rattle.gp_window.specs.Starts.{is_among};
ghost use Rattle.gp_window.specs.WindowForm.{chosen, numbers_from, started_before, started_by, started_in, started_of};

use gp_base::Row;
use gp_cut::segment_after;
use gp_trace::{Event, LocalTrace};
use gp_window::{Manifest, Recording, is_among};
use std::alloc::{AllocError, Global};

/// The threads that run behind so many windows, and those that have ended by then: the roots and all that were started.
pub(crate) fn started_behind(
    alloc: Global,
    recording: &Recording,
    before: u32,
) -> Result<Row<u32>, AllocError>
    ensures { IfOk result (λ threads. threads ≡ started_of recording.now before) }
{
    let started = started_before(alloc, recording.traces(), before)?;
    roots_and(alloc, recording.manifest(), started.as_slice())
}

/// The threads that are started in so many first segments.
fn started_before(alloc: Global, traces: &[LocalTrace], before: u32) -> Result<Row<u32>, AllocError>
    ensures { IfOk result (λ started. started ≡ started_before before traces.now) }
{
    let mut started = Row::new(alloc);
    for passed in 0..before {
        add_started(&mut started, passed, traces)?;
    }
    Ok(started)
}

/// Adds the threads that are started in the segment of each trace that has so many before it.
fn add_started(started: &mut Row<u32>, before: u32, traces: &[LocalTrace]) -> Result<(), AllocError>
    ensures { OnOk result (started.new ≡ started.old ++ started_in before traces.now) }
{
    for trace in traces {
        add_starts(started, segment_after(before as usize, trace))?;
    }
    Ok(())
}

fn add_starts(started: &mut Row<u32>, events: &[Event]) -> Result<(), AllocError>
    ensures { OnOk result (started.new ≡ started.old ++ flat_map started_by events.now) }
{
    for event in events {
        if let Event::Start(thread) = event {
            started.push(*thread)?;
        }
    }
    Ok(())
}

/// The threads that are roots or were started, rising.
fn roots_and(alloc: Global, manifest: &Manifest, started: &[u32]) -> Result<Row<u32>, AllocError>
    ensures { IfOk result (λ threads. threads ≡ chosen manifest.now.roots started.now (numbers_from 1 manifest.now.threads)) }
{
    among(alloc, manifest.threads(), manifest.roots(), started)
}

/// The threads that are among the first numbers or among the second, rising.
fn among(
    alloc: Global,
    threads: u32,
    roots: &[u32],
    started: &[u32],
) -> Result<Row<u32>, AllocError>
    requires { threads < 2 ^ 32 - 1 }
    ensures { IfOk result (λ row. row ≡ chosen roots.now started.now (numbers_from 1 threads)) }
{
    let mut row = Row::new(alloc);
    for thread in 1..threads + 1 {
        keep_thread(&mut row, thread, is_chosen(roots, started, thread))?;
    }
    Ok(row)
}

fn is_chosen(roots: &[u32], started: &[u32], thread: u32) -> bool
    ensures { result ≡ (is_among roots.now thread || is_among started.now thread) }
{
    is_among(roots, thread) || is_among(started, thread)
}

fn keep_thread(row: &mut Row<u32>, thread: u32, keep: bool) -> Result<(), AllocError>
    ensures { OnOk result (row.new ≡ row.old ++ (if keep then thread ∷ [] else [])) }
{
    if !keep {
        return Ok(());
    }
    row.push(thread)
}
