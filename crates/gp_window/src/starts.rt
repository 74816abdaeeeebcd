ghost use Rattle.std.specs.Prelude.{◌≡◌, ◌≢◌, Ok, Err, IfErr, OnOk};
ghost use Rattle.gp_window.specs.RecordingFaults.{IsDue};
ghost use Rattle.gp_window.specs.Starts.{after_event, after_events, after_segments, after_start, after_traces, is_among, is_thread};

use crate::fault::RecordingFault;
use gp_base::Row;
use gp_trace::{Event, LocalTrace};

/// Walks over the starts and joins of the traces, by thread and by event, and adds to `started` the
/// threads that are started.
pub fn walk_traces(
    threads: u32,
    roots: &[u32],
    started: &mut Row<u32>,
    traces: &[LocalTrace],
) -> Result<(), RecordingFault>
    ensures ok { OnOk result (after_traces threads roots.now started.old traces.now ≡ Ok started.new) }
    ensures err { IfErr result (IsDue (after_traces threads roots.now started.old traces.now)) }
    ensures no_fault { result ≢ Err RecordingFault.ReadFailed }
{
    for trace in traces {
        walk_segments(threads, roots, started, trace.segments())?;
    }
    Ok(())
}

fn walk_segments(
    threads: u32,
    roots: &[u32],
    started: &mut Row<u32>,
    segments: &[Row<Event>],
) -> Result<(), RecordingFault>
    ensures ok { OnOk result (after_segments threads roots.now started.old segments.now ≡ Ok started.new) }
    ensures err { IfErr result (IsDue (after_segments threads roots.now started.old segments.now)) }
    ensures no_fault { result ≢ Err RecordingFault.ReadFailed }
{
    for segment in segments {
        walk_events(threads, roots, started, segment.as_slice())?;
    }
    Ok(())
}

fn walk_events(
    threads: u32,
    roots: &[u32],
    started: &mut Row<u32>,
    events: &[Event],
) -> Result<(), RecordingFault>
    ensures ok { OnOk result (after_events threads roots.now started.old events.now ≡ Ok started.new) }
    ensures err { IfErr result (IsDue (after_events threads roots.now started.old events.now)) }
    ensures no_fault { result ≢ Err RecordingFault.ReadFailed }
{
    for event in events {
        walk_event(threads, roots, started, event)?;
    }
    Ok(())
}

fn walk_event(
    threads: u32,
    roots: &[u32],
    started: &mut Row<u32>,
    event: &Event,
) -> Result<(), RecordingFault>
    ensures ok { OnOk result (after_event threads roots.now started.old event.now ≡ Ok started.new) }
    ensures err { IfErr result (IsDue (after_event threads roots.now started.old event.now)) }
    ensures no_fault { result ≢ Err RecordingFault.ReadFailed }
{
    match event {
        Event::Start(thread) => start(threads, roots, started, *thread),
        Event::Join(thread) if !is_thread(threads, *thread) => {
            Err(RecordingFault::UnknownThread(*thread))
        }
        _ => Ok(()),
    }
}

fn start(
    threads: u32,
    roots: &[u32],
    started: &mut Row<u32>,
    thread: u32,
) -> Result<(), RecordingFault>
    ensures ok { OnOk result (after_start threads roots.now started.old thread ≡ Ok started.new) }
    ensures err { IfErr result (IsDue (after_start threads roots.now started.old thread)) }
    ensures no_fault { result ≢ Err RecordingFault.ReadFailed }
{
    if !is_thread(threads, thread) {
        return Err(RecordingFault::UnknownThread(thread));
    }
    if is_among(roots, thread) {
        return Err(RecordingFault::StartsRoot(thread));
    }
    if is_among(started.as_slice(), thread) {
        return Err(RecordingFault::TwoStarts(thread));
    }
    started.push(thread)?;
    Ok(())
}

fn is_thread(threads: u32, thread: u32) -> bool
    ensures { result ≡ is_thread threads thread }
{
    1 <= thread && thread <= threads
}

/// Whether a thread is one of these.
pub fn is_among(threads: &[u32], thread: u32) -> bool
    ensures { result ≡ is_among threads.now thread }
{
    threads.iter().any(|other| *other == thread)
}
