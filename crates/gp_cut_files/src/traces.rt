ghost use Rattle.std.specs.Prelude.{◌≡◌, ◌<◌, ◌++◌, IfOk, OnOk, drop, take};
ghost use Rattle.gp_cut.specs.Cut.{cut_exit, cut_segments, cut_trace};
ghost use Rattle.gp_trace.specs.Trace.{IsLocalTrace};

use crate::staging::staged;
use gp_base::Row;
use gp_cut::Part;
use gp_trace::{Event, LocalTrace, standing_behind};
use std::alloc::{AllocError, Global};

/// What a thread does in the windows of a part, behind a segment that brings it where it stands by then.
pub fn cut_trace(alloc: Global, trace: &LocalTrace, part: Part) -> Result<LocalTrace, AllocError>
    requires rules { IsLocalTrace (cut_trace part.before part.count trace.now) }
    requires few { part.count < 4096 }
    ensures { IfOk result (λ cut. cut ≡ cut_trace part.before part.count trace.now) }
{
    let segments = cut_segments(alloc, trace, part)?;
    Ok(LocalTrace::new(trace.thread(), segments, cut_exit(part, trace.exit_in())))
}

fn cut_segments(
    alloc: Global,
    trace: &LocalTrace,
    part: Part,
) -> Result<Row<Row<Event>>, AllocError>
    ensures { IfOk result (λ segments. segments ≡ cut_segments part.before part.count trace.now) }
{
    let standing = standing_behind(alloc, trace, part.before as usize)?;
    let stage = staged(alloc, &standing);
    drop(standing);
    let mut segments = Row::new(alloc);
    segments.push(stage?)?;
    put_copies(alloc, &mut segments, segments_in(trace, part))?;
    Ok(segments)
}

/// The segments of the windows of a part.
fn segments_in(trace: &LocalTrace, part: Part) -> &[Row<Event>]
    ensures { result.now ≡ take part.count (drop part.before trace.now.segments) }
{
    let later = later_segments(trace, part.before as usize);
    match later.get(..part.count as usize) {
        Some(front) => front,
        None => later,
    }
}

/// The segments of a trace behind so many.
fn later_segments(trace: &LocalTrace, before: usize) -> &[Row<Event>]
    ensures { result.now ≡ drop before trace.now.segments }
{
    match trace.segments().get(before..) {
        Some(later) => later,
        None => &[],
    }
}

/// Adds a copy of each of these segments.
fn put_copies(
    alloc: Global,
    segments: &mut Row<Row<Event>>,
    more: &[Row<Event>],
) -> Result<(), AllocError>
    ensures { OnOk result (segments.new ≡ segments.old ++ more.now) }
{
    for segment in more {
        segments.push(copied_events(alloc, segment.as_slice())?)?;
    }
    Ok(())
}

fn copied_events(alloc: Global, events: &[Event]) -> Result<Row<Event>, AllocError>
    ensures { IfOk result (λ copy. copy ≡ events.now) }
{
    Ok(Row::from_vec(Vec::from_clones(alloc, events)?))
}

/// The segment in which a thread ends, where it is the stage or one of the segments of a part.
fn cut_exit(part: Part, exit_in: Option<u32>) -> Option<u32>
    requires { part.count < 4096 }
    ensures { result ≡ cut_exit part.before part.count exit_in }
{
    let segment = exit_in?;
    if segment <= part.before {
        return Some(1);
    }
    if segment - part.before <= part.count {
        return Some(segment - part.before + 1);
    }
    None
}
