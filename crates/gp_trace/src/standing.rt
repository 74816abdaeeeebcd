ghost use Rattle.std.specs.Prelude.{◌≡◌, IfOk, take};
ghost use Rattle.gp_trace.specs.Rules.{after_all, at_first};
ghost use Rattle.gp_trace.specs.Trace.{in_order};

use crate::event::Event;
use crate::rules::{Standing, after};
use crate::trace::LocalTrace;
use gp_base::Row;
use std::alloc::{AllocError, Global};

/// Where the thread of a trace stands behind so many of its segments; behind all of them, where it has no more.
pub fn standing_behind(
    alloc: Global,
    trace: &LocalTrace,
    before: usize,
) -> Result<Standing, AllocError>
    ensures { IfOk result (λ standing. standing ≡ after_all at_first (in_order (take before trace.now.segments))) }
{
    after_segments(Standing::at_first(alloc), first_segments(trace, before))
}

fn first_segments(trace: &LocalTrace, count: usize) -> &[Row<Event>]
    ensures { result.now ≡ take count trace.now.segments }
{
    let segments = trace.segments();
    match segments.get(..count) {
        Some(front) => front,
        None => segments,
    }
}

fn after_segments(standing: Standing, segments: &[Row<Event>]) -> Result<Standing, AllocError>
    ensures { IfOk result (λ next. next ≡ after_all standing (in_order segments.now)) }
{
    let mut standing = standing;
    for segment in segments {
        standing = after_events(standing, segment.as_slice())?;
    }
    Ok(standing)
}

fn after_events(standing: Standing, events: &[Event]) -> Result<Standing, AllocError>
    ensures { IfOk result (λ next. next ≡ after_all standing events.now) }
{
    let mut standing = standing;
    for event in events {
        standing = after(standing, event)?;
    }
    Ok(standing)
}
