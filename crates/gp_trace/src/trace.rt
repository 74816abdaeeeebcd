ghost use Rattle.std.specs.Prelude.{◌≡◌, ◌≢◌, ◌<◌, ◌≤◌, ◌+◌, ◌-◌, ◌^◌, length, Ok, Err};
ghost use Rattle.gp_trace.specs.Trace.{IsLocalTrace};
ghost use Rattle.gp_trace.specs.Walk.{after_lines, at_end, at_start, TracesFit, trace_of};

use crate::event::Event;
use crate::fault::TraceFault;
use crate::walk::{Walk, shrunk, walk_lines};
use gp_base::Row;
use gp_text::{Lines, check_text, end_line};
use std::alloc::Global;
use std::marker::Model;

/// The trace of one thread: its events in segments, one segment more than there are marks.
#[derive(Drop)]
pub struct LocalTrace {
    thread: u32,
    segments: Row<Row<Event>>,
    exit_in: Option<u32>,
}

impl Model for LocalTrace {
    ghost use Rattle.gp_trace.specs.Trace.{IsLocalTrace, LocalTraceForm};

    ghost Value = { LocalTraceForm };

    ghost view = { λ t. record { thread = t.thread; segments = t.segments; exit_in = t.exit_in } };

    ghost invariant = { λ t. IsLocalTrace (record { thread = t.thread; segments = t.segments; exit_in = t.exit_in }) };
}

impl LocalTrace {
    /// A trace of parts that are known to fit.
    pub fn new(thread: u32, segments: Row<Row<Event>>, exit_in: Option<u32>) -> LocalTrace
        requires { IsLocalTrace (record { thread = thread; segments = segments; exit_in = exit_in }) }
        ensures { result ≡ record { thread = thread; segments = segments; exit_in = exit_in } }
    {
        LocalTrace {
            thread,
            segments,
            exit_in,
        }
    }

    /// The number of the thread.
    pub fn thread(&self) -> u32
        ensures { result ≡ self.now.thread }
    {
        self.thread
    }

    /// The segments, in order.
    pub fn segments(&self) -> &[Row<Event>]
        ensures value { result.now ≡ self.now.segments }
        ensures trace { IsLocalTrace self.now }
    {
        self.segments.as_slice()
    }

    /// The number, from 1, of the segment in which the thread ended.
    pub fn exit_in(&self) -> Option<u32>
        ensures { result ≡ self.now.exit_in }
    {
        self.exit_in
    }
}

/// Reads the trace that a recorder wrote of the thread of this number, with so many marks: a line for
/// each event, in the order in which the thread did them. Format 2 has lines of shared locks, and any
/// other has none.
pub fn read_trace(
    alloc: Global,
    format: u32,
    thread: u32,
    marks: u32,
    bytes: &[u8],
) -> Result<LocalTrace, TraceFault>
    requires { length bytes.now < 2 ^ 32 - 1 }
    ensures { result ≢ Err TraceFault.Memory → result ≡ trace_of format thread marks bytes.now }
{
    check_text(bytes)?;
    let last = end_line(bytes);
    read_entries(alloc, format, thread, marks, last, Lines::of(bytes))
}

/// What a text spells is a trace of the thread, with these marks.
pub fn traces_fit()
    ensures { TracesFit }
{}

fn read_entries(
    alloc: Global,
    format: u32,
    thread: u32,
    marks: u32,
    last: u32,
    lines: Lines,
) -> Result<LocalTrace, TraceFault>
    requires { length lines < 2 ^ 32 }
    ensures { result ≢ Err TraceFault.Memory → result ≡ at_end thread marks last (after_lines format thread marks at_start lines.entry) }
{
    let Walk {
        standing: _,
        mut ended,
        segment,
        exit_in,
    } = walk_lines(alloc, format, thread, marks, lines)?;
    if ended.len() != marks as usize {
        return Err(TraceFault::MarkCount(last));
    }
    ended.push(shrunk(segment))?;
    Ok(LocalTrace {
        thread,
        segments: ended,
        exit_in,
    })
}
