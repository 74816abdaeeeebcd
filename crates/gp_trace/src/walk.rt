ghost use Rattle.std.specs.Prelude.{◌≡◌, ◌≢◌, ◌<◌, ◌≤◌, ◌+◌, ◌-◌, ◌^◌, length, Ok, Err, IfOk};
ghost use Rattle.gp_trace.specs.Walk.{after_exit, after_lines, at_exit, at_mark, at_start, before_exit, next, with_event};
ghost use Rattle.gp_trace.specs.Rules.{check};

use crate::event::Event;
use crate::fault::TraceFault;
use crate::line::{Entry, entry_of};
use crate::rules::{Standing, after, check};
use gp_base::Row;
use gp_text::{Lines, TextLine};
use std::alloc::{AllocError, Global};

/// What was read of a trace: where the thread stands, the segments that have ended, the segment that
/// goes on, and the number of the segment with the `exit`.
#[derive(Drop)]
pub struct Walk {
    pub standing: Standing,
    pub ended: Row<Row<Event>>,
    pub segment: Row<Event>,
    pub exit_in: Option<u32>,
}

/// Reads the lines up to the first that breaks a rule.
pub fn walk_lines(
    alloc: Global,
    format: u32,
    thread: u32,
    marks: u32,
    lines: Lines,
) -> Result<Walk, TraceFault>
    requires { length lines < 2 ^ 32 }
    ensures { result ≢ Err TraceFault.Memory → result ≡ after_lines format thread marks at_start lines.entry }
{
    let mut lines = lines;
    let mut walk = at_start(alloc);
    while let Some(line) = lines.next() {
        walk = next(alloc, format, thread, marks, walk, line)?;
    }
    Ok(walk)
}

fn at_start(alloc: Global) -> Walk
    ensures { result ≡ at_start }
{
    Walk {
        standing: Standing::at_first(alloc),
        ended: Row::new(alloc),
        segment: Row::new(alloc),
        exit_in: None,
    }
}

fn next(
    alloc: Global,
    format: u32,
    thread: u32,
    marks: u32,
    walk: Walk,
    line: TextLine,
) -> Result<Walk, TraceFault>
    requires { length walk.ended < 2 ^ 32 - 1 }
    ensures next { result ≢ Err TraceFault.Memory → result ≡ next format thread marks walk (record { number = line.entry.number; words = line.entry.words }) }
    ensures ended { IfOk result (λ after. length after.ended ≤ length walk.ended + 1) }
{
    let TextLine { number, words } = line;
    let entry = entry_of(alloc, format, words)?;
    if walk.exit_in.is_some() {
        after_exit(alloc, marks, number, walk, entry)
    } else {
        before_exit(alloc, thread, marks, number, walk, entry)
    }
}

fn after_exit(
    alloc: Global,
    marks: u32,
    line: u32,
    walk: Walk,
    entry: Option<Entry>,
) -> Result<Walk, TraceFault>
    ensures next { result ≢ Err TraceFault.Memory → result ≡ after_exit marks line walk entry }
    ensures ended { IfOk result (λ after. length after.ended ≤ length walk.ended + 1) }
{
    match entry {
        Some(Entry::Mark) => at_mark(alloc, marks, line, walk),
        Some(Entry::Did(_) | Entry::Exit) | None => Err(TraceFault::AfterExit(line)),
    }
}

fn before_exit(
    alloc: Global,
    thread: u32,
    marks: u32,
    line: u32,
    walk: Walk,
    entry: Option<Entry>,
) -> Result<Walk, TraceFault>
    requires { length walk.ended < 2 ^ 32 - 1 }
    ensures next { result ≢ Err TraceFault.Memory → result ≡ before_exit thread marks line walk entry }
    ensures ended { IfOk result (λ after. length after.ended ≤ length walk.ended + 1) }
{
    match entry {
        Some(Entry::Did(event)) => with_event(thread, line, walk, event),
        Some(Entry::Mark) => at_mark(alloc, marks, line, walk),
        Some(Entry::Exit) => Ok(at_exit(walk)),
        None => Err(TraceFault::BadWord(line)),
    }
}

fn with_event(thread: u32, line: u32, walk: Walk, event: Event) -> Result<Walk, TraceFault>
    ensures next { result ≢ Err TraceFault.Memory → result ≡ with_event walk event (check thread line walk.standing event) }
    ensures ended { IfOk result (λ after. after.ended ≡ walk.ended) }
{
    match check(thread, line, &walk.standing, &event) {
        Ok(()) => Ok(after_event(walk, event)?),
        Err(fault) => {
            drop((walk, event));
            Err(fault)
        }
    }
}

// The walk behind an event that the thread may do.
fn after_event(walk: Walk, event: Event) -> Result<Walk, AllocError>
    ensures { IfOk result (λ next. Ok next ≡ with_event walk event (Ok tt)) }
{
    let Walk {
        standing,
        ended,
        mut segment,
        exit_in,
    } = walk;
    let followed = after(standing, &event);
    let added = segment.push(event);
    match (followed, added) {
        (Ok(standing), Ok(())) => Ok(Walk {
            standing,
            ended,
            segment,
            exit_in,
        }),
        _ => {
            drop((ended, segment));
            Err(AllocError)
        }
    }
}

fn at_mark(alloc: Global, marks: u32, line: u32, walk: Walk) -> Result<Walk, TraceFault>
    ensures next { result ≢ Err TraceFault.Memory → result ≡ at_mark marks line walk }
    ensures ended { IfOk result (λ after. length after.ended ≤ length walk.ended + 1) }
{
    let Walk {
        standing,
        mut ended,
        segment,
        exit_in,
    } = walk;
    if ended.len() == marks as usize {
        drop((standing, ended, segment));
        return Err(TraceFault::MarkCount(line));
    }
    match ended.push(shrunk(segment)) {
        Ok(()) => Ok(Walk {
            standing,
            ended,
            segment: Row::new(alloc),
            exit_in,
        }),
        Err(error) => {
            drop((standing, ended));
            Err(TraceFault::from(error))
        }
    }
}

/// The same events, with no room left over.
pub fn shrunk(segment: Row<Event>) -> Row<Event>
    ensures { result ≡ segment }
{
    let mut events = segment.into_vec();
    events.shrink_to_fit();
    Row::from_vec(events)
}

fn at_exit(mut walk: Walk) -> Walk
    requires { length walk.ended < 2 ^ 32 - 1 }
    ensures { result ≡ at_exit walk }
{
    walk.exit_in = Some(walk.ended.len() as u32 + 1);
    walk
}
