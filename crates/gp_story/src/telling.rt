ghost use Rattle.std.specs.Prelude.{◌≡◌, [], IfOk};
ghost use Rattle.gp_story.specs.Lines.{line_of, lines_of};
ghost use Rattle.gp_story.specs.Parts.{story_of};
ghost use Rattle.gp_story.specs.Past.{Recalls};

use crate::folding::fold;
use crate::past::Past;
use crate::sharing::Sharing;
use crate::story::{Story, StoryLine};
use gp_base::Row;
use gp_window::{EventId, Window, contains_event};
use std::alloc::{AllocError, Global};

/// Tells a schedule of a window as a story, in which some events are marked: a line for each event of the schedule, in
/// order. An id that names no event of the window is a line that looks back at nothing.
///
/// It takes the time of the window's and the schedule's events, but for the tables of names, and looks at all marked
/// events for each event of the schedule.
pub fn tell(
    alloc: Global,
    window: &Window,
    schedule: &[EventId],
    marked: &[EventId],
) -> Result<Story, AllocError>
    ensures { IfOk result (λ story. story ≡ story_of window.now schedule.now marked.now) }
{
    let sharing = Sharing::of(alloc, window)?;
    let lines = lines_of(alloc, &sharing, schedule, marked);
    drop(sharing);
    let lines = lines?;
    let parts = fold(alloc, lines.as_slice())?;
    Ok(Story { parts })
}

fn lines_of(
    alloc: Global,
    sharing: &Sharing,
    schedule: &[EventId],
    marked: &[EventId],
) -> Result<Row<StoryLine>, AllocError>
    ensures { IfOk result (λ lines. lines ≡ lines_of sharing.now schedule.now marked.now) }
{
    let mut past = Past::new(alloc);
    let lines = lines_along(alloc, sharing, schedule, marked, &mut past);
    drop(past);
    lines
}

/// The same lines, where `past` keeps what is looked back at.
fn lines_along(
    alloc: Global,
    sharing: &Sharing,
    schedule: &[EventId],
    marked: &[EventId],
    past: &mut Past,
) -> Result<Row<StoryLine>, AllocError>
    requires { Recalls sharing.now [] past.old }
    ensures { IfOk result (λ lines. lines ≡ lines_of sharing.now schedule.now marked.now) }
{
    let mut lines = Row::new(alloc);
    for (place, id) in schedule.iter().enumerate() {
        let line = line_of(sharing, past, marked, &schedule[..place], *id);
        lines.push(line)?;
        past.add(sharing.window(), *id)?;
    }
    Ok(lines)
}

/// The line of an event, where what is kept of the events before it is given.
fn line_of(
    sharing: &Sharing,
    past: &Past,
    marked: &[EventId],
    before: &[EventId],
    id: EventId,
) -> StoryLine
    requires { Recalls sharing.now before.now past.now }
    ensures { result ≡ line_of sharing.now marked.now before.now id }
{
    let window = sharing.window();
    StoryLine {
        place: before.len() as u64,
        event: id,
        source: past.source(window, id),
        started_by: past.starter(window, id),
        is_marked: contains_event(marked, id),
        is_shared: sharing.shares(id),
    }
}
