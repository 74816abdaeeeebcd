use gp_base::Row;
use gp_window::EventId;

/// What an event of a schedule looks back at: a read at the write whose value it finds, who takes a lock at who gave it
/// back, a join at the end of its thread.
#[derive(Clone, Copy, PartialEq, Eq)]
pub enum Source {
    /// At nothing: the event is none of these.
    Nothing,
    /// At what holds when the window begins.
    Beginning,
    /// At this earlier event of the schedule.
    Earlier(EventId),
}

/// An event of a schedule, with what there is to say of it.
#[derive(Clone, Copy)]
pub struct StoryLine {
    /// The place of the event in the schedule, from 0.
    pub place: u64,
    pub event: EventId,
    pub source: Source,
    /// The earlier event that starts the thread, where this event is the first of its thread in the window.
    pub started_by: Option<EventId>,
    /// Whether the event is one of the instance's.
    pub is_marked: bool,
    /// Whether other threads have to do with what the event does: it starts or joins one, or uses what another one uses.
    pub is_shared: bool,
}

/// A part of a story.
#[derive(Drop)]
pub enum Part {
    /// One line.
    Single(StoryLine),
    /// Two or more neighbouring lines of one thread, none of which is marked or shared or begins a thread that was
    /// started.
    Run(Row<StoryLine>),
}

/// A schedule as a story.
#[derive(Drop)]
pub struct Story {
    pub parts: Row<Part>,
}
