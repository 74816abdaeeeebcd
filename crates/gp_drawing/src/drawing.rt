use gp_base::Row;
use gp_text::Name;
use gp_trace::LockMode;
use gp_window::EventId;

/// A story as a picture, with rows by number, from 0.
#[derive(Drop)]
pub struct Drawing {
    /// A row for each part of the story.
    pub rows: Row<DrawnRow>,
    pub bars: Row<Bar>,
    pub arrows: Row<Arrow>,
}

/// What a row tells.
#[derive(Clone, Copy)]
pub enum DrawnRow {
    /// One event, and whether it is one of the instance's.
    One(EventId, bool),
    /// A run of events of one thread.
    Several(Span),
}

/// A run: how many events it has, and its ends.
#[derive(Clone, Copy)]
pub struct Span {
    pub events: u64,
    pub first: EventId,
    pub last: EventId,
}

/// A lock that a thread holds.
#[derive(Clone, Copy)]
pub struct Bar {
    pub thread: u32,
    pub lock: Name,
    pub mode: LockMode,
    /// The row at which the thread takes the lock, where it does not hold it when the window begins.
    pub from: Option<u32>,
    /// The row at which the thread gives the lock back, where it does.
    pub to: Option<u32>,
}

/// From the row of an event to that of a later one.
#[derive(Clone, Copy)]
pub struct Arrow {
    pub from: u32,
    pub to: u32,
    pub kind: ArrowKind,
}

/// What the later event of an arrow has from the earlier one.
#[derive(Clone, Copy, PartialEq, Eq)]
pub enum ArrowKind {
    /// The value that it reads.
    Read,
    /// The lock that it takes.
    Lock,
    /// The end of the thread that it joins.
    Join,
    /// The start of its thread.
    Start,
}
