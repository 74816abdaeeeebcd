ghost use Rattle.std.specs.Prelude.{◌≡◌, IfOk, option_copied};
ghost use Rattle.gp_drawing.specs.Rows.{event_of, row_of, rows_of, span_of, thread_of};

use crate::drawing::{DrawnRow, Span};
use gp_base::Row;
use gp_story::{Part, StoryLine};
use gp_window::EventId;
use std::alloc::{AllocError, Global};

/// The rows of parts, one for each.
pub fn rows_of(alloc: Global, parts: &[Part]) -> Result<Row<DrawnRow>, AllocError>
    ensures { IfOk result (λ rows. rows ≡ rows_of parts.now) }
{
    let mut rows = Row::new(alloc);
    for part in parts {
        rows.push(row_of(part))?;
    }
    Ok(rows)
}

fn row_of(part: &Part) -> DrawnRow
    ensures { result ≡ row_of part.now }
{
    match part {
        Part::Single(line) => DrawnRow::One(line.event, line.is_marked),
        Part::Run(lines) => DrawnRow::Several(span_of(lines.as_slice())),
    }
}

fn span_of(lines: &[StoryLine]) -> Span
    ensures { result ≡ span_of lines.now }
{
    Span {
        events: lines.len() as u64,
        first: event_of(lines.first()),
        last: event_of(lines.last()),
    }
}

fn event_of(line: Option<&StoryLine>) -> EventId
    ensures { result ≡ event_of (option_copied line.entry) }
{
    match line {
        Some(line) => line.event,
        None => EventId {
            thread: 0,
            index: 0,
        },
    }
}

/// The thread in whose lane a row stands.
pub fn thread_of(row: &DrawnRow) -> u32
    ensures { result ≡ thread_of row.now }
{
    match row {
        DrawnRow::One(event, _) => event.thread,
        DrawnRow::Several(span) => span.first.thread,
    }
}
