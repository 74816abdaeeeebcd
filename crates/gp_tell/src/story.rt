ghost use Rattle.std.specs.Prelude.{◌≡◌, ◌+◌, ◌-◌, ◌++◌, ◌∷◌, [], Some, None, OnOk, codes, decimal, length, slice_get};
ghost use Rattle.std.specs.List.{flat_map};
ghost use Rattle.gp_text.specs.Spelling.{after_words, spelling};
ghost use Rattle.gp_place.specs.Places.{behind};
ghost use Rattle.gp_window.specs.EventIds.{event_id_text};
ghost use Rattle.gp_window.specs.Events.{event_at};
ghost use Rattle.gp_tell.specs.StoryText.{awaited_words, mark_words, part_lines, remark_words, run_between, run_line, seen_words, single_line, source_words, starter_words, story_lines, told_words};

use crate::event::put_event;
use crate::line::{end_line, put_number};
use gp_place::{Places, put_behind};
use gp_story::{Part, Source, Story, StoryLine};
use gp_trace::Event;
use gp_window::{EventId, Window};
use gp_writer::{put_word, put_words};
use std::alloc::AllocError;

/// Puts a story of a window: a line for each part. The place of an event ends its line.
pub fn put_story(
    text: &mut Vec<u8>,
    window: &Window,
    places: &Places,
    story: &Story,
) -> Result<(), AllocError>
    ensures { OnOk result (text.new.items ≡ text.old.items ++ spelling (story_lines (behind places.now window.now.number) window.now story.now)) }
{
    put_parts(text, window, places, story.parts.as_slice())
}

fn put_parts(
    text: &mut Vec<u8>,
    window: &Window,
    places: &Places,
    parts: &[Part],
) -> Result<(), AllocError>
    ensures { OnOk result (text.new.items ≡ text.old.items ++ spelling (flat_map (part_lines (behind places.now window.now.number) window.now) parts.now)) }
{
    for part in parts {
        put_part(text, window, places, part)?;
    }
    Ok(())
}

fn put_part(
    text: &mut Vec<u8>,
    window: &Window,
    places: &Places,
    part: &Part,
) -> Result<(), AllocError>
    ensures { OnOk result (text.new.items ≡ text.old.items ++ spelling (part_lines (behind places.now window.now.number) window.now part.now)) }
{
    match part {
        Part::Single(line) => put_single(text, window, places, line),
        Part::Run(lines) => put_run(text, lines.as_slice()),
    }
}

fn put_single(
    text: &mut Vec<u8>,
    window: &Window,
    places: &Places,
    line: &StoryLine,
) -> Result<(), AllocError>
    ensures { OnOk result (text.new.items ≡ text.old.items ++ spelling (single_line (behind places.now window.now.number) window.now line.now ∷ [])) }
{
    put_number(text, line.place)?;
    put_event_told(text, window, places, line)?;
    end_line(text)
}

fn put_event_told(
    text: &mut Vec<u8>,
    window: &Window,
    places: &Places,
    line: &StoryLine,
) -> Result<(), AllocError>
    ensures { OnOk result (text.new.items ≡ text.old.items ++ after_words (event_id_text line.now.event ∷ (told_words (event_at window.now line.now.event) line.now ++ behind places.now window.now.number line.now.event))) }
{
    put_words(text, &[line.event])?;
    put_placed(text, window, places, line)
}

#[tactic(auto, using(crate::proofs::Told::two_put))]
fn put_placed(
    text: &mut Vec<u8>,
    window: &Window,
    places: &Places,
    line: &StoryLine,
) -> Result<(), AllocError>
    ensures { OnOk result (text.new.items ≡ text.old.items ++ after_words (told_words (event_at window.now line.now.event) line.now ++ behind places.now window.now.number line.now.event)) }
{
    put_told(text, window, line)?;
    put_behind(text, places, window.number(), line.event)
}

fn put_told(text: &mut Vec<u8>, window: &Window, line: &StoryLine) -> Result<(), AllocError>
    ensures { OnOk result (text.new.items ≡ text.old.items ++ after_words (told_words (event_at window.now line.now.event) line.now)) }
{
    match window.event(line.event) {
        Some(event) => put_known(text, event, line),
        None => put_unknown(text, line),
    }
}

#[tactic(auto, using(crate::proofs::Told::three_put))]
fn put_known(text: &mut Vec<u8>, event: &Event, line: &StoryLine) -> Result<(), AllocError>
    ensures { OnOk result (text.new.items ≡ text.old.items ++ after_words (told_words (Some event.now) line.now)) }
{
    put_event(text, event)?;
    put_source(text, event, line.source)?;
    put_remarks(text, line)
}

fn put_unknown(text: &mut Vec<u8>, line: &StoryLine) -> Result<(), AllocError>
    ensures { OnOk result (text.new.items ≡ text.old.items ++ after_words (told_words None line.now)) }
{
    put_word(text, b"no event")?;
    put_remarks(text, line)
}

fn put_source(text: &mut Vec<u8>, event: &Event, source: Source) -> Result<(), AllocError>
    ensures { OnOk result (text.new.items ≡ text.old.items ++ after_words (source_words event.now source)) }
{
    match event {
        Event::Read(_, _) => put_seen(text, source),
        _ => put_awaited(text, source),
    }
}

fn put_seen(text: &mut Vec<u8>, source: Source) -> Result<(), AllocError>
    ensures { OnOk result (text.new.items ≡ text.old.items ++ after_words (seen_words source)) }
{
    match source {
        Source::Nothing => Ok(()),
        Source::Beginning => put_word(text, b"sees the beginning"),
        Source::Earlier(id) => put_reference(text, b"sees", id),
    }
}

fn put_awaited(text: &mut Vec<u8>, source: Source) -> Result<(), AllocError>
    ensures { OnOk result (text.new.items ≡ text.old.items ++ after_words (awaited_words source)) }
{
    match source {
        Source::Nothing => Ok(()),
        Source::Beginning => Ok(()),
        Source::Earlier(id) => put_reference(text, b"after", id),
    }
}

fn put_remarks(text: &mut Vec<u8>, line: &StoryLine) -> Result<(), AllocError>
    ensures { OnOk result (text.new.items ≡ text.old.items ++ after_words (remark_words line.now)) }
{
    put_starter(text, line.started_by)?;
    put_mark(text, line.is_marked)
}

fn put_starter(text: &mut Vec<u8>, started_by: Option<EventId>) -> Result<(), AllocError>
    ensures { OnOk result (text.new.items ≡ text.old.items ++ after_words (starter_words started_by)) }
{
    match started_by {
        Some(id) => put_reference(text, b"started by", id),
        None => Ok(()),
    }
}

fn put_mark(text: &mut Vec<u8>, is_marked: bool) -> Result<(), AllocError>
    ensures { OnOk result (text.new.items ≡ text.old.items ++ after_words (mark_words is_marked)) }
{
    if is_marked {
        return put_word(text, b"<- instance");
    }
    Ok(())
}

/// Puts a phrase and the event that it speaks of.
fn put_reference(text: &mut Vec<u8>, says: &[u8], id: EventId) -> Result<(), AllocError>
    ensures { OnOk result (text.new.items ≡ text.old.items ++ after_words (says.now ∷ event_id_text id ∷ [])) }
{
    put_word(text, says)?;
    put_words(text, &[id])
}

fn put_run(text: &mut Vec<u8>, lines: &[StoryLine]) -> Result<(), AllocError>
    ensures { OnOk result (text.new.items ≡ text.old.items ++ spelling (run_between (slice_get lines.now 0) (slice_get lines.now (length lines.now - 1)) (length lines.now))) }
{
    let Some(first) = lines.first() else {
        return Ok(());
    };
    let Some(last) = lines.last() else {
        return Ok(());
    };
    put_run_line(text, first, last, lines.len() as u64)
}

fn put_run_line(
    text: &mut Vec<u8>,
    first: &StoryLine,
    last: &StoryLine,
    count: u64,
) -> Result<(), AllocError>
    ensures { OnOk result (text.new.items ≡ text.old.items ++ spelling (run_line first.now last.now count ∷ [])) }
{
    put_number(text, first.place)?;
    put_last_place(text, last.place)?;
    put_events(text, first.event, last.event)?;
    put_count(text, count)?;
    end_line(text)
}

fn put_last_place(text: &mut Vec<u8>, place: u64) -> Result<(), AllocError>
    ensures { OnOk result (text.new.items ≡ text.old.items ++ after_words (codes "to" ∷ decimal (place + 1) ∷ [])) }
{
    text.extend_from_slice(b" to ")?;
    put_number(text, place)
}

fn put_events(text: &mut Vec<u8>, first: EventId, last: EventId) -> Result<(), AllocError>
    ensures { OnOk result (text.new.items ≡ text.old.items ++ after_words (event_id_text first ∷ codes "to" ∷ (event_id_text last ++ codes ",") ∷ [])) }
{
    put_words(text, &[first])?;
    put_reference(text, b"to", last)?;
    text.extend_from_slice(b",")
}

fn put_count(text: &mut Vec<u8>, count: u64) -> Result<(), AllocError>
    ensures { OnOk result (text.new.items ≡ text.old.items ++ after_words (decimal count ∷ codes "events that nobody else has to do with" ∷ [])) }
{
    put_words(text, &[count])?;
    put_word(text, b"events that nobody else has to do with")
}
