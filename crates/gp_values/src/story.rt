ghost use Rattle.std.specs.Prelude.{◌≡◌, ◌-◌, ◌++◌, OnOk, length, map, slice_get};
ghost use Rattle.gp_json.specs.Json.{elements_of, elements_text, json_text};
ghost use Rattle.gp_window.specs.Events.{event_at};
ghost use Rattle.gp_values.specs.Stories.{after_or_null, after_value, awaited_value, line_value, part_value, run_between, run_value, seen_value, sees_or_null, sees_value, story_value};

use crate::event::{put_event, put_id, put_id_or_null};
use crate::sentence::put_piece;
use gp_json::{put_comma, put_flag, put_name, put_named_number, put_string};
use gp_place::Places;
use gp_story::{Part, Source, Story, StoryLine};
use gp_tell::put_number;
use gp_trace::Event;
use gp_window::Window;
use std::alloc::AllocError;

/// Puts a story of a window.
pub(crate) fn put_story(
    text: &mut Vec<u8>,
    window: &Window,
    places: &Places,
    story: &Story,
) -> Result<(), AllocError>
    ensures { OnOk result (text.new.items ≡ text.old.items ++ json_text (story_value places.now window.now story.now)) }
{
    text.extend_from_slice(b"[")?;
    put_parts(text, window, places, story.parts.as_slice())?;
    text.extend_from_slice(b"]")
}

fn put_parts(
    text: &mut Vec<u8>,
    window: &Window,
    places: &Places,
    parts: &[Part],
) -> Result<(), AllocError>
    ensures { OnOk result (text.new.items ≡ text.old.items ++ elements_text 0 (elements_of (map (part_value places.now window.now) parts.now))) }
{
    for (before, part) in parts.iter().enumerate() {
        put_comma(text, before)?;
        put_part(text, window, places, part)?;
    }
    Ok(())
}

fn put_part(
    text: &mut Vec<u8>,
    window: &Window,
    places: &Places,
    part: &Part,
) -> Result<(), AllocError>
    ensures { OnOk result (text.new.items ≡ text.old.items ++ json_text (part_value places.now window.now part.now)) }
{
    match part {
        Part::Single(line) => put_line(text, window, places, line),
        Part::Run(lines) => put_run(text, lines.as_slice()),
    }
}

#[tactic(auto, unfolding(crate::specs::Stories::line_value))]
fn put_line(
    text: &mut Vec<u8>,
    window: &Window,
    places: &Places,
    line: &StoryLine,
) -> Result<(), AllocError>
    ensures { OnOk result (text.new.items ≡ text.old.items ++ json_text (line_value places.now window.now line.now)) }
{
    put_piece(text, b"{")?;
    put_name(text, 0, b"number")?;
    put_number(text, line.place)?;
    put_name(text, 1, b"event")?;
    put_event(text, window, places, line.event)?;
    put_name(text, 2, b"sees")?;
    put_sees(text, window, line)?;
    put_name(text, 3, b"after")?;
    put_after(text, window, line)?;
    put_name(text, 4, b"started_by")?;
    put_id_or_null(text, line.started_by)?;
    put_name(text, 5, b"is_of_instance")?;
    put_flag(text, line.is_marked)?;
    put_piece(text, b"}")?;
    Ok(())
}

fn put_sees(text: &mut Vec<u8>, window: &Window, line: &StoryLine) -> Result<(), AllocError>
    ensures { OnOk result (text.new.items ≡ text.old.items ++ json_text (sees_or_null (event_at window.now line.now.event) line.now.source)) }
{
    match window.event(line.event) {
        Some(event) => put_seen(text, event, line.source),
        None => text.extend_from_slice(b"null"),
    }
}

fn put_seen(text: &mut Vec<u8>, event: &Event, source: Source) -> Result<(), AllocError>
    ensures { OnOk result (text.new.items ≡ text.old.items ++ json_text (sees_value event.now source)) }
{
    match event {
        Event::Read(_, _) => put_seen_by_read(text, source),
        _ => text.extend_from_slice(b"null"),
    }
}

fn put_seen_by_read(text: &mut Vec<u8>, source: Source) -> Result<(), AllocError>
    ensures { OnOk result (text.new.items ≡ text.old.items ++ json_text (seen_value source)) }
{
    match source {
        Source::Nothing => text.extend_from_slice(b"null"),
        Source::Beginning => put_string(text, b"the beginning"),
        Source::Earlier(id) => put_id(text, id),
    }
}

fn put_after(text: &mut Vec<u8>, window: &Window, line: &StoryLine) -> Result<(), AllocError>
    ensures { OnOk result (text.new.items ≡ text.old.items ++ json_text (after_or_null (event_at window.now line.now.event) line.now.source)) }
{
    match window.event(line.event) {
        Some(event) => put_let_in(text, event, line.source),
        None => text.extend_from_slice(b"null"),
    }
}

fn put_let_in(text: &mut Vec<u8>, event: &Event, source: Source) -> Result<(), AllocError>
    ensures { OnOk result (text.new.items ≡ text.old.items ++ json_text (after_value event.now source)) }
{
    match event {
        Event::Read(_, _) => text.extend_from_slice(b"null"),
        _ => put_awaited(text, source),
    }
}

fn put_awaited(text: &mut Vec<u8>, source: Source) -> Result<(), AllocError>
    ensures { OnOk result (text.new.items ≡ text.old.items ++ json_text (awaited_value source)) }
{
    match source {
        Source::Nothing => text.extend_from_slice(b"null"),
        Source::Beginning => text.extend_from_slice(b"null"),
        Source::Earlier(id) => put_id(text, id),
    }
}

fn put_run(text: &mut Vec<u8>, lines: &[StoryLine]) -> Result<(), AllocError>
    ensures { OnOk result (text.new.items ≡ text.old.items ++ json_text (run_between (slice_get lines.now 0) (slice_get lines.now (length lines.now - 1)) (length lines.now))) }
{
    let Some(first) = lines.first() else {
        return text.extend_from_slice(b"null");
    };
    let Some(last) = lines.last() else {
        return text.extend_from_slice(b"null");
    };
    put_run_between(text, first, last, lines.len() as u64)
}

#[tactic(auto, unfolding(crate::specs::Stories::run_value))]
fn put_run_between(
    text: &mut Vec<u8>,
    first: &StoryLine,
    last: &StoryLine,
    count: u64,
) -> Result<(), AllocError>
    ensures { OnOk result (text.new.items ≡ text.old.items ++ json_text (run_value first.now last.now count)) }
{
    put_piece(text, b"{")?;
    put_name(text, 0, b"first")?;
    put_number(text, first.place)?;
    put_name(text, 1, b"last")?;
    put_number(text, last.place)?;
    put_name(text, 2, b"from")?;
    put_id(text, first.event)?;
    put_name(text, 3, b"to")?;
    put_id(text, last.event)?;
    put_named_number(text, 4, b"count", count)?;
    put_piece(text, b"}")?;
    Ok(())
}
