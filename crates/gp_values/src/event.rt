ghost use Rattle.std.specs.Prelude.{◌≡◌, ◌++◌, OnOk, Some, option_copied, option_map};
ghost use Rattle.gp_json.specs.Json.{json_text};
ghost use Rattle.gp_values.specs.Events.{event_value, id_or_null, id_value, place_or_null, place_value, placed_value, source_value, words_or_null};

use crate::sentence::{put_piece, put_sentence};
use gp_json::{put_name, put_named_small, put_named_string, put_string};
use gp_place::{Place, Places, place_at};
use gp_trace::Event;
use gp_window::{EventId, Window, put_event_id};
use std::alloc::AllocError;

/// Puts an event, with its place where that is told.
pub(crate) fn put_event(
    text: &mut Vec<u8>,
    window: &Window,
    places: &Places,
    id: EventId,
) -> Result<(), AllocError>
    ensures { OnOk result (text.new.items ≡ text.old.items ++ json_text (event_value places.now window.now id)) }
{
    let place = place_at(places, window.number(), id);
    put_placed(text, id, window.event(id), place)
}

#[tactic(auto, unfolding(crate::specs::Events::placed_value))]
fn put_placed(
    text: &mut Vec<u8>,
    id: EventId,
    event: Option<&Event>,
    place: Option<&Place>,
) -> Result<(), AllocError>
    ensures { OnOk result (text.new.items ≡ text.old.items ++ json_text (placed_value id (option_copied event.entry) (option_map (λ place. place.now) place.entry))) }
{
    put_piece(text, b"{")?;
    put_named_small(text, 0, b"thread", id.thread)?;
    put_named_small(text, 1, b"index", id.index)?;
    put_name(text, 2, b"text")?;
    put_words(text, event)?;
    put_name(text, 3, b"place")?;
    put_place(text, place)?;
    put_piece(text, b"}")?;
    Ok(())
}

fn put_words(text: &mut Vec<u8>, event: Option<&Event>) -> Result<(), AllocError>
    ensures { OnOk result (text.new.items ≡ text.old.items ++ json_text (words_or_null (option_copied event.entry))) }
{
    match event {
        Some(event) => put_event_words(text, event),
        None => text.extend_from_slice(b"null"),
    }
}

/// Puts an event as its trace has it, as a string.
#[tactic(auto, using(crate::proofs::Sentences::event_words_first))]
pub fn put_event_words(text: &mut Vec<u8>, event: &Event) -> Result<(), AllocError>
    ensures { OnOk result (text.new.items ≡ text.old.items ++ json_text (words_or_null (Some event.now))) }
{
    let mut words = Vec::new(*text.allocator());
    gp_tell::put_event(&mut words, event)?;
    put_sentence(text, words.as_slice())
}

fn put_place(text: &mut Vec<u8>, place: Option<&Place>) -> Result<(), AllocError>
    ensures { OnOk result (text.new.items ≡ text.old.items ++ json_text (place_or_null (option_map (λ place. place.now) place.entry))) }
{
    match place {
        Some(place) => put_known_place(text, place),
        None => text.extend_from_slice(b"null"),
    }
}

#[tactic(auto, unfolding(crate::specs::Events::place_value))]
fn put_known_place(text: &mut Vec<u8>, place: &Place) -> Result<(), AllocError>
    ensures { OnOk result (text.new.items ≡ text.old.items ++ json_text (place_value place.now)) }
{
    text.extend_from_slice(b"{")?;
    put_named_string(text, 0, b"file", place.file.as_slice())?;
    put_named_small(text, 1, b"line", place.line)?;
    put_named_string(text, 2, b"function", place.function.as_slice())?;
    put_name(text, 3, b"source")?;
    put_source(text, place.source.as_slice())?;
    text.extend_from_slice(b"}")
}

fn put_source(text: &mut Vec<u8>, source: &[u8]) -> Result<(), AllocError>
    ensures { OnOk result (text.new.items ≡ text.old.items ++ json_text (source_value source.now)) }
{
    match source {
        [] => text.extend_from_slice(b"null"),
        _ => put_string(text, source),
    }
}

/// Puts the id of an event, where there is one.
pub(crate) fn put_id_or_null(text: &mut Vec<u8>, id: Option<EventId>) -> Result<(), AllocError>
    ensures { OnOk result (text.new.items ≡ text.old.items ++ json_text (id_or_null id)) }
{
    match id {
        Some(id) => put_id(text, id),
        None => text.extend_from_slice(b"null"),
    }
}

/// Puts the id of an event.
pub(crate) fn put_id(text: &mut Vec<u8>, id: EventId) -> Result<(), AllocError>
    ensures { OnOk result (text.new.items ≡ text.old.items ++ json_text (id_value id)) }
{
    let mut word = Vec::new(*text.allocator());
    put_event_id(&mut word, id)?;
    put_string(text, word.as_slice())
}
