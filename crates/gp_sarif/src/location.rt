ghost use Rattle.std.specs.Prelude.{◌≡◌, ◌++◌, ◌∷◌, [], OnOk, Some, option_copied, option_map};
ghost use Rattle.gp_json.specs.Json.{array, json_text, members_of, members_text};
ghost use Rattle.gp_json.specs.Strings.{string_text};
ghost use Rattle.gp_sarif.specs.Locations.{artifact_value, ascii_members, event_text, function_value, is_ascii, location_value, message_value, physical_value, place_members, placed_location, region_members, region_value, snippet_members};

use crate::message::put_message;
use crate::uri::put_uri;
use gp_json::{put_name, put_named_small, put_named_string, put_string};
use gp_place::{Place, Places, place_at};
use gp_trace::Event;
use gp_values::put_event_words;
use gp_window::{EventId, Window};
use std::alloc::AllocError;

/// Puts where an event of a window is.
pub(crate) fn put_location(
    text: &mut Vec<u8>,
    window: &Window,
    places: &Places,
    id: EventId,
) -> Result<(), AllocError>
    ensures { OnOk result (text.new.items ≡ text.old.items ++ json_text (location_value places.now window.now id)) }
{
    let place = place_at(places, window.number(), id);
    put_placed(text, window.event(id), place)
}

#[tactic(auto, unfolding(crate::specs::Locations::placed_location))]
fn put_placed(
    text: &mut Vec<u8>,
    event: Option<&Event>,
    place: Option<&Place>,
) -> Result<(), AllocError>
    ensures { OnOk result (text.new.items ≡ text.old.items ++ json_text (placed_location (option_copied event.entry) (option_map (λ place. place.now) place.entry))) }
{
    text.extend_from_slice(b"{")?;
    put_name(text, 0, b"message")?;
    put_event_message(text, event)?;
    put_place(text, place)?;
    text.extend_from_slice(b"}")
}

#[tactic(auto, unfolding(crate::specs::Locations::message_value))]
fn put_event_message(text: &mut Vec<u8>, event: Option<&Event>) -> Result<(), AllocError>
    ensures { OnOk result (text.new.items ≡ text.old.items ++ json_text (message_value (event_text (option_copied event.entry)))) }
{
    text.extend_from_slice(b"{")?;
    put_name(text, 0, b"text")?;
    put_event_text(text, event)?;
    text.extend_from_slice(b"}")
}

fn put_event_text(text: &mut Vec<u8>, event: Option<&Event>) -> Result<(), AllocError>
    ensures { OnOk result (text.new.items ≡ text.old.items ++ string_text (event_text (option_copied event.entry))) }
{
    match event {
        Some(event) => put_event_words(text, event),
        None => put_string(text, b""),
    }
}

/// Puts the members of a place, behind one other member, where the place is told.
fn put_place(text: &mut Vec<u8>, place: Option<&Place>) -> Result<(), AllocError>
    ensures { OnOk result (text.new.items ≡ text.old.items ++ members_text 1 (members_of (place_members (option_map (λ place. place.now) place.entry)))) }
{
    match place {
        Some(place) => put_known_place(text, place),
        None => Ok(()),
    }
}

fn put_known_place(text: &mut Vec<u8>, place: &Place) -> Result<(), AllocError>
    ensures { OnOk result (text.new.items ≡ text.old.items ++ members_text 1 (members_of (place_members (Some place.now)))) }
{
    put_name(text, 1, b"physicalLocation")?;
    put_physical(text, place)?;
    put_name(text, 2, b"logicalLocations")?;
    put_functions(text, place.function.as_slice())
}

#[tactic(auto, unfolding(crate::specs::Locations::physical_value))]
fn put_physical(text: &mut Vec<u8>, place: &Place) -> Result<(), AllocError>
    ensures { OnOk result (text.new.items ≡ text.old.items ++ json_text (physical_value place.now)) }
{
    text.extend_from_slice(b"{")?;
    put_name(text, 0, b"artifactLocation")?;
    put_artifact(text, place.file.as_slice())?;
    put_line(text, place.line, place.source.as_slice())?;
    text.extend_from_slice(b"}")
}

#[tactic(auto, unfolding(crate::specs::Locations::artifact_value))]
fn put_artifact(text: &mut Vec<u8>, file: &[u8]) -> Result<(), AllocError>
    ensures { OnOk result (text.new.items ≡ text.old.items ++ json_text (artifact_value file.now)) }
{
    text.extend_from_slice(b"{")?;
    put_name(text, 0, b"uri")?;
    put_uri(text, file)?;
    text.extend_from_slice(b"}")
}

/// Puts the member of a line, behind one other member, where the line is known.
fn put_line(text: &mut Vec<u8>, line: u32, source: &[u8]) -> Result<(), AllocError>
    ensures { OnOk result (text.new.items ≡ text.old.items ++ members_text 1 (members_of (region_members line source.now))) }
{
    if line == 0 {
        return Ok(());
    }
    put_name(text, 1, b"region")?;
    put_region(text, line, source)
}

#[tactic(auto, unfolding(crate::specs::Locations::region_value))]
fn put_region(text: &mut Vec<u8>, line: u32, source: &[u8]) -> Result<(), AllocError>
    ensures { OnOk result (text.new.items ≡ text.old.items ++ json_text (region_value line source.now)) }
{
    text.extend_from_slice(b"{")?;
    put_named_small(text, 0, b"startLine", line)?;
    put_snippet(text, source)?;
    text.extend_from_slice(b"}")
}

/// Puts the member of a source's line, behind one other member, where it is told.
fn put_snippet(text: &mut Vec<u8>, source: &[u8]) -> Result<(), AllocError>
    ensures { OnOk result (text.new.items ≡ text.old.items ++ members_text 1 (members_of (snippet_members source.now))) }
{
    match source {
        [] => Ok(()),
        _ => put_if_ascii(text, source),
    }
}

fn put_if_ascii(text: &mut Vec<u8>, source: &[u8]) -> Result<(), AllocError>
    ensures { OnOk result (text.new.items ≡ text.old.items ++ members_text 1 (members_of (ascii_members source.now))) }
{
    if !is_ascii(source) {
        return Ok(());
    }
    put_name(text, 1, b"snippet")?;
    put_message(text, source)
}

fn is_ascii(source: &[u8]) -> bool
    ensures { result ≡ is_ascii source.now }
{
    source.iter().all(|byte| *byte < 128)
}

/// Puts a function as the only one of an array.
fn put_functions(text: &mut Vec<u8>, function: &[u8]) -> Result<(), AllocError>
    ensures { OnOk result (text.new.items ≡ text.old.items ++ json_text (array (function_value function.now ∷ []))) }
{
    text.extend_from_slice(b"[")?;
    put_function(text, function)?;
    text.extend_from_slice(b"]")
}

#[tactic(auto, unfolding(crate::specs::Locations::function_value))]
fn put_function(text: &mut Vec<u8>, function: &[u8]) -> Result<(), AllocError>
    ensures { OnOk result (text.new.items ≡ text.old.items ++ json_text (function_value function.now)) }
{
    text.extend_from_slice(b"{")?;
    put_named_string(text, 0, b"name", function)?;
    put_named_string(text, 1, b"kind", b"function")?;
    text.extend_from_slice(b"}")
}
