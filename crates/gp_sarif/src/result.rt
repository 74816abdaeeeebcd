ghost use Rattle.std.specs.Prelude.{◌≡◌, ◌++◌, OnOk, decimal, map};
ghost use Rattle.gp_json.specs.Json.{array, comma, elements_of, elements_text, json_text, members_of, members_text, name_text};
ghost use Rattle.gp_sarif.specs.Flows.{code_flow_value};
ghost use Rattle.gp_sarif.specs.Locations.{location_value, message_value};
ghost use Rattle.gp_sarif.specs.Results.{happening_members, is_named, result_value, rule_index, rule_place, schedule_of, sentence, title_members};
ghost use Rattle.gp_view.specs.Answered.{form_of};

use crate::flow::put_code_flows;
use crate::location::put_location;
use crate::message::{put_message, put_piece};
use gp_json::{put_comma, put_name, put_named_number, put_named_string};
use gp_place::Places;
use gp_property::Property;
use gp_report::Answer;
use gp_text::print_u64;
use gp_view::Answered;
use gp_window::{EventId, Window};
use std::alloc::AllocError;

/// Puts an instance as a result, where these are the properties that the report answers.
#[tactic(auto, unfolding(crate::specs::Results::result_value))]
pub fn put_result(
    text: &mut Vec<u8>,
    properties: &[Property],
    places: &Places,
    answered: &Answered<'_>,
) -> Result<(), AllocError>
    ensures { OnOk result (text.new.items ≡ text.old.items ++ json_text (result_value properties.now places.now (form_of answered.now))) }
{
    put_piece(text, b"{")?;
    put_title(text, properties, answered)?;
    put_happening(text, places, answered)?;
    put_piece(text, b"}")?;
    Ok(())
}

/// Puts what an instance is.
fn put_title(
    text: &mut Vec<u8>,
    properties: &[Property],
    answered: &Answered<'_>,
) -> Result<(), AllocError>
    ensures { OnOk result (text.new.items ≡ text.old.items ++ members_text 0 (members_of (title_members properties.now (form_of answered.now)))) }
{
    let name = answered.property.name().as_bytes();
    put_named_string(text, 0, b"ruleId", name)?;
    put_named_number(text, 1, b"ruleIndex", rule_index(properties, name) as u64)?;
    put_named_string(text, 2, b"level", b"warning")?;
    put_name(text, 3, b"message")?;
    put_sentence(text, answered)
}

/// How many properties stand before the one of this name; 0 where none has it.
fn rule_index(properties: &[Property], name: &[u8]) -> usize
    ensures { result ≡ rule_index properties.now name.now }
{
    match rule_place(properties, name) {
        Some(place) => place,
        None => 0,
    }
}

fn rule_place(properties: &[Property], name: &[u8]) -> Option<usize>
    ensures { result ≡ rule_place properties.now name.now }
{
    properties
        .iter()
        .position(|property| is_named(property, name))
}

fn is_named(property: &Property, name: &[u8]) -> bool
    ensures { result ≡ is_named name.now property.now }
{
    property.name().as_bytes() == name
}

/// Puts what is said of an instance.
fn put_sentence(text: &mut Vec<u8>, answered: &Answered<'_>) -> Result<(), AllocError>
    ensures { OnOk result (text.new.items ≡ text.old.items ++ json_text (message_value (sentence (form_of answered.now).property.name (form_of answered.now).number (form_of answered.now).window.number))) }
{
    let name = answered.property.name().as_bytes();
    let window = answered.encoded.window().number();
    let mut words = Vec::new(*text.allocator());
    add_sentence(&mut words, name, answered.number, window)?;
    put_message(text, words.as_slice())
}

#[tactic(auto, unfolding(crate::specs::Results::sentence))]
fn add_sentence(
    words: &mut Vec<u8>,
    name: &[u8],
    instance: u32,
    window: u32,
) -> Result<(), AllocError>
    ensures { OnOk result (words.new.items ≡ words.old.items ++ sentence name.now instance window) }
{
    put_piece(words, b"A schedule of the recorded events shows ")?;
    put_piece(words, name)?;
    put_piece(words, b": instance ")?;
    put_small(words, instance)?;
    put_piece(words, b" in window ")?;
    put_small(words, window)?;
    put_piece(words, b".")?;
    Ok(())
}

fn put_small(words: &mut Vec<u8>, number: u32) -> Result<(), AllocError>
    ensures { OnOk result (words.new.items ≡ words.old.items ++ decimal number) }
{
    print_u64(words, u64::from(number))
}

/// Puts where an instance happens, behind four other members.
fn put_happening(
    text: &mut Vec<u8>,
    places: &Places,
    answered: &Answered<'_>,
) -> Result<(), AllocError>
    ensures { OnOk result (text.new.items ≡ text.old.items ++ members_text 4 (members_of (happening_members places.now (form_of answered.now)))) }
{
    let window = answered.encoded.window();
    put_name(text, 4, b"locations")?;
    put_locations(text, window, places, answered.entry.events.as_slice())?;
    put_name(text, 5, b"codeFlows")?;
    put_code_flows(text, window, places, schedule_of(&answered.entry.answer))
}

fn put_locations(
    text: &mut Vec<u8>,
    window: &Window,
    places: &Places,
    events: &[EventId],
) -> Result<(), AllocError>
    ensures { OnOk result (text.new.items ≡ text.old.items ++ json_text (array (map (location_value places.now window.now) events.now))) }
{
    text.extend_from_slice(b"[")?;
    put_each_location(text, window, places, events)?;
    text.extend_from_slice(b"]")
}

fn put_each_location(
    text: &mut Vec<u8>,
    window: &Window,
    places: &Places,
    events: &[EventId],
) -> Result<(), AllocError>
    ensures { OnOk result (text.new.items ≡ text.old.items ++ elements_text 0 (elements_of (map (location_value places.now window.now) events.now))) }
{
    for (before, id) in events.iter().enumerate() {
        put_comma(text, before)?;
        put_location(text, window, places, *id)?;
    }
    Ok(())
}

/// The schedule of a found instance; others have none.
fn schedule_of(answer: &Answer) -> &[EventId]
    ensures { result.now ≡ schedule_of answer.now }
{
    match answer {
        Answer::Found(schedule) => schedule.events.as_slice(),
        Answer::Impossible(_) => &[],
        Answer::Undecided { .. } => &[],
    }
}
