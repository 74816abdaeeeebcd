ghost use Rattle.std.specs.Prelude.{◌≡◌, ◌+◌, ◌∷◌, ◌++◌, [], IfOk, OnOk, filter, length, map};
ghost use Rattle.gp_json.specs.Json.{elements_of, elements_text, json_text, members_of, members_text};
ghost use Rattle.gp_values.specs.Events.{event_value};
ghost use Rattle.gp_values.specs.Instances.{answered_value, events_value, learned_value, schedule_value, sighting_value, sightings_value, title_members, why_value};
ghost use Rattle.gp_values.specs.Reasons.{reason_value};
ghost use Rattle.gp_values.specs.Stories.{story_value};
ghost use Rattle.gp_place.specs.Places.{named};
ghost use Rattle.gp_view.specs.Answered.{form_of};
ghost use Rattle.gp_view.specs.Text.{is_of, reason_in, story_in};

use crate::event::put_event;
use crate::reason::put_reason;
use crate::sentence::put_piece;
use crate::story::put_story;
use gp_certificate::Certificate;
use gp_json::{put_comma, put_name, put_named_small, put_named_string, put_string};
use gp_place::{Beside, Places, Sighting};
use gp_report::Answer;
use gp_text::print_u64;
use gp_view::{Answered, answer_word, is_of, reason_in, story_in};
use gp_window::{EventId, Window};
use std::alloc::AllocError;

/// Puts an instance.
///
/// A reason takes the time of making the window's clauses, and of the steps of its certificate.
#[tactic(auto, unfolding(crate::specs::Instances::answered_value))]
pub fn put_answered(
    text: &mut Vec<u8>,
    beside: &Beside,
    answered: &Answered<'_>,
) -> Result<(), AllocError>
    ensures { OnOk result (text.new.items ≡ text.old.items ++ json_text (answered_value beside.now (form_of answered.now))) }
{
    put_piece(text, b"{")?;
    put_title(text, answered)?;
    put_name(text, 4, b"events")?;
    put_events(text, &beside.places, answered)?;
    put_name(text, 5, b"seen")?;
    put_sightings(text, beside, answered)?;
    put_name(text, 6, b"schedule")?;
    put_schedule(text, &beside.places, answered)?;
    put_name(text, 7, b"reason")?;
    put_why(text, &beside.places, answered)?;
    put_name(text, 8, b"learned")?;
    put_learned(text, &answered.entry.answer)?;
    put_piece(text, b"}")?;
    Ok(())
}

/// Puts what an instance is.
fn put_title(text: &mut Vec<u8>, answered: &Answered<'_>) -> Result<(), AllocError>
    ensures { OnOk result (text.new.items ≡ text.old.items ++ members_text 0 (members_of (title_members (form_of answered.now)))) }
{
    let window = answered.encoded.window().number();
    let property = answered.property.name().as_bytes();
    put_named_small(text, 0, b"window", window)?;
    put_named_string(text, 1, b"property", property)?;
    put_named_small(text, 2, b"instance", answered.number)?;
    put_named_string(text, 3, b"answer", answer_word(&answered.entry.answer))
}

fn put_events(
    text: &mut Vec<u8>,
    places: &Places,
    answered: &Answered<'_>,
) -> Result<(), AllocError>
    ensures { OnOk result (text.new.items ≡ text.old.items ++ json_text (events_value places.now (form_of answered.now))) }
{
    let events = answered.entry.events.as_slice();
    text.extend_from_slice(b"[")?;
    put_each_event(text, answered.encoded.window(), places, events)?;
    text.extend_from_slice(b"]")
}

fn put_each_event(
    text: &mut Vec<u8>,
    window: &Window,
    places: &Places,
    events: &[EventId],
) -> Result<(), AllocError>
    ensures { OnOk result (text.new.items ≡ text.old.items ++ elements_text 0 (elements_of (map (event_value places.now window.now) events.now))) }
{
    for (before, id) in events.iter().enumerate() {
        put_comma(text, before)?;
        put_event(text, window, places, *id)?;
    }
    Ok(())
}

fn put_sightings(
    text: &mut Vec<u8>,
    beside: &Beside,
    answered: &Answered<'_>,
) -> Result<(), AllocError>
    ensures { OnOk result (text.new.items ≡ text.old.items ++ json_text (sightings_value beside.now.sightings (form_of answered.now))) }
{
    text.extend_from_slice(b"[")?;
    put_each_sighting(text, beside.sightings.as_slice(), answered)?;
    text.extend_from_slice(b"]")
}

fn put_each_sighting(
    text: &mut Vec<u8>,
    sightings: &[Sighting],
    answered: &Answered<'_>,
) -> Result<(), AllocError>
    ensures { OnOk result (text.new.items ≡ text.old.items ++ elements_text 0 (elements_of (map sighting_value (filter (is_of (form_of answered.now)) sightings.now)))) }
{
    let mut before = 0usize;
    for sighting in sightings {
        before = put_if_of(text, sighting, answered, before)?;
    }
    Ok(())
}

/// Puts what was seen, where it was seen of the instance, behind so many others, and gives how many stand there then.
fn put_if_of(
    text: &mut Vec<u8>,
    sighting: &Sighting,
    answered: &Answered<'_>,
    before: usize,
) -> Result<usize, AllocError>
    ensures count { IfOk result (λ count. count ≡ before + length (filter (is_of (form_of answered.now)) (sighting.now ∷ []))) }
    ensures put { OnOk result (text.new.items ≡ text.old.items ++ elements_text before (elements_of (map sighting_value (filter (is_of (form_of answered.now)) (sighting.now ∷ []))))) }
{
    if !is_of(answered, sighting) {
        return Ok(before);
    }
    put_comma(text, before)?;
    put_string(text, sighting.text.as_slice())?;
    before.checked_add(1).ok_or(AllocError)
}

/// Puts the schedule of a found instance.
fn put_schedule(
    text: &mut Vec<u8>,
    places: &Places,
    answered: &Answered<'_>,
) -> Result<(), AllocError>
    ensures { OnOk result (text.new.items ≡ text.old.items ++ json_text (schedule_value places.now (form_of answered.now) answered.now.entry.now.answer)) }
{
    match &answered.entry.answer {
        Answer::Found(schedule) => put_found(text, places, answered, schedule.events.as_slice()),
        Answer::Impossible(_) => text.extend_from_slice(b"null"),
        Answer::Undecided { .. } => text.extend_from_slice(b"null"),
    }
}

fn put_found(
    text: &mut Vec<u8>,
    places: &Places,
    answered: &Answered<'_>,
    schedule: &[EventId],
) -> Result<(), AllocError>
    ensures { OnOk result (text.new.items ≡ text.old.items ++ json_text (story_value places.now (form_of answered.now).window (story_in (form_of answered.now) schedule.now))) }
{
    let story = story_in(*text.allocator(), answered, schedule)?;
    put_story(text, answered.encoded.window(), places, &story)
}

/// Puts why an impossible instance is impossible.
fn put_why(text: &mut Vec<u8>, places: &Places, answered: &Answered<'_>) -> Result<(), AllocError>
    ensures { OnOk result (text.new.items ≡ text.old.items ++ json_text (why_value places.now (form_of answered.now) answered.now.entry.now.answer)) }
{
    match &answered.entry.answer {
        Answer::Found(_) => text.extend_from_slice(b"null"),
        Answer::Impossible(certificate) => put_impossible(text, places, answered, certificate),
        Answer::Undecided { .. } => text.extend_from_slice(b"null"),
    }
}

fn put_impossible(
    text: &mut Vec<u8>,
    places: &Places,
    answered: &Answered<'_>,
    certificate: &Certificate,
) -> Result<(), AllocError>
    ensures { OnOk result (text.new.items ≡ text.old.items ++ json_text (reason_value (named places.now (form_of answered.now).window.number) (reason_in (form_of answered.now) certificate.now))) }
{
    let reason = reason_in(*text.allocator(), answered, certificate)?;
    put_reason(text, places, answered.encoded.window().number(), &reason)
}

/// Puts with how many learned clauses an instance was not decided.
fn put_learned(text: &mut Vec<u8>, answer: &Answer) -> Result<(), AllocError>
    ensures { OnOk result (text.new.items ≡ text.old.items ++ json_text (learned_value answer.now)) }
{
    match answer {
        Answer::Found(_) => text.extend_from_slice(b"null"),
        Answer::Impossible(_) => text.extend_from_slice(b"null"),
        Answer::Undecided { from, to, .. } => print_u64(text, u64::from(to.saturating_sub(*from))),
    }
}
