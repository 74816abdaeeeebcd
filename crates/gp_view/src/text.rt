ghost use Rattle.std.specs.Prelude.{◌≡◌, [], ◌∷◌, ◌++◌, OnOk, codes, map};
ghost use Rattle.gp_place.specs.Places.{behind, named};
ghost use Rattle.gp_text.specs.Spelling.{spelling};
ghost use Rattle.gp_tell.specs.ReasonText.{reason_lines};
ghost use Rattle.gp_tell.specs.StoryText.{story_lines};
ghost use Rattle.gp_view.specs.Answered.{form_of};
ghost use Rattle.gp_view.specs.Text.{answer_lines, answered_lines, event_line, event_lines, reason_in, sighting_line, sighting_lines, spent_line, story_in, title_words};

use crate::answered::Answered;
use crate::shown::{is_of, reason_in, story_in};
use crate::words::{put_event_line, put_sighting_line, put_spent, put_title};
use gp_certificate::Certificate;
use gp_place::{Beside, Places, Sighting};
use gp_report::Answer;
use gp_story::Story;
use gp_tell::{put_reason, put_story};
use gp_window::{EventId, Window};
use std::alloc::AllocError;

/// Puts an instance: an empty line, what it is, its events, what was seen of it, and then what shows its answer.
///
/// A reason takes the time of making the window's clauses, and of the steps of its certificate.
pub fn put_answered(
    text: &mut Vec<u8>,
    beside: &Beside,
    answered: &Answered<'_>,
) -> Result<(), AllocError>
    ensures { OnOk result (text.new.items ≡ text.old.items ++ spelling (answered_lines beside.now (form_of answered.now))) }
{
    end_line(text)?;
    put_head(text, beside, answered)?;
    put_answer(text, &beside.places, answered)
}

/// Puts what an instance is, its events, and what was seen of it.
#[tactic(auto, using(crate::proofs::Put::line_put))]
fn put_head(text: &mut Vec<u8>, beside: &Beside, answered: &Answered<'_>) -> Result<(), AllocError>
    ensures { OnOk result (text.new.items ≡ text.old.items ++ spelling (title_words (form_of answered.now) ∷ (event_lines beside.now.places (form_of answered.now) ++ sighting_lines beside.now.sightings (form_of answered.now)))) }
{
    put_title(text, answered)?;
    end_line(text)?;
    put_known(text, beside, answered)
}

#[tactic(auto, using(gp_writer::specs::LinesLaws::lines_put))]
fn put_known(text: &mut Vec<u8>, beside: &Beside, answered: &Answered<'_>) -> Result<(), AllocError>
    ensures { OnOk result (text.new.items ≡ text.old.items ++ spelling (event_lines beside.now.places (form_of answered.now) ++ sighting_lines beside.now.sightings (form_of answered.now))) }
{
    put_events(text, &beside.places, answered)?;
    put_sightings(text, beside.sightings.as_slice(), answered)
}

fn put_events(
    text: &mut Vec<u8>,
    places: &Places,
    answered: &Answered<'_>,
) -> Result<(), AllocError>
    ensures { OnOk result (text.new.items ≡ text.old.items ++ spelling (event_lines places.now (form_of answered.now))) }
{
    let events = answered.entry.events.as_slice();
    put_each_event(text, answered.encoded.window(), places, events)
}

fn put_each_event(
    text: &mut Vec<u8>,
    window: &Window,
    places: &Places,
    events: &[EventId],
) -> Result<(), AllocError>
    ensures { OnOk result (text.new.items ≡ text.old.items ++ spelling (map (event_line places.now window.now) events.now)) }
{
    for id in events {
        put_event(text, window, places, *id)?;
    }
    Ok(())
}

fn put_event(
    text: &mut Vec<u8>,
    window: &Window,
    places: &Places,
    id: EventId,
) -> Result<(), AllocError>
    ensures { OnOk result (text.new.items ≡ text.old.items ++ spelling (event_line places.now window.now id ∷ [])) }
{
    put_event_line(text, window, places, id)?;
    end_line(text)
}

fn put_sightings(
    text: &mut Vec<u8>,
    sightings: &[Sighting],
    answered: &Answered<'_>,
) -> Result<(), AllocError>
    ensures { OnOk result (text.new.items ≡ text.old.items ++ spelling (sighting_lines sightings.now (form_of answered.now))) }
{
    for sighting in sightings {
        if is_of(answered, sighting) {
            put_sighting(text, sighting)?;
        }
    }
    Ok(())
}

fn put_sighting(text: &mut Vec<u8>, sighting: &Sighting) -> Result<(), AllocError>
    ensures { OnOk result (text.new.items ≡ text.old.items ++ spelling (sighting_line sighting.now ∷ [])) }
{
    put_sighting_line(text, sighting)?;
    end_line(text)
}

/// Puts what shows the answer.
fn put_answer(
    text: &mut Vec<u8>,
    places: &Places,
    answered: &Answered<'_>,
) -> Result<(), AllocError>
    ensures { OnOk result (text.new.items ≡ text.old.items ++ spelling (answer_lines places.now (form_of answered.now) answered.now.entry.now.answer)) }
{
    match &answered.entry.answer {
        Answer::Found(schedule) => put_found(text, places, answered, schedule.events.as_slice()),
        Answer::Impossible(certificate) => put_impossible(text, places, answered, certificate),
        Answer::Undecided { from, to, .. } => put_undecided(text, *from, *to),
    }
}

fn put_found(
    text: &mut Vec<u8>,
    places: &Places,
    answered: &Answered<'_>,
    schedule: &[EventId],
) -> Result<(), AllocError>
    ensures { OnOk result (text.new.items ≡ text.old.items ++ spelling ((codes "it can happen so:" ∷ []) ∷ story_lines (behind places.now (form_of answered.now).window.number) (form_of answered.now).window (story_in (form_of answered.now) schedule.now))) }
{
    let story = story_in(*text.allocator(), answered, schedule)?;
    put_headed_story(text, answered.encoded.window(), places, &story)
}

fn put_headed_story(
    text: &mut Vec<u8>,
    window: &Window,
    places: &Places,
    story: &Story,
) -> Result<(), AllocError>
    ensures { OnOk result (text.new.items ≡ text.old.items ++ spelling ((codes "it can happen so:" ∷ []) ∷ story_lines (behind places.now window.now.number) window.now story.now)) }
{
    text.extend_from_slice(b"it can happen so:\n")?;
    put_story(text, window, places, story)
}

fn put_impossible(
    text: &mut Vec<u8>,
    places: &Places,
    answered: &Answered<'_>,
    certificate: &Certificate,
) -> Result<(), AllocError>
    ensures { OnOk result (text.new.items ≡ text.old.items ++ spelling (reason_lines (named places.now (form_of answered.now).window.number) (reason_in (form_of answered.now) certificate.now))) }
{
    let reason = reason_in(*text.allocator(), answered, certificate)?;
    put_reason(text, places, answered.encoded.window().number(), &reason)
}

fn put_undecided(text: &mut Vec<u8>, from: u32, to: u32) -> Result<(), AllocError>
    ensures { OnOk result (text.new.items ≡ text.old.items ++ spelling (spent_line from to ∷ [])) }
{
    put_spent(text, from, to)?;
    end_line(text)
}

fn end_line(text: &mut Vec<u8>) -> Result<(), AllocError>
    ensures { OnOk result (text.new.items ≡ text.old.items ++ 10 ∷ []) }
{
    text.push(b'\n')?;
    Ok(())
}
