ghost use Rattle.std.specs.Prelude.{◌≡◌, ◌++◌, OnOk, codes, decimal, flat_map};
ghost use Rattle.gp_drawing.specs.Drawing.{drawing_of};
ghost use Rattle.gp_view.specs.Answered.{form_of};
ghost use Rattle.gp_view.specs.Page.{answer_part, answered_part, drawing_part, event_item, events_part, fold_head, reason_part, reason_text, sighting_part, sightings_part, spent_part, title_part};
ghost use Rattle.gp_view.specs.Text.{reason_in, story_in};

use crate::answered::Answered;
use crate::shown::{is_of, reason_in, story_in};
use crate::words::{put_event_line, put_sighting_line, put_spent, put_title};
use gp_certificate::Certificate;
use gp_drawing::{Drawing, draw, put_between, put_svg};
use gp_place::{Beside, Places, Sighting};
use gp_reason::Reason;
use gp_report::Answer;
use gp_tell::put_reason;
use gp_text::print_u64;
use gp_window::{EventId, Window};
use std::alloc::AllocError;

// The most rows of a drawing, or steps of a reason, that are shown at once.
const MOST_OPEN: usize = 60;

/// Puts an instance as a `section` of a page that has the tip of its arrows.
pub fn put_answered_part(
    text: &mut Vec<u8>,
    beside: &Beside,
    answered: &Answered<'_>,
) -> Result<(), AllocError>
    ensures { OnOk result (text.new.items ≡ text.old.items ++ answered_part beside.now (form_of answered.now)) }
{
    text.extend_from_slice(b"<section>\n")?;
    put_title_part(text, answered)?;
    put_events_part(text, &beside.places, answered)?;
    put_sighting_parts(text, beside.sightings.as_slice(), answered)?;
    put_answer_part(text, &beside.places, answered)?;
    text.extend_from_slice(b"</section>\n")
}

#[tactic(auto, unfolding(crate::specs::Page::title_part))]
fn put_title_part(text: &mut Vec<u8>, answered: &Answered<'_>) -> Result<(), AllocError>
    ensures { OnOk result (text.new.items ≡ text.old.items ++ title_part (form_of answered.now)) }
{
    let mut title = Vec::new(*text.allocator());
    put_title(&mut title, answered)?;
    put_between(text, b"<h2>", title.as_slice(), b"</h2>\n")
}

#[tactic(auto, unfolding(crate::specs::Page::events_part))]
fn put_events_part(
    text: &mut Vec<u8>,
    places: &Places,
    answered: &Answered<'_>,
) -> Result<(), AllocError>
    ensures { OnOk result (text.new.items ≡ text.old.items ++ events_part places.now (form_of answered.now)) }
{
    let events = answered.entry.events.as_slice();
    text.extend_from_slice(b"<ul>\n")?;
    put_event_items(text, answered.encoded.window(), places, events)?;
    text.extend_from_slice(b"</ul>\n")
}

fn put_event_items(
    text: &mut Vec<u8>,
    window: &Window,
    places: &Places,
    events: &[EventId],
) -> Result<(), AllocError>
    ensures { OnOk result (text.new.items ≡ text.old.items ++ flat_map (event_item places.now window.now) events.now) }
{
    for id in events {
        put_event_item(text, window, places, *id)?;
    }
    Ok(())
}

#[tactic(auto, unfolding(crate::specs::Page::event_item))]
fn put_event_item(
    text: &mut Vec<u8>,
    window: &Window,
    places: &Places,
    id: EventId,
) -> Result<(), AllocError>
    ensures { OnOk result (text.new.items ≡ text.old.items ++ event_item places.now window.now id) }
{
    let mut words = Vec::new(*text.allocator());
    put_event_line(&mut words, window, places, id)?;
    put_between(text, b"<li>", words.as_slice(), b"</li>\n")
}

fn put_sighting_parts(
    text: &mut Vec<u8>,
    sightings: &[Sighting],
    answered: &Answered<'_>,
) -> Result<(), AllocError>
    ensures { OnOk result (text.new.items ≡ text.old.items ++ sightings_part sightings.now (form_of answered.now)) }
{
    for sighting in sightings {
        if is_of(answered, sighting) {
            put_sighting_part(text, sighting)?;
        }
    }
    Ok(())
}

#[tactic(auto, unfolding(crate::specs::Page::sighting_part))]
fn put_sighting_part(text: &mut Vec<u8>, sighting: &Sighting) -> Result<(), AllocError>
    ensures { OnOk result (text.new.items ≡ text.old.items ++ sighting_part sighting.now) }
{
    let mut words = Vec::new(*text.allocator());
    put_sighting_line(&mut words, sighting)?;
    put_between(text, b"<p>", words.as_slice(), b"</p>\n")
}

/// Puts what shows the answer.
fn put_answer_part(
    text: &mut Vec<u8>,
    places: &Places,
    answered: &Answered<'_>,
) -> Result<(), AllocError>
    ensures { OnOk result (text.new.items ≡ text.old.items ++ answer_part places.now (form_of answered.now) answered.now.entry.now.answer) }
{
    match &answered.entry.answer {
        Answer::Found(schedule) => put_found_part(
            text,
            places,
            answered,
            schedule.events.as_slice(),
        ),
        Answer::Impossible(certificate) => put_impossible_part(text, places, answered, certificate),
        Answer::Undecided { from, to, .. } => put_spent_part(text, *from, *to),
    }
}

fn put_found_part(
    text: &mut Vec<u8>,
    places: &Places,
    answered: &Answered<'_>,
    schedule: &[EventId],
) -> Result<(), AllocError>
    ensures { OnOk result (text.new.items ≡ text.old.items ++ drawing_part places.now (form_of answered.now).window (drawing_of (form_of answered.now).window (story_in (form_of answered.now) schedule.now))) }
{
    let alloc = *text.allocator();
    let window = answered.encoded.window();
    let story = story_in(alloc, answered, schedule)?;
    let drawing = draw(alloc, window, &story)?;
    put_drawing_part(text, window, places, &drawing)
}

/// Puts a drawing, which is folded where it has many rows.
fn put_drawing_part(
    text: &mut Vec<u8>,
    window: &Window,
    places: &Places,
    drawing: &Drawing,
) -> Result<(), AllocError>
    ensures { OnOk result (text.new.items ≡ text.old.items ++ drawing_part places.now window.now drawing.now) }
{
    let rows = drawing.rows.len();
    if rows <= MOST_OPEN {
        return put_svg(text, window, places, drawing);
    }
    put_fold_head(text, rows as u64, b"rows")?;
    put_svg(text, window, places, drawing)?;
    text.extend_from_slice(b"</details>\n")
}

fn put_impossible_part(
    text: &mut Vec<u8>,
    places: &Places,
    answered: &Answered<'_>,
    certificate: &Certificate,
) -> Result<(), AllocError>
    ensures { OnOk result (text.new.items ≡ text.old.items ++ reason_part places.now (form_of answered.now).window.number (reason_in (form_of answered.now) certificate.now)) }
{
    let reason = reason_in(*text.allocator(), answered, certificate)?;
    put_reason_part(text, places, answered.encoded.window().number(), &reason)
}

/// Puts a reason, which is folded where it has many steps.
fn put_reason_part(
    text: &mut Vec<u8>,
    places: &Places,
    window: u32,
    reason: &Reason,
) -> Result<(), AllocError>
    ensures { OnOk result (text.new.items ≡ text.old.items ++ reason_part places.now window reason.now) }
{
    let steps = reason.steps.len();
    if steps <= MOST_OPEN {
        return put_reason_text(text, places, window, reason);
    }
    put_fold_head(text, steps as u64, b"steps")?;
    put_reason_text(text, places, window, reason)?;
    text.extend_from_slice(b"</details>\n")
}

#[tactic(auto, unfolding(crate::specs::Page::reason_text))]
fn put_reason_text(
    text: &mut Vec<u8>,
    places: &Places,
    window: u32,
    reason: &Reason,
) -> Result<(), AllocError>
    ensures { OnOk result (text.new.items ≡ text.old.items ++ reason_text places.now window reason.now) }
{
    let mut lines = Vec::new(*text.allocator());
    put_reason(&mut lines, places, window, reason)?;
    put_between(text, b"<pre>", lines.as_slice(), b"</pre>\n")
}

#[tactic(auto, unfolding(crate::specs::Page::fold_head))]
fn put_fold_head(text: &mut Vec<u8>, count: u64, what: &[u8]) -> Result<(), AllocError>
    ensures { OnOk result (text.new.items ≡ text.old.items ++ fold_head count what.now) }
{
    text.extend_from_slice(b"<details><summary>")?;
    print_u64(text, count)?;
    text.extend_from_slice(b" ")?;
    text.extend_from_slice(what)?;
    text.extend_from_slice(b"</summary>\n")
}

#[tactic(auto, unfolding(crate::specs::Page::spent_part))]
fn put_spent_part(text: &mut Vec<u8>, from: u32, to: u32) -> Result<(), AllocError>
    ensures { OnOk result (text.new.items ≡ text.old.items ++ spent_part from to) }
{
    let mut words = Vec::new(*text.allocator());
    put_spent(&mut words, from, to)?;
    put_between(text, b"<p>", words.as_slice(), b"</p>\n")
}
