ghost use Rattle.std.specs.Prelude.{◌≡◌, [], ◌∷◌, ◌++◌, OnOk, codes, decimal, option_copied};
ghost use Rattle.gp_text.specs.Spelling.{after_words, joined};
ghost use Rattle.gp_view.specs.Answered.{form_of};
ghost use Rattle.gp_view.specs.Text.{answer_word, event_line, own_words, sighting_line, spent_line, title_words};

use crate::answered::Answered;
use gp_place::{Places, Sighting, put_behind};
use gp_property::Property;
use gp_report::Answer;
use gp_tell::put_event;
use gp_text::print_u64;
use gp_trace::Event;
use gp_window::{EventId, Window, put_event_id};
use gp_writer::{put_word, put_words};
use std::alloc::AllocError;

/// Puts what an instance is, as a line that is not ended.
#[tactic(auto, using(crate::proofs::Put::three_put))]
pub(crate) fn put_title(text: &mut Vec<u8>, answered: &Answered<'_>) -> Result<(), AllocError>
    ensures { OnOk result (text.new.items ≡ text.old.items ++ joined (title_words (form_of answered.now))) }
{
    text.extend_from_slice(b"window")?;
    put_words(text, &[answered.encoded.window().number()])?;
    put_property(text, answered.property)?;
    put_instance(text, answered.number, &answered.entry.answer)
}

fn put_property(text: &mut Vec<u8>, property: &Property) -> Result<(), AllocError>
    ensures { OnOk result (text.new.items ≡ text.old.items ++ after_words (codes "property" ∷ property.now.name ∷ [])) }
{
    put_word(text, b"property")?;
    put_word(text, property.name().as_bytes())
}

fn put_instance(text: &mut Vec<u8>, number: u32, answer: &Answer) -> Result<(), AllocError>
    ensures { OnOk result (text.new.items ≡ text.old.items ++ after_words (codes "instance" ∷ decimal number ∷ answer_word answer.now ∷ [])) }
{
    put_word(text, b"instance")?;
    put_words(text, &[number])?;
    put_word(text, answer_word(answer))
}

/// What an answer is.
pub fn answer_word(answer: &Answer) -> &'static [u8]
    ensures { result.now ≡ answer_word answer.now }
{
    match answer {
        Answer::Found(_) => b"found",
        Answer::Impossible(_) => b"impossible",
        Answer::Undecided { .. } => b"undecided",
    }
}

/// Puts an event with its id and its place, as a line that is not ended.
#[tactic(auto, using(crate::proofs::Put::first_two_put))]
pub(crate) fn put_event_line(
    text: &mut Vec<u8>,
    window: &Window,
    places: &Places,
    id: EventId,
) -> Result<(), AllocError>
    ensures { OnOk result (text.new.items ≡ text.old.items ++ joined (event_line places.now window.now id)) }
{
    put_event_id(text, id)?;
    put_own_words(text, window.event(id))?;
    put_behind(text, places, window.number(), id)
}

fn put_own_words(text: &mut Vec<u8>, event: Option<&Event>) -> Result<(), AllocError>
    ensures { OnOk result (text.new.items ≡ text.old.items ++ after_words (own_words (option_copied event.entry))) }
{
    match event {
        Some(event) => put_event(text, event),
        None => Ok(()),
    }
}

/// Puts what was seen, as a line that is not ended.
pub(crate) fn put_sighting_line(text: &mut Vec<u8>, sighting: &Sighting) -> Result<(), AllocError>
    ensures { OnOk result (text.new.items ≡ text.old.items ++ joined (sighting_line sighting.now)) }
{
    text.extend_from_slice(b"seen: ")?;
    text.extend_from_slice(sighting.text.as_slice())
}

/// Puts that the budget was spent, as a line that is not ended.
pub(crate) fn put_spent(text: &mut Vec<u8>, from: u32, to: u32) -> Result<(), AllocError>
    ensures { OnOk result (text.new.items ≡ text.old.items ++ joined (spent_line from to)) }
{
    text.extend_from_slice(b"not decided with ")?;
    print_u64(text, u64::from(to.saturating_sub(from)))?;
    text.extend_from_slice(b" learned clauses")
}
