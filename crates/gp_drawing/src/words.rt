ghost use Rattle.std.specs.Prelude.{◌≡◌, [], ◌∷◌, ◌++◌, IfOk, OnOk, codes, decimal, length, option_copied};
ghost use Rattle.std.specs.Fmt.{signed_decimal};
ghost use Rattle.gp_place.specs.Places.{behind};
ghost use Rattle.gp_text.specs.Spelling.{after_words, joined};
ghost use Rattle.gp_trace.specs.Printed.{event_words};
ghost use Rattle.gp_drawing.specs.Words.{longest_place, own_words, place_length, row_words, span_words};

use crate::drawing::{DrawnRow, Span};
use gp_base::Row;
use gp_place::{Places, put_behind};
use gp_text::{Name, print_i64, print_u64};
use gp_trace::Event;
use gp_window::{EventId, Window, put_event_id};
use std::alloc::{AllocError, Global};

/// The words of a row.
pub fn row_words(
    alloc: Global,
    window: &Window,
    places: &Places,
    row: &DrawnRow,
) -> Result<Row<u8>, AllocError>
    ensures { IfOk result (λ words. words ≡ row_words places.now window.now row.now) }
{
    let mut words = Vec::new(alloc);
    put_row_words(&mut words, window, places, row)?;
    Ok(Row::from_vec(words))
}

fn put_row_words(
    text: &mut Vec<u8>,
    window: &Window,
    places: &Places,
    row: &DrawnRow,
) -> Result<(), AllocError>
    ensures { OnOk result (text.new.items ≡ text.old.items ++ row_words places.now window.now row.now) }
{
    match row {
        DrawnRow::One(event, _) => {
            put_event_id(text, *event)?;
            put_own_words(text, window.event(*event))?;
            put_behind(text, places, window.number(), *event)
        }
        DrawnRow::Several(span) => put_span_words(text, span),
    }
}

/// The most bytes that one of these rows has for the place of its event.
pub fn longest_place(
    alloc: Global,
    window: &Window,
    places: &Places,
    rows: &[DrawnRow],
) -> Result<usize, AllocError>
    ensures { IfOk result (λ longest. longest ≡ longest_place places.now window.now rows.now) }
{
    let mut longest = 0;
    for row in rows {
        longest = longest.max(place_length(alloc, window, places, row)?);
    }
    Ok(longest)
}

fn place_length(
    alloc: Global,
    window: &Window,
    places: &Places,
    row: &DrawnRow,
) -> Result<usize, AllocError>
    ensures { IfOk result (λ bytes. bytes ≡ place_length places.now window.now row.now) }
{
    match row {
        DrawnRow::One(event, _) => length_behind(alloc, places, window.number(), *event),
        DrawnRow::Several(_) => Ok(0),
    }
}

fn length_behind(
    alloc: Global,
    places: &Places,
    window: u32,
    event: EventId,
) -> Result<usize, AllocError>
    ensures { IfOk result (λ bytes. bytes ≡ length (after_words (behind places.now window event))) }
{
    let mut words = Vec::new(alloc);
    put_behind(&mut words, places, window, event)?;
    Ok(words.len())
}

fn put_span_words(text: &mut Vec<u8>, span: &Span) -> Result<(), AllocError>
    ensures { OnOk result (text.new.items ≡ text.old.items ++ span_words span.now) }
{
    put_event_id(text, span.first)?;
    text.extend_from_slice(b" to ")?;
    put_event_id(text, span.last)?;
    text.extend_from_slice(b", ")?;
    print_u64(text, span.events)?;
    text.extend_from_slice(b" events")
}

fn put_own_words(text: &mut Vec<u8>, event: Option<&Event>) -> Result<(), AllocError>
    ensures { OnOk result (text.new.items ≡ text.old.items ++ own_words (option_copied event.entry)) }
{
    let Some(event) = event else {
        return Ok(());
    };
    text.extend_from_slice(b" ")?;
    put_event(text, event)
}

fn put_event(text: &mut Vec<u8>, event: &Event) -> Result<(), AllocError>
    ensures { OnOk result (text.new.items ≡ text.old.items ++ joined (event_words event.now)) }
{
    match event {
        Event::Read(name, value) => put_valued(text, b"read", name, *value),
        Event::Write(name, value) => put_valued(text, b"write", name, *value),
        Event::Acquire(lock) => put_named(text, b"acquire", lock),
        Event::Release(lock) => put_named(text, b"release", lock),
        Event::RAcquire(lock) => put_named(text, b"racquire", lock),
        Event::RRelease(lock) => put_named(text, b"rrelease", lock),
        Event::Start(thread) => put_numbered(text, b"start", *thread),
        Event::Join(thread) => put_numbered(text, b"join", *thread),
        Event::Op(operation) => put_op(text, b"op", operation.name(), operation.objects()),
        Event::Begin(region) => put_named(text, b"begin", region),
        Event::End(region) => put_named(text, b"end", region),
    }
}

fn put_named(text: &mut Vec<u8>, keyword: &[u8], name: &Name) -> Result<(), AllocError>
    ensures { OnOk result (text.new.items ≡ text.old.items ++ joined (keyword.now ∷ name.now ∷ [])) }
{
    text.extend_from_slice(keyword)?;
    text.extend_from_slice(b" ")?;
    text.extend_from_slice(name.as_bytes())
}

fn put_numbered(text: &mut Vec<u8>, keyword: &[u8], number: u32) -> Result<(), AllocError>
    ensures { OnOk result (text.new.items ≡ text.old.items ++ joined (keyword.now ∷ decimal number ∷ [])) }
{
    text.extend_from_slice(keyword)?;
    text.extend_from_slice(b" ")?;
    print_u64(text, u64::from(number))
}

fn put_valued(text: &mut Vec<u8>, keyword: &[u8], name: &Name, value: i64) -> Result<(), AllocError>
    ensures { OnOk result (text.new.items ≡ text.old.items ++ joined (keyword.now ∷ name.now ∷ signed_decimal value ∷ [])) }
{
    put_named(text, keyword, name)?;
    text.extend_from_slice(b" ")?;
    print_i64(text, value)
}

#[tactic(auto, using(crate::proofs::Steps::op_put))]
fn put_op(
    text: &mut Vec<u8>,
    keyword: &[u8],
    name: &Name,
    objects: &[Name],
) -> Result<(), AllocError>
    ensures { OnOk result (text.new.items ≡ text.old.items ++ joined (keyword.now ∷ name.now ∷ objects.now)) }
{
    put_named(text, keyword, name)?;
    put_objects(text, objects)
}

fn put_objects(text: &mut Vec<u8>, objects: &[Name]) -> Result<(), AllocError>
    ensures { OnOk result (text.new.items ≡ text.old.items ++ after_words objects.now) }
{
    for object in objects {
        text.extend_from_slice(b" ")?;
        text.extend_from_slice(object.as_bytes())?;
    }
    Ok(())
}
