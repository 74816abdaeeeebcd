ghost use Rattle.std.specs.Prelude.{◌≡◌, ◌++◌, OnOk, option_map};
ghost use Rattle.gp_text.specs.Spelling.{after_words};
ghost use Rattle.gp_place.specs.Places.{behind, behind_colon, entry_of, named, number_at, numbers_in, place_at, place_text};

use gp_base::Row;
use gp_text::print_u64;
use gp_window::{EventId, put_event_id};
use std::alloc::AllocError;

/// A place in the program.
#[derive(Drop)]
pub struct Place {
    /// The name of its source file.
    pub file: Row<u8>,
    /// The number of its line, from 1; 0 where none is known.
    pub line: u32,
    /// The name of its function.
    pub function: Row<u8>,
    /// What is shown of that line of the file; nothing where that lacks.
    pub source: Row<u8>,
}

/// Where in the program the events of a recording are. A place has a number, from 1.
#[derive(Drop)]
pub struct Places {
    /// The places, in order of number.
    pub places: Row<Place>,
    /// The number of the place of each event, by thread, window and index; 0 where none is told.
    pub numbers: Row<Row<Row<u32>>>,
}

/// The place of an event, where it is told.
pub fn place_at(places: &Places, window: u32, event: EventId) -> Option<&Place>
    ensures { option_map (λ place. place.now) result ≡ place_at places.now window event }
{
    entry_of(places.places.as_slice(), number_at(places, window, event))
}

/// The number of an event's place; 0 where none is told.
fn number_at(places: &Places, window: u32, event: EventId) -> u32
    ensures { result ≡ number_at places.now window event }
{
    let numbers = numbers_in(places, window, event.thread);
    numbers.get(event.index as usize).copied().unwrap_or(0)
}

fn numbers_in(places: &Places, window: u32, thread: u32) -> &[u32]
    ensures { result.now ≡ numbers_in places.now window thread }
{
    let Some(windows) = entry_of(places.numbers.as_slice(), thread) else {
        return &[];
    };
    match entry_of(windows.as_slice(), window) {
        Some(numbers) => numbers.as_slice(),
        None => &[],
    }
}

/// The entry of this number, from 1.
fn entry_of<T>(entries: &[T], number: u32) -> Option<&T>
    ensures { option_map (λ entry. entry.now) result ≡ entry_of entries.now number }
{
    let place = number.checked_sub(1)?;
    entries.get(place as usize)
}

/// Puts the place of an event behind what stands in the line, with what is told of the source there, where the place is told.
pub fn put_behind(
    text: &mut Vec<u8>,
    places: &Places,
    window: u32,
    event: EventId,
) -> Result<(), AllocError>
    ensures { OnOk result (text.new.items ≡ text.old.items ++ after_words (behind places.now window event)) }
{
    let Some(place) = place_at(places, window, event) else {
        return Ok(());
    };
    text.extend_from_slice(b"  ")?;
    put_place(text, place)?;
    put_behind_colon(text, place.source.as_slice())
}

/// Puts the text of a place.
fn put_place(text: &mut Vec<u8>, place: &Place) -> Result<(), AllocError>
    ensures { OnOk result (text.new.items ≡ text.old.items ++ place_text place.now) }
{
    text.extend_from_slice(place.file.as_slice())?;
    text.push(b':')?;
    print_u64(text, u64::from(place.line))?;
    text.extend_from_slice(b" in ")?;
    text.extend_from_slice(place.function.as_slice())
}

fn put_behind_colon(text: &mut Vec<u8>, source: &[u8]) -> Result<(), AllocError>
    ensures { OnOk result (text.new.items ≡ text.old.items ++ behind_colon source.now) }
{
    if source.is_empty() {
        return Ok(());
    }
    text.extend_from_slice(b": ")?;
    text.extend_from_slice(source)
}

/// Puts the id of an event, with its place in parentheses where that is told.
pub fn put_named(
    text: &mut Vec<u8>,
    places: &Places,
    window: u32,
    event: EventId,
) -> Result<(), AllocError>
    ensures { OnOk result (text.new.items ≡ text.old.items ++ named places.now window event) }
{
    put_event_id(text, event)?;
    let Some(place) = place_at(places, window, event) else {
        return Ok(());
    };
    text.extend_from_slice(b" (")?;
    put_place(text, place)?;
    text.extend_from_slice(b")")
}
