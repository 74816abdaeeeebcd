ghost use Rattle.std.specs.Prelude.{◌≡◌, ◌≢◌, ◌-◌, ◌^◌, ◌<◌, Err, IfOk, length};
ghost use Rattle.std.specs.List.{AllByRecursion};
ghost use Rattle.gp_property.specs.Pattern.{pattern_of};
ghost use Rattle.gp_property.specs.Property.{IsProperty};
ghost use Rattle.gp_property.specs.Reading.{all_read, at_end, begun, is_bare_pattern, is_taken, line_at, line_within, next_line, nothing_read, properties_from, properties_of, property_name_of, with_event, with_pattern};
ghost use Rattle.gp_property.specs.Shape.{definition_of};

use crate::checks::{check_pattern, is_defined};
use crate::fault::PropertyFault;
use crate::laws::reads_exactly;
use crate::pattern::pattern_of;
use crate::property::{EventDef, MOST_EVENTS, MOST_PROPERTIES, Property};
use crate::shape::definition_of;
use gp_base::Row;
use gp_text::{Line, Name, Word, end_line, one_spelling, read_lines};
use std::alloc::Global;
use std::marker::Model;

/// A property whose pattern is still due.
#[derive(Drop)]
pub struct Draft {
    name: Name,
    events: Row<EventDef>,
}

impl Model for Draft {
    ghost use Rattle.gp_property.specs.Draft.{DraftForm, IsDraft};

    ghost Value = { DraftForm };

    ghost view = { λ d. record { name = d.name; events = d.events } };

    ghost invariant = { λ d. IsDraft (record { name = d.name; events = d.events }) };
}

/// What the lines so far have told.
#[derive(Drop)]
pub struct Reading {
    pub done: Row<Property>,
    pub draft: Option<Draft>,
}

/// Reads a file of 1 to 64 properties. Each is a line `property NAME`, up to 16 lines `event NAME SHAPE`
/// and a line `pattern ATOM ..`, where `||` between two atoms puts them into one group. The end of a
/// text counts as the line after its last newline.
pub fn read_properties(alloc: Global, bytes: &[u8]) -> Result<Row<Property>, PropertyFault>
    requires { length bytes.now < 2 ^ 32 - 1 }
    ensures exact { result ≢ Err PropertyFault.Memory → result ≡ properties_of bytes.now }
    ensures valid { IfOk result (λ properties. AllByRecursion IsProperty properties) }
{
    reads_exactly();
    let lines = read_lines(alloc, bytes)?;
    let properties = properties_from(alloc, end_line(bytes), lines.as_slice());
    drop(lines);
    properties
}

fn properties_from(alloc: Global, last: u32, lines: &[Line]) -> Result<Row<Property>, PropertyFault>
    ensures { result ≢ Err PropertyFault.Memory → result ≡ properties_from last lines.now }
{
    let mut reading = nothing_read(alloc);
    for line in lines {
        reading = next_line(alloc, reading, line)?;
    }
    finish(last, reading)
}

fn nothing_read(alloc: Global) -> Reading
    ensures { result ≡ nothing_read }
{
    Reading {
        done: Row::new(alloc),
        draft: None,
    }
}

fn finish(last: u32, reading: Reading) -> Result<Row<Property>, PropertyFault>
    ensures { result ≡ at_end last reading.done reading.draft }
{
    let Reading { done, draft } = reading;
    let is_due = draft.is_some() || done.is_empty();
    drop(draft);
    if is_due {
        drop(done);
        return Err(PropertyFault::Empty(last));
    }
    Ok(done)
}

fn next_line(alloc: Global, reading: Reading, line: &Line) -> Result<Reading, PropertyFault>
    ensures { result ≢ Err PropertyFault.Memory → result ≡ next_line reading line.now }
{
    let words = line.words.as_slice();
    if is_bare_pattern(words) {
        drop(reading);
        return Err(PropertyFault::Empty(line.number));
    }
    let Reading { done, draft } = reading;
    match draft {
        Some(draft) => line_within(alloc, done, draft, line.number, words),
        None => begin(alloc, done, line.number, words),
    }
}

fn is_bare_pattern(words: &[Word]) -> bool
    ensures { result ≡ is_bare_pattern words.now }
{
    match words {
        [keyword] => keyword.as_bytes() == b"pattern".as_slice(),
        _ => false,
    }
}

fn property_name_of(words: &[Word]) -> Option<Name>
    ensures { result ≡ property_name_of words.now }
{
    match words {
        [keyword, name] if keyword.as_bytes() == b"property".as_slice() => {
            Name::of(name.as_bytes())
        }
        _ => None,
    }
}

fn begin(
    alloc: Global,
    done: Row<Property>,
    number: u32,
    words: &[Word],
) -> Result<Reading, PropertyFault>
    ensures { result ≡ begun done number (property_name_of words.now) }
{
    let Some(name) = property_name_of(words) else {
        drop(done);
        return Err(PropertyFault::BadWord(number));
    };
    if done.len() >= MOST_PROPERTIES {
        drop(done);
        return Err(PropertyFault::BadWord(number));
    }
    if is_taken(done.as_slice(), &name) {
        drop(done);
        return Err(PropertyFault::RepeatedName(number));
    }
    let events = Row::new(alloc);
    Ok(Reading {
        done,
        draft: Some(Draft { name, events }),
    })
}

fn is_taken(done: &[Property], name: &Name) -> bool
    ensures { result ≡ is_taken done.now name.now }
{
    done.iter().any(|property| property.name() == name)
}

fn line_within(
    alloc: Global,
    done: Row<Property>,
    draft: Draft,
    number: u32,
    words: &[Word],
) -> Result<Reading, PropertyFault>
    ensures { result ≢ Err PropertyFault.Memory → result ≡ line_within done draft number words.now }
{
    let Some((first, rest)) = words.split_first() else {
        drop((done, draft));
        return Err(PropertyFault::BadWord(number));
    };
    let keyword = first.as_bytes();
    if keyword == b"property".as_slice() {
        drop((done, draft));
        Err(PropertyFault::Empty(number))
    } else if keyword == b"event".as_slice() {
        add_event(alloc, done, draft, number, rest)
    } else if keyword == b"pattern".as_slice() {
        add_pattern(alloc, done, draft, number, rest)
    } else {
        drop((done, draft));
        Err(PropertyFault::BadWord(number))
    }
}

fn add_event(
    alloc: Global,
    done: Row<Property>,
    draft: Draft,
    number: u32,
    words: &[Word],
) -> Result<Reading, PropertyFault>
    ensures { result ≢ Err PropertyFault.Memory → result ≡ with_event done draft number (definition_of words.now) }
{
    one_spelling();
    let event = match definition_of(alloc, words) {
        Ok(Some(event)) => event,
        Ok(None) => {
            drop((done, draft));
            return Err(PropertyFault::BadWord(number));
        }
        Err(error) => {
            drop((done, draft));
            return Err(PropertyFault::from(error));
        }
    };
    let Draft { name, mut events } = draft;
    if events.len() >= MOST_EVENTS {
        drop((done, events, event));
        return Err(PropertyFault::BadWord(number));
    }
    if is_defined(events.as_slice(), &event.name) {
        drop((done, events, event));
        return Err(PropertyFault::RepeatedName(number));
    }
    match events.push(event) {
        Ok(()) => Ok(Reading {
            done,
            draft: Some(Draft { name, events }),
        }),
        Err(error) => {
            drop((done, events));
            Err(PropertyFault::from(error))
        }
    }
}

fn add_pattern(
    alloc: Global,
    mut done: Row<Property>,
    draft: Draft,
    number: u32,
    words: &[Word],
) -> Result<Reading, PropertyFault>
    ensures { result ≢ Err PropertyFault.Memory → result ≡ with_pattern done draft number (pattern_of words.now) }
{
    let pattern = match pattern_of(alloc, words) {
        Ok(Some(pattern)) => pattern,
        Ok(None) => {
            drop((done, draft));
            return Err(PropertyFault::BadWord(number));
        }
        Err(error) => {
            drop((done, draft));
            return Err(PropertyFault::from(error));
        }
    };
    let Draft { name, events } = draft;
    match check_pattern(alloc, number, events.as_slice(), pattern.as_slice()) {
        Ok(()) => {
            done.push(Property::new(name, events, pattern))?;
            Ok(Reading { done, draft: None })
        }
        Err(fault) => {
            drop((done, events, pattern));
            Err(fault)
        }
    }
}
