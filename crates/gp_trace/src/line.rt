ghost use Rattle.std.specs.Prelude.{◌≡◌, IfOk, codes, false};
ghost use Rattle.std.specs.Str.{bytes_eq};
ghost use Rattle.gp_trace.specs.Event.{alone, at_most_four, both, did, entry_of, event_of, name_alone, name_and_objects, name_and_value, names_of, number_alone, shared_of};

use crate::event::Event;
use crate::operation::Operation;
use gp_base::Row;
use gp_text::{Name, Words, read_i64, read_u32};
use std::alloc::{AllocError, Global};

/// The most objects that an operation has.
const MOST_OBJECTS: usize = 4;

/// The format whose lines name shared locks too.
const SHARED_LOCKS: u32 = 2;

/// What a line of a trace says.
#[derive(Drop)]
pub enum Entry {
    /// The thread did this.
    Did(Event),
    /// The segment ends.
    Mark,
    /// The thread ends.
    Exit,
}

/// The entry that a line's words spell in a format, and `None` where they spell none.
pub fn entry_of(alloc: Global, format: u32, words: Words) -> Result<Option<Entry>, AllocError>
    ensures { IfOk result (λ entry. entry ≡ entry_of format words.entry) }
{
    let mut words = words;
    let Some(keyword) = words.next() else {
        return Ok(None);
    };
    if keyword == b"mark".as_slice() {
        Ok(alone(Entry::Mark, words))
    } else if keyword == b"exit".as_slice() {
        Ok(alone(Entry::Exit, words))
    } else {
        Ok(did(event_of(alloc, format, keyword, words)?))
    }
}

fn alone(entry: Entry, words: Words) -> Option<Entry>
    ensures { result ≡ alone entry words.entry }
{
    let mut words = words;
    match words.next() {
        None => Some(entry),
        Some(_) => None,
    }
}

fn did(event: Option<Event>) -> Option<Entry>
    ensures { result ≡ did event }
{
    match event {
        Some(event) => Some(Entry::Did(event)),
        None => None,
    }
}

fn event_of(
    alloc: Global,
    format: u32,
    keyword: &[u8],
    words: Words,
) -> Result<Option<Event>, AllocError>
    ensures { IfOk result (λ event. event ≡ event_of format keyword.now words.entry) }
{
    if keyword == b"read".as_slice() {
        Ok(name_and_value(words).map(|(name, value)| Event::Read(name, value)))
    } else if keyword == b"write".as_slice() {
        Ok(name_and_value(words).map(|(name, value)| Event::Write(name, value)))
    } else if keyword == b"acquire".as_slice() {
        Ok(name_alone(words).map(|lock| Event::Acquire(lock)))
    } else if keyword == b"release".as_slice() {
        Ok(name_alone(words).map(|lock| Event::Release(lock)))
    } else {
        event_of_other(alloc, format, keyword, words)
    }
}

// The event of a keyword that is none of `read`, `write`, `acquire` and `release`.
fn event_of_other(
    alloc: Global,
    format: u32,
    keyword: &[u8],
    words: Words,
) -> Result<Option<Event>, AllocError>
    requires no_read { bytes_eq keyword.now (codes "read") ≡ false }
    requires no_write { bytes_eq keyword.now (codes "write") ≡ false }
    requires no_acquire { bytes_eq keyword.now (codes "acquire") ≡ false }
    requires no_release { bytes_eq keyword.now (codes "release") ≡ false }
    ensures { IfOk result (λ event. event ≡ event_of format keyword.now words.entry) }
{
    if keyword == b"start".as_slice() {
        Ok(number_alone(words).map(|thread| Event::Start(thread)))
    } else if keyword == b"join".as_slice() {
        Ok(number_alone(words).map(|thread| Event::Join(thread)))
    } else if keyword == b"op".as_slice() {
        Ok(name_and_objects(alloc, words)?.map(|operation| Event::Op(operation)))
    } else if keyword == b"begin".as_slice() {
        Ok(name_alone(words).map(|region| Event::Begin(region)))
    } else if keyword == b"end".as_slice() {
        Ok(name_alone(words).map(|region| Event::End(region)))
    } else if format == SHARED_LOCKS {
        Ok(shared_of(keyword, words))
    } else {
        Ok(None)
    }
}

fn shared_of(keyword: &[u8], words: Words) -> Option<Event>
    ensures { result ≡ shared_of keyword.now words.entry }
{
    if keyword == b"racquire".as_slice() {
        name_alone(words).map(|lock| Event::RAcquire(lock))
    } else if keyword == b"rrelease".as_slice() {
        name_alone(words).map(|lock| Event::RRelease(lock))
    } else {
        None
    }
}

fn name_alone(words: Words) -> Option<Name>
    ensures { result ≡ name_alone words.entry }
{
    let mut words = words;
    let name = words.next()?;
    if words.next().is_some() {
        return None;
    }
    Name::of(name)
}

fn number_alone(words: Words) -> Option<u32>
    ensures { result ≡ number_alone words.entry }
{
    let mut words = words;
    let number = words.next()?;
    if words.next().is_some() {
        return None;
    }
    read_u32(number)
}

fn name_and_value(words: Words) -> Option<(Name, i64)>
    ensures { result ≡ name_and_value words.entry }
{
    let mut words = words;
    match (words.next(), words.next(), words.next()) {
        (Some(name), Some(value), None) => both(Name::of(name), read_i64(value)),
        _ => None,
    }
}

// The name and the value, where both are there.
fn both(name: Option<Name>, value: Option<i64>) -> Option<(Name, i64)>
    ensures { result ≡ both name value }
{
    match (name, value) {
        (Some(name), Some(value)) => Some((name, value)),
        _ => None,
    }
}

fn name_and_objects(alloc: Global, words: Words) -> Result<Option<Operation>, AllocError>
    ensures { IfOk result (λ operation. operation ≡ name_and_objects words.entry) }
{
    let mut words = words;
    let Some(name) = words.next() else {
        return Ok(None);
    };
    let Some(objects) = at_most_four(names_of(alloc, words)?) else {
        return Ok(None);
    };
    match Name::of(name) {
        Some(name) => Ok(Some(Operation::on_objects(alloc, name, objects)?)),
        None => Ok(None),
    }
}

fn at_most_four(names: Option<Row<Name>>) -> Option<Row<Name>>
    ensures { result ≡ at_most_four names }
{
    match names {
        Some(names) if names.len() <= MOST_OBJECTS => Some(names),
        _ => None,
    }
}

fn names_of(alloc: Global, words: Words) -> Result<Option<Row<Name>>, AllocError>
    ensures { IfOk result (λ names. names ≡ names_of words.entry) }
{
    let mut words = words;
    let mut names = Row::new(alloc);
    while let Some(word) = words.next() {
        match Name::of(word) {
            Some(name) => names.push(name)?,
            None => return Ok(None),
        }
    }
    Ok(Some(names))
}
