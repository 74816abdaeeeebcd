// Which instances properties have in the last window of a recording, and which schedules match one.
ghost use Rattle.std.specs.Prelude.{◌-◌, ◌<◌, ◌^◌, length};

use crate::layers::telling::tell;
use crate::layers::windows::last_window;
use gp_base::Row;
use gp_instance::{Instance, InstancesFault, instances, is_one_for_each, matches};
use gp_property::{Property, read_properties};
use gp_window::{EventId, Recording, Schedule, Window, event_id_of};
use gp_writer::{put_line, put_numbered_line};
use std::alloc::{AllocError, Global};

/// The number under which each property is listed.
const NUMBER: u32 = 7;

/// What is told of a list of instances.
#[derive(Clone, Copy)]
pub enum Listing {
    Whole,
    Count,
}

/// Tells the instances of each property of a text, or how many there are.
pub fn tell_instances(
    alloc: Global,
    out: &mut Vec<u8>,
    recording: &Recording,
    text: &[u8],
    listing: Listing,
) -> Result<(), AllocError>
    requires { length text.now < 2 ^ 32 - 1 }
{
    let window = last_window(alloc, recording)?;
    let told = tell_instances_in(alloc, out, &window, text, listing);
    drop(window);
    told
}

fn tell_instances_in(
    alloc: Global,
    out: &mut Vec<u8>,
    window: &Window,
    text: &[u8],
    listing: Listing,
) -> Result<(), AllocError>
    requires { length text.now < 2 ^ 32 - 1 }
{
    match read_properties(alloc, text) {
        Ok(properties) => {
            let told = tell_each(alloc, out, window, properties.as_slice(), listing);
            drop(properties);
            told
        }
        Err(fault) => tell(out, format!(in alloc; "{fault:?}")?.as_str()),
    }
}

fn tell_each(
    alloc: Global,
    out: &mut Vec<u8>,
    window: &Window,
    properties: &[Property],
    listing: Listing,
) -> Result<(), AllocError> {
    for property in properties {
        tell_of(alloc, out, window, property, listing)?;
    }
    Ok(())
}

fn tell_of(
    alloc: Global,
    out: &mut Vec<u8>,
    window: &Window,
    property: &Property,
    listing: Listing,
) -> Result<(), AllocError> {
    match instances(alloc, window, property, NUMBER) {
        Ok(listed) => {
            let told = tell_as(out, listed.as_slice(), listing);
            drop(listed);
            told
        }
        Err(InstancesFault::TooMany) => tell(out, "too many"),
        Err(InstancesFault::Memory) => Err(AllocError),
    }
}

fn tell_as(out: &mut Vec<u8>, listed: &[Instance], listing: Listing) -> Result<(), AllocError> {
    match listing {
        Listing::Whole => tell_listed(out, listed),
        Listing::Count => put_line(out, b"instances", &[listed.len() as u64]),
    }
}

fn tell_listed(out: &mut Vec<u8>, listed: &[Instance]) -> Result<(), AllocError> {
    for instance in listed {
        let number = u64::from(instance.property);
        put_numbered_line(out, b"instance", number, instance.events.as_slice())?;
    }
    Ok(())
}

/// Tells whether a schedule matches the events of an instance of the one property of a text.
pub fn tell_match(
    alloc: Global,
    out: &mut Vec<u8>,
    text: &[u8],
    events: &str,
    schedule: &str,
) -> Result<(), AllocError>
    requires { length text.now < 2 ^ 32 - 1 }
{
    match read_properties(alloc, text) {
        Ok(properties) => {
            let told = tell_match_of(alloc, out, properties.as_slice(), events, schedule);
            drop(properties);
            told
        }
        Err(fault) => tell(out, format!(in alloc; "{fault:?}")?.as_str()),
    }
}

fn tell_match_of(
    alloc: Global,
    out: &mut Vec<u8>,
    properties: &[Property],
    events: &str,
    schedule: &str,
) -> Result<(), AllocError> {
    let instance = Instance {
        property: NUMBER,
        events: ids_of(alloc, events)?,
    };
    let told = tell_matched(alloc, out, properties, &instance, schedule);
    drop(instance);
    told
}

fn tell_matched(
    alloc: Global,
    out: &mut Vec<u8>,
    properties: &[Property],
    instance: &Instance,
    schedule: &str,
) -> Result<(), AllocError> {
    let schedule = Schedule {
        events: ids_of(alloc, schedule)?,
    };
    let word = matched_word(properties, instance, &schedule);
    drop(schedule);
    tell(out, word)
}

fn matched_word(properties: &[Property], instance: &Instance, schedule: &Schedule) -> &'static str {
    match properties {
        [property] => match_word(property, instance, schedule),
        _ => "not one property",
    }
}

fn match_word(property: &Property, instance: &Instance, schedule: &Schedule) -> &'static str {
    if !is_one_for_each(property, instance) {
        return "not one event for each atom";
    }
    if matches(property, instance, schedule) {
        return "matches";
    }
    "matches not"
}

/// The events that words name; a word that names none is passed over.
fn ids_of(alloc: Global, words: &str) -> Result<Row<EventId>, AllocError> {
    let mut ids = Row::new(alloc);
    match add_ids(&mut ids, words) {
        Ok(()) => Ok(ids),
        Err(error) => {
            drop(ids);
            Err(error)
        }
    }
}

fn add_ids(ids: &mut Row<EventId>, words: &str) -> Result<(), AllocError> {
    for word in words.split(' ') {
        if let Some(id) = event_id_of(word.as_bytes()) {
            ids.push(id)?;
        }
    }
    Ok(())
}
