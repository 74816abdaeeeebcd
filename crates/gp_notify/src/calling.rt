ghost use Rattle.std.specs.Prelude.{◌≡◌, Some};
ghost use Rattle.gp_notify.specs.Calls.{call_at, call_in, call_named, call_on};

use crate::call::Call;
use gp_text::Name;
use gp_trace::{Event, Operation};
use gp_window::{EventId, Window};

/// What an event does to a condition, where it does anything.
pub fn call_of(event: &Event) -> Option<Call>
    ensures { result ≡ call_in (Some event.now) }
{
    match event {
        Event::Op(operation) => call_on(operation),
        _ => None,
    }
}

/// What the event that an id names does to a condition.
pub fn call_at(window: &Window, id: EventId) -> Option<Call>
    ensures { result ≡ call_at window.now id }
{
    match window.event(id) {
        Some(event) => call_of(event),
        None => None,
    }
}

fn call_on(operation: &Operation) -> Option<Call>
    ensures { result ≡ call_on operation.now.0 operation.now.1 }
{
    match operation.objects() {
        [condition] => call_named(operation.name().as_bytes(), condition),
        [] | [_, _, ..] => None,
    }
}

fn call_named(name: &[u8], condition: &Name) -> Option<Call>
    ensures { result ≡ call_named name.now condition.now }
{
    if name == b"sleep".as_slice() {
        Some(Call::Sleep(*condition))
    } else if name == b"wake".as_slice() {
        Some(Call::Wake(*condition))
    } else if name == b"notify".as_slice() {
        Some(Call::Notify(*condition))
    } else if name == b"notifyall".as_slice() {
        Some(Call::NotifyAll(*condition))
    } else {
        None
    }
}
