ghost use Rattle.std.specs.Prelude.{◌≡◌, ℕ, MatchOption, Option, Some, slice_get};
ghost use Rattle.gp_notify.specs.Calls.{call_at, call_in};
ghost use Rattle.gp_notify.specs.Sleeping.{sleep_for, sleep_index, slept_at, turned};

use crate::call::Call;
use crate::calling::{call_at, call_of};
use gp_text::Name;
use gp_trace::Event;
use gp_window::{EventId, Window};

/// The index of the sleep of a wake in its thread, where the event is a wake and has one.
pub fn sleep_index(window: &Window, wake: EventId) -> Option<u32>
    ensures { result ≡ sleep_index window.now wake }
{
    match call_at(window, wake) {
        Some(call) => sleep_for(window, wake, &call),
        None => None,
    }
}

fn sleep_for(window: &Window, wake: EventId, call: &Call) -> Option<u32>
    ensures { result ≡ sleep_for window.now wake (Some call.now) }
{
    match call {
        Call::Wake(condition) => slept_at(condition, window.segment(wake.thread), wake.index),
        _ => None,
    }
}

/// The index of the last sleep on a condition among so many first events of a thread, where no wake from it comes later.
fn slept_at(condition: &Name, events: &[Event], count: u32) -> Option<u32>
    ensures { result ≡ slept_at condition.now events.now count }
{
    for index in (0..count).rev() {
        if let Some(found) = ended_at(condition, events, index) {
            return found;
        }
    }
    None
}

/// What a look back has found that ends at an event, where it ends there.
fn ended_at(condition: &Name, events: &[Event], index: u32) -> Option<Option<u32>>
    ensures { MatchOption result ((rest : Option ℕ) → turned condition.now (call_in (slice_get events.now index)) index rest ≡ rest) (λ found. (rest : Option ℕ) → turned condition.now (call_in (slice_get events.now index)) index rest ≡ found) }
{
    match call_in(events, index) {
        Some(call) => ended_by(condition, &call, index),
        None => None,
    }
}

/// The call of an event of a thread, where there is one.
fn call_in(events: &[Event], index: u32) -> Option<Call>
    ensures { result ≡ call_in (slice_get events.now index) }
{
    call_of(events.get(index as usize)?)
}

fn ended_by(condition: &Name, call: &Call, index: u32) -> Option<Option<u32>>
    ensures { MatchOption result ((rest : Option ℕ) → turned condition.now (Some call.now) index rest ≡ rest) (λ found. (rest : Option ℕ) → turned condition.now (Some call.now) index rest ≡ found) }
{
    match call {
        Call::Sleep(other) if other == condition => Some(Some(index)),
        Call::Wake(other) if other == condition => Some(None),
        _ => None,
    }
}
