ghost use Rattle.std.specs.Prelude.{◌≡◌, Some};
ghost use Rattle.std.specs.Bool.{Decides};
ghost use Rattle.std.specs.List.{list_all};
ghost use Rattle.gp_replay.specs.Feasible.{IsFeasible};
ghost use Rattle.gp_instance.specs.Matches.{is_before, place_of};
ghost use Rattle.gp_instance.specs.Pairs.{all_pairs};
ghost use Rattle.gp_notify.specs.Calls.{call_at, is_notify, is_wake, signals_for, signals_on};
ghost use Rattle.gp_notify.specs.Deciding.{are_apart, comes_after, has_wake, is_paired, is_served, is_signalled, share_notify};
ghost use Rattle.gp_notify.specs.Signalled.{IsSignalled};
ghost use Rattle.gp_notify.specs.Sleeping.{sleep_index};

use crate::call::Call;
use crate::calling::call_at;
use crate::laws::test_is_exact;
use crate::pair::Pair;
use crate::sleeping::sleep_index;
use gp_text::Name;
use gp_window::{EventId, Schedule, Window};

/// Whether a feasible schedule is signalled with these pairs: each of its wakes has one pair and no other event has any, with a
/// signal of its condition by another thread between its sleep and it; and no signal to one is in two pairs. Takes no memory.
pub fn signalled(window: &Window, schedule: &Schedule, pairs: &[Pair]) -> bool
    requires { IsFeasible window.now schedule.now.events }
    ensures { Decides result (IsSignalled window.now schedule.now.events pairs.now) }
{
    test_is_exact();
    is_signalled(window, schedule.events.as_slice(), pairs)
}

fn is_signalled(window: &Window, schedule: &[EventId], pairs: &[Pair]) -> bool
    ensures { result ≡ is_signalled window.now schedule.now pairs.now }
{
    all_paired(window, schedule, pairs)
        && all_served(window, schedule, pairs)
        && all_apart(window, pairs)
}

fn all_paired(window: &Window, schedule: &[EventId], pairs: &[Pair]) -> bool
    ensures { result ≡ list_all (is_paired window.now pairs.now) schedule.now }
{
    schedule.iter().all(|id| is_paired(window, pairs, *id))
}

/// Whether an event, if it is a wake, has a pair.
fn is_paired(window: &Window, pairs: &[Pair], id: EventId) -> bool
    ensures { result ≡ is_paired window.now pairs.now id }
{
    !is_wake(window, id) || has_wake(pairs, id)
}

fn is_wake(window: &Window, id: EventId) -> bool
    ensures { result ≡ is_wake (call_at window.now id) }
{
    matches!(call_at(window, id), Some(Call::Wake(_)))
}

fn has_wake(pairs: &[Pair], wake: EventId) -> bool
    ensures { result ≡ has_wake pairs.now wake }
{
    pairs.iter().any(|pair| pair.wake == wake)
}

fn all_served(window: &Window, schedule: &[EventId], pairs: &[Pair]) -> bool
    ensures { result ≡ list_all (is_served window.now schedule.now) pairs.now }
{
    pairs.iter().all(|pair| is_served(window, schedule, pair))
}

/// Whether the signal is one for the wake, between its sleep and it.
fn is_served(window: &Window, schedule: &[EventId], pair: &Pair) -> bool
    ensures { result ≡ is_served window.now schedule.now pair.now }
{
    let Pair { wake, signal } = *pair;
    signals_for(window, wake, signal)
        && signal.thread != wake.thread
        && comes_after(window, schedule, wake, signal)
        && stands_before(schedule, signal, wake)
}

/// Whether the second event signals the condition from which the first wakes.
fn signals_for(window: &Window, wake: EventId, signal: EventId) -> bool
    ensures { result ≡ signals_for (call_at window.now wake) (call_at window.now signal) }
{
    match (call_at(window, wake), call_at(window, signal)) {
        (Some(wake), Some(signal)) => is_signal_for(&wake, &signal),
        _ => false,
    }
}

fn is_signal_for(wake: &Call, signal: &Call) -> bool
    ensures { result ≡ signals_for (Some wake.now) (Some signal.now) }
{
    match wake {
        Call::Wake(condition) => signals_on(condition, signal),
        _ => false,
    }
}

fn signals_on(condition: &Name, call: &Call) -> bool
    ensures { result ≡ signals_on condition.now (Some call.now) }
{
    match call {
        Call::Notify(other) | Call::NotifyAll(other) => other == condition,
        _ => false,
    }
}

/// Whether the signal stands after the sleep of the wake.
fn comes_after(window: &Window, schedule: &[EventId], wake: EventId, signal: EventId) -> bool
    ensures { result ≡ comes_after schedule.now wake.thread (sleep_index window.now wake) signal }
{
    let thread = wake.thread;
    match sleep_index(window, wake) {
        Some(index) => stands_before(schedule, EventId { thread, index }, signal),
        None => false,
    }
}

fn stands_before(schedule: &[EventId], one: EventId, other: EventId) -> bool
    ensures { result ≡ is_before (place_of schedule.now one) (place_of schedule.now other) }
{
    is_before(place_of(schedule, one), place_of(schedule, other))
}

fn place_of(schedule: &[EventId], id: EventId) -> Option<usize>
    ensures { result ≡ place_of schedule.now id }
{
    schedule.iter().position(|other| *other == id)
}

fn is_before(earlier: Option<usize>, later: Option<usize>) -> bool
    ensures { result ≡ is_before earlier later }
{
    match (earlier, later) {
        (Some(earlier), Some(later)) => earlier < later,
        _ => false,
    }
}

/// Whether no two pairs have one wake, or one signal that signals to one.
fn all_apart(window: &Window, pairs: &[Pair]) -> bool
    ensures { result ≡ all_pairs (are_apart window.now) pairs.now }
{
    for (place, one) in pairs.iter().enumerate() {
        if !is_apart_from(window, one, &pairs[place + 1..]) {
            return false;
        }
    }
    true
}

fn is_apart_from(window: &Window, one: &Pair, others: &[Pair]) -> bool
    ensures { result ≡ list_all (are_apart window.now one.now) others.now }
{
    others.iter().all(|other| are_apart(window, one, other))
}

fn are_apart(window: &Window, one: &Pair, other: &Pair) -> bool
    ensures { result ≡ are_apart window.now one.now other.now }
{
    one.wake != other.wake && !share_notify(window, one, other)
}

fn share_notify(window: &Window, one: &Pair, other: &Pair) -> bool
    ensures { result ≡ share_notify window.now one.now other.now }
{
    one.signal == other.signal && is_notify(window, one.signal)
}

fn is_notify(window: &Window, id: EventId) -> bool
    ensures { result ≡ is_notify (call_at window.now id) }
{
    matches!(call_at(window, id), Some(Call::Notify(_)))
}
