ghost use Rattle.std.specs.Prelude.{◌≡◌, true, IfOk};
ghost use Rattle.gp_replay.specs.Feasible.{Runs};
ghost use Rattle.gp_replay.specs.Step.{count_of, start_state};
ghost use Rattle.gp_stuck.specs.Cycle.{is_cycle};
ghost use Rattle.gp_deadlock_checker.specs.Finds.{FindsSchedule, are_next, is_next};

use crate::laws::laws;
use gp_checker::{Failure, Reason};
use gp_instance::Instance;
use gp_replay::{ReplayFault, State, replay};
use gp_window::{EventId, Schedule, Window};
use std::alloc::{AllocError, Global};

// How a schedule fails: it is stuck at one of its own events, or it does not end with the events of the cycle blocking one another.
pub(crate) fn check_schedule(
    alloc: Global,
    window: &Window,
    cycle: &Instance,
    schedule: &Schedule,
) -> Result<Option<Failure>, AllocError>
    requires { is_cycle window.now cycle.now.events ≡ true }
    ensures { IfOk result (FindsSchedule window.now cycle.now.events schedule.now.events) }
{
    laws();
    match replay(alloc, window, schedule) {
        Ok(end) => {
            let found = check_end(window, cycle, schedule, &end);
            drop(end);
            Ok(found)
        }
        Err(ReplayFault::Stuck { place, rule: _rule }) => {
            Ok(Some(Failure::of(Reason::Stuck, place)))
        }
        Err(ReplayFault::Memory) => Err(AllocError),
    }
}

// How a schedule fails that leads to this state: some event of the cycle is not the next one of its thread.
fn check_end(
    window: &Window,
    cycle: &Instance,
    _schedule: &Schedule,
    end: &State,
) -> Option<Failure>
    requires cycle { is_cycle window.now cycle.now.events ≡ true }
    requires runs { Runs window.now (start_state window.now) _schedule.now.events end.now }
    ensures { FindsSchedule window.now cycle.now.events _schedule.now.events result }
{
    window.comes_from_recording();
    laws();
    if are_next(end, cycle.events.as_slice()) {
        return None;
    }
    Some(Failure::of(Reason::Unmatched, 0))
}

// Whether each of these events is the next one of its thread.
fn are_next(state: &State, ids: &[EventId]) -> bool
    ensures { result ≡ are_next state.now ids.now }
{
    ids.iter().all(|id| is_next(state, *id))
}

fn is_next(state: &State, id: EventId) -> bool
    ensures { result ≡ is_next state.now id }
{
    count_of(state, id.thread) == id.index
}

// How many of its events a thread has done.
fn count_of(state: &State, thread: u32) -> u32
    ensures { result ≡ count_of state.now thread }
{
    match thread.checked_sub(1) {
        Some(place) => state
            .counts
            .as_slice()
            .get(place as usize)
            .copied()
            .unwrap_or(0),
        None => 0,
    }
}
