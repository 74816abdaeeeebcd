ghost use Rattle.std.specs.Prelude.{◌≡◌, ◌≢◌, Err};
ghost use Rattle.gp_replay.specs.Feasible.{end_of};

use crate::rule::{Rule, StepFault};
use crate::state::State;
use gp_window::{Schedule, Window};
use std::alloc::{AllocError, Global};

/// The state in which a replay ends.
pub type ReplayEnd = State;

/// Why a schedule was not replayed to its end.
#[derive(Clone, Copy, PartialEq, Eq)]
pub enum ReplayFault {
    /// The event at this place, from 0, is the first that may not happen, by this rule.
    Stuck { place: u64, rule: Rule },
    /// Want of memory.
    Memory,
}

impl From<AllocError> for ReplayFault {
    ghost use Rattle.std.specs.Prelude.{◌≡◌};
    ghost use Rattle.gp_replay.specs.declared.running.ReplayFault.TheVariants.{Memory};

    ghost from_gives = { λ _ e. e ≡ Memory };

    fn from(_error: AllocError) -> ReplayFault {
        ReplayFault::Memory
    }
}

/// Replays a schedule from the beginning of its window, and gives the state in which it ends.
pub fn replay(alloc: Global, window: &Window, schedule: &Schedule) -> Result<ReplayEnd, ReplayFault>
    ensures { result ≢ Err ReplayFault.Memory → result ≡ end_of window.now schedule.now.events }
{
    let mut state = State::new(alloc, window)?;
    for (place, id) in schedule.events.as_slice().iter().enumerate() {
        match state.step(window, *id) {
            Ok(()) => {}
            Err(StepFault::Broken(rule)) => {
                return Err(ReplayFault::Stuck {
                    place: place as u64,
                    rule,
                });
            }
            Err(StepFault::Memory) => return Err(ReplayFault::Memory),
        }
    }
    Ok(state)
}
