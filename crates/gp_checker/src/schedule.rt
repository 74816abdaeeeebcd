ghost use Rattle.std.specs.Prelude.{◌≡◌, true, IfOk};
ghost use Rattle.gp_instance.specs.Instance.{is_instance};
ghost use Rattle.gp_replay.specs.Feasible.{IsFeasible};
ghost use Rattle.gp_checker.specs.Finds.{FindsSchedule};

use crate::failure::{Failure, Reason};
use crate::laws::laws;
use gp_instance::{Instance, matches};
use gp_property::Property;
use gp_replay::{ReplayFault, replay};
use gp_window::{Schedule, Window};
use std::alloc::{AllocError, Global};

// How a schedule fails: it is stuck, or it does not match the instance.
pub(crate) fn check_schedule(
    alloc: Global,
    window: &Window,
    property: &Property,
    instance: &Instance,
    schedule: &Schedule,
) -> Result<Option<Failure>, AllocError>
    requires { is_instance window.now property.now instance.now.events ≡ true }
    ensures { IfOk result (FindsSchedule window.now property.now instance.now.events schedule.now.events) }
{
    laws();
    match replay(alloc, window, schedule) {
        Ok(_end) => Ok(check_match(window, property, instance, schedule)),
        Err(ReplayFault::Stuck { place, rule: _rule }) => Ok(Some(Failure::of(
            Reason::Stuck,
            place,
        ))),
        Err(ReplayFault::Memory) => Err(AllocError),
    }
}

// How a feasible schedule fails.
fn check_match(
    window: &Window,
    property: &Property,
    instance: &Instance,
    schedule: &Schedule,
) -> Option<Failure>
    requires instance { is_instance window.now property.now instance.now.events ≡ true }
    requires feasible { IsFeasible window.now schedule.now.events }
    ensures { FindsSchedule window.now property.now instance.now.events schedule.now.events result }
{
    property.keeps_rules();
    laws();
    if matches(property, instance, schedule) {
        return None;
    }
    Some(Failure::of(Reason::Unmatched, 0))
}
