ghost use Rattle.std.specs.Prelude.{◌≡◌, true, IfOk};
ghost use Rattle.gp_instance.specs.Instance.{is_instance};
ghost use Rattle.gp_instance.specs.Matches.{matches_events};
ghost use Rattle.gp_replay.specs.Feasible.{IsFeasible};
ghost use Rattle.gp_witness.specs.Answered.{SolvesInstance, SolvesWindow, IsWitness};
ghost use Rattle.gp_witness.specs.Witness.{IsByPlace};

use crate::cutting::up_to_last;
use crate::executed::executed_events;
use crate::sound::witnesses_are_sound;
use gp_clause::Valuation;
use gp_constraint::Encoded;
use gp_instance::Instance;
use gp_property::Property;
use gp_window::Schedule;
use std::alloc::{AllocError, Global};

/// The executed events of an answer to the problem of a window, by place, then by thread, then by index: a feasible
/// schedule.
pub fn executed_of(
    alloc: Global,
    encoded: &Encoded,
    valuation: &Valuation,
) -> Result<Schedule, AllocError>
    requires { SolvesWindow encoded.now valuation.now }
    ensures order { IfOk result (λ schedule. IsByPlace encoded.now valuation.now schedule.events) }
    ensures feasible { IfOk result (λ schedule. IsFeasible encoded.now schedule.events) }
{
    encoded.window().comes_from_recording();
    witnesses_are_sound();
    by_place(alloc, encoded, valuation)
}

fn by_place(alloc: Global, encoded: &Encoded, valuation: &Valuation) -> Result<Schedule, AllocError>
    ensures { IfOk result (λ schedule. IsByPlace encoded.now valuation.now schedule.events) }
{
    executed_events(alloc, encoded.window(), valuation)
}

/// The same of an answer to the query of an instance, up to the last event of the instance: a feasible schedule that
/// matches the instance.
pub fn schedule_of(
    alloc: Global,
    encoded: &Encoded,
    property: &Property,
    instance: &Instance,
    valuation: &Valuation,
) -> Result<Schedule, AllocError>
    requires instance { is_instance encoded.now property.now instance.now.events ≡ true }
    requires answer { SolvesInstance encoded.now property.now instance.now.events valuation.now }
    ensures order { IfOk result (λ schedule. IsWitness encoded.now valuation.now instance.now.events schedule.events) }
    ensures feasible { IfOk result (λ schedule. IsFeasible encoded.now schedule.events) }
    ensures matches { IfOk result (λ schedule. matches_events property.now instance.now.events schedule.events ≡ true) }
{
    encoded.window().comes_from_recording();
    property.keeps_rules();
    witnesses_are_sound();
    let executed = by_place(alloc, encoded, valuation)?;
    let events = up_to_last(instance.events.as_slice(), executed.events);
    Ok(Schedule { events })
}
