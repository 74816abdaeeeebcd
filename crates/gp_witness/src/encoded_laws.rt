ghost use Rattle.std.specs.Prelude.{◌≡◌, ◌++◌, [], List, true};
ghost use Rattle.gp_window.specs.declared.schedule.EventId.{EventId};
ghost use Rattle.gp_clause.specs.Valuation.{Meets};
ghost use Rattle.gp_constraint.specs.Base.{base_of};
ghost use Rattle.gp_constraint.specs.Query.{query_of};
ghost use Rattle.gp_instance.specs.Instance.{is_instance};
ghost use Rattle.gp_instance.specs.Matches.{matches_events};
ghost use Rattle.gp_replay.specs.Feasible.{IsFeasible};
ghost use Rattle.gp_witness.specs.Complete.{ScheduleModel};
ghost use Rattle.gp_witness.specs.Witness.{IsByPlace, OneIsByPlace, up_to_last};

use crate::laws::schedules_are_complete;
use crate::sound::witnesses_are_sound;
use gp_clause::Valuation;
use gp_constraint::Encoded;
use gp_instance::Instance;
use gp_property::Property;
use gp_window::Schedule;

/// A law: a feasible schedule gives a valuation that makes each clause of the base true and says what the schedule does.
pub fn law_base(encoded: &Encoded, schedule: &Schedule)
    requires { IsFeasible encoded.now schedule.now.events }
    ensures { ScheduleModel encoded.now schedule.now.events (base_of encoded.now) (base_of encoded.now).kinds [] }
{
    encoded.window().comes_from_recording();
    schedules_are_complete();
}

/// A law: the executed events of an answer to the base and the query of an instance, by place, are exactly one list; up to
/// the last event of the instance they are a feasible schedule that matches the instance.
pub fn law_sound(encoded: &Encoded, property: &Property, instance: &Instance, valuation: &Valuation)
    requires instance { is_instance encoded.now property.now instance.now.events ≡ true }
    requires answer { Meets (base_of encoded.now) (query_of encoded.now property.now instance.now.events) valuation.now }
    ensures one { OneIsByPlace encoded.now valuation.now }
    ensures feasible { (executed : List EventId) → IsByPlace encoded.now valuation.now executed → IsFeasible encoded.now (up_to_last instance.now.events executed) }
    ensures matches { (executed : List EventId) → IsByPlace encoded.now valuation.now executed → matches_events property.now instance.now.events (up_to_last instance.now.events executed) ≡ true }
{
    encoded.window().comes_from_recording();
    property.keeps_rules();
    witnesses_are_sound();
}

/// A law: a feasible schedule that matches an instance gives a valuation that makes each clause of the base and each
/// assumption of the query true, and says what the schedule does.
pub fn law_complete(
    encoded: &Encoded,
    property: &Property,
    instance: &Instance,
    schedule: &Schedule,
)
    requires instance { is_instance encoded.now property.now instance.now.events ≡ true }
    requires feasible { IsFeasible encoded.now schedule.now.events }
    requires matches { matches_events property.now instance.now.events schedule.now.events ≡ true }
    ensures { ScheduleModel encoded.now schedule.now.events (base_of encoded.now) ((base_of encoded.now).kinds ++ (query_of encoded.now property.now instance.now.events).locals) (query_of encoded.now property.now instance.now.events).assumed }
{
    encoded.window().comes_from_recording();
    schedules_are_complete();
}
