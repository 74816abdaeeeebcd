ghost use Rattle.gp_reasoned.specs.Laws.{CyclesAreTold, GroundsAreTold, SomethingIsAssumed, StepsAreTrue};

use gp_certificate::shared_follows;
use gp_clause::{locals_change_nothing, valuations_meet};
use gp_constraint::{answers_mean, problems_are_valid, truths_are_numbered};
use gp_cycle::{cycle_events_go_round, cycles_are_cycles, cycles_are_found, forced_is_derived};
use gp_reason::{
    cycles_are_forced, facts_are_true, families_are_told, grounds_are_enough,
    reasons_tell_what_they_rest_on,
};
use gp_witness::schedules_are_complete;

/// Where a certificate refutes the query of an instance, its reason assumes something: the constraints of a window alone are never
/// contradictory.
pub fn something_is_assumed()
    ensures { SomethingIsAssumed }
{
    shared_follows();
    locals_change_nothing();
    problems_are_valid();
    schedules_are_complete();
}

/// Some fact of what each step says, that is told of a certificate that checks, holds by each model of the window, and so by what
/// each feasible schedule of it does; and so it is of each clause of the window that is told as a ground.
pub fn steps_are_true()
    ensures { StepsAreTrue }
{
    reasons_tell_what_they_rest_on();
    families_are_told();
    facts_are_true();
    shared_follows();
    locals_change_nothing();
    valuations_meet();
    problems_are_valid();
    truths_are_numbered();
    answers_mean();
    schedules_are_complete();
}

/// No cycle is told exactly where a clause that the step cites becomes false by what it denies, or no events are forced before one
/// another all round. Of a step with hints that passes, one is told unless a clause becomes false or a distance of two events is
/// derived.
pub fn cycles_are_told()
    ensures { CyclesAreTold }
{
    grounds_are_enough();
    cycles_are_forced();
    forced_is_derived();
    cycles_are_cycles();
    cycles_are_found();
    cycle_events_go_round();
    truths_are_numbered();
}

/// What each step of a reason rests on is told: everything, the order within threads alone, or else each clause of the window and
/// each earlier step that it cites.
pub fn grounds_are_told()
    ensures { GroundsAreTold }
{
    reasons_tell_what_they_rest_on();
    families_are_told();
}
