ghost use Rattle.gp_reason.specs.Examples.{ExamplesHold};
ghost use Rattle.gp_reason.specs.Laws.{AssumedIsAsked, CyclesAreForced, FamiliesAreTold, GroundsAreEnough, ReasonsAreEnough, ReasonsTellWhatTheyRestOn};
ghost use Rattle.gp_reason.specs.Truth.{FactsAreTrue};

use gp_certificate::more_passes;
use gp_cycle::{cycle_events_go_round, cycles_are_cycles, forced_is_derived};

/// A reason tells the last step of its certificate and the steps on which that rests, each once and in their order.
pub fn reasons_tell_what_they_rest_on()
    ensures { ReasonsTellWhatTheyRestOn }
{}

/// Each step that is told of a certificate that checks passes with the clauses of its problem and the steps told before it.
pub fn reasons_are_enough()
    ensures { ReasonsAreEnough }
{
    more_passes();
}

/// Each step with hints that is told of a certificate that checks passes with just the clauses that these number, and where the order
/// within threads is told as its ground with none.
pub fn grounds_are_enough()
    ensures { GroundsAreEnough }
{
    more_passes();
    forced_is_derived();
}

/// Of a certificate that refutes the query of an instance, a reason assumes nothing but what the query does.
pub fn assumed_is_asked()
    ensures { AssumedIsAsked }
{}

/// Each event of a cycle that is told is before the next, and the last one before the first: in one thread, or by what the clauses
/// that the step cites derive from its denial.
pub fn cycles_are_forced()
    ensures { CyclesAreForced }
{
    forced_is_derived();
    cycles_are_cycles();
    cycle_events_go_round();
}

/// A clause of a window is one of the clauses of the family that is told for its number.
pub fn families_are_told()
    ensures { FamiliesAreTold }
{}

/// Where a literal is true, and the places of events keep what it says, the fact that it says holds.
pub fn facts_are_true()
    ensures { FactsAreTrue }
{}

/// The reasons that certificates for small windows give.
pub fn gives_examples()
    ensures { ExamplesHold }
{}
