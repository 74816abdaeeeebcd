ghost use Rattle.gp_stuck.specs.Examples.{ExamplesHold};
ghost use Rattle.gp_stuck.specs.Laws.{CyclesAreListed, CyclesBlock, StuckAnswersAreSound, StuckCyclesWaitForEver, StuckQueriesAreValid, StuckSchedulesAreComplete};

use gp_replay::{events_are_counted, holds_are_traced, threads_are_started};

/// The list of cycles has every list of events that is a cycle and no other, in lexicographic order,
/// none twice.
pub fn cycles_are_listed()
    ensures { CyclesAreListed }
{}

/// Where the threads of a cycle have done what comes before its events, none of them can go on; so a
/// cycle is stuck exactly where some feasible schedule ends with its events blocking one another.
pub fn cycles_block()
    ensures { CyclesBlock }
{
    holds_are_traced();
    threads_are_started();
}

/// Once a cycle is stuck, no schedule that goes on from there executes one of its events, or a later event of
/// one of its threads in the window.
pub fn stuck_cycles_wait_for_ever()
    ensures { StuckCyclesWaitForEver }
{
    cycles_block();
    events_are_counted();
}

/// The executed events of an answer to the query of a cycle end with the events of the cycle blocking
/// one another, where they are a feasible schedule by their places.
pub fn stuck_answers_are_sound()
    ensures { StuckAnswersAreSound }
{
    cycles_block();
    events_are_counted();
}

/// A schedule that is stuck at a cycle makes the query of the cycle true; so where the query is refuted,
/// the cycle is not stuck.
pub fn stuck_schedules_are_complete()
    ensures { StuckSchedulesAreComplete }
{
    events_are_counted();
}

/// The query of a cycle is valid.
pub fn stuck_queries_are_valid()
    ensures { StuckQueriesAreValid }
{}

/// The cycles and the queries of small windows.
pub fn lists_examples()
    ensures { ExamplesHold }
{}
