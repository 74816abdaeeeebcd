ghost use Rattle.gp_cycle.specs.Examples.{ExamplesHold};
ghost use Rattle.gp_cycle.specs.Laws.{CycleEventsGoRound, CyclesAreCycles, CyclesAreFound, ForcedIsDerived};

/// What is forced is just what unit clauses derive, and nothing is told just where they make a clause false.
pub fn forced_is_derived()
    ensures { ForcedIsDerived }
{}

/// A cycle that is told is one: each of its orders leads to the next, and the last to the first.
pub fn cycles_are_cycles()
    ensures { CyclesAreCycles }
{}

/// Where no cycle is told, no orders among those that are given lead round.
pub fn cycles_are_found()
    ensures { CyclesAreFound }
{}

/// Each event of a cycle is before the next in one thread or by one of the orders, and the last one before the first.
pub fn cycle_events_go_round()
    ensures { CycleEventsGoRound }
{}

/// What small lists of clauses force, and cycles of a few orders.
pub fn gives_examples()
    ensures { ExamplesHold }
{}
