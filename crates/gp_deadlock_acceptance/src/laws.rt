ghost use Rattle.gp_deadlock_acceptance.specs.Acceptance.{AnsweredDeadlocksAreAccepted};

/// A law: a report that answers the deadlocks of a recording is accepted by the checker, whatever its workers and its budget.
pub fn answered_deadlocks_are_accepted()
    ensures { AnsweredDeadlocksAreAccepted }
{}
