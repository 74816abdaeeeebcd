ghost use Rattle.gp_acceptance.specs.Acceptance.{AnsweredIsAccepted, CompactIsAnswered, ResumedIsAccepted};

use gp_compact::compact_keeps_acceptance;

/// A law: a report that answers a recording and its properties is accepted by the checker, in either format, whatever its
/// workers and its budget.
pub fn answered_is_accepted()
    ensures { AnsweredIsAccepted }
{}

/// A law: the compact form of a report that answers a recording and its properties answers them too, for as many workers
/// and the same budget.
pub fn compact_is_answered()
    ensures { CompactIsAnswered }
{
    compact_keeps_acceptance();
}

/// A law: a report that goes on from an old one is accepted by the checker, whatever the old one says, and whatever its workers
/// and its budget.
pub fn resumed_is_accepted()
    ensures { ResumedIsAccepted }
{}
