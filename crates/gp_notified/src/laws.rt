ghost use Rattle.gp_notified.specs.AnsweredLaws.{SignalsAreAnswered};

use gp_notify::{answers_are_lowered, signals_are_added, signals_are_sound};
use gp_witness::schedules_are_complete;

/// An answer to the lifted query of an instance gives a schedule with pairs that are signalled, and where the query has no answer
/// no schedule is so.
pub fn signals_are_answered()
    ensures { SignalsAreAnswered }
{
    answers_are_lowered();
    signals_are_sound();
    signals_are_added();
    schedules_are_complete();
}
