ghost use Rattle.gp_deadlocks.specs.AnsweredLaws.{StuckCyclesAreAnswered};

use gp_stuck::{cycles_block, stuck_answers_are_sound, stuck_schedules_are_complete};
use gp_witness::{schedules_are_complete, witnesses_are_sound};

/// An answer to the query of a cycle gives a schedule that ends stuck, and where the query has no answer no schedule does.
pub fn stuck_cycles_are_answered()
    ensures { StuckCyclesAreAnswered }
{
    cycles_block();
    stuck_answers_are_sound();
    stuck_schedules_are_complete();
    witnesses_are_sound();
    schedules_are_complete();
}
