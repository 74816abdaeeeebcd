ghost use Rattle.gp_witness.specs.Complete.{SchedulesAreComplete};

use gp_constraint::truths_are_numbered;
use gp_instance::groups_stand_in_rows;
use gp_replay::states_begin_as_windows;
use gp_window::windows_are_formed;

/// A feasible schedule is a valuation that makes the constraints of its window true, and what the query of an instance
/// assumes that it matches; so where there is no such valuation, the instance is not possible.
pub fn schedules_are_complete()
    ensures { SchedulesAreComplete }
{
    windows_are_formed();
    states_begin_as_windows();
    groups_stand_in_rows();
    truths_are_numbered();
}
