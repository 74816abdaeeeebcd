ghost use Rattle.gp_linked.specs.Replayed.{LinkedWindowsReplay};

use gp_whole::found_schedules_replay;

/// Where all windows before one are linked, their schedules, followed by any feasible schedule of that window, replay from the
/// recording's very start.
pub fn linked_windows_replay()
    ensures { LinkedWindowsReplay }
{
    found_schedules_replay();
}
