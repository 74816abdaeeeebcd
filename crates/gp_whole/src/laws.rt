ghost use Rattle.gp_whole.specs.Linked.{LinksLeadOn};
ghost use Rattle.gp_whole.specs.Whole.{FoundSchedulesReplay, LinkedSchedulesReplay, StartsOfRecordings};

use gp_replay::{holds_are_traced, states_begin_as_windows};
use gp_window::windows_follow;

/// After a schedule that links a window to the next, the state tells, but for the counts, what the next window's start state
/// tells.
pub fn links_lead_on()
    ensures { LinksLeadOn }
{
    windows_follow();
    states_begin_as_windows();
    holds_are_traced();
}

/// Schedules that link the first windows, followed by any feasible schedule of the window after them, replay from the
/// recording's very start.
pub fn linked_schedules_replay()
    ensures { LinkedSchedulesReplay }
{
    links_lead_on();
}

/// The same of the schedules that were found for all windows before one, among what was found for any.
pub fn found_schedules_replay()
    ensures { FoundSchedulesReplay }
{
    linked_schedules_replay();
}

/// At a recording's very start nothing is done, no lock is held, and just the roots are started.
pub fn starts_of_recordings()
    ensures { StartsOfRecordings }
{}
