ghost use Rattle.gp_replay.specs.Alike.{AlikeStatesStepAlike};
ghost use Rattle.gp_replay.specs.Counted.{EventsAreCounted};
ghost use Rattle.gp_replay.specs.Feasible.{EventsHappenOnce, PrefixesAreFeasible, ReplayMeansFeasible};
ghost use Rattle.gp_replay.specs.Grammar.{SchedulesReadExactly};
ghost use Rattle.gp_replay.specs.Holder.{HoldersAcquired, LocksHaveOneHolder};
ghost use Rattle.gp_replay.specs.Order.{JoinsComeLast, StartsComeFirst, ThreadsAreStarted};
ghost use Rattle.gp_replay.specs.Part.{PartsArePrefixes};
ghost use Rattle.gp_replay.specs.Sharing.{HoldersStayAlone, ReadersAcquired};
ghost use Rattle.gp_replay.specs.Start.{BeginsAsWindow};
ghost use Rattle.gp_replay.specs.Told.{HoldsAreTraced};
ghost use Rattle.gp_replay.specs.Value.{ReadsFindLastWrites, ValuesAreLastWrites};

use gp_text::one_spelling;
use gp_window::{event_ids_read_exactly, windows_are_formed};

/// Lines are read as a schedule exactly where they spell it.
pub fn schedules_read_exactly()
    ensures { SchedulesReadExactly }
{
    one_spelling();
    event_ids_read_exactly();
}

/// A window begins with its start values, its holders and its readers, just as it tells them.
pub fn states_begin_as_windows()
    ensures { BeginsAsWindow }
{
    windows_are_formed();
}

/// What `replay` answers is what the words say: it ends exactly where each event may happen in turn,
/// and it is stuck exactly at the first event that may not.
pub fn replay_means_feasible()
    ensures { ReplayMeansFeasible }
{}

/// Each beginning of a feasible schedule is feasible.
pub fn prefixes_are_feasible()
    ensures { PrefixesAreFeasible }
{}

/// A feasible schedule names no event twice.
pub fn events_happen_once()
    ensures { EventsHappenOnce }
{}

/// Each thread's part of a feasible schedule is a prefix of its segment, as long as the last state
/// counts.
pub fn parts_are_prefixes()
    ensures { PartsArePrefixes }
{}

/// In a feasible schedule the thread of each event is started when the window begins, or by an event
/// before it.
pub fn starts_come_first()
    ensures { StartsComeFirst }
{}

/// In a feasible schedule a thread that is joined exits, and all events of its segment come before the
/// join.
pub fn joins_come_last()
    ensures { JoinsComeLast }
{}

/// After a feasible schedule a variable has the value of the last write to it, or the value with
/// which the window begins.
pub fn values_are_last_writes()
    ensures { ValuesAreLastWrites }
{}

/// A read of a feasible schedule finds the value of the last write to its variable before it, or the
/// value with which the window begins.
pub fn reads_find_last_writes()
    ensures { ReadsFindLastWrites }
{}

/// The holder of a lock after a feasible schedule is the thread that acquired it, or held it when the
/// window began, and has not yet released it.
pub fn holders_acquired()
    ensures { HoldersAcquired }
{}

/// After a feasible schedule a lock is held by one thread at the most.
pub fn locks_have_one_holder()
    ensures { LocksHaveOneHolder }
{}

/// The readers of a lock after a feasible schedule are the threads that racquired it, or held it so when
/// the window began, and have not yet given it back.
pub fn readers_acquired()
    ensures { ReadersAcquired }
{}

/// After a feasible schedule of a window a lock that has a holder has no reader.
pub fn holders_stay_alone()
    ensures { HoldersStayAlone }
{
    windows_are_formed();
}

/// States that tell the same take the same steps, and tell the same after them.
pub fn alike_states_step_alike()
    ensures { AlikeStatesStepAlike }
{}

/// An event is in a feasible schedule exactly where its thread has counted it in the last state.
pub fn events_are_counted()
    ensures { EventsAreCounted }
{}

/// After a feasible schedule a thread is started exactly where it was when the window began, or by an
/// event of the schedule; and each thread that has done something is started.
pub fn threads_are_started()
    ensures { ThreadsAreStarted }
{}

/// After a feasible schedule of a window a thread holds a lock, alone or as a reader, exactly where it
/// does so by its own trace.
pub fn holds_are_traced()
    ensures { HoldsAreTraced }
{
    windows_are_formed();
}
