ghost use Rattle.gp_story.specs.Examples.{ExamplesHold};
ghost use Rattle.gp_story.specs.Laws.{SourcesAreLastWrites, StoriesTellEachOnce};

use gp_replay::{reads_find_last_writes, states_begin_as_windows};

/// The lines of a story, one part after another, are those of the schedule's events, each once and in their order. A run
/// has at least two lines, all quiet and of one thread, and nothing more could be folded.
pub fn stories_tell_each_once()
    ensures { StoriesTellEachOnce }
{}

/// In a story of a feasible schedule of a window a read that looks back at an event finds the value that this event
/// wrote, and one that looks back at the beginning finds the value with which the window begins.
pub fn sources_are_last_writes()
    ensures { SourcesAreLastWrites }
{
    reads_find_last_writes();
    states_begin_as_windows();
}

/// The stories of schedules of small windows.
pub fn tells_examples()
    ensures { ExamplesHold }
{}
