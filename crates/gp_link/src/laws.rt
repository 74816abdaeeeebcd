ghost use Rattle.gp_link.specs.LinkExamples.{LinkExamples};
ghost use Rattle.gp_link.specs.LinkLaws.{LinksAreComplete, LinksAreSound, LinksAreValid};

use gp_constraint::{extensions_mean, models_extend, points_come_first};
use gp_replay::{states_begin_as_windows, values_are_last_writes};

/// The executed events of an answer to the problem of a window and the next link the two by their places, where they are a
/// feasible schedule.
pub fn links_are_sound()
    ensures { LinksAreSound }
{
    states_begin_as_windows();
    values_are_last_writes();
    extensions_mean();
}

/// Where a schedule links a window to the next, a model of the window that says what it does extends to one of the problem of
/// both.
pub fn links_are_complete()
    ensures { LinksAreComplete }
{
    states_begin_as_windows();
    values_are_last_writes();
    models_extend();
    points_come_first();
}

/// The problem of a window and the next is valid up to the limit, and its further clauses are signed.
pub fn links_are_valid()
    ensures { LinksAreValid }
{
    extensions_mean();
}

/// The problems of small windows.
pub fn encodes_examples()
    ensures { LinkExamples }
{}
