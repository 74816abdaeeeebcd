ghost use Rattle.gp_witness.specs.Witness.{WitnessesAreSound};

use gp_constraint::answers_mean;
use gp_replay::{
    holders_acquired, readers_acquired, states_begin_as_windows, values_are_last_writes,
};
use gp_window::windows_are_formed;

/// The executed events of an answer to the problem of a window are a feasible schedule in the order of their places; and
/// where the answer is one to the query of an instance, they match it up to its last event.
pub fn witnesses_are_sound()
    ensures { WitnessesAreSound }
{
    windows_are_formed();
    states_begin_as_windows();
    values_are_last_writes();
    holders_acquired();
    readers_acquired();
    answers_mean();
}
