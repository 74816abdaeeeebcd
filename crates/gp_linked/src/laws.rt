ghost use Rattle.gp_linked.specs.LinkedLaws.{LinksAreAnswered};

use gp_clause::valuations_meet;
use gp_constraint::extensions_mean;
use gp_link::{links_are_complete, links_are_sound, links_are_valid};
use gp_witness::{schedules_are_complete, witnesses_are_sound};

/// An answer to the problem of a window and the next is a schedule that links the two, and each such schedule is an answer; so
/// where the problem has none, the window is not linked.
pub fn links_are_answered()
    ensures { LinksAreAnswered }
{
    extensions_mean();
    links_are_sound();
    links_are_complete();
    links_are_valid();
    valuations_meet();
    witnesses_are_sound();
    schedules_are_complete();
}
