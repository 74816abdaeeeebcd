ghost use Rattle.gp_bridge_rows.specs.HappensLaws.{HappensMeans};

use gp_clause::valuations_meet;
use gp_constraint::extensions_mean;

/// What it means that an event is to be executed.
pub fn happens_means()
    ensures { HappensMeans }
{
    extensions_mean();
    valuations_meet();
}
