ghost use Rattle.gp_resume.specs.Kept.{AllIsKept, KeptHolds};

use gp_decided::refutations_are_decided;
use gp_replay::replay_means_feasible;

/// A law: what is kept of an old report holds, whoever wrote it.
pub fn kept_holds()
    ensures { KeptHolds }
{
    refutations_are_decided();
    replay_means_feasible();
}

/// A law: nothing of an old report is lost that holds.
pub fn all_is_kept()
    ensures { AllIsKept }
{
    refutations_are_decided();
    replay_means_feasible();
}
