ghost use Rattle.gp_checker.specs.Checked.{ChecksAreExact};
ghost use Rattle.gp_checker.specs.Laws.{Laws};
ghost use Rattle.gp_checker.specs.Sound.{AcceptedIsTrue};

use gp_certificate::refuted_over_means;
use gp_constraint::problems_are_valid;
use gp_property::atoms_kept;
use gp_replay::replay_means_feasible;
use gp_witness::schedules_are_complete;

/// A law: the answers of an accepted report are true, whoever wrote it.
pub fn accepted_is_true()
    ensures { AcceptedIsTrue }
{
    laws();
}

/// A law: no report is both accepted and rejected, and none has two first failures.
pub fn checks_are_exact()
    ensures { ChecksAreExact }
{
    laws();
}

// All laws of lower layers that the proofs want.
pub(crate) fn laws()
    ensures { Laws }
{
    problems_are_valid();
    atoms_kept();
    replay_means_feasible();
    schedules_are_complete();
    refuted_over_means();
}
