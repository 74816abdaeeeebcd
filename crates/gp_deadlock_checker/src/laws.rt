ghost use Rattle.gp_deadlock_checker.specs.Laws.{Laws};
ghost use Rattle.gp_deadlock_checker.specs.Sound.{AcceptedDeadlocksAreTrue};

use gp_certificate::refuted_over_means;
use gp_constraint::problems_are_valid;
use gp_replay::replay_means_feasible;
use gp_stuck::{
    cycles_are_listed, cycles_block, stuck_queries_are_valid, stuck_schedules_are_complete,
};
use gp_witness::schedules_are_complete;

/// A law: the answers of an accepted report are true, whoever wrote it.
pub fn accepted_deadlocks_are_true()
    ensures { AcceptedDeadlocksAreTrue }
{
    laws();
}

// All laws of lower layers that the proofs want.
pub(crate) fn laws()
    ensures { Laws }
{
    problems_are_valid();
    stuck_queries_are_valid();
    cycles_are_listed();
    replay_means_feasible();
    cycles_block();
    schedules_are_complete();
    stuck_schedules_are_complete();
    refuted_over_means();
}
