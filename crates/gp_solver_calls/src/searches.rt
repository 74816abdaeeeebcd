ghost use Rattle.std.specs.Prelude.{◌≡◌, ◌≤◌, IfOk, OnOk, false, length};
ghost use Rattle.gp_clause.specs.Problem.{IsValidQuery};
ghost use Rattle.gp_search.specs.Verdict.{ConcludesInTime, HasRoom, IsDue, Learns, LearnsAndShares};

use gp_clause::Query;
use gp_search::{Mail, Search, Verdict};
use std::alloc::AllocError;

/// As `Search::ask`.
pub fn ask<M: Mail>(
    search: &mut Search<'_>,
    query: &Query,
    budget: u64,
    mail: &mut M,
) -> Result<Verdict, AllocError>
    requires valid { IsValidQuery search.old.problem query.now }
    requires budget { 1 ≤ budget }
    requires few { HasRoom search.old budget }
    requires mail { M.problem mail.old ≡ search.old.problem }
    ensures problem { search.new.problem ≡ search.old.problem }
    ensures mail_problem { M.problem mail.new ≡ M.problem mail.old }
    ensures number { M.number mail.new ≡ M.number mail.old }
    ensures may_give { M.may_give mail.new ≡ M.may_give mail.old }
    ensures none_taken { M.may_give mail.old ≡ false → search.new.learned ≡ length search.old.log }
    ensures log { Learns search.old.problem query.now budget search.old.log search.new.log search.new.learned }
    ensures shares { OnOk result (LearnsAndShares search.old.problem query.now budget search.old.log search.new.log search.new.learned (M.told mail.old) (M.told mail.new)) }
    ensures verdict { IfOk result (IsDue search.old.problem query.now budget search.new.log (length search.old.log) search.new.learned) }
    ensures enough { IfOk result (ConcludesInTime search.old.problem query.now budget) }
{
    search.ask(query, budget, mail)
}
