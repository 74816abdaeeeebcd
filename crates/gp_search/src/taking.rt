ghost use Rattle.std.specs.Prelude.{◌≡◌, ◌+◌, ◌*◌, ◌<◌, ◌^◌, ◌++◌, ◌∷◌, [], IfOk, MatchBool, OnErr, OnOk, false, length, vec_capacity, vec_len};
ghost use Rattle.gp_derivation.specs.Exchange.{IsGood};
ghost use Rattle.gp_search.specs.Inside.{IsTaking};
ghost use Rattle.gp_search.specs.Mail.{taken_entry};
ghost use Rattle.gp_search.specs.Moves.{FindsNone, KeepsLog, TakesAll, TakesOne, TakesSome};

use crate::asked::Asked;
use crate::engine::Engine;
use crate::mail::Mail;
use gp_base::Row;
use gp_certificate::Step;
use gp_derivation::{LogEntry, Origin, SharedClause, log_grows};
use std::alloc::AllocError;

// How many clauses a turn takes at most.
const MOST_TAKEN: u32 = 256;

impl Engine {
    // Takes clauses until the mail is found empty, but no more than a turn may.
    pub(crate) fn take_all<M: Mail>(
        &mut self,
        asked: &Asked<'_>,
        mail: &mut M,
    ) -> Result<(), AllocError>
        requires taking { IsTaking asked.now.problem.now asked.now.query.now self.old }
        requires mail { M.problem mail.old ≡ asked.now.problem.now }
        requires few { length asked.now.problem.now.clauses + 64 * (length self.old.log.items + 256) + 1 < 2 ^ 32 }
        ensures taking { IsTaking asked.now.problem.now asked.now.query.now self.new }
        ensures problem { M.problem mail.new ≡ M.problem mail.old }
        ensures number { M.number mail.new ≡ M.number mail.old }
        ensures may_give { M.may_give mail.new ≡ M.may_give mail.old }
        ensures none { M.may_give mail.old ≡ false → self.new.log.items ≡ self.old.log.items }
        ensures some { TakesSome self.old self.new }
        ensures all { OnOk result (TakesAll self.old self.new (M.told mail.old) (M.told mail.new)) }
    {
        for _ in 0..MOST_TAKEN {
            if !self.take_one(asked, mail)? {
                return Ok(());
            }
        }
        Ok(())
    }

    // Takes a clause, if the mail has one, and tells whether it did. The room for it in the log is made first, so that what
    // was taken is not lost for want of that.
    fn take_one<M: Mail>(&mut self, asked: &Asked<'_>, mail: &mut M) -> Result<bool, AllocError>
        requires taking { IsTaking asked.now.problem.now asked.now.query.now self.old }
        requires mail { M.problem mail.old ≡ asked.now.problem.now }
        requires few { length asked.now.problem.now.clauses + 64 * (length self.old.log.items + 1) + 1 < 2 ^ 32 }
        ensures taking { IsTaking asked.now.problem.now asked.now.query.now self.new }
        ensures problem { M.problem mail.new ≡ M.problem mail.old }
        ensures number { M.number mail.new ≡ M.number mail.old }
        ensures may_give { M.may_give mail.new ≡ M.may_give mail.old }
        ensures none { M.may_give mail.old ≡ false → self.new.log.items ≡ self.old.log.items }
        ensures ok { IfOk result (λ took. MatchBool took (TakesOne self.old self.new (M.told mail.old) (M.told mail.new)) (FindsNone self.old self.new (M.told mail.old) (M.told mail.new))) }
        ensures err { OnErr result (KeepsLog self.old self.new) }
    {
        self.log.reserve(1)?;
        self.pure.reserve(1)?;
        let Some(shared) = mail.take() else {
            return Ok(false);
        };
        self.log_taken(asked, shared)?;
        Ok(true)
    }

    // Logs a clause that was taken, attaches it and marks it as pure. There is room for it in the log.
    fn log_taken(&mut self, asked: &Asked<'_>, shared: SharedClause) -> Result<(), AllocError>
        requires taking { IsTaking asked.now.problem.now asked.now.query.now self.old }
        requires good { IsGood asked.now.problem.now shared }
        requires few { length asked.now.problem.now.clauses + 64 * (length self.old.log.items + 1) + 1 < 2 ^ 32 }
        requires log_room { vec_len self.old.log < vec_capacity self.old.log }
        requires pure_room { vec_len self.old.pure < vec_capacity self.old.pure }
        ensures taking { IsTaking asked.now.problem.now asked.now.query.now self.new }
        ensures begins { self.new.begins ≡ self.old.begins }
        ensures ok { OnOk result (self.new.log.items ≡ self.old.log.items ++ taken_entry shared ∷ []) }
        ensures err { OnErr result (KeepsLog self.old self.new) }
    {
        log_grows();
        let SharedClause {
            sender,
            clause,
            certificate,
        } = shared;
        self.solver.attach(&clause)?;
        self.pure.push_reserved(true);
        let hints = Row::new(*self.log.allocator());
        self.log.push_reserved(LogEntry {
            step: Step { clause, hints },
            origin: Origin::Taken {
                sender,
                certificate,
            },
        });
        self.learned = self.log.len();
        Ok(())
    }
}
