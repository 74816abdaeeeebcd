ghost use Rattle.std.specs.Prelude.{◌≡◌, ◌+◌, ◌*◌, ◌<◌, ◌≤◌, ◌^◌, false, length, IfOk, OnOk, OnErr};
ghost use Rattle.gp_clause.specs.Problem.{IsValidQuery};
ghost use Rattle.gp_search.specs.Inside.{IsTaking, IsTurning, IsWhole, IsIdle, most_steps};
ghost use Rattle.gp_search.specs.Moves.{AddsFew, AddsFewAndOffers, GrowsAndShares, KeepsLog, IsEnded, IsGrown, IsRoomy, StaysTurning, retired};
ghost use Rattle.gp_search.specs.Verdict.{IsDue, ConcludesInTime};

use crate::asked::Asked;
use crate::engine::{Conflict, Engine};
use crate::mail::Mail;
use crate::verdict::Verdict;
use gp_clause::clauses_are_few;
use gp_derivation::{fit_stays, log_grows};
use gp_sat::Solver;
use std::alloc::AllocError;

// How a descent ended: with a verdict, or with a conflict above the assumptions.
#[derive(Drop)]
pub(crate) enum Descent {
    Verdict(Verdict),
    Conflict(Conflict),
}

impl Engine {
    // A turn at a query: it takes clauses from the mail, and then searches.
    pub(crate) fn turn<M: Mail>(
        &mut self,
        asked: &Asked<'_>,
        budget: u64,
        mail: &mut M,
    ) -> Result<Verdict, AllocError>
        requires idle { IsIdle asked.now.problem.now self.old }
        requires valid { IsValidQuery asked.now.problem.now asked.now.query.now }
        requires budget { 1 ≤ budget }
        requires few { length asked.now.problem.now.clauses + 64 * (length self.old.log.items + 256 + budget) < 2 ^ 32 }
        requires mail { M.problem mail.old ≡ asked.now.problem.now }
        ensures whole { IsWhole asked.now.problem.now asked.now.query.now self.new }
        ensures begins { self.new.begins ≡ length self.old.log.items }
        ensures problem { M.problem mail.new ≡ M.problem mail.old }
        ensures number { M.number mail.new ≡ M.number mail.old }
        ensures may_give { M.may_give mail.new ≡ M.may_give mail.old }
        ensures none { M.may_give mail.old ≡ false → self.new.learned ≡ length self.old.log.items }
        ensures grown { IsGrown budget self.old self.new }
        ensures shares { OnOk result (GrowsAndShares asked.now.problem.now budget self.old self.new (M.told mail.old) (M.told mail.new)) }
        ensures verdict { IfOk result (IsDue asked.now.problem.now asked.now.query.now budget self.new.log.items (length self.old.log.items) self.new.learned) }
        ensures enough { IfOk result (ConcludesInTime asked.now.problem.now asked.now.query.now budget) }
    {
        self.begin(asked)?;
        self.take_all(asked, mail)?;
        self.run(asked, budget, mail)
    }

    // Searches up to a verdict, and learns as many clauses as the budget at most.
    fn run<M: Mail>(
        &mut self,
        asked: &Asked<'_>,
        budget: u64,
        mail: &mut M,
    ) -> Result<Verdict, AllocError>
        requires taking { IsTaking asked.now.problem.now asked.now.query.now self.old }
        requires few { length asked.now.problem.now.clauses + most_steps self.old.log.items self.old.learned + budget + 1 < 2 ^ 32 }
        requires mail { M.problem mail.old ≡ asked.now.problem.now }
        ensures turning { StaysTurning asked.now.problem.now asked.now.query.now self.old self.new }
        ensures mail { (M.problem mail.new ≡ M.problem mail.old) × (M.number mail.new ≡ M.number mail.old) × (M.may_give mail.new ≡ M.may_give mail.old) }
        ensures adds { AddsFew budget self.old self.new }
        ensures offers { OnOk result (AddsFewAndOffers asked.now.problem.now budget self.old self.new (M.told mail.old) (M.told mail.new)) }
        ensures verdict { IfOk result (IsDue asked.now.problem.now asked.now.query.now budget self.new.log.items self.old.begins self.old.learned) }
        ensures enough { IfOk result (ConcludesInTime asked.now.problem.now asked.now.query.now budget) }
    {
        fit_stays();
        for _ in 0..budget {
            match self.descend(asked)? {
                Descent::Verdict(verdict) => return Ok(verdict),
                Descent::Conflict(conflict) => {
                    let learned = self.learn(asked, &conflict, mail);
                    drop(conflict);
                    learned?;
                }
            }
        }
        self.conclude(asked, budget)
    }

    // Descends for the last time: as many clauses were learned as the budget, so a conflict more spends it.
    fn conclude(&mut self, asked: &Asked<'_>, budget: u64) -> Result<Verdict, AllocError>
        requires turning { IsTurning asked.now.problem.now asked.now.query.now self.old }
        requires learned { length self.old.log.items ≡ self.old.learned + budget }
        ensures turning { IsTurning asked.now.problem.now asked.now.query.now self.new }
        ensures same { KeepsLog self.old self.new }
        ensures verdict { IfOk result (IsDue asked.now.problem.now asked.now.query.now budget self.new.log.items self.old.begins self.old.learned) }
        ensures enough { IfOk result (ConcludesInTime asked.now.problem.now asked.now.query.now budget) }
    {
        clauses_are_few();
        match self.descend(asked)? {
            Descent::Verdict(verdict) => Ok(verdict),
            Descent::Conflict(conflict) => {
                drop(conflict);
                Ok(Verdict::Spent {
                    from: self.learned as u32,
                    to: self.log.len() as u32,
                })
            }
        }
    }

    // Makes room for a query, takes its variables and those of the problem into use, and begins its turn at the end of the
    // log.
    fn begin(&mut self, asked: &Asked<'_>) -> Result<(), AllocError>
        requires idle { IsIdle asked.now.problem.now self.old }
        requires valid { IsValidQuery asked.now.problem.now asked.now.query.now }
        requires few { length asked.now.problem.now.clauses + 64 * (length self.old.log.items + 1) < 2 ^ 32 }
        ensures whole { IsWhole asked.now.problem.now asked.now.query.now self.new }
        ensures begins { self.new.begins ≡ length self.old.log.items }
        ensures learned { self.new.learned ≡ length self.old.log.items }
        ensures same { self.new.log.items ≡ self.old.log.items }
        ensures taking { OnOk result (IsTaking asked.now.problem.now asked.now.query.now self.new) }
    {
        log_grows();
        self.begins = self.log.len();
        self.learned = self.begins;
        self.asserted = 0;
        self.assumed = 0;
        self.next = 0;
        self.levels.clear();
        self.tester.set_locals(asked.query.locals.as_slice())?;
        let variables = (asked.problem.kinds.len() + asked.query.locals.len()) as u32;
        grow(&mut self.solver, variables)?;
        self.solver.set_used(variables);
        self.graph.reserve(self.solver.variables())?;
        Ok(())
    }

    // Propagates and decides, up to a verdict or a conflict above the assumptions.
    fn descend(&mut self, asked: &Asked<'_>) -> Result<Descent, AllocError>
        requires { IsTurning asked.now.problem.now asked.now.query.now self.old }
        ensures turning { IsTurning asked.now.problem.now asked.now.query.now self.new }
        ensures same { KeepsLog self.old self.new }
        ensures ended { IfOk result (IsEnded asked.now.problem.now asked.now.query.now self.new) }
    {
        loop {
            if let Some(conflict) = self.propagate(asked)? {
                if self.assumed < self.solver.level() {
                    return Ok(Descent::Conflict(conflict));
                }
                let last = self.refute(asked, &conflict)?;
                return Ok(Descent::Verdict(Verdict::Refuted(last)));
            }
            if let Some(verdict) = self.decide(asked)? {
                return Ok(Descent::Verdict(verdict));
            }
        }
    }

    // Takes back every assignment and bound, and retires what the turn learned and is not pure. Takes no memory.
    pub(crate) fn finish(&mut self, asked: &Asked<'_>)
        requires { IsWhole asked.now.problem.now asked.now.query.now self.old }
        ensures idle { IsIdle asked.now.problem.now self.new }
        ensures same { self.new.log.items ≡ self.old.log.items }
        ensures learned { self.new.learned ≡ self.old.learned }
    {
        log_grows();
        self.solver.clear();
        self.graph.undo_to(0);
        let bases = asked.problem.clauses.len();
        for place in self.begins..self.log.len() {
            self.retire_unless_pure(bases, place);
        }
    }

    // Retires the entry at a place, unless it is pure.
    fn retire_unless_pure(&mut self, bases: usize, place: usize)
        requires bottom { self.old.solver.level ≡ 0 }
        requires marked { place < length self.old.pure.items }
        requires given { bases + place < length self.old.solver.clauses }
        requires few { bases + place < 2 ^ 32 }
        ensures { self.new ≡ record self.old { solver = retired self.old.pure.items bases place self.old.solver } }
    {
        if !self.pure[place] {
            self.solver.retire((bases + place) as u32);
        }
    }
}

// Makes room for so many variables, where there is less.
fn grow(solver: &mut Solver, variables: u32) -> Result<(), AllocError>
    ensures ok { OnOk result (IsRoomy solver.old solver.new variables) }
    ensures err { OnErr result (solver.new ≡ solver.old) }
{
    if variables <= solver.variables() {
        return Ok(());
    }
    solver.grow(variables)
}
