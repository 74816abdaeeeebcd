ghost use Rattle.std.specs.Prelude.{◌≡◌, ◌≤◌, [], IfOk, OnOk, false, length};
ghost use Rattle.gp_clause.specs.Problem.{IsValidProblem, IsValidQuery};
ghost use Rattle.gp_search.specs.Verdict.{HasRoom, Learns, LearnsAndShares, IsDue, ConcludesInTime};
ghost use Rattle.gp_clause.specs.Edge.{IsSolvable};

use crate::asked::Asked;
use crate::engine::Engine;
use crate::mail::Mail;
use crate::verdict::Verdict;
use gp_base::Row;
use gp_clause::{Problem, Query};
use gp_derivation::LogEntry;
use std::alloc::{AllocError, Global};
use std::marker::Model;

/// A search over one problem, which keeps what it learned from query to query.
#[derive(Drop)]
pub struct Search<'a> {
    problem: &'a Problem,
    engine: Engine,
}

impl<'a> Model for Search<'a> {
    ghost use Rattle.gp_search.specs.Verdict.{SearchForm};

    ghost Value = { SearchForm };

    ghost use Rattle.gp_search.specs.Inside.{IsIdle};

    ghost view = { λ s. record { problem = s.problem.now; log = s.engine.log.items; learned = s.engine.learned } };

    ghost invariant = { λ s. IsIdle s.problem.now s.engine };
}

impl<'a> Search<'a> {
    /// Attaches the clauses of the problem. Memory that is lacking is the one error.
    pub fn new(alloc: Global, problem: &'a Problem) -> Result<Search<'a>, AllocError>
        requires valid { IsValidProblem problem.now }
        requires solvable { IsSolvable problem.now.edges }
        ensures problem { IfOk result (λ search. search.problem ≡ problem.now) }
        ensures log { IfOk result (λ search. search.log ≡ []) }
    {
        let engine = Engine::new(alloc, problem)?;
        Ok(Search { problem, engine })
    }

    /// The entries that were logged, in order.
    pub fn log(&self) -> &[LogEntry]
        ensures { result.now ≡ self.now.log }
    {
        self.engine.log.as_slice()
    }

    /// The place of the log from which the last turn learned: what it took stands before it.
    pub fn learned_from(&self) -> u32
        ensures { result ≡ self.now.learned }
    {
        self.engine.learned as u32
    }

    /// Takes no memory.
    pub fn into_log(self) -> Row<LogEntry>
        ensures { result ≡ self.entry.log }
    {
        let Search { engine, .. } = self;
        let Engine {
            solver,
            graph,
            log,
            tester,
            ..
        } = engine;
        drop(solver);
        drop(graph);
        drop(tester);
        Row::from_vec(log)
    }

    /// Answers a query in a turn, which first takes from the mail until that is empty, 256 clauses at most. Up to `budget`
    /// clauses may then be learned, and each that is fit to share is offered. After want of memory the search can be used
    /// again, and its log may be longer.
    pub fn ask<M: Mail>(
        &mut self,
        query: &Query,
        budget: u64,
        mail: &mut M,
    ) -> Result<Verdict, AllocError>
        requires valid { IsValidQuery self.old.problem query.now }
        requires budget { 1 ≤ budget }
        requires few { HasRoom self.old budget }
        requires mail { M.problem mail.old ≡ self.old.problem }
        ensures problem { self.new.problem ≡ self.old.problem }
        ensures mail_problem { M.problem mail.new ≡ M.problem mail.old }
        ensures number { M.number mail.new ≡ M.number mail.old }
        ensures may_give { M.may_give mail.new ≡ M.may_give mail.old }
        ensures none_taken { M.may_give mail.old ≡ false → self.new.learned ≡ length self.old.log }
        ensures log { Learns self.old.problem query.now budget self.old.log self.new.log self.new.learned }
        ensures shares { OnOk result (LearnsAndShares self.old.problem query.now budget self.old.log self.new.log self.new.learned (M.told mail.old) (M.told mail.new)) }
        ensures verdict { IfOk result (IsDue self.old.problem query.now budget self.new.log (length self.old.log) self.new.learned) }
        ensures enough { IfOk result (ConcludesInTime self.old.problem query.now budget) }
    {
        let asked = Asked {
            problem: self.problem,
            query,
        };
        let verdict = self.engine.turn(&asked, budget, mail);
        self.engine.finish(&asked);
        verdict
    }
}
