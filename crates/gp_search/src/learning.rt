ghost use Rattle.std.specs.Prelude.{◌≡◌, ◌+◌, ◌-◌, ◌<◌, ◌^◌, ◌⊎◌, length, All, OnOk, OnErr, IsTrue, ◌↔◌, true, vec_capacity, vec_len};
ghost use Rattle.gp_clause.specs.Clause.{NamesBelow};
ghost use Rattle.gp_sat.specs.Changes.{MayAttach};
ghost use Rattle.gp_sat.specs.Sound.{IsSound};
ghost use Rattle.gp_sat.specs.State.{with_clause};
ghost use Rattle.gp_search.specs.Inside.{IsTurning, IsConflict, most_steps};
ghost use Rattle.gp_search.specs.Moves.{IsLesson, IsBackAt, KeepsLog, LearnsAndOffers, LearnsOne, raised, RestsOnMarked, is_marked, IsRestartDue};

use crate::asked::Asked;
use crate::engine::{Conflict, Engine};
use crate::lesson::LearnedStep;
use crate::mail::Mail;
use gp_certificate::Step;
use gp_clause::{Clause, Lit, Problem};
use gp_derivation::{LogEntry, Origin, log_grows};
use gp_sat::Solver;
use std::alloc::AllocError;

// How many clauses a turn learns from one restart to the next.
const RESTART_INTERVAL: usize = 12;

impl Engine {
    // Learns from a conflict above the assumptions, and offers what is learned where it is fit to share.
    pub(crate) fn learn<M: Mail>(
        &mut self,
        asked: &Asked<'_>,
        conflict: &Conflict,
        mail: &mut M,
    ) -> Result<(), AllocError>
        requires turning { IsTurning asked.now.problem.now asked.now.query.now self.old }
        requires conflict { IsConflict asked.now.problem.now asked.now.query.now self.old.solver conflict.now.lits.items conflict.now.number }
        requires above { self.old.assumed < self.old.solver.level }
        requires few { length asked.now.problem.now.clauses + most_steps self.old.log.items self.old.learned + 2 < 2 ^ 32 }
        requires mail { M.problem mail.old ≡ asked.now.problem.now }
        ensures turning { IsTurning asked.now.problem.now asked.now.query.now self.new }
        ensures problem { M.problem mail.new ≡ M.problem mail.old }
        ensures number { M.number mail.new ≡ M.number mail.old }
        ensures may_give { M.may_give mail.new ≡ M.may_give mail.old }
        ensures ok { OnOk result (LearnsAndOffers asked.now.problem.now self.old self.new (M.told mail.old) (M.told mail.new)) }
        ensures err { OnErr result (KeepsLog self.old self.new ⊎ LearnsOne self.old self.new) }
    {
        self.log_lesson(asked, conflict)?;
        self.share(asked, mail)
    }

    // Logs what a conflict above the assumptions teaches.
    fn log_lesson(&mut self, asked: &Asked<'_>, conflict: &Conflict) -> Result<(), AllocError>
        requires turning { IsTurning asked.now.problem.now asked.now.query.now self.old }
        requires conflict { IsConflict asked.now.problem.now asked.now.query.now self.old.solver conflict.now.lits.items conflict.now.number }
        requires above { self.old.assumed < self.old.solver.level }
        requires few { length asked.now.problem.now.clauses + most_steps self.old.log.items self.old.learned + 2 < 2 ^ 32 }
        ensures turning { IsTurning asked.now.problem.now asked.now.query.now self.new }
        ensures ok { OnOk result (LearnsOne self.old self.new) }
        ensures err { OnErr result (KeepsLog self.old self.new) }
    {
        let LearnedStep { step, level } = self.learned_step(asked, conflict)?;
        self.back_to(asked, level);
        self.keep(asked, step)?;
        self.restart(asked);
        Ok(())
    }

    // Restarts where that is due: takes back what was decided above the assumptions. What was learned stays, and the order.
    fn restart(&mut self, asked: &Asked<'_>)
        requires { IsTurning asked.now.problem.now asked.now.query.now self.old }
        ensures turning { IsTurning asked.now.problem.now asked.now.query.now self.new }
        ensures same { KeepsLog self.old self.new }
        ensures order { self.new.solver.order ≡ self.old.solver.order }
        ensures due { IsRestartDue (length self.old.log.items - self.old.learned) → self.new.solver.level ≡ self.old.assumed }
        ensures undue { (IsRestartDue (length self.old.log.items - self.old.learned) → ⊥) → self.new ≡ self.old }
    {
        let learned = self.log.len().saturating_sub(self.learned);
        if is_restart_due(learned) && self.assumed < self.solver.level() {
            self.back_to(asked, self.assumed);
        }
    }

    // Takes back the levels above one, and their bounds.
    fn back_to(&mut self, asked: &Asked<'_>, level: u32)
        requires turning { IsTurning asked.now.problem.now asked.now.query.now self.old }
        requires below { level < self.old.solver.level }
        ensures turning { IsTurning asked.now.problem.now asked.now.query.now self.new }
        ensures back { IsBackAt self.old self.new level }
    {
        let begun = self.levels[level as usize];
        self.levels.truncate(level as usize);
        self.solver.backjump(level);
        self.graph.undo_to(begun.bounds);
        self.asserted = self.solver.trail().len();
        self.assumed = self.assumed.min(level);
        self.next = begun.next;
    }

    // Logs a step under the next number, attaches its clause, and raises the variables of it.
    fn keep(&mut self, asked: &Asked<'_>, step: Step) -> Result<(), AllocError>
        requires turning { IsTurning asked.now.problem.now asked.now.query.now self.old }
        requires lesson { IsLesson asked.now.problem.now asked.now.query.now self.old.log.items self.old.begins step }
        requires may { MayAttach self.old.solver step.clause }
        requires few { length asked.now.problem.now.clauses + most_steps self.old.log.items self.old.learned + 2 < 2 ^ 32 }
        ensures turning { IsTurning asked.now.problem.now asked.now.query.now self.new }
        ensures ok { OnOk result (LearnsOne self.old self.new) }
        ensures err { OnErr result (KeepsLog self.old self.new) }
    {
        log_grows();
        let Ok(()) = attach_next(
            &mut self.solver,
            &mut self.log,
            &mut self.pure,
            &step.clause,
        ) else {
            drop(step);
            return Err(AllocError);
        };
        raise_all(&mut self.solver, step.clause.lits());
        let pure = self.is_pure(asked.problem, &step);
        self.pure.push_reserved(pure);
        self.log.push_reserved(LogEntry {
            step,
            origin: Origin::Learned,
        });
        Ok(())
    }

    // Whether a step rests on the problem alone: its variables are those of the problem, and its hints name base clauses and
    // pure entries.
    fn is_pure(&self, problem: &Problem, step: &Step) -> bool
        ensures { IsTrue result ↔ RestsOnMarked problem.now self.now.pure.items step.now }
    {
        name_below(step.clause.lits(), problem.kinds.len())
            && all_marked(
                self.pure.as_slice(),
                problem.clauses.len(),
                step.hints.as_slice(),
            )
    }
}

// Makes room for one entry more and its mark, and attaches its clause.
fn attach_next(
    solver: &mut Solver,
    log: &mut Vec<LogEntry>,
    pure: &mut Vec<bool>,
    clause: &Clause,
) -> Result<(), AllocError>
    requires few { length solver.old.clauses + 1 < 2 ^ 32 }
    requires named { NamesBelow (length solver.old.values) clause.now }
    requires may { MayAttach solver.old clause.now }
    ensures log { log.new.items ≡ log.old.items }
    ensures pure { pure.new.items ≡ pure.old.items }
    ensures log_room { OnOk result (vec_len log.new < vec_capacity log.new) }
    ensures pure_room { OnOk result (vec_len pure.new < vec_capacity pure.new) }
    ensures ok { OnOk result (solver.new ≡ with_clause solver.old clause.now) }
    ensures err { OnErr result (solver.new ≡ solver.old) }
    ensures sound { OnOk result (IsSound solver.new) }
{
    log.reserve(1)?;
    pure.reserve(1)?;
    solver.attach(clause)?;
    Ok(())
}

// Whether a turn restarts once it has learned so many clauses.
fn is_restart_due(learned: usize) -> bool
    ensures { IsTrue result ↔ IsRestartDue learned }
{
    learned % RESTART_INTERVAL == 0
}

// Moves the variables of literals to the front of the order of decisions, one after the other.
fn raise_all(solver: &mut Solver, lits: &[Lit])
    requires sound { IsSound solver.old }
    requires named { All (λ lit. lit.variable < length solver.old.values) lits.now }
    ensures sound { IsSound solver.new }
    ensures raised { solver.new ≡ record solver.old { order = raised lits.now solver.old.order } }
{
    for lit in lits {
        solver.raise(lit.variable);
    }
}

// Whether literals name variables below a count.
fn name_below(lits: &[Lit], count: usize) -> bool
    ensures { IsTrue result ↔ NamesBelow count lits.now }
{
    lits.iter().all(|lit| (lit.variable as usize) < count)
}

// Whether each hint names a base clause or a pure entry.
fn all_marked(marks: &[bool], bases: usize, hints: &[u32]) -> bool
    ensures { IsTrue result ↔ All (λ hint. is_marked marks.now bases hint ≡ true) hints.now }
{
    hints.iter().all(|hint| names_marked(marks, bases, *hint))
}

// Whether a hint names a base clause or a pure entry.
fn names_marked(marks: &[bool], bases: usize, hint: u32) -> bool
    ensures { result ≡ is_marked marks.now bases hint }
{
    let hint = hint as usize;
    if hint < bases {
        return true;
    }
    match marks.get(hint - bases) {
        Some(mark) => *mark,
        None => false,
    }
}
