ghost use Rattle.std.specs.Prelude.{◌≡◌, ◌<◌, length, All, IfOk};
ghost use Rattle.gp_sat.specs.State.{assigned};
ghost use Rattle.gp_sat.specs.Changes.{HasPresent};
ghost use Rattle.gp_sat.specs.Learning.{IsFirstPoint, IsHighestBelow};
ghost use Rattle.gp_sat.specs.Standing.{IsFalse, Each};
ghost use Rattle.gp_search.specs.Inside.{IsTurning, IsConflict};
ghost use Rattle.gp_search.specs.Moves.{IsStudied, IsTightened, IsHigher, IsLearnedStep, with_number};

use crate::asked::Asked;
use crate::engine::{Conflict, Engine};
use gp_base::Row;
use gp_certificate::Step;
use gp_clause::{Lit, closure_is_least};
use gp_sat::Learned;
use std::alloc::AllocError;

// A step to log, and the level at which its clause asserts a literal.
#[derive(Drop)]
pub(crate) struct LearnedStep {
    pub(crate) step: Step,
    pub(crate) level: u32,
}

impl Engine {
    // What the analysis of a conflict gives, with the number of the conflict's clause among the hints, made tight.
    pub(crate) fn learned_step(
        &mut self,
        asked: &Asked<'_>,
        conflict: &Conflict,
    ) -> Result<LearnedStep, AllocError>
        requires turning { IsTurning asked.now.problem.now asked.now.query.now self.old }
        requires conflict { IsConflict asked.now.problem.now asked.now.query.now self.old.solver conflict.now.lits.items conflict.now.number }
        requires above { self.old.assumed < self.old.solver.level }
        ensures same { self.new ≡ self.old }
        ensures step { IfOk result (λ learned_step. IsLearnedStep asked.now.problem.now asked.now.query.now self.old learned_step.step learned_step.level) }
    {
        let found = self.study(asked, conflict)?;
        let step = self.tighten(asked, found)?;
        let level = self.highest_below(step.clause.lits());
        Ok(LearnedStep { step, level })
    }

    // What the analysis of a conflict gives, with the number of the conflict's clause among the hints.
    fn study(&mut self, asked: &Asked<'_>, conflict: &Conflict) -> Result<Step, AllocError>
        requires turning { IsTurning asked.now.problem.now asked.now.query.now self.old }
        requires conflict { IsConflict asked.now.problem.now asked.now.query.now self.old.solver conflict.now.lits.items conflict.now.number }
        requires above { self.old.assumed < self.old.solver.level }
        ensures same { self.new ≡ self.old }
        ensures studied { IfOk result (IsStudied asked.now.problem.now asked.now.query.now self.old) }
    {
        let Learned { clause, hints, .. } = self.analyse(conflict.lits.as_slice())?;
        match add_number(hints, conflict.number) {
            Ok(hints) => Ok(Step { clause, hints }),
            Err(error) => {
                drop(clause);
                Err(error)
            }
        }
    }

    // The first unique implication point of a conflict.
    fn analyse(&mut self, conflict: &[Lit]) -> Result<Learned, AllocError>
        requires above { 0 < self.old.solver.level }
        requires conflict { Each (IsFalse (assigned self.old.solver)) conflict.now }
        requires present { HasPresent self.old.solver conflict.now }
        ensures same { self.new ≡ self.old }
        ensures learned { IfOk result (IsFirstPoint self.old.solver conflict.now) }
    {
        self.solver.analyse(conflict)
    }

    // A tight part of a step. It keeps the one literal of the present level: below that level the attached clauses and the
    // places refute nothing.
    fn tighten(&mut self, asked: &Asked<'_>, step: Step) -> Result<Step, AllocError>
        requires turning { IsTurning asked.now.problem.now asked.now.query.now self.old }
        requires above { self.old.assumed < self.old.solver.level }
        requires studied { IsStudied asked.now.problem.now asked.now.query.now self.old step }
        ensures same { self.new ≡ self.old }
        ensures tightened { IfOk result (IsTightened asked.now.problem.now asked.now.query.now self.old) }
    {
        closure_is_least();
        let _ = self.graph.places();
        let Step { clause, hints } = step;
        match self.tester.tighten(asked.problem, self.log.as_slice(), hints.as_slice(), clause) {
            Ok(tight) => Ok(Step {
                clause: tight,
                hints,
            }),
            Err(error) => {
                drop(hints);
                Err(error)
            }
        }
    }

    // The highest level of the literals below the present level, and 0 where there is none.
    fn highest_below(&self, lits: &[Lit]) -> u32
        requires { All (λ lit. lit.variable < length self.now.solver.values) lits.now }
        ensures { IsHighestBelow self.now.solver lits.now result }
    {
        let mut level = 0;
        for lit in lits {
            level = self.higher_below(*lit, level);
        }
        level
    }

    // The level of a literal where it is below the present one and above another, else that one.
    fn higher_below(&self, lit: Lit, level: u32) -> u32
        requires { lit.variable < length self.now.solver.values }
        ensures { IsHigher self.now.solver lit level result }
    {
        let Some(own) = self.solver.level_of(lit.variable) else {
            return level;
        };
        if own <= level {
            return level;
        }
        if own >= self.solver.level() {
            return level;
        }
        own
    }
}

// Hints, and beside them a number if there is one.
pub(crate) fn add_number(hints: Row<u32>, number: Option<u32>) -> Result<Row<u32>, AllocError>
    ensures { IfOk result (λ all. all ≡ with_number hints number) }
{
    let mut hints = hints;
    if let Some(number) = number {
        hints.push(number)?;
    }
    Ok(hints)
}
