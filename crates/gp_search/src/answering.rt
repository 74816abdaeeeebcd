ghost use Rattle.std.specs.Prelude.{◌≡◌, ◌+◌, ◌<◌, ◌≤◌, length, IfOk, All, Contains, Some};
ghost use Rattle.gp_clause.specs.Lit.{opposite};
ghost use Rattle.gp_clause.specs.Valuation.{Meets};
ghost use Rattle.gp_derivation.specs.Cones.{RefutesByCone};
ghost use Rattle.gp_derivation.specs.Log.{LearnedPasses};
ghost use Rattle.gp_sat.specs.State.{assigned};
ghost use Rattle.gp_sat.specs.Learning.{IsFinal};
ghost use Rattle.gp_sat.specs.Standing.{IsFalse, Each};
ghost use Rattle.gp_search.specs.Inside.{IsTurning, IsConflict, IsSettled, all_kinds};
ghost use Rattle.gp_search.specs.Moves.{IsAllAssigned, IsAllTrue, IsTruthOf};

use crate::asked::Asked;
use crate::engine::{Conflict, Engine};
use crate::lesson::add_number;
use gp_base::Row;
use gp_certificate::Step;
use gp_clause::{Clause, Lit, Valuation, true_or_false};
use gp_derivation::{cone_checks, cone_is_there};
use gp_sat::Learned;
use std::alloc::AllocError;

impl Engine {
    // The last step of a refutation by a conflict while every decision is an assumption.
    pub(crate) fn refute(
        &mut self,
        asked: &Asked<'_>,
        conflict: &Conflict,
    ) -> Result<Step, AllocError>
        requires turning { IsTurning asked.now.problem.now asked.now.query.now self.old }
        requires conflict { IsConflict asked.now.problem.now asked.now.query.now self.old.solver conflict.now.lits.items conflict.now.number }
        requires low { self.old.solver.level ≤ self.old.assumed }
        ensures same { self.new ≡ self.old }
        ensures refutes { IfOk result (RefutesByCone asked.now.problem.now asked.now.query.now self.new.log.items) }
    {
        let learned = self.analyse_final(conflict.lits.as_slice())?;
        let last = Step {
            clause: learned.clause,
            hints: add_number(learned.hints, conflict.number)?,
        };
        self.certify(asked, &last);
        Ok(last)
    }

    // The last step of a refutation by an assumption that is false while every decision is an assumption.
    pub(crate) fn refute_assumption(
        &mut self,
        asked: &Asked<'_>,
        lit: Lit,
    ) -> Result<Step, AllocError>
        requires turning { IsTurning asked.now.problem.now asked.now.query.now self.old }
        requires assumed { Contains asked.now.query.now.assumed lit }
        requires fell { IsFalse (assigned self.old.solver) lit }
        requires low { self.old.solver.level ≤ self.old.assumed }
        ensures same { self.new ≡ self.old }
        ensures refutes { IfOk result (RefutesByCone asked.now.problem.now asked.now.query.now self.new.log.items) }
    {
        let learned = self.analyse_final(&[lit])?;
        let mut lits = learned.clause.into_vec();
        lits.push(lit.negated())?;
        let last = Step {
            clause: Clause::of(lits).unwrap(),
            hints: learned.hints,
        };
        self.certify(asked, &last);
        Ok(last)
    }

    // The negated decisions that a conflict rests on.
    fn analyse_final(&mut self, conflict: &[Lit]) -> Result<Learned, AllocError>
        requires { Each (IsFalse (assigned self.old.solver)) conflict.now }
        ensures same { self.new ≡ self.old }
        ensures learned { IfOk result (IsFinal self.old.solver conflict.now) }
    {
        self.solver.analyse_final(conflict)
    }

    // A step that has negated assumptions alone refutes the query by its cone, which is not made here.
    fn certify(&self, asked: &Asked<'_>, last: &Step)
        requires turning { IsTurning asked.now.problem.now asked.now.query.now self.now }
        requires passes { LearnedPasses asked.now.problem.now asked.now.query.now.locals self.now.log.items self.now.begins (length self.now.log.items) last.now }
        requires negated { All (λ lit. Contains asked.now.query.now.assumed (opposite lit)) last.now.clause }
        ensures { RefutesByCone asked.now.problem.now asked.now.query.now self.now.log.items last.now }
    {
        cone_is_there();
        cone_checks();
    }

    // The values of the trail, and the places of the graph.
    pub(crate) fn model(&self, asked: &Asked<'_>) -> Result<Valuation, AllocError>
        requires turning { IsTurning asked.now.problem.now asked.now.query.now self.now }
        requires settled { IsSettled self.now }
        requires all { IsAllAssigned (length (all_kinds asked.now.problem.now asked.now.query.now)) self.now.solver }
        requires assumed { IsAllTrue asked.now.query.now.assumed self.now.solver }
        ensures { IfOk result (Meets asked.now.problem.now asked.now.query.now) }
    {
        true_or_false();
        let variables = asked.problem.kinds.len() + asked.query.locals.len();
        let truth = self.truth(variables as u32)?;
        let places = Vec::from_slice(*self.log.allocator(), self.graph.places())?;
        Ok(Valuation {
            truth: Row::from_vec(truth),
            places: Row::from_vec(places),
        })
    }

    // The truth values of the first variables.
    fn truth(&self, variables: u32) -> Result<Vec<bool>, AllocError>
        requires { variables ≤ length self.now.solver.values }
        ensures { IfOk result (λ truth. IsTruthOf self.now.solver variables truth.items) }
    {
        let mut truth = Vec::new(*self.log.allocator());
        for variable in 0..variables {
            truth.push(self.solver.value(variable) == Some(true))?;
        }
        Ok(truth)
    }
}
