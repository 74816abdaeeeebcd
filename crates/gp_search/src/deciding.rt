ghost use Rattle.std.specs.Prelude.{◌≡◌, ◌+◌, ◌<◌, length, IfOk, OnOk, OnErr, MatchOption, None, IsTrue, ◌↔◌};
ghost use Rattle.gp_sat.specs.State.{assigned};
ghost use Rattle.gp_sat.specs.Deciding.{IsNextFree, IsFull};
ghost use Rattle.gp_sat.specs.Looking.{IsTrueLit};
ghost use Rattle.gp_sat.specs.Sound.{IsSound};
ghost use Rattle.gp_search.specs.Inside.{IsTurning, IsSettled};
ghost use Rattle.gp_search.specs.Moves.{IsAllTrue, IsOpen, KeepsLog, IsRightVerdict, GoesFurther, DecidesNext, MovesNext, BeginsLevel};

use crate::asked::Asked;
use crate::bounds::phase;
use crate::engine::{Engine, Level};
use crate::verdict::Verdict;
use gp_clause::Lit;
use std::alloc::AllocError;

impl Engine {
    // Decides the next assumption or variable, or finds the verdict: the query is refuted where the assumption is false,
    // and met where no variable is left.
    pub(crate) fn decide(&mut self, asked: &Asked<'_>) -> Result<Option<Verdict>, AllocError>
        requires turning { IsTurning asked.now.problem.now asked.now.query.now self.old }
        requires settled { IsSettled self.old }
        ensures turning { IsTurning asked.now.problem.now asked.now.query.now self.new }
        ensures same { KeepsLog self.old self.new }
        ensures found { IfOk result (λ found. MatchOption found (GoesFurther self.old.solver self.new.solver) (IsRightVerdict asked.now.problem.now asked.now.query.now self.new.log.items)) }
    {
        match self.open_assumption(asked) {
            Some(lit) => self.assume(asked, lit),
            None => self.fill(asked),
        }
    }

    // The first assumption that is not true. It looks at those alone that were not seen to be true.
    fn open_assumption(&mut self, asked: &Asked<'_>) -> Option<Lit>
        requires { IsTurning asked.now.problem.now asked.now.query.now self.old }
        ensures turning { IsTurning asked.now.problem.now asked.now.query.now self.new }
        ensures same { MovesNext self.old self.new }
        ensures open { MatchOption result (IsAllTrue asked.now.query.now.assumed self.new.solver) (IsOpen asked.now.query.now.assumed self.new.solver) }
    {
        let assumed = asked.query.assumed.as_slice();
        while self.next < assumed.len() {
            let lit = assumed[self.next];
            if !self.is_true(lit) {
                return Some(lit);
            }
            self.next += 1;
        }
        None
    }

    // Whether a literal is true.
    fn is_true(&self, lit: Lit) -> bool
        requires { lit.variable < length self.now.solver.values }
        ensures { IsTrue result ↔ IsTrueLit (assigned self.now.solver) lit }
    {
        match self.solver.value(lit.variable) {
            Some(positive) => positive == lit.positive,
            None => false,
        }
    }

    // Decides an assumption, or refutes the query where it is false.
    fn assume(&mut self, asked: &Asked<'_>, lit: Lit) -> Result<Option<Verdict>, AllocError>
        requires turning { IsTurning asked.now.problem.now asked.now.query.now self.old }
        requires settled { IsSettled self.old }
        requires next { IsOpen asked.now.query.now.assumed self.old.solver lit }
        ensures turning { IsTurning asked.now.problem.now asked.now.query.now self.new }
        ensures same { KeepsLog self.old self.new }
        ensures found { IfOk result (λ found. MatchOption found (GoesFurther self.old.solver self.new.solver) (IsRightVerdict asked.now.problem.now asked.now.query.now self.new.log.items)) }
    {
        if self.solver.value(lit.variable).is_some() {
            let last = self.refute_assumption(asked, lit)?;
            return Ok(Some(Verdict::Refuted(last)));
        }
        self.begin_level(asked, lit)?;
        self.assumed = self.solver.level();
        Ok(None)
    }

    // Decides a literal, on a trail all bounds of which the graph has.
    fn begin_level(&mut self, asked: &Asked<'_>, lit: Lit) -> Result<(), AllocError>
        requires turning { IsTurning asked.now.problem.now asked.now.query.now self.old }
        requires settled { IsSettled self.old }
        requires named { lit.variable < length self.old.solver.values }
        requires free { assigned self.old.solver lit.variable ≡ None }
        ensures ok { OnOk result (BeginsLevel self.old self.new lit) }
        ensures sound { OnOk result (IsSound self.new.solver) }
        ensures turning { OnErr result (IsTurning asked.now.problem.now asked.now.query.now self.new) }
        ensures same { OnErr result (KeepsLog self.old self.new) }
    {
        self.levels.push(Level {
            bounds: self.graph.mark(),
            next: self.next,
        })?;
        self.solver.decide(lit);
        Ok(())
    }

    // Decides the first variable in the order of decisions, or gives the model where none is left.
    fn fill(&mut self, asked: &Asked<'_>) -> Result<Option<Verdict>, AllocError>
        requires turning { IsTurning asked.now.problem.now asked.now.query.now self.old }
        requires settled { IsSettled self.old }
        requires assumed { IsAllTrue asked.now.query.now.assumed self.old.solver }
        ensures turning { IsTurning asked.now.problem.now asked.now.query.now self.new }
        ensures same { KeepsLog self.old self.new }
        ensures first { IfOk result (λ found. MatchOption found (DecidesNext self.old.solver self.new.solver) (λ _. IsFull self.old.solver)) }
        ensures found { IfOk result (λ found. MatchOption found (GoesFurther self.old.solver self.new.solver) (IsRightVerdict asked.now.problem.now asked.now.query.now self.new.log.items)) }
    {
        match self.free_variable() {
            None => Ok(Some(Verdict::Model(self.model(asked)?))),
            Some(variable) => {
                let positive = phase(asked, self.graph.places(), variable);
                self.begin_level(asked, Lit { variable, positive })?;
                Ok(None)
            }
        }
    }

    // The first variable in the order of decisions, None exactly where every variable in use is assigned.
    fn free_variable(&mut self) -> Option<u32>
        ensures same { self.new ≡ self.old }
        ensures free { MatchOption result (IsFull self.old.solver) (IsNextFree self.old.solver) }
    {
        self.solver.next_free()
    }
}
