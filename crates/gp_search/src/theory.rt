ghost use Rattle.std.specs.Prelude.{◌≡◌, ◌<◌, length, map, None, IfOk, MatchOption};
ghost use Rattle.gp_sat.specs.Changes.{IsConflict as IsFalseClause, IsPropagated};
ghost use Rattle.gp_search.specs.Inside.{IsTurning, IsConflict, IsSettled, false_lit};
ghost use Rattle.gp_search.specs.Moves.{AssertsAll, IsNext, GoesOn, MovesGraph};

use crate::asked::Asked;
use crate::bounds::bound;
use crate::engine::{Conflict, Engine};
use gp_clause::Lit;
use gp_difference::Asserted;
use gp_sat::Propagated;
use std::alloc::AllocError;

impl Engine {
    // Adds to the trail what clauses force, and to the graph the bounds of the trail, up to a conflict if there is one.
    pub(crate) fn propagate(&mut self, asked: &Asked<'_>) -> Result<Option<Conflict>, AllocError>
        requires { IsTurning asked.now.problem.now asked.now.query.now self.old }
        ensures turning { IsTurning asked.now.problem.now asked.now.query.now self.new }
        ensures same { GoesOn self.old self.new }
        ensures settled { IfOk result (λ found. MatchOption found (IsSettled self.new) (λ conflict. IsConflict asked.now.problem.now asked.now.query.now self.new.solver conflict.lits.items conflict.number)) }
    {
        match self.force(asked) {
            Propagated::False(number) => Ok(Some(self.false_clause(asked, number)?)),
            Propagated::Quiet => match self.assert_all(asked) {
                Asserted::Kept => Ok(None),
                Asserted::Cycle => Ok(Some(self.cycle_clause(asked)?)),
            },
        }
    }

    // Asserts the bounds of the literals of the trail that have not been asserted.
    fn assert_all(&mut self, asked: &Asked<'_>) -> Asserted
        requires { IsTurning asked.now.problem.now asked.now.query.now self.old }
        ensures turning { IsTurning asked.now.problem.now asked.now.query.now self.new }
        ensures moves { MovesGraph self.old self.new }
        ensures answer { AssertsAll asked.now.problem.now asked.now.query.now self.new result }
    {
        while self.asserted < self.solver.trail().len() {
            match self.assert_next(asked) {
                Asserted::Kept => {}
                Asserted::Cycle => return Asserted::Cycle,
            }
        }
        Asserted::Kept
    }

    // Asserts the bound of the next literal of the trail, if it has one.
    fn assert_next(&mut self, asked: &Asked<'_>) -> Asserted
        requires turning { IsTurning asked.now.problem.now asked.now.query.now self.old }
        requires left { self.old.asserted < length self.old.solver.trail }
        ensures turning { IsTurning asked.now.problem.now asked.now.query.now self.new }
        ensures moves { MovesGraph self.old self.new }
        ensures answer { IsNext asked.now.problem.now asked.now.query.now self.old self.new result }
    {
        let lit = self.solver.trail()[self.asserted];
        let Some(edge) = bound(asked, lit) else {
            self.asserted += 1;
            return Asserted::Kept;
        };
        match self.graph.assert(edge, lit.variable) {
            Asserted::Kept => {
                self.asserted += 1;
                Asserted::Kept
            }
            Asserted::Cycle => Asserted::Cycle,
        }
    }

    // Adds to the trail what clauses force.
    fn force(&mut self, asked: &Asked<'_>) -> Propagated
        requires { IsTurning asked.now.problem.now asked.now.query.now self.old }
        ensures turning { IsTurning asked.now.problem.now asked.now.query.now self.new }
        ensures same { GoesOn self.old self.new }
        ensures answer { IsPropagated self.new.solver result }
    {
        self.solver.propagate()
    }

    // The attached clause of a number, which is false.
    fn false_clause(&self, asked: &Asked<'_>, number: u32) -> Result<Conflict, AllocError>
        requires turning { IsTurning asked.now.problem.now asked.now.query.now self.now }
        requires conflict { IsFalseClause self.now.solver number }
        ensures { IfOk result (λ conflict. IsConflict asked.now.problem.now asked.now.query.now self.now.solver conflict.lits.items conflict.number) }
    {
        let lits = self.solver.clause(number);
        Ok(Conflict {
            lits: Vec::from_slice(*self.log.allocator(), lits)?,
            number: Some(number),
        })
    }

    // The negations of the literals whose bounds are the last cycle.
    fn cycle_clause(&self, asked: &Asked<'_>) -> Result<Conflict, AllocError>
        requires { IsConflict asked.now.problem.now asked.now.query.now self.now.solver (map (false_lit self.now.solver) self.now.graph.cycle) None }
        ensures { IfOk result (λ conflict. IsConflict asked.now.problem.now asked.now.query.now self.now.solver conflict.lits.items conflict.number) }
    {
        let mut lits = Vec::new(*self.log.allocator());
        for tag in self.graph.cycle() {
            lits.push(self.false_lit(*tag))?;
        }
        Ok(Conflict { lits, number: None })
    }

    // The literal of a variable that is false.
    fn false_lit(&self, variable: u32) -> Lit
        requires { variable < length self.now.solver.values }
        ensures { result ≡ false_lit self.now.solver variable }
    {
        Lit {
            variable,
            positive: self.solver.value(variable) == Some(false),
        }
    }
}
