ghost use Rattle.std.specs.Prelude.{◌≡◌, ◌+◌, ◌<◌, ◌^◌, [], ◌++◌, length, IfOk, OnOk, MatchOption, All};
ghost use Rattle.gp_clause.specs.Clause.{NamesBelow};
ghost use Rattle.gp_clause.specs.Problem.{IsValidKind, IsValidProblem, IsValidQuery};
ghost use Rattle.gp_certificate.specs.Bench.{HasTested};
ghost use Rattle.gp_certificate.specs.Certificate.{clauses_of};
ghost use Rattle.gp_certificate.specs.Shared.{OwnStepsPass, SharedPasses, PassesOver, FirstFails, FirstOwnFails};

use crate::bench::Bench;
use crate::certificate::Certificate;
use crate::check::first_to_fail;
use crate::step::Step;
use gp_clause::{Clause, Kind, Problem, Query};
use std::alloc::{AllocError, Global};
use std::marker::Model;

/// Tests the certificates of a problem, as which contracts see it. It loads the problem's clauses once; the test of a
/// certificate costs what its hints and its locals are, with all clauses for each step without hints, and what it loaded
/// is taken back, also after want of memory.
#[derive(Drop)]
pub struct Judge {
    hinted: Bench,
    all: Bench,
}

impl Model for Judge {
    ghost use Rattle.gp_clause.specs.declared.problem.Problem.{Problem};
    ghost use Rattle.gp_certificate.specs.Judge.{problem_of, IsLoaded};

    ghost Value = { Problem };

    ghost view = { problem_of };

    ghost invariant = { IsLoaded };
}

impl Judge {
    /// The judge of a problem.
    pub fn new(alloc: Global, problem: &Problem) -> Result<Judge, AllocError>
        requires { IsValidProblem problem.now }
        ensures { IfOk result (λ judge. judge ≡ problem.now) }
    {
        let hinted = Bench::new(alloc, problem, &[])?;
        match all_loaded(alloc, problem) {
            Ok(all) => Ok(Judge { hinted, all }),
            Err(error) => {
                drop(hinted);
                Err(error)
            }
        }
    }

    /// The first own step of a certificate that fails over a shared list, or none where all pass. The clauses of the list
    /// have variables of the problem and the query alone, as those of a list that passes have.
    pub fn first_to_fail(
        &mut self,
        problem: &Problem,
        shared: &[Step],
        query: &Query,
        certificate: &Certificate,
    ) -> Result<Option<u64>, AllocError>
        requires same { problem.now ≡ self.old }
        requires asked { IsValidQuery problem.now query.now }
        requires shared { All (NamesBelow (length problem.now.kinds + length query.now.locals)) (clauses_of shared.now) }
        ensures first { IfOk result (λ first. MatchOption first (PassesOver problem.now shared.now query.now certificate.now) (FirstOwnFails problem.now.edges (problem.now.kinds ++ query.now.locals) problem.now.clauses (clauses_of shared.now) certificate.now.steps)) }
        ensures same { self.new ≡ self.old }
    {
        let locals = query.locals.as_slice();
        let steps = certificate.steps.as_slice();
        self.first_of(problem, locals, shared, steps)
    }

    /// The first step of a shared list that fails, or none where all pass.
    pub fn first_shared_to_fail(
        &mut self,
        problem: &Problem,
        shared: &[Step],
    ) -> Result<Option<u64>, AllocError>
        requires { problem.now ≡ self.old }
        ensures first { IfOk result (λ first. MatchOption first (SharedPasses problem.now shared.now) (FirstFails problem.now shared.now)) }
        ensures same { self.new ≡ self.old }
    {
        self.first_of(problem, &[], &[], shared)
    }

    // The first of some own steps that fails, with these locals.
    fn first_of(
        &mut self,
        problem: &Problem,
        locals: &[Kind],
        shared: &[Step],
        own: &[Step],
    ) -> Result<Option<u64>, AllocError>
        requires same { problem.now ≡ self.old }
        requires few { length locals.now < 2 ^ 30 }
        requires locals { All (IsValidKind problem.now.points) locals.now }
        requires shared { All (NamesBelow (length problem.now.kinds + length locals.now)) (clauses_of shared.now) }
        ensures first { IfOk result (λ first. MatchOption first (OwnStepsPass problem.now.edges (problem.now.kinds ++ locals.now) problem.now.clauses (clauses_of shared.now) [] own.now) (FirstOwnFails problem.now.edges (problem.now.kinds ++ locals.now) problem.now.clauses (clauses_of shared.now) own.now)) }
        ensures same { self.new ≡ self.old }
    {
        let base = problem.clauses.as_slice();
        let outcome = first_with(&mut self.hinted, &mut self.all, locals, base, shared, own);
        self.all.unload(base.len());
        outcome
    }
}

// A bench with all clauses of a problem loaded.
fn all_loaded(alloc: Global, problem: &Problem) -> Result<Bench, AllocError>
    requires { IsValidProblem problem.now }
    ensures { IfOk result (λ bench. bench ≡ record { points = problem.now.points; edges = problem.now.edges; lasting = problem.now.kinds; kinds = problem.now.kinds; loaded = problem.now.clauses; assumed = [] }) }
{
    let mut bench = Bench::new(alloc, problem, &[])?;
    match load_all(&mut bench, problem.clauses.as_slice()) {
        Ok(()) => Ok(bench),
        Err(error) => {
            drop(bench);
            Err(error)
        }
    }
}

// Loads more clauses.
fn load_all(bench: &mut Bench, clauses: &[Clause]) -> Result<(), AllocError>
    requires within { All (NamesBelow (length bench.old.kinds)) clauses.now }
    requires nothing { bench.old.assumed ≡ [] }
    ensures { OnOk result (bench.new ≡ record bench.old { loaded = bench.old.loaded ++ clauses.now }) }
{
    for clause in clauses {
        bench.load(clause.lits())?;
    }
    Ok(())
}

// The first of some own steps that fails, with these locals, by a bench without clauses and one with all base clauses.
fn first_with(
    hinted: &mut Bench,
    all: &mut Bench,
    locals: &[Kind],
    base: &[Clause],
    shared: &[Step],
    own: &[Step],
) -> Result<Option<u64>, AllocError>
    requires few { length locals.now < 2 ^ 30 }
    requires locals { All (IsValidKind all.old.points) locals.now }
    requires empty { hinted.old.loaded ≡ [] }
    requires nothing { hinted.old.assumed ≡ [] }
    requires all { all.old ≡ record hinted.old { kinds = all.old.kinds; loaded = base.now } }
    requires base { All (NamesBelow (length all.old.lasting)) base.now }
    requires shared { All (NamesBelow (length all.old.lasting + length locals.now)) (clauses_of shared.now) }
    ensures first { IfOk result (λ first. MatchOption first (OwnStepsPass all.old.edges (all.old.lasting ++ locals.now) base.now (clauses_of shared.now) [] own.now) (FirstOwnFails all.old.edges (all.old.lasting ++ locals.now) base.now (clauses_of shared.now) own.now)) }
    ensures hinted { hinted.new ≡ record hinted.old { kinds = hinted.new.kinds } }
    ensures all { HasTested all.old all.new }
{
    hinted.set_locals(locals)?;
    all.set_locals(locals)?;
    first_to_fail(hinted, all, base, shared, own)
}
