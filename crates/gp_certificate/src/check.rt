ghost use Rattle.std.specs.Prelude.{◌≡◌, ◌+◌, ◌<◌, ◌↔◌, [], ◌++◌, length, slice_get, IsTrue, IfOk, OnOk, MatchOption, All};
ghost use Rattle.std.specs.Option.{option_map};
ghost use Rattle.gp_clause.specs.Clause.{NamesBelow, NamesOnce};
ghost use Rattle.gp_clause.specs.Problem.{IsValidProblem, IsValidQuery};
ghost use Rattle.gp_certificate.specs.Bench.{HasLoaded};
ghost use Rattle.gp_certificate.specs.Certificate.{clauses_of, StepPasses};
ghost use Rattle.gp_certificate.specs.Shared.{OwnStepsPass, SharedPasses, PassesOver, FirstFails, FirstOwnFails};
ghost use Rattle.gp_certificate.specs.Step.{Passes, named};

use crate::bench::Bench;
use crate::certificate::Certificate;
use crate::judge::Judge;
use crate::step::Step;
use gp_clause::{Clause, Lit, Problem, Query};
use std::alloc::{AllocError, Global};

/// Whether each own step of a certificate passes over a shared list whose clauses have variables of the problem and the
/// query alone, as those of a list that passes have.
pub fn check_certificate(
    alloc: Global,
    problem: &Problem,
    shared: &[Step],
    query: &Query,
    certificate: &Certificate,
) -> Result<bool, AllocError>
    requires valid { IsValidProblem problem.now }
    requires asked { IsValidQuery problem.now query.now }
    requires shared { All (NamesBelow (length problem.now.kinds + length query.now.locals)) (clauses_of shared.now) }
    ensures { IfOk result (λ passes. IsTrue passes ↔ PassesOver problem.now shared.now query.now certificate.now) }
{
    let mut judge = Judge::new(alloc, problem)?;
    let first = judge.first_to_fail(problem, shared, query, certificate);
    drop(judge);
    match first? {
        None => Ok(true),
        Some(_) => Ok(false),
    }
}

/// The first step of a shared list that fails, or none where all pass.
pub fn check_shared(
    alloc: Global,
    problem: &Problem,
    shared: &[Step],
) -> Result<Option<u64>, AllocError>
    requires { IsValidProblem problem.now }
    ensures { IfOk result (λ first. MatchOption first (SharedPasses problem.now shared.now) (FirstFails problem.now shared.now)) }
{
    let mut judge = Judge::new(alloc, problem)?;
    let first = judge.first_shared_to_fail(problem, shared);
    drop(judge);
    first
}

// The first of some own steps that fails, by a bench for the steps with hints and one with all base clauses loaded, where
// the clauses of the steps that pass are left loaded.
pub(crate) fn first_to_fail(
    hinted: &mut Bench,
    all: &mut Bench,
    base: &[Clause],
    shared: &[Step],
    own: &[Step],
) -> Result<Option<u64>, AllocError>
    requires empty { hinted.old.loaded ≡ [] }
    requires nothing { hinted.old.assumed ≡ [] }
    requires all { all.old ≡ record hinted.old { loaded = base.now } }
    requires base { All (NamesBelow (length hinted.old.kinds)) base.now }
    requires shared { All (NamesBelow (length hinted.old.kinds)) (clauses_of shared.now) }
    ensures first { IfOk result (λ first. MatchOption first (OwnStepsPass hinted.old.edges hinted.old.kinds base.now (clauses_of shared.now) [] own.now) (FirstOwnFails hinted.old.edges hinted.old.kinds base.now (clauses_of shared.now) own.now)) }
    ensures same { hinted.new ≡ hinted.old }
    ensures all { HasLoaded all.old all.new }
{
    for (place, step) in own.iter().enumerate() {
        if !step_passes(hinted, all, base, shared, &own[..place], step)? {
            return Ok(Some(place as u64));
        }
        all.load(step.clause.lits())?;
    }
    Ok(None)
}

// Whether a step passes with the clauses that its hints number, or where it has none with those of the other bench.
fn step_passes(
    hinted: &mut Bench,
    all: &mut Bench,
    base: &[Clause],
    shared: &[Step],
    own: &[Step],
    step: &Step,
) -> Result<bool, AllocError>
    requires empty { hinted.old.loaded ≡ [] }
    requires nothing { hinted.old.assumed ≡ [] }
    requires all { all.old ≡ record hinted.old { loaded = base.now ++ clauses_of own.now } }
    requires within { All (NamesBelow (length hinted.old.kinds)) (base.now ++ clauses_of shared.now ++ clauses_of own.now) }
    ensures passes { IfOk result (λ passes. IsTrue passes ↔ StepPasses hinted.old.edges hinted.old.kinds (base.now ++ clauses_of shared.now ++ clauses_of own.now) (base.now ++ clauses_of own.now) step.now) }
    ensures same { hinted.new ≡ hinted.old }
    ensures all { all.new ≡ all.old }
{
    let hints = step.hints.as_slice();
    if !are_below(hints, base.len() + shared.len() + own.len()) {
        return Ok(false);
    }
    let lits = step.clause.lits();
    if hints.is_empty() {
        return Ok(all.passes(lits));
    }
    let outcome = passes_hinted(hinted, base, shared, own, hints, lits);
    hinted.clear();
    outcome
}

// Whether a clause passes with the clauses that hints number, which are left loaded.
fn passes_hinted(
    bench: &mut Bench,
    base: &[Clause],
    shared: &[Step],
    own: &[Step],
    hints: &[u32],
    lits: &[Lit],
) -> Result<bool, AllocError>
    requires empty { bench.old.loaded ≡ [] }
    requires nothing { bench.old.assumed ≡ [] }
    requires within { All (NamesBelow (length bench.old.kinds)) (base.now ++ clauses_of shared.now ++ clauses_of own.now) }
    requires once { NamesOnce lits.now }
    ensures passes { IfOk result (λ passes. IsTrue passes ↔ Passes bench.old.edges bench.old.kinds (named (base.now ++ clauses_of shared.now ++ clauses_of own.now) hints.now) lits.now) }
    ensures same { bench.new ≡ record bench.old { loaded = bench.new.loaded } }
{
    load_hinted(bench, base, shared, own, hints)?;
    Ok(bench.passes(lits))
}

// Whether all hints are below the count.
fn are_below(hints: &[u32], count: usize) -> bool
    ensures { IsTrue result ↔ All (λ hint. hint < count) hints.now }
{
    hints.iter().all(|hint| (*hint as usize) < count)
}

// Loads the clauses that hints number.
fn load_hinted(
    bench: &mut Bench,
    base: &[Clause],
    shared: &[Step],
    own: &[Step],
    hints: &[u32],
) -> Result<(), AllocError>
    requires empty { bench.old.loaded ≡ [] }
    requires nothing { bench.old.assumed ≡ [] }
    requires within { All (NamesBelow (length bench.old.kinds)) (base.now ++ clauses_of shared.now ++ clauses_of own.now) }
    ensures ok { OnOk result (bench.new ≡ record bench.old { loaded = named (base.now ++ clauses_of shared.now ++ clauses_of own.now) hints.now }) }
    ensures same { bench.new ≡ record bench.old { loaded = bench.new.loaded } }
{
    for hint in hints {
        if let Some(clause) = numbered(base, shared, own, *hint as usize) {
            bench.load(clause.lits())?;
        }
    }
    Ok(())
}

// The clause with a number.
fn numbered<'a>(
    base: &'a [Clause],
    shared: &'a [Step],
    own: &'a [Step],
    number: usize,
) -> Option<&'a Clause>
    ensures { option_map (λ clause. clause.now) result ≡ slice_get (base.now ++ clauses_of shared.now ++ clauses_of own.now) number }
{
    if number < base.len() {
        return Some(&base[number]);
    }
    let place = number - base.len();
    if place < shared.len() {
        return Some(&shared[place].clause);
    }
    clause_at(own, place - shared.len())
}

// The clause of the step at a place.
fn clause_at(steps: &[Step], place: usize) -> Option<&Clause>
    ensures { option_map (λ clause. clause.now) result ≡ slice_get (clauses_of steps.now) place }
{
    match steps.get(place) {
        Some(step) => Some(&step.clause),
        None => None,
    }
}
