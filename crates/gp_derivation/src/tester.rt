ghost use Rattle.std.specs.Prelude.{◌≡◌, ◌+◌, ◌<◌, ◌≤◌, ◌^◌, ◌++◌, [], length, slice_get, vec_capacity, IfOk, OnOk, OnErr, All, Contains};
ghost use Rattle.std.specs.Option.{option_map};
ghost use Rattle.gp_clause.specs.Clause.{NamesBelow, NamesOnce};
ghost use Rattle.gp_clause.specs.Problem.{IsValidKind, IsValidProblem};
ghost use Rattle.gp_derivation.specs.Log.{logged};
ghost use Rattle.gp_certificate.specs.Step.{Passes, named};
ghost use Rattle.gp_derivation.specs.Needed.{HasEnough, HasKept};
ghost use Rattle.gp_derivation.specs.Tight.{IsTight};

use crate::log::LogEntry;
use gp_certificate::Bench;
use gp_clause::{Clause, Kind, Lit, Problem};
use std::alloc::{AllocError, Global};
use std::marker::Model;

/// Makes clauses tight. It is made once for a problem, keeps what it needs over all tries, and takes back what a try did.
#[derive(Drop)]
pub struct Tester {
    bench: Bench,
}

impl Model for Tester {
    ghost use Rattle.gp_derivation.specs.Tester.{TesterForm, IsUnloaded};

    ghost Value = { TesterForm };

    ghost view = { λ t. record { points = t.bench.points; edges = t.bench.edges; lasting = t.bench.lasting; kinds = t.bench.kinds } };

    ghost invariant = { IsUnloaded };
}

impl Tester {
    /// The tester of a problem with the locals of a query.
    pub fn new(alloc: Global, problem: &Problem, locals: &[Kind]) -> Result<Tester, AllocError>
        requires valid { IsValidProblem problem.now }
        requires few { length locals.now < 2 ^ 30 }
        requires locals { All (IsValidKind problem.now.points) locals.now }
        ensures { IfOk result (λ tester. tester ≡ record { points = problem.now.points; edges = problem.now.edges; lasting = problem.now.kinds; kinds = problem.now.kinds ++ locals.now }) }
    {
        let bench = Bench::new(alloc, problem, locals)?;
        Ok(Tester { bench })
    }

    /// Changes the locals. It costs what the old ones and the new ones are; after want of memory there are none.
    pub fn set_locals(&mut self, locals: &[Kind]) -> Result<(), AllocError>
        requires few { length locals.now < 2 ^ 30 }
        requires locals { All (IsValidKind self.old.points) locals.now }
        ensures ok { OnOk result (self.new ≡ record self.old { kinds = self.old.lasting ++ locals.now }) }
        ensures err { OnErr result (self.new ≡ record self.old { kinds = self.old.lasting }) }
    {
        self.bench.set_locals(locals)
    }

    /// Some of the literals of a clause that passes with the clauses that hints name: with any one more literal left out
    /// it would not pass. The hints number the clauses of the problem and then those of the log. One half of the literals
    /// is narrowed while the other is assumed (QuickXplain, Junker 2004), so that what a half derives is derived once.
    pub fn tighten(
        &mut self,
        problem: &Problem,
        log: &[LogEntry],
        hints: &[u32],
        clause: Clause,
    ) -> Result<Clause, AllocError>
        requires within { All (NamesBelow (length self.old.kinds)) (named (logged problem.now log.now) hints.now) }
        requires passes { Passes self.old.edges self.old.kinds (named (logged problem.now log.now) hints.now) clause }
        ensures some { IfOk result (All (Contains clause)) }
        ensures passes { IfOk result (Passes self.old.edges self.old.kinds (named (logged problem.now log.now) hints.now)) }
        ensures tight { IfOk result (IsTight self.old.edges self.old.kinds (named (logged problem.now log.now) hints.now)) }
        ensures same { self.new ≡ self.old }
    {
        let outcome = tightened(&mut self.bench, problem, log, hints, clause);
        self.bench.clear();
        outcome
    }
}

// Some of the literals of a clause that passes with the clauses that hints name, which are left loaded.
fn tightened(
    bench: &mut Bench,
    problem: &Problem,
    log: &[LogEntry],
    hints: &[u32],
    clause: Clause,
) -> Result<Clause, AllocError>
    requires empty { bench.old.loaded ≡ [] }
    requires nothing { bench.old.assumed ≡ [] }
    requires within { All (NamesBelow (length bench.old.kinds)) (named (logged problem.now log.now) hints.now) }
    requires passes { Passes bench.old.edges bench.old.kinds (named (logged problem.now log.now) hints.now) clause }
    ensures some { IfOk result (All (Contains clause)) }
    ensures passes { IfOk result (Passes bench.old.edges bench.old.kinds (named (logged problem.now log.now) hints.now)) }
    ensures tight { IfOk result (IsTight bench.old.edges bench.old.kinds (named (logged problem.now log.now) hints.now)) }
    ensures same { bench.new ≡ record bench.old { loaded = bench.new.loaded } }
{
    load_named(bench, problem, log, hints)?;
    let lits = left_over(bench, clause)?;
    match Clause::of(lits) {
        Ok(tight) => Ok(tight),
        Err(_) => unreachable!(),
    }
}

// Some of the literals of a clause that passes: with any one more left out they would not.
fn left_over(bench: &mut Bench, clause: Clause) -> Result<Vec<Lit>, AllocError>
    requires nothing { bench.old.assumed ≡ [] }
    requires passes { Passes bench.old.edges bench.old.kinds bench.old.loaded clause }
    ensures once { IfOk result (λ lits. NamesOnce lits.items) }
    ensures some { IfOk result (λ lits. All (Contains clause) lits.items) }
    ensures passes { IfOk result (λ lits. Passes bench.old.edges bench.old.kinds bench.old.loaded lits.items) }
    ensures tight { IfOk result (λ lits. IsTight bench.old.edges bench.old.kinds bench.old.loaded lits.items) }
    ensures same { bench.new ≡ bench.old }
{
    let lits = clause.into_vec();
    let mut kept = Vec::with_capacity(*lits.allocator(), lits.len())?;
    bench.assume(&[]);
    keep_needed(bench, lits.as_slice(), &mut kept);
    bench.retract();
    Ok(kept)
}

// Keeps those of the candidates, in their order, that are needed beside what is assumed: those of the first half that are
// needed beside the second, and those of the second that are needed beside them.
fn keep_needed(bench: &mut Bench, candidates: &[Lit], kept: &mut Vec<Lit>)
    requires enough { HasEnough bench.old candidates.now }
    requires room { length kept.old.items + length candidates.now ≤ vec_capacity kept.old }
    ensures kept { HasKept bench.old candidates.now kept.old.items kept.new.items }
    ensures capacity { vec_capacity kept.new ≡ vec_capacity kept.old }
    ensures same { bench.new ≡ bench.old }
{
    if bench.is_refuted() {
        return;
    }
    if candidates.len() == 1 {
        kept.push_reserved(candidates[0]);
        return;
    }
    let (first, second) = candidates.split_at(candidates.len() / 2);
    let before = kept.len();
    bench.assume(second);
    keep_needed(bench, first, kept);
    bench.retract();
    bench.assume(&kept.as_slice()[before..]);
    keep_needed(bench, second, kept);
    bench.retract();
}

// Loads the clauses that hints name, of a problem and then of a log.
fn load_named(
    bench: &mut Bench,
    problem: &Problem,
    log: &[LogEntry],
    hints: &[u32],
) -> Result<(), AllocError>
    requires empty { bench.old.loaded ≡ [] }
    requires nothing { bench.old.assumed ≡ [] }
    requires within { All (NamesBelow (length bench.old.kinds)) (named (logged problem.now log.now) hints.now) }
    ensures ok { OnOk result (bench.new ≡ record bench.old { loaded = named (logged problem.now log.now) hints.now }) }
    ensures same { bench.new ≡ record bench.old { loaded = bench.new.loaded } }
{
    for hint in hints {
        if let Some(clause) = numbered(problem, log, *hint as usize) {
            bench.load(clause.lits())?;
        }
    }
    Ok(())
}

// The clause with a number, of a problem and then of a log.
fn numbered<'a>(problem: &'a Problem, log: &'a [LogEntry], number: usize) -> Option<&'a Clause>
    ensures { option_map (λ clause. clause.now) result ≡ slice_get (logged problem.now log.now) number }
{
    let bases = problem.clauses.len();
    if number < bases {
        return Some(&problem.clauses.as_slice()[number]);
    }
    match log.get(number - bases) {
        Some(entry) => Some(&entry.step.clause),
        None => None,
    }
}
