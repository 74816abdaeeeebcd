ghost use Rattle.std.specs.Prelude.{◌≡◌, ◌<◌, Some, All, Contains, IfOk, length, slice_get};
ghost use Rattle.gp_clause.specs.Clause.{NamesBelow};
ghost use Rattle.gp_certificate.specs.Step.{Passes, named};
ghost use Rattle.gp_derivation.specs.Cones.{IsCone};
ghost use Rattle.gp_derivation.specs.Fit.{IsSmallCone};
ghost use Rattle.gp_derivation.specs.Log.{logged};
ghost use Rattle.gp_derivation.specs.Numbering.{CanBeNumbered};
ghost use Rattle.gp_derivation.specs.Tight.{IsTight};
ghost use Rattle.gp_derivation.specs.declared.log.LogEntry.{LogEntry};

use gp_certificate::{Certificate, Step};
use gp_clause::{Clause, Problem};
use gp_derivation::{LogEntry, Tester};
use std::alloc::{AllocError, Global};

/// As `gp_derivation::cone`.
pub fn cone(
    alloc: Global,
    base_clauses: u32,
    log: &[LogEntry],
    last: &Step,
) -> Result<Certificate, AllocError>
    requires { CanBeNumbered base_clauses log.now last.now }
    ensures { IfOk result (IsCone base_clauses log.now last.now) }
{
    gp_derivation::cone(alloc, base_clauses, log, last)
}

/// As `gp_derivation::small_cone`.
pub fn small_cone(
    alloc: Global,
    problem: &Problem,
    log: &[LogEntry],
    entry: u32,
) -> Result<Option<Certificate>, AllocError>
    requires entry { entry < length log.now }
    requires numbered { (own : LogEntry) → slice_get log.now entry ≡ Some own → CanBeNumbered (length problem.now.clauses) log.now own.step }
    ensures { (own : LogEntry) → slice_get log.now entry ≡ Some own → IfOk result (IsSmallCone problem.now log.now own) }
{
    gp_derivation::small_cone(alloc, problem, log, entry)
}

/// As `Tester::tighten`.
pub fn tighten(
    tester: &mut Tester,
    problem: &Problem,
    log: &[LogEntry],
    hints: &[u32],
    clause: Clause,
) -> Result<Clause, AllocError>
    requires within { All (NamesBelow (length tester.old.kinds)) (named (logged problem.now log.now) hints.now) }
    requires passes { Passes tester.old.edges tester.old.kinds (named (logged problem.now log.now) hints.now) clause }
    ensures some { IfOk result (All (Contains clause)) }
    ensures passes { IfOk result (Passes tester.old.edges tester.old.kinds (named (logged problem.now log.now) hints.now)) }
    ensures tight { IfOk result (IsTight tester.old.edges tester.old.kinds (named (logged problem.now log.now) hints.now)) }
    ensures same { tester.new ≡ tester.old }
{
    tester.tighten(problem, log, hints, clause)
}
