ghost use Rattle.std.specs.Prelude.{◌≡◌, ◌<◌, Some, IfOk, MatchOption, length, slice_get};
ghost use Rattle.gp_derivation.specs.Cones.{IsCone};
ghost use Rattle.gp_derivation.specs.Fit.{IsSmall, IsSmallCone};
ghost use Rattle.gp_derivation.specs.FitStaying.{FitStays};
ghost use Rattle.gp_derivation.specs.Numbering.{CanBeNumbered};
ghost use Rattle.gp_derivation.specs.Room.{HasNoSmallCone};
ghost use Rattle.gp_derivation.specs.declared.log.LogEntry.{LogEntry};

use crate::cones::cone_over;
use crate::log::{LogEntry, Origin};
use crate::reach::small_reach;
use crate::room::Room;
use gp_base::Row;
use gp_certificate::{Certificate, Step};
use gp_clause::Problem;
use std::alloc::{AllocError, Global};

// How many literals a clause may have that is fit to share.
const MOST_SHARED: usize = 8;

/// The cone of the entry at a place of a log, where the entry is fit to share, and `None` where it is not. It costs what
/// the cone holds, and stops where the cone is no longer small.
pub fn small_cone(
    alloc: Global,
    problem: &Problem,
    log: &[LogEntry],
    entry: u32,
) -> Result<Option<Certificate>, AllocError>
    requires entry { entry < length log.now }
    requires numbered { (own : LogEntry) → slice_get log.now entry ≡ Some own → CanBeNumbered (length problem.now.clauses) log.now own.step }
    ensures { (own : LogEntry) → slice_get log.now entry ≡ Some own → IfOk result (IsSmallCone problem.now log.now own) }
{
    let own = &log[entry as usize];
    if own.step.clause.len() > MOST_SHARED {
        return Ok(None);
    }
    match &own.origin {
        Origin::Learned => small_cone_of(alloc, problem, log, &own.step),
        Origin::Taken { certificate, .. } => small_copy(alloc, problem, certificate),
    }
}

/// A law: an entry of a log is as fit to share when the log grows.
pub fn fit_stays()
    ensures { FitStays }
{}

// The cone of a step where it is small.
fn small_cone_of(
    alloc: Global,
    problem: &Problem,
    log: &[LogEntry],
    last: &Step,
) -> Result<Option<Certificate>, AllocError>
    requires { CanBeNumbered (length problem.now.clauses) log.now last.now }
    ensures { IfOk result (λ cone. MatchOption cone (HasNoSmallCone problem.now log.now last.now) (λ certificate. IsCone (length problem.now.clauses) log.now last.now certificate × IsSmall problem.now certificate)) }
{
    let Some(places) = small_reach(alloc, problem, log, last)? else {
        return Ok(None);
    };
    let base_clauses = problem.clauses.len() as u32;
    let certificate = cone_over(alloc, base_clauses, log, places.as_slice(), last)?;
    Ok(Some(certificate))
}

// A copy of a certificate where it is small.
fn small_copy(
    alloc: Global,
    problem: &Problem,
    certificate: &Certificate,
) -> Result<Option<Certificate>, AllocError>
    ensures { IfOk result (λ copy. MatchOption copy (IsSmall problem.now certificate.now → ⊥) (λ own. (own ≡ certificate.now) × IsSmall problem.now certificate.now)) }
{
    let steps = certificate.steps.as_slice();
    match Room::whole().after_steps(problem.kinds.len(), steps) {
        None => Ok(None),
        Some(_) => Ok(Some(copy_of(alloc, steps)?)),
    }
}

// A certificate of the same steps.
fn copy_of(alloc: Global, steps: &[Step]) -> Result<Certificate, AllocError>
    ensures { IfOk result (λ copy. copy.steps ≡ steps.now) }
{
    let mut copy = Row::new(alloc);
    for step in steps {
        copy.push(same_step(alloc, step)?)?;
    }
    Ok(Certificate { steps: copy })
}

// The same step.
fn same_step(alloc: Global, step: &Step) -> Result<Step, AllocError>
    ensures { IfOk result (λ copy. copy ≡ step.now) }
{
    let hints = Vec::from_slice(alloc, step.hints.as_slice())?;
    Ok(Step {
        clause: step.clause.clone()?,
        hints: Row::from_vec(hints),
    })
}
