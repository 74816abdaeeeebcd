ghost use Rattle.std.specs.Prelude.{◌≡◌, ◌≤◌, ◌↔◌, IsTrue, IfOk, MatchOption, length};
ghost use Rattle.gp_report.specs.declared.record.WindowBodyOf.TheVariants.{Answers};
ghost use Rattle.gp_checker.specs.Accepted.{HasSize};
ghost use Rattle.gp_checker.specs.Finds.{FindsBody, FindsWindow};
ghost use Rattle.gp_checker.specs.Reasons.{IsOfWindow};

use crate::checker::Checker;
use crate::failure::{Failure, Reason};
use gp_certificate::{Judge, Step};
use gp_constraint::{BaseFault, Encoded, base};
use gp_property::Property;
use gp_report::{PropertyRecord, WindowBody, WindowRecord};
use gp_window::Window;
use std::alloc::{AllocError, Global};

// How the record of a window fails.
pub(crate) fn check_window(
    alloc: Global,
    window: Window,
    properties: &[Property],
    budget: u64,
    told: &WindowRecord,
) -> Result<Option<Failure>, AllocError>
    requires { length properties.now ≤ 64 }
    ensures { IfOk result (FindsWindow properties.now budget window told.now) }
{
    match base(alloc, window) {
        Ok(encoded) => {
            let found = check_answers(alloc, &encoded, properties, budget, told);
            drop(encoded);
            found
        }
        Err(BaseFault::TooLarge { events, clauses }) => {
            Ok(check_size(&told.body, events, clauses))
        }
        Err(BaseFault::Memory) => Err(AllocError),
    }
}

/// How what is told of a window fails that is too large, with these numbers.
pub fn check_size(body: &WindowBody, events: u64, clauses: u64) -> Option<Failure>
    ensures { MatchOption result (HasSize events clauses body.now) (λ failure. IsOfWindow Reason.WrongSize failure × (HasSize events clauses body.now → ⊥)) }
{
    if has_size(body, events, clauses) {
        return None;
    }
    Some(Failure::of(Reason::WrongSize, 0))
}

fn has_size(body: &WindowBody, events: u64, clauses: u64) -> bool
    ensures { IsTrue result ↔ HasSize events clauses body.now }
{
    match body {
        WindowBody::TooLarge {
            events: more_events,
            clauses: more_clauses,
        } => *more_events == events && *more_clauses == clauses,
        WindowBody::Answers(_) => false,
    }
}

// How what is told of a window fails that has these constraints.
fn check_answers(
    alloc: Global,
    encoded: &Encoded,
    properties: &[Property],
    budget: u64,
    told: &WindowRecord,
) -> Result<Option<Failure>, AllocError>
    requires { length properties.now ≤ 64 }
    ensures { IfOk result (FindsBody (record { window = encoded.now; budget = budget; shared = told.now.shared }) properties.now told.now.body) }
{
    match &told.body {
        WindowBody::TooLarge { .. } => Ok(Some(Failure::of(Reason::WrongSize, 0))),
        WindowBody::Answers(records) => {
            let shared = told.shared.as_slice();
            check_records(
                alloc,
                encoded,
                properties,
                budget,
                shared,
                records.as_slice(),
            )
        }
    }
}

// How the shared steps or the records of the properties fail.
fn check_records(
    alloc: Global,
    encoded: &Encoded,
    properties: &[Property],
    budget: u64,
    shared: &[Step],
    records: &[PropertyRecord],
) -> Result<Option<Failure>, AllocError>
    requires { length properties.now ≤ 64 }
    ensures { IfOk result (FindsBody (record { window = encoded.now; budget = budget; shared = shared.now }) properties.now (Answers records.now)) }
{
    let mut judge = Judge::new(alloc, encoded.problem())?;
    match judge.first_shared_to_fail(encoded.problem(), shared) {
        Ok(None) => {
            let mut checker = Checker::new(encoded, budget, shared, judge);
            let found = checker.check_properties(alloc, properties, records);
            drop(checker);
            found
        }
        Ok(Some(place)) => {
            drop(judge);
            Ok(Some(Failure::of(Reason::BadSharedStep, place)))
        }
        Err(error) => {
            drop(judge);
            Err(error)
        }
    }
}
