ghost use Rattle.std.specs.Prelude.{◌≡◌, IfOk};
ghost use Rattle.gp_report.specs.declared.record.WindowBodyOf.TheVariants.{Answers};
ghost use Rattle.gp_deadlock_checker.specs.Finds.{FindsBody, FindsWindow};

use crate::property::check_properties;
use gp_certificate::{Judge, Step};
use gp_checker::{Checker, Failure, Reason, check_size};
use gp_constraint::{BaseFault, Encoded, base};
use gp_report::{PropertyRecord, WindowBody, WindowRecord};
use gp_window::Window;
use std::alloc::{AllocError, Global};

// How the record of a window fails.
pub(crate) fn check_window(
    alloc: Global,
    window: Window,
    budget: u64,
    told: &WindowRecord,
) -> Result<Option<Failure>, AllocError>
    ensures { IfOk result (FindsWindow budget window told.now) }
{
    match base(alloc, window) {
        Ok(encoded) => {
            let found = check_answers(alloc, &encoded, budget, told);
            drop(encoded);
            found
        }
        Err(BaseFault::TooLarge { events, clauses }) => {
            Ok(check_size(&told.body, events, clauses))
        }
        Err(BaseFault::Memory) => Err(AllocError),
    }
}

// How what is told of a window fails that has these constraints.
fn check_answers(
    alloc: Global,
    encoded: &Encoded,
    budget: u64,
    told: &WindowRecord,
) -> Result<Option<Failure>, AllocError>
    ensures { IfOk result (FindsBody (record { window = encoded.now; budget = budget; shared = told.now.shared }) told.now.body) }
{
    match &told.body {
        WindowBody::TooLarge { .. } => Ok(Some(Failure::of(Reason::WrongSize, 0))),
        WindowBody::Answers(records) => {
            let shared = told.shared.as_slice();
            check_records(alloc, encoded, budget, shared, records.as_slice())
        }
    }
}

// How the shared steps or the records of the properties fail.
fn check_records(
    alloc: Global,
    encoded: &Encoded,
    budget: u64,
    shared: &[Step],
    records: &[PropertyRecord],
) -> Result<Option<Failure>, AllocError>
    ensures { IfOk result (FindsBody (record { window = encoded.now; budget = budget; shared = shared.now }) (Answers records.now)) }
{
    let mut judge = Judge::new(alloc, encoded.problem())?;
    match judge.first_shared_to_fail(encoded.problem(), shared) {
        Ok(None) => {
            let mut checker = Checker::new(encoded, budget, shared, judge);
            let found = check_properties(alloc, &mut checker, records);
            drop(checker);
            found
        }
        Ok(Some(place)) => {
            drop(judge);
            Ok(Some(Failure::of(Reason::BadSharedStep, place)))
        }
        Err(error) => {
            drop(judge);
            Err(error)
        }
    }
}
