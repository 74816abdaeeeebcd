ghost use Rattle.std.specs.Prelude.{◌≡◌, IfOk};
ghost use Rattle.gp_workers.specs.Prefixes.{TakesFromAnother, TakesPrefixes};
ghost use Rattle.gp_workers.specs.Work.{CanBeCertified, certificate_by};

use gp_base::Row;
use gp_certificate::{Certificate, Step};
use gp_clause::Valuation;
use gp_derivation::{WorkerRecord, cone, cone_is_there, cone_is_unique};
use gp_inbox::Pass;
use std::alloc::{AllocError, Global};

/// The answer to a query of a window.
#[derive(Drop)]
pub enum WorkAnswer {
    Model(Valuation),
    /// The cone of a step over the log of the worker of this number, from 1, is a certificate that refutes the query.
    Refuted { worker: u32, last: Step },
    /// The worker of this number, from 1, learned the entries `from..to` of its log, which spent the budget.
    Spent { worker: u32, from: u32, to: u32 },
}

/// What the workers of a window answer, query by query in order, and what each of them did.
///
/// Where two workers or more share side by side, there is a pass of each worker's inbox, by worker, to which the passes of all
/// were joined, and through which all was taken that was left.
#[derive(Drop)]
pub struct WindowWork {
    pub answers: Row<WorkAnswer>,
    pub records: Row<WorkerRecord>,
    pub passes: Row<Pass>,
}

/// The certificate of a refutation by the worker of a number: the cone of its last step over the worker's log. It costs what its
/// steps hold, so it is made when it is needed.
pub fn certificate_by(
    alloc: Global,
    base_clauses: u32,
    records: &[WorkerRecord],
    worker: u32,
    last: &Step,
) -> Result<Certificate, AllocError>
    requires { CanBeCertified base_clauses records.now worker last.now }
    ensures { IfOk result (λ certificate. certificate ≡ certificate_by base_clauses records.now worker last.now) }
{
    cone_is_there();
    cone_is_unique();
    let own = &records[(worker - 1) as usize];
    cone(alloc, base_clauses, own.log.as_slice(), last)
}

/// A law: the records of workers that shared all offer all that is fit to share, each took only from the others, and what one of
/// them took from another is a prefix of what the other's record marks as pushed to it.
pub fn takes_prefixes()
    ensures { TakesPrefixes }
{}

/// A law: a taken entry of a log that took only from the others names a worker of the window, and not its own.
pub fn takes_from_another()
    ensures { TakesFromAnother }
{}
