ghost use Rattle.std.specs.Prelude.{◌≡◌, ◌+◌, ◌<◌, ◌≤◌, ◌^◌, true, IfOk, length};
ghost use Rattle.gp_raise.specs.Raised.{raised};
ghost use Rattle.gp_sharing.specs.Compacted.{answer_by};
ghost use Rattle.gp_sharing.specs.Moving.{compacted_steps};
ghost use Rattle.gp_workers.specs.Work.{CanBeCertified, certificate_by};
ghost use Rattle.gp_analysis.specs.Certificates.{HasGrown, shared_by, steps_by};
ghost use Rattle.gp_analysis.specs.Recording.{told_by};

use gp_base::Row;
use gp_certificate::{Certificate, Step};
use gp_derivation::WorkerRecord;
use gp_raise::raise;
use gp_report::AnswerOf;
use gp_sharing::{SharedList, Sizes, compact_steps};
use gp_workers::certificate_by;
use std::alloc::{AllocError, Global};

// How many numbers 32 bits have.
const MOST_NUMBERS: u64 = 4_294_967_296;

// Of what the certificates of a window are made: so many base clauses, so many steps that are shared from the start, and what
// the workers did.
#[derive(Drop)]
pub(crate) struct Source<'a> {
    pub(crate) clauses: u32,
    pub(crate) gained: usize,
    pub(crate) records: &'a [WorkerRecord],
}

impl Source<'_> {
    // The certificate of a refutation by the worker of a number, over the steps that are shared from the start.
    pub(crate) fn certificate(
        &self,
        alloc: Global,
        worker: u32,
        last: &Step,
    ) -> Result<Certificate, AllocError>
        requires { CanBeCertified self.now.clauses self.now.records.now worker last.now }
        ensures { IfOk result (λ own. own ≡ raised self.now.clauses self.now.gained (certificate_by self.now.clauses self.now.records.now worker last.now)) }
    {
        let certificate = certificate_by(alloc, self.clauses, self.records, worker, last)?;
        raise(alloc, self.clauses as usize, self.gained, certificate)
    }
}

// The steps that moved into the list of a window, over which its certificates are told.
#[derive(Drop)]
pub(crate) struct Moved {
    pub(crate) sizes: Sizes,
    pub(crate) list: SharedList,
}

// How the certificates of a window are made and told: whole where no step moved.
#[derive(Drop)]
pub(crate) struct Certifying<'a> {
    pub(crate) source: Source<'a>,
    pub(crate) moved: Option<Moved>,
}

// An answer with its certificate as it is told.
pub(crate) fn answer_told<S>(
    alloc: Global,
    moved: &Option<Moved>,
    answer: AnswerOf<S>,
) -> Result<AnswerOf<S>, AllocError>
    requires { HasGrown moved.now }
    ensures { IfOk result (λ own. own ≡ answer_by (steps_by moved.now) answer) }
{
    match answer {
        AnswerOf::Found(shown) => Ok(AnswerOf::Found(shown)),
        AnswerOf::Impossible(certificate) => {
            Ok(AnswerOf::Impossible(told(alloc, moved, certificate)?))
        }
        AnswerOf::Undecided { worker, from, to } => Ok(AnswerOf::Undecided { worker, from, to }),
    }
}

// A certificate as it is told.
pub(crate) fn told(
    alloc: Global,
    moved: &Option<Moved>,
    certificate: Certificate,
) -> Result<Certificate, AllocError>
    requires { HasGrown moved.now }
    ensures { IfOk result (λ own. own ≡ told_by (steps_by moved.now) certificate) }
{
    match moved {
        None => Ok(certificate),
        Some(moved) => over_list(alloc, moved, certificate),
    }
}

// A certificate over the list of its window.
fn over_list(
    alloc: Global,
    moved: &Moved,
    certificate: Certificate,
) -> Result<Certificate, AllocError>
    requires { moved.now.sizes.shared ≤ length moved.now.list }
    ensures { IfOk result (λ own. own ≡ told_by (compacted_steps moved.now.sizes moved.now.list) certificate) }
{
    let steps = certificate.steps;
    if !have_numbers(moved.sizes.clauses, moved.list.len(), steps.len()) {
        drop(steps);
        return Err(AllocError);
    }
    let steps = compact_steps(alloc, moved.sizes, &moved.list, steps)?;
    Ok(Certificate { steps })
}

// So many clauses, shared steps and own steps have numbers of 32 bits. More of them would not fit into memory.
fn have_numbers(clauses: u32, shared: usize, own: usize) -> bool
    ensures { result ≡ true → clauses + shared + own < 2 ^ 32 }
{
    let all = u64::from(clauses)
        .saturating_add(shared as u64)
        .saturating_add(own as u64);
    all < MOST_NUMBERS
}

// The steps that the certificates of a window share in the end: where none moved, those that they shared from the start.
pub(crate) fn shared_by(moved: Option<Moved>, shared: Row<Step>) -> Row<Step>
    ensures { result ≡ shared_by moved shared }
{
    match moved {
        None => shared,
        Some(moved) => moved.list.into_row(),
    }
}
