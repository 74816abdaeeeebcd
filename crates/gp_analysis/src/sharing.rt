ghost use Rattle.std.specs.Prelude.{◌≡◌, ◌<◌, ◌^◌, IfOk, OnOk, drop, length};
ghost use Rattle.std.specs.List.{AllByRecursion};
ghost use Rattle.gp_sharing.specs.Compacted.{sizes_in};
ghost use Rattle.gp_analysis.specs.Certificates.{CanBeMade, HasGrown, HasRoom, begun, certificates_all, certificates_ask, certificates_each, certificates_first, certificates_given, certificates_listed, certificates_worked, found, left_each, left_listed, moved_over, with_all, with_counted};
ghost use Rattle.gp_analysis.specs.Recording.{left_after};

use crate::certifying::{Moved, Source};
use crate::listing::Asked;
use gp_base::Row;
use gp_certificate::Step;
use gp_clause::Problem;
use gp_report::AnswerOf;
use gp_sharing::{SharedList, Sizes};
use gp_workers::WorkAnswer;
use std::alloc::{AllocError, Global};

// Nothing moves in a window with so many base clauses, shared steps and steps of certificates together, or more.
const MOST_STEPS: u64 = 2_147_483_648;

// The list into which those steps of some certificates moved that may; and how many base clauses, steps shared from the start and
// steps of these certificates there are. Once they are too many, no more of them move.
#[derive(Drop)]
pub(crate) struct Sharing {
    pub(crate) sizes: Sizes,
    pub(crate) list: SharedList,
    pub(crate) count: u64,
}

// What moves in a window whose certificates share these steps from the start, and whose asks are listed and have these answers:
// nothing where there are too many steps. Each certificate is made, its steps move, and it is dropped.
pub(crate) fn moved_over<S>(
    alloc: Global,
    problem: &Problem,
    shared: Row<Step>,
    source: &Source<'_>,
    listed: &[Option<Row<Asked<S>>>],
    answers: &[WorkAnswer],
) -> Result<Option<Moved>, AllocError>
    requires clauses { length problem.now.clauses < 2 ^ 32 }
    requires variables { length problem.now.kinds < 2 ^ 32 }
    requires answers { AllByRecursion (CanBeMade source.now.clauses source.now.records.now) answers.now }
    ensures grown { IfOk result HasGrown }
    ensures moved { IfOk result (λ moved. moved ≡ moved_over (sizes_in problem.now shared) shared (certificates_all source.now.clauses source.now.gained source.now.records.now listed.now answers.now)) }
{
    let mut sharing = begin(alloc, problem, shared)?;
    match share_all(alloc, source, listed, answers, &mut sharing) {
        Ok(()) => Ok(found(sharing)),
        Err(error) => {
            drop(sharing);
            Err(error)
        }
    }
}

// No certificate is shared yet. 2^31 steps that are shared from the start, or more, would not fit into memory.
fn begin(alloc: Global, problem: &Problem, shared: Row<Step>) -> Result<Sharing, AllocError>
    requires clauses { length problem.now.clauses < 2 ^ 32 }
    requires variables { length problem.now.kinds < 2 ^ 32 }
    ensures { IfOk result (λ sharing. sharing ≡ begun (sizes_in problem.now shared) shared) }
{
    if shared.len() as u64 >= MOST_STEPS {
        return Err(AllocError);
    }
    let sizes = Sizes::of(problem, shared.as_slice());
    let list = SharedList::of(alloc, shared)?;
    let count = u64::from(sizes.clauses) + u64::from(sizes.shared);
    Ok(Sharing { sizes, list, count })
}

// What moved, unless there are too many steps.
fn found(sharing: Sharing) -> Option<Moved>
    ensures { result ≡ found sharing }
{
    let Sharing { sizes, list, count } = sharing;
    if count >= MOST_STEPS {
        return None;
    }
    Some(Moved { sizes, list })
}

// Shares the certificates of all asks that are listed.
fn share_all<S>(
    alloc: Global,
    source: &Source<'_>,
    listed: &[Option<Row<Asked<S>>>],
    answers: &[WorkAnswer],
    sharing: &mut Sharing,
) -> Result<(), AllocError>
    requires answers { AllByRecursion (CanBeMade source.now.clauses source.now.records.now) answers.now }
    requires room { HasRoom sharing.old }
    ensures { OnOk result (sharing.new ≡ with_all sharing.old (certificates_all source.now.clauses source.now.gained source.now.records.now listed.now answers.now)) }
{
    let mut left = listed;
    let mut answers = answers;
    while let Some((first, more)) = left.split_first() {
        answers = share_listed(alloc, source, first, answers, sharing)?;
        left = more;
    }
    Ok(())
}

// Shares the certificates of the asks of a subject, if they are listed, which have the first of these answers. The others are
// left.
fn share_listed<'a, S>(
    alloc: Global,
    source: &Source<'_>,
    listed: &Option<Row<Asked<S>>>,
    answers: &'a [WorkAnswer],
    sharing: &mut Sharing,
) -> Result<&'a [WorkAnswer], AllocError>
    requires answers { AllByRecursion (CanBeMade source.now.clauses source.now.records.now) answers.now }
    requires room { HasRoom sharing.old }
    ensures shared { OnOk result (sharing.new ≡ with_all sharing.old (certificates_listed source.now.clauses source.now.gained source.now.records.now listed.now answers.now)) }
    ensures left { IfOk result (λ left. left.now ≡ left_listed listed.now answers.now) }
{
    match listed {
        None => Ok(answers),
        Some(asked) => share_each(alloc, source, asked.as_slice(), answers, sharing),
    }
}

// Shares the certificates of these asks, which have the first of these answers. The others are left.
fn share_each<'a, S>(
    alloc: Global,
    source: &Source<'_>,
    asked: &[Asked<S>],
    answers: &'a [WorkAnswer],
    sharing: &mut Sharing,
) -> Result<&'a [WorkAnswer], AllocError>
    requires answers { AllByRecursion (CanBeMade source.now.clauses source.now.records.now) answers.now }
    requires room { HasRoom sharing.old }
    ensures shared { OnOk result (sharing.new ≡ with_all sharing.old (certificates_each source.now.clauses source.now.gained source.now.records.now asked.now answers.now)) }
    ensures left { IfOk result (λ left. left.now ≡ left_each asked.now answers.now) }
{
    let mut left = asked;
    let mut answers = answers;
    while let Some((first, more)) = left.split_first() {
        answers = share_ask(alloc, source, &first.given, answers, sharing)?;
        left = more;
    }
    Ok(answers)
}

// Shares the certificate of an ask: of the answer that it has already, else of the first of these answers. The others are left.
fn share_ask<'a, S>(
    alloc: Global,
    source: &Source<'_>,
    given: &Option<AnswerOf<S>>,
    answers: &'a [WorkAnswer],
    sharing: &mut Sharing,
) -> Result<&'a [WorkAnswer], AllocError>
    requires answers { AllByRecursion (CanBeMade source.now.clauses source.now.records.now) answers.now }
    requires room { HasRoom sharing.old }
    ensures shared { OnOk result (sharing.new ≡ with_all sharing.old (certificates_ask source.now.clauses source.now.gained source.now.records.now given.now answers.now)) }
    ensures left { IfOk result (λ left. left.now ≡ left_after given.now answers.now) }
{
    match given {
        Some(given) => {
            share_given(alloc, given, sharing)?;
            Ok(answers)
        }
        None => share_first(alloc, source, answers, sharing),
    }
}

// Shares the certificate of an answer, if it has one.
fn share_given<S>(
    alloc: Global,
    given: &AnswerOf<S>,
    sharing: &mut Sharing,
) -> Result<(), AllocError>
    requires { HasRoom sharing.old }
    ensures { OnOk result (sharing.new ≡ with_all sharing.old (certificates_given given.now)) }
{
    match given {
        AnswerOf::Impossible(certificate) => sharing.add(alloc, certificate.steps.as_slice()),
        AnswerOf::Found(_) => Ok(()),
        AnswerOf::Undecided { .. } => Ok(()),
    }
}

// Shares the certificate of the first of these answers, if there is one. The others are left.
fn share_first<'a>(
    alloc: Global,
    source: &Source<'_>,
    answers: &'a [WorkAnswer],
    sharing: &mut Sharing,
) -> Result<&'a [WorkAnswer], AllocError>
    requires answers { AllByRecursion (CanBeMade source.now.clauses source.now.records.now) answers.now }
    requires room { HasRoom sharing.old }
    ensures shared { OnOk result (sharing.new ≡ with_all sharing.old (certificates_first source.now.clauses source.now.gained source.now.records.now answers.now)) }
    ensures left { IfOk result (λ left. left.now ≡ drop 1 answers.now) }
{
    match answers.split_first() {
        None => Ok(answers),
        Some((first, more)) => {
            share_worked(alloc, source, first, sharing)?;
            Ok(more)
        }
    }
}

// Makes the certificate of an answer of the workers, if it is a refutation, and shares it.
fn share_worked(
    alloc: Global,
    source: &Source<'_>,
    answer: &WorkAnswer,
    sharing: &mut Sharing,
) -> Result<(), AllocError>
    requires answer { CanBeMade source.now.clauses source.now.records.now answer.now }
    requires room { HasRoom sharing.old }
    ensures { OnOk result (sharing.new ≡ with_all sharing.old (certificates_worked source.now.clauses source.now.gained source.now.records.now answer.now)) }
{
    match answer {
        WorkAnswer::Refuted { worker, last } => {
            let certificate = source.certificate(alloc, *worker, last)?;
            sharing.add(alloc, certificate.steps.as_slice())
        }
        WorkAnswer::Model(_) => Ok(()),
        WorkAnswer::Spent { .. } => Ok(()),
    }
}

impl Sharing {
    // Counts the steps of a certificate; and those that may move do, unless there are too many.
    fn add(&mut self, alloc: Global, steps: &[Step]) -> Result<(), AllocError>
        requires { HasRoom self.old }
        ensures { OnOk result (self.new ≡ with_counted self.old steps.now) }
    {
        let count = self
            .count
            .checked_add(steps.len() as u64)
            .ok_or(AllocError)?;
        if count < MOST_STEPS {
            self.list.share(alloc, self.sizes, steps)?;
        }
        self.count = count;
        Ok(())
    }
}
