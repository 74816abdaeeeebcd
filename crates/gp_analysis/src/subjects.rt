ghost use Rattle.std.specs.Prelude.{◌≡◌, IfOk, None};
ghost use Rattle.std.specs.List.{AllByRecursion};
ghost use Rattle.gp_workers.specs.Work.{AnswerEach};
ghost use Rattle.gp_analysis.specs.Answered.{known_of};
ghost use Rattle.gp_analysis.specs.Certificates.{CanBeMade, HasGrown, certificates_all, steps_by};
ghost use Rattle.gp_analysis.specs.Listed.{listed_from, queries_from};
ghost use Rattle.gp_analysis.specs.Telling.{IsSourceOf, TellsAll, TellsSubjects, moved_as};

use crate::certifying::{Certifying, Moved, Source, shared_by};
use crate::entries::subject_record;
use crate::left::Left;
use crate::listing::Asked;
use crate::question::Question;
use crate::sharing::moved_over;
use crate::task::{Instructions, Telling};
use gp_base::Row;
use gp_certificate::{Step, refuted_means, shares_nothing};
use gp_derivation::WorkerRecord;
use gp_raise::raised_refutes;
use gp_report::PropertyRecordOf;
use gp_workers::WorkAnswer;
use std::alloc::{AllocError, Global};

// What is recorded of the subjects of a window, and the steps that the certificates share.
#[derive(Drop)]
pub(crate) struct Told<S> {
    pub(crate) shared: Row<Step>,
    pub(crate) body: Row<PropertyRecordOf<S>>,
}

// What is recorded of the subjects whose asks are listed and have these answers, as the task tells certificates.
pub(crate) fn told_subjects<G, Q: Question>(
    alloc: Global,
    encoded: &Q::Encoded,
    task: &Instructions<'_, Q, G>,
    listed: Row<Option<Row<Asked<Q::Shown>>>>,
    answers: Row<WorkAnswer>,
    records: &[WorkerRecord],
) -> Result<Told<Q::Shown>, AllocError>
    requires fits { (Q.form task.now.question.now).left_out (Q.window_in encoded.now) ≡ None }
    requires listed { listed ≡ listed_from (Q.form task.now.question.now) (Q.window_in encoded.now) 0 (Q.form task.now.question.now).subjects }
    requires answers { AnswerEach ((Q.form task.now.question.now).problem (Q.window_in encoded.now)) task.now.budget records.now 0 (queries_from (Q.form task.now.question.now) (Q.window_in encoded.now) 0 (Q.form task.now.question.now).subjects) answers }
    ensures { IfOk result (λ told. TellsAll (Q.form task.now.question.now) task.now.telling (Q.window_in encoded.now) (known_of (Q.form task.now.question.now) (Q.window_in encoded.now) task.now.budget records.now) told.shared told.body) }
{
    let question = task.question;
    question.laws();
    let Ok(shared) = question.shared(alloc, encoded) else {
        drop((listed, answers));
        return Err(AllocError);
    };
    let clauses = question.problem(encoded).clauses.len() as u32;
    let source = Source {
        clauses,
        gained: shared.len(),
        records,
    };
    let Ok(moved) = moved_as(
        alloc,
        question,
        encoded,
        task.telling,
        &source,
        listed.as_slice(),
        answers.as_slice(),
    ) else {
        drop((shared, listed, answers));
        return Err(AllocError);
    };
    let certifying = Certifying { source, moved };
    let told = subject_records(alloc, encoded, task, listed, answers, &certifying);
    let moved = certifying.moved;
    match told {
        Ok(body) => Ok(Told {
            shared: shared_by(moved, shared),
            body,
        }),
        Err(error) => {
            drop((moved, shared));
            Err(error)
        }
    }
}

// What moves in the window as certificates are told: nothing where they are told whole.
fn moved_as<Q: Question>(
    alloc: Global,
    question: &Q,
    encoded: &Q::Encoded,
    telling: Telling,
    source: &Source<'_>,
    listed: &[Option<Row<Asked<Q::Shown>>>],
    answers: &[WorkAnswer],
) -> Result<Option<Moved>, AllocError>
    requires fits { (Q.form question.now).left_out (Q.window_in encoded.now) ≡ None }
    requires answers { AllByRecursion (CanBeMade source.now.clauses source.now.records.now) answers.now }
    ensures moved { IfOk result (λ moved. moved ≡ moved_as telling ((Q.form question.now).problem (Q.window_in encoded.now)) ((Q.form question.now).shared (Q.window_in encoded.now)) (certificates_all source.now.clauses source.now.gained source.now.records.now listed.now answers.now)) }
    ensures grown { IfOk result HasGrown }
{
    question.laws();
    match telling {
        Telling::Whole => Ok(None),
        Telling::Compact => {
            let shared = question.shared(alloc, encoded)?;
            let problem = question.problem(encoded);
            moved_over(alloc, problem, shared, source, listed, answers)
        }
    }
}

// What is recorded of each subject, in order, by the answers to the asks that are listed.
fn subject_records<G, Q: Question>(
    alloc: Global,
    encoded: &Q::Encoded,
    task: &Instructions<'_, Q, G>,
    listed: Row<Option<Row<Asked<Q::Shown>>>>,
    answers: Row<WorkAnswer>,
    certifying: &Certifying<'_>,
) -> Result<Row<PropertyRecordOf<Q::Shown>>, AllocError>
    requires fits { (Q.form task.now.question.now).left_out (Q.window_in encoded.now) ≡ None }
    requires listed { listed ≡ listed_from (Q.form task.now.question.now) (Q.window_in encoded.now) 0 (Q.form task.now.question.now).subjects }
    requires answers { AnswerEach ((Q.form task.now.question.now).problem (Q.window_in encoded.now)) task.now.budget certifying.now.source.records.now 0 (queries_from (Q.form task.now.question.now) (Q.window_in encoded.now) 0 (Q.form task.now.question.now).subjects) answers }
    requires source { IsSourceOf (Q.form task.now.question.now) (Q.window_in encoded.now) certifying.now.source }
    requires grown { HasGrown certifying.now.moved }
    ensures { IfOk result (TellsSubjects (Q.form task.now.question.now) (Q.window_in encoded.now) (known_of (Q.form task.now.question.now) (Q.window_in encoded.now) task.now.budget certifying.now.source.records.now) (steps_by certifying.now.moved)
        (certificates_all certifying.now.source.clauses certifying.now.source.gained certifying.now.source.records.now listed answers)) }
{
    let mut listed = Left::of(listed);
    let mut answers = Left::of(answers);
    let own = left_records(alloc, encoded, task, certifying, &mut listed, &mut answers);
    drop((listed, answers));
    own
}

// The same, of what is left.
fn left_records<G, Q: Question>(
    alloc: Global,
    encoded: &Q::Encoded,
    task: &Instructions<'_, Q, G>,
    certifying: &Certifying<'_>,
    listed: &mut Left<Option<Row<Asked<Q::Shown>>>>,
    answers: &mut Left<WorkAnswer>,
) -> Result<Row<PropertyRecordOf<Q::Shown>>, AllocError>
    requires fits { (Q.form task.now.question.now).left_out (Q.window_in encoded.now) ≡ None }
    requires listed { listed.old ≡ listed_from (Q.form task.now.question.now) (Q.window_in encoded.now) 0 (Q.form task.now.question.now).subjects }
    requires answers { AnswerEach ((Q.form task.now.question.now).problem (Q.window_in encoded.now)) task.now.budget certifying.now.source.records.now 0 (queries_from (Q.form task.now.question.now) (Q.window_in encoded.now) 0 (Q.form task.now.question.now).subjects) answers.old }
    requires source { IsSourceOf (Q.form task.now.question.now) (Q.window_in encoded.now) certifying.now.source }
    requires grown { HasGrown certifying.now.moved }
    ensures { IfOk result (TellsSubjects (Q.form task.now.question.now) (Q.window_in encoded.now) (known_of (Q.form task.now.question.now) (Q.window_in encoded.now) task.now.budget certifying.now.source.records.now) (steps_by certifying.now.moved)
        (certificates_all certifying.now.source.clauses certifying.now.source.gained certifying.now.source.records.now listed.old answers.old)) }
{
    refuted_means();
    shares_nothing();
    raised_refutes();
    let question = task.question;
    question.laws();
    question.window_of(encoded).comes_from_recording();
    let mut own = Row::new(alloc);
    let mut left = question.subjects();
    while let Some((subject, more)) = left.split_first() {
        let asked = listed.take_first();
        own.push(subject_record(
            alloc, question, encoded, subject, asked, certifying, answers,
        )?)?;
        left = more;
    }
    Ok(own)
}
