ghost use Rattle.std.specs.Prelude.{◌≡◌, IfOk};
ghost use Rattle.gp_analysis.specs.Certificates.{HasGrown, steps_by};
ghost use Rattle.gp_analysis.specs.Recording.{CanRecord, CanRecordAsk, CanRecordEach, IsSound, RecordsAnswer, RecordsAsk, RecordsEach, RecordsListed, left_after};
ghost use Rattle.gp_analysis.specs.Telling.{IsSourceOf};

use crate::certifying::{Certifying, answer_told, told};
use crate::left::Left;
use crate::listing::Asked;
use crate::question::Question;
use gp_base::Row;
use gp_instance::Instance;
use gp_report::{AnswerOf, EntryOf, PropertyBodyOf, PropertyRecordOf};
use gp_workers::WorkAnswer;
use std::alloc::{AllocError, Global};

// What is recorded of a subject by the first of the answers, which are those to its asks.
pub(crate) fn subject_record<Q: Question>(
    alloc: Global,
    question: &Q,
    encoded: &Q::Encoded,
    subject: &Q::Subject,
    listed: Option<Row<Asked<Q::Shown>>>,
    certifying: &Certifying<'_>,
    answers: &mut Left<WorkAnswer>,
) -> Result<PropertyRecordOf<Q::Shown>, AllocError>
    requires source { IsSourceOf (Q.form question.now) (Q.window_in encoded.now) certifying.now.source }
    requires grown { HasGrown certifying.now.moved }
    requires can { CanRecord (Q.form question.now) (Q.lists question.now) certifying.now.source.records.now (Q.window_in encoded.now) subject.now listed answers.old }
    ensures name { IfOk result (λ own. own.name ≡ (Q.form question.now).name subject.now) }
    ensures body { IfOk result (λ own. RecordsListed (Q.form question.now) certifying.now.source.records.now (steps_by certifying.now.moved) (Q.window_in encoded.now) subject.now listed answers.old own.body answers.new) }
{
    let name = question.name(subject);
    let body = match listed {
        None => PropertyBodyOf::TooMany,
        Some(asked) => PropertyBodyOf::Entries(entries_of(
            alloc, question, encoded, subject, asked, certifying, answers,
        )?),
    };
    Ok(PropertyRecordOf { name, body })
}

// An entry for each of these asks, in order.
fn entries_of<Q: Question>(
    alloc: Global,
    question: &Q,
    encoded: &Q::Encoded,
    subject: &Q::Subject,
    asked: Row<Asked<Q::Shown>>,
    certifying: &Certifying<'_>,
    answers: &mut Left<WorkAnswer>,
) -> Result<Row<EntryOf<Q::Shown>>, AllocError>
    requires source { IsSourceOf (Q.form question.now) (Q.window_in encoded.now) certifying.now.source }
    requires grown { HasGrown certifying.now.moved }
    requires can { CanRecordEach (Q.form question.now) (Q.lists question.now) certifying.now.source.records.now (Q.window_in encoded.now) subject.now asked answers.old }
    ensures { IfOk result (λ entries. RecordsEach (Q.form question.now) certifying.now.source.records.now (steps_by certifying.now.moved) (Q.window_in encoded.now) subject.now asked answers.old entries answers.new) }
{
    let mut entries = Row::new(alloc);
    let mut left = Left::of(asked);
    while let Some(asked) = left.next() {
        entries.push(entry_of(
            alloc, question, encoded, subject, asked, certifying, answers,
        )?)?;
    }
    Ok(entries)
}

// The answer that an ask has already is recorded; else the first of the answers is.
fn entry_of<Q: Question>(
    alloc: Global,
    question: &Q,
    encoded: &Q::Encoded,
    subject: &Q::Subject,
    asked: Asked<Q::Shown>,
    certifying: &Certifying<'_>,
    answers: &mut Left<WorkAnswer>,
) -> Result<EntryOf<Q::Shown>, AllocError>
    requires source { IsSourceOf (Q.form question.now) (Q.window_in encoded.now) certifying.now.source }
    requires grown { HasGrown certifying.now.moved }
    requires ask { Q.lists question.now (Q.window_in encoded.now) subject.now asked.ask.events }
    requires can { CanRecordAsk (Q.form question.now) (Q.lists question.now) certifying.now.source.records.now (Q.window_in encoded.now) subject.now asked.ask.events asked.given answers.old }
    ensures events { IfOk result (λ entry. entry.events ≡ asked.ask.events) }
    ensures records { IfOk result (λ entry. RecordsAsk (Q.form question.now) certifying.now.source.records.now (steps_by certifying.now.moved) (Q.window_in encoded.now) subject.now asked.ask.events asked.given answers.old entry.answer) }
    ensures left { IfOk result (λ _. answers.new ≡ left_after asked.given answers.old) }
{
    let Asked { ask, given } = asked;
    let answer = match given {
        Some(given) => answer_told(alloc, &certifying.moved, given)?,
        None => {
            let answer = answers.take_first();
            answer_of(alloc, question, encoded, subject, &ask, certifying, answer)?
        }
    };
    Ok(EntryOf {
        events: ask.events,
        answer,
    })
}

// A valuation is recorded as what it shows, a refutation as its certificate, and a spent budget as it is.
fn answer_of<Q: Question>(
    alloc: Global,
    question: &Q,
    encoded: &Q::Encoded,
    subject: &Q::Subject,
    ask: &Instance,
    certifying: &Certifying<'_>,
    answer: WorkAnswer,
) -> Result<AnswerOf<Q::Shown>, AllocError>
    requires source { IsSourceOf (Q.form question.now) (Q.window_in encoded.now) certifying.now.source }
    requires grown { HasGrown certifying.now.moved }
    requires ask { Q.lists question.now (Q.window_in encoded.now) subject.now ask.now.events }
    requires answer { IsSound ((Q.form question.now).problem (Q.window_in encoded.now)) ((Q.form question.now).query (Q.window_in encoded.now) subject.now ask.now.events) certifying.now.source.records.now answer }
    ensures { IfOk result (RecordsAnswer (Q.form question.now) certifying.now.source.records.now (steps_by certifying.now.moved) (Q.window_in encoded.now) subject.now ask.now.events answer) }
{
    match answer {
        WorkAnswer::Model(valuation) => {
            let shown = question.shown(alloc, encoded, subject, ask, &valuation);
            drop(valuation);
            Ok(AnswerOf::Found(shown?))
        }
        WorkAnswer::Refuted { worker, last } => {
            let made = certifying.source.certificate(alloc, worker, &last);
            drop(last);
            let certificate = made?;
            let told = told(alloc, &certifying.moved, certificate)?;
            Ok(AnswerOf::Impossible(told))
        }
        WorkAnswer::Spent { worker, from, to } => Ok(AnswerOf::Undecided { worker, from, to }),
    }
}
