ghost use Rattle.std.specs.Prelude.{◌≡◌, ◌≤◌, ◌++◌, IfOk, OnOk, length, map};
ghost use Rattle.std.specs.List.{AllByRecursion};
ghost use Rattle.gp_analysis.specs.Listed.{asked_of, listed_from, listed_of, queries_each, queries_from, queries_of, query_for};
ghost use Rattle.gp_analysis.specs.Question.{ListsAsks};

use crate::left::Left;
use crate::question::Question;
use gp_base::Row;
use gp_clause::Query;
use gp_instance::{Instance, InstancesFault};
use gp_report::AnswerOf;
use std::alloc::{AllocError, Global};

// An ask, and the answer that it has already.
#[derive(Drop)]
pub(crate) struct Asked<S> {
    pub(crate) ask: Instance,
    pub(crate) given: Option<AnswerOf<S>>,
}

// What is asked of a window: the asks of each subject, nothing where there are too many; and the query of each that has no
// answer yet, in order. The number of a query is its ticket.
#[derive(Drop)]
pub(crate) struct Listing<S> {
    pub(crate) listed: Row<Option<Row<Asked<S>>>>,
    pub(crate) queries: Vec<Query>,
}

// What is asked of a window that is encoded.
pub(crate) fn listing_of<Q: Question>(
    alloc: Global,
    question: &Q,
    encoded: &Q::Encoded,
) -> Result<Listing<Q::Shown>, AllocError>
    ensures listed { IfOk result (λ listing. listing.listed ≡ listed_from (Q.form question.now) (Q.window_in encoded.now) 0 (Q.form question.now).subjects) }
    ensures queries { IfOk result (λ listing. listing.queries.items ≡ queries_from (Q.form question.now) (Q.window_in encoded.now) 0 (Q.form question.now).subjects) }
{
    question.laws();
    let mut listed = Row::new(alloc);
    let mut queries = Vec::new(alloc);
    let mut left = question.subjects();
    let mut number = 0u32;
    while let Some((subject, more)) = left.split_first() {
        listed.push(listed_of(alloc, question, encoded, subject, number, &mut queries)?)?;
        left = more;
        number += 1;
    }
    Ok(Listing { listed, queries })
}

// The asks of a subject, nothing where there are too many; and the queries of those that have no answer yet are added.
fn listed_of<Q: Question>(
    alloc: Global,
    question: &Q,
    encoded: &Q::Encoded,
    subject: &Q::Subject,
    number: u32,
    queries: &mut Vec<Query>,
) -> Result<Option<Row<Asked<Q::Shown>>>, AllocError>
    requires { ListsAsks (Q.form question.now) (Q.lists question.now) subject.now }
    ensures listed { IfOk result (λ listed. listed ≡ listed_of (Q.form question.now) (Q.window_in encoded.now) subject.now ((Q.form question.now).asks (Q.window_in encoded.now) subject.now number)) }
    ensures queries { OnOk result (queries.new.items ≡ queries.old.items ++ queries_of (Q.form question.now) (Q.window_in encoded.now) subject.now ((Q.form question.now).asks (Q.window_in encoded.now) subject.now number)) }
{
    match question.asks(alloc, question.window_of(encoded), subject, number) {
        Ok(asks) => Ok(Some(asked_each(alloc, question, encoded, subject, asks, queries)?)),
        Err(InstancesFault::TooMany) => Ok(None),
        Err(InstancesFault::Memory) => Err(AllocError),
    }
}

// These asks with the answers that they have already; and the queries of the others are added.
fn asked_each<Q: Question>(
    alloc: Global,
    question: &Q,
    encoded: &Q::Encoded,
    subject: &Q::Subject,
    asks: Row<Instance>,
    queries: &mut Vec<Query>,
) -> Result<Row<Asked<Q::Shown>>, AllocError>
    requires { AllByRecursion (λ ask. Q.lists question.now (Q.window_in encoded.now) subject.now ask.events) asks }
    ensures asked { IfOk result (λ asked. asked ≡ map (asked_of (Q.form question.now) (Q.window_in encoded.now) subject.now) asks) }
    ensures queries { OnOk result (queries.new.items ≡ queries.old.items ++ queries_each (Q.form question.now) (Q.window_in encoded.now) subject.now asks) }
{
    let mut asked = Row::new(alloc);
    let mut left = Left::of(asks);
    while let Some(ask) = left.next() {
        asked.push(asked_one(alloc, question, encoded, subject, ask, queries)?)?;
    }
    Ok(asked)
}

// An ask with the answer that it has already; else its query is added.
fn asked_one<Q: Question>(
    alloc: Global,
    question: &Q,
    encoded: &Q::Encoded,
    subject: &Q::Subject,
    ask: Instance,
    queries: &mut Vec<Query>,
) -> Result<Asked<Q::Shown>, AllocError>
    requires { Q.lists question.now (Q.window_in encoded.now) subject.now ask.events }
    ensures asked { IfOk result (λ asked. asked ≡ asked_of (Q.form question.now) (Q.window_in encoded.now) subject.now ask) }
    ensures queries { OnOk result (queries.new.items ≡ queries.old.items ++ query_for (Q.form question.now) (Q.window_in encoded.now) subject.now ask ((Q.form question.now).given (Q.window_in encoded.now) subject.now ask.events)) }
{
    let given = question.given(alloc, encoded, subject, &ask)?;
    match given {
        None => {
            queries.push(question.query(alloc, encoded, subject, &ask)?)?;
            Ok(Asked { ask, given: None })
        }
        Some(given) => Ok(Asked {
            ask,
            given: Some(given),
        }),
    }
}
