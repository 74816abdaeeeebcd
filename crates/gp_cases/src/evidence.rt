// The certificate of a kept report, checked again over constraints that are made anew.
mod cycle;
mod instance;
mod link;
mod signals;

use crate::book::Book;
use crate::case::Case;
use crate::layers::recording_of;
use gp_base::Row;
use gp_certificate::{Certificate, Step};
use gp_clause::Lit;
use gp_property::{Property, read_properties};
use gp_report::{AnswerOf, WindowRecordOf};
use gp_window::{Window, cut};
use std::alloc::Global;
use std::io;
use std::thread::Threads;

/// The answer in the last of these windows, which has one property of one instance.
fn only_answer<S>(windows: &[WindowRecordOf<S>]) -> Option<&AnswerOf<S>> {
    let [.., window] = windows else {
        return None;
    };
    let [property] = window.body.properties() else {
        return None;
    };
    match property.body.entries() {
        [entry] => Some(&entry.answer),
        _ => None,
    }
}

/// The certificate of that answer.
fn only_certificate<S>(windows: &[WindowRecordOf<S>]) -> Option<&Certificate> {
    match only_answer(windows)? {
        AnswerOf::Impossible(certificate) => Some(certificate),
        _ => None,
    }
}

/// Whether the last step has negations of assumptions alone.
pub fn ends_in_negations(assumed: &[Lit], steps: &[Step]) -> bool {
    match steps {
        [.., last] => last
            .clause
            .lits()
            .iter()
            .all(|lit| assumed.contains(&lit.negated())),
        [] => false,
    }
}

/// The last window of the recording of a case.
pub fn last_window<R: AllocGlobal + Threads + Sync>(rt: &R, case: &Case) -> Option<Window> {
    match recording_of(rt, case).ok()? {
        Ok(recording) => {
            let window = cut(rt.alloc(), &recording, recording.manifest().epochs());
            drop(recording);
            window.ok()
        }
        Err(_) => None,
    }
}

/// The properties of a case, where their file is small.
pub fn properties_of(alloc: Global, case: &Case) -> Option<Row<Property>> {
    let text = case.bytes(alloc, "d/props").ok()?;
    let properties = small_properties(alloc, text.as_slice());
    drop(text);
    properties
}

fn small_properties(alloc: Global, text: &[u8]) -> Option<Row<Property>> {
    if text.len() >= 1000 {
        return None;
    }
    read_properties(alloc, text).ok()
}

/// Whether the certificate in the report that the last run kept holds.
fn is_refuted<R: AllocGlobal + Threads + Sync>(rt: &R, book: &Book) -> Option<bool> {
    let case = book.case();
    let ended = book.ended()?;
    if let Some(report) = ended.links() {
        return link::refutes_first(rt, case, report.links.as_slice());
    }
    match (ended.notified(), ended.deadlocks()) {
        (Some(report), _) => {
            signals::refutes_last(rt, case, only_certificate(report.windows.as_slice())?)
        }
        (None, Some(report)) => cycle::refutes_last(rt, case, only_certificate(report.windows())?),
        (None, None) => {
            instance::refutes_last(rt, case, only_certificate(ended.report()?.windows())?)
        }
    }
}

/// Tells whether the certificate in the report that the last run kept holds.
pub fn tell_refuted<R: AllocGlobal + Print + Threads + Sync>(
    rt: &R,
    book: &Book,
) -> io::Result<()> {
    match is_refuted(rt, book) {
        Some(true) => println!(rt; "refuted"),
        Some(false) => println!(rt; "not refuted"),
        None => println!(rt; "no certificate"),
    }
}
