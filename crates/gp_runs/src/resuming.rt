// Whole runs of task resume on the report of one impossible instance: where that still stands no worker is asked anything, which
// only the kept report tells; where the recording has changed the instance is answered anew.
use crate::fixture::run_on;
use gp_predict::Outcome;
use gp_report::Report;
use std::process::Abort;
use std::sync::Wait;
use std::thread::Threads;

const FIRST: &str = "start 2\nop auth r\nwrite ready 1\n";

const SECOND: &str = "read ready 1\nop use r\n";

const PROPERTIES: &str =
    "property late_auth\nevent use op use $o\nevent auth op auth $o\npattern use@u auth@t\n";

const EARLIER: &str =
    "gpredict 1\nbudget 200\nwindow 1\nproperty late_auth 1\ninstance 0 2.1 1.1\nimpossible 1\nstep 3 3\n-2 -5 9\n2 5 7\nsummary 0 1 0\n";

/// The use waits for what is written behind the authorisation, as the report says.
const WAITS: [(&str, &str); 5] = [
    ("d/manifest", "gptrace 1\nthreads 2\nepochs 1\nroots 1\n"),
    ("d/t1.trace", FIRST),
    ("d/t2.trace", SECOND),
    ("d/props", PROPERTIES),
    ("d/report", EARLIER),
];

/// What it waits for is there from the start.
const NEED_NOT_WAIT: [(&str, &str); 5] = [
    (
        "d/manifest",
        "gptrace 1\nthreads 2\nepochs 1\nroots 1\nvalue 1 ready 1\n",
    ),
    ("d/t1.trace", FIRST),
    ("d/t2.trace", SECOND),
    ("d/props", PROPERTIES),
    ("d/report", EARLIER),
];

const KEPT: &str =
    "gpredict 2\nbudget 200\nwindow 1\nshared 0\nproperty late_auth 1\ninstance 0 2.1 1.1\nimpossible 1\nstep 3 3\n-2 -5 9\n2 5 7\nsummary 0 1 0\n";

const ANEW: &str =
    "gpredict 2\nbudget 200\nwindow 1\nshared 0\nproperty late_auth 1\ninstance 0 2.1 1.1\nfound 4\n1.0 2.0 2.1 1.1\nsummary 1 0 0\n";

/// In how many turns the workers of a report that tells one window answered, of so many workers.
fn turns_of(report: &Report, workers: usize) -> Option<usize> {
    let [window] = report.windows() else {
        return None;
    };
    let records = window.records.as_slice();
    if records.len() != workers {
        return None;
    }
    let mut turns = 0usize;
    for record in records {
        turns = turns.saturating_add(record.turns.as_slice().len());
    }
    Some(turns)
}

/// Whether four workers answered in so many turns.
fn took_turns(outcome: &Outcome, turns: usize) -> bool {
    match &outcome.report {
        Some(report) => turns_of(report, 4) == Some(turns),
        None => false,
    }
}

/// Whether task resume on these files ends with this status and text, in so many turns.
fn resumes<R: AllocGlobal + Threads + Wait + Sync + Abort>(
    rt: &R,
    files: &[(&str, &str)],
    status: u8,
    text: &str,
    turns: usize,
) -> bool {
    let (outcome, sink) = run_on(rt, &["--task=resume", "d"], files);
    let told = outcome.status == status && sink.bytes() == text.as_bytes();
    let took = took_turns(&outcome, turns);
    drop(sink);
    drop(outcome);
    told && took
}

#[test]
fn what_still_stands_is_asked_of_no_worker(rt: HostRuntime) {
    assert!(rt; resumes(&rt, &WAITS, 0, KEPT, 0));
}

#[test]
fn what_stands_no_more_is_answered_anew(rt: HostRuntime) {
    assert!(rt; resumes(&rt, &NEED_NOT_WAIT, 1, ANEW, 1));
}
