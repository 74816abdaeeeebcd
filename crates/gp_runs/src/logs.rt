// What a kept report has beside its text: the log of a budget that was spent.
use crate::fixture::run_on;
use gp_derivation::{Turn, WorkerRecord};
use gp_report::{Answer, Report};
use std::process::Abort;
use std::sync::Wait;
use std::thread::Threads;

/// Two writes that the read may have found, each only after the authorisation: one has to be ruled out by a learned clause.
const TWO_WRITES: [(&str, &str); 4] = [
    ("d/manifest", "gptrace 1\nthreads 2\nepochs 1\nroots 1\n"),
    (
        "d/t1.trace",
        "start 2\nop auth r\nwrite ready 1\nwrite ready 0\nwrite ready 1\n",
    ),
    ("d/t2.trace", "read ready 1\nop use r\n"),
    (
        "d/props",
        "property late_auth\nevent use op use $o\nevent auth op auth $o\npattern use@u auth@t\n",
    ),
];

/// The answer in the only window of a report, which has one property of one instance.
fn only_answer(report: &Report) -> Option<&Answer> {
    let [window] = report.windows() else {
        return None;
    };
    let [property] = window.body.properties() else {
        return None;
    };
    match property.body.entries() {
        [entry] => Some(&entry.answer),
        _ => None,
    }
}

/// The worker of a report that tells one window, answered by one worker.
fn only_record(report: &Report) -> Option<&WorkerRecord> {
    let [window] = report.windows() else {
        return None;
    };
    match window.records.as_slice() {
        [record] => Some(record),
        _ => None,
    }
}

/// Whether the only turn of a worker learned all entries of its log, as many as the budget.
fn spent_all(record: &WorkerRecord, budget: u32) -> bool {
    let due = Turn {
        ticket: 0,
        begins: 0,
        learned: 0,
        ends: budget,
    };
    match record.turns.as_slice() {
        [turn] => *turn == due && record.log.len() == budget as usize,
        _ => false,
    }
}

/// Whether a report tells one instance as undecided, and its log is that of a budget which was spent.
fn is_spent(report: &Report, budget: u32) -> bool {
    let answer = only_answer(report);
    let told =
        matches!(answer, Some(Answer::Undecided { worker: 1, from: 0, to }) if *to == budget);
    told && only_record(report).is_some_and(|record| spent_all(record, budget))
}

fn ends_spent<R: AllocGlobal + Threads + Wait + Sync + Abort>(rt: &R) -> bool {
    let words = ["--task=analyse", "--workers=1", "--budget=1", "d"];
    let (outcome, sink) = run_on(rt, &words, &TWO_WRITES);
    drop(sink);
    let report = outcome.report.as_ref();
    let spent = report.is_some_and(|report| is_spent(report, 1));
    drop(outcome);
    spent
}

#[test]
fn a_spent_budget_is_told_with_its_log(rt: HostRuntime) {
    assert!(rt; ends_spent(&rt));
}
