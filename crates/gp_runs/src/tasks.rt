// Each task once, and each again where memory may be wanting.
use crate::fixture::run_on;
use std::process::Abort;
use std::sync::Wait;
use std::thread::Threads;

/// What answering the one instance writes.
const REPORT: &str =
    "gpredict 1\nbudget 200\nwindow 1\nproperty late_auth 1\ninstance 0 2.0 1.1\nfound 3\n1.0 2.0 1.1\nsummary 1 0 0\n";

/// The same in the format of compact reports.
const COMPACT: &str =
    "gpredict 2\nbudget 200\nwindow 1\nshared 0\nproperty late_auth 1\ninstance 0 2.0 1.1\nfound 3\n1.0 2.0 1.1\nsummary 1 0 0\n";

/// The first thread starts the second, and authorises what the second uses; with all that any task reads.
pub const FILES: [(&str, &str); 6] = [
    ("d/manifest", "gptrace 1\nthreads 2\nepochs 1\nroots 1\n"),
    ("d/t1.trace", "start 2\nop auth r\n"),
    ("d/t2.trace", "op use r\n"),
    (
        "d/props",
        "property late_auth\nevent use op use $o\nevent auth op auth $o\npattern use@u auth@t\n",
    ),
    ("d/schedule", "window 1\n1.0 2.0 1.1\n"),
    ("d/report", REPORT),
];

/// The words of a task, and the status and the text that it ends with.
type Job<'a> = (&'a [&'a str], u8, &'a str);

const REFUSED: Job = (&["d"], 2, "words\n");

const REPLAY: Job = (&["--task=replay", "d"], 0, "feasible 3\n");

const LIST: Job = (
    &["--task=list", "d"],
    0,
    "window 1\nproperty late_auth 1\ninstance 0 2.0 1.1\ntotal 1\n",
);

const ANALYSE: Job = (&["--task=analyse", "d"], 1, REPORT);

const CHECK: Job = (&["--task=check", "d"], 0, "accepted 1\n");

const MAKE_COMPACT: Job = (&["--task=compact", "d"], 0, COMPACT);

const STUCK: Job = (
    &["--task=stuck", "d"],
    0,
    "gpredict 1\nbudget 200\nwindow 1\nproperty deadlock 0\nsummary 0 0 0\n",
);

const NOTIFY: Job = (
    &["--task=notify", "d"],
    1,
    "gpnotify 1\nbudget 200\nwindow 1\nproperty late_auth 1\ninstance 0 2.0 1.1\nfound 3\n1.0 2.0 1.1\npairs 0\nsummary 1 0 0\n",
);

/// What the report answers still stands.
const RESUME: Job = (&["--task=resume", "d"], 1, COMPACT);

const MAKE: Job = (&["--task=make", "--events=1", "d"], 0, "made 4 1 1\n");

fn ends_so<R: AllocGlobal + Threads + Wait + Sync + Abort>(rt: &R, job: &Job) -> bool {
    let (words, status, text) = *job;
    let (outcome, sink) = run_on(rt, words, &FILES);
    let ends = outcome.status == status && sink.bytes() == text.as_bytes();
    drop(sink);
    drop(outcome);
    ends
}

#[test]
fn other_words_are_refused(rt: HostRuntime) {
    assert!(rt; ends_so(&rt, &REFUSED));
}

#[test]
fn a_schedule_is_replayed(rt: HostRuntime) {
    assert!(rt; ends_so(&rt, &REPLAY));
}

#[test]
fn instances_are_listed(rt: HostRuntime) {
    assert!(rt; ends_so(&rt, &LIST));
}

#[test]
fn instances_are_answered(rt: HostRuntime) {
    assert!(rt; ends_so(&rt, &ANALYSE));
}

#[test]
fn a_report_is_checked(rt: HostRuntime) {
    assert!(rt; ends_so(&rt, &CHECK));
}

#[test]
fn a_report_is_made_compact(rt: HostRuntime) {
    assert!(rt; ends_so(&rt, &MAKE_COMPACT));
}

#[test]
fn deadlocks_are_answered(rt: HostRuntime) {
    assert!(rt; ends_so(&rt, &STUCK));
}

#[test]
fn instances_are_answered_with_signals(rt: HostRuntime) {
    assert!(rt; ends_so(&rt, &NOTIFY));
}

#[test]
fn what_still_stands_is_kept(rt: HostRuntime) {
    assert!(rt; ends_so(&rt, &RESUME));
}

#[test]
fn a_recording_is_made(rt: HostRuntime) {
    assert!(rt; ends_so(&rt, &MAKE));
}

/// Whether a text is the one that is due, or where memory was wanting a prefix of it. Whoever runs the tests with a failing
/// allocation meets the second.
fn is_whole_or_begun(status: u8, told: &[u8], due: u8, text: &[u8]) -> bool {
    match status {
        6 => text.starts_with(told),
        status => status == due && told == text,
    }
}

/// Whether what a job writes is.
fn text_is_whole_or_begun<R: AllocGlobal + Threads + Wait + Sync + Abort>(
    rt: &R,
    job: &Job,
) -> bool {
    let (words, due, text) = *job;
    let (outcome, sink) = run_on(rt, words, &FILES);
    let holds = is_whole_or_begun(outcome.status, sink.bytes(), due, text.as_bytes());
    drop(sink);
    drop(outcome);
    holds
}

fn texts_are_whole_or_begun<R: AllocGlobal + Threads + Wait + Sync + Abort>(
    rt: &R,
    jobs: &[Job],
) -> bool {
    let mut hold = true;
    for job in jobs {
        hold &= text_is_whole_or_begun(rt, job);
    }
    hold
}

#[test]
fn want_of_memory_leaves_a_prefix_of_the_text(rt: HostRuntime) {
    const JOBS: [Job; 10] = [
        REFUSED,
        REPLAY,
        LIST,
        ANALYSE,
        CHECK,
        MAKE_COMPACT,
        STUCK,
        NOTIFY,
        RESUME,
        MAKE,
    ];
    assert!(rt; texts_are_whole_or_begun(&rt, &JOBS));
}
