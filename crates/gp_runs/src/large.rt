// Several runs on one recording of 600 events of four threads, which are compared with each other.
use crate::fixture::{folder_of, written};
use gp_outside::{Folder, FreeGate, Gate, HoldGate, MemoryFolder};
use std::alloc::Global;
use std::process::Abort;
use std::sync::Wait;
use std::thread::Threads;

const MAKE: [&str; 5] = [
    "--task=make",
    "--seed=7",
    "--threads=4",
    "--events=600",
    "d",
];

/// What a run with these words writes.
fn text_of<R: AllocGlobal + Threads + Wait + Sync + Abort, G: Gate + Sync>(
    rt: &R,
    words: &[&str],
    folder: &mut MemoryFolder,
    gate: &G,
) -> Vec<u8> {
    let (_status, text) = written(rt, words, folder, gate);
    text
}

/// A folder with what a run with these words makes.
pub fn made_folder<R: AllocGlobal + Threads + Wait + Sync + Abort>(
    rt: &R,
    words: &[&str],
) -> MemoryFolder {
    let mut folder = folder_of(rt, rt.alloc(), &[]);
    let _told = text_of(rt, words, &mut folder, &FreeGate);
    folder
}

/// A folder with the recording.
pub fn large_folder<R: AllocGlobal + Threads + Wait + Sync + Abort>(rt: &R) -> MemoryFolder {
    made_folder(rt, &MAKE)
}

/// What analysing the recording prints, with so many workers.
pub fn large_report<R: AllocGlobal + Threads + Wait + Sync + Abort, G: Gate + Sync>(
    rt: &R,
    folder: &mut MemoryFolder,
    workers: &str,
    gate: &G,
) -> Vec<u8> {
    text_of(rt, &["--task=analyse", workers, "d"], folder, gate)
}

/// What task check says of a report on the folder.
pub fn verdict_on<R: AllocGlobal + Threads + Wait + Sync + Abort>(
    rt: &R,
    folder: &mut MemoryFolder,
    report: &[u8],
) -> (u8, Vec<u8>) {
    folder.write("d/report", report).expect(rt, "a report");
    written(rt, &["--task=check", "d"], folder, &FreeGate)
}

/// Whether a report on the folder is accepted as one of 42 instances.
pub fn is_accepted<R: AllocGlobal + Threads + Wait + Sync + Abort>(
    rt: &R,
    folder: &mut MemoryFolder,
    report: &[u8],
) -> bool {
    let (status, text) = verdict_on(rt, folder, report);
    status == 0 && text.as_slice() == b"accepted 42\n".as_slice()
}

/// Whether one worker prints one report, however often it is asked.
fn one_worker_repeats_itself<R: AllocGlobal + Threads + Wait + Sync + Abort>(rt: &R) -> bool {
    let mut folder = large_folder(rt);
    let first = large_report(rt, &mut folder, "--workers=1", &FreeGate);
    let second = large_report(rt, &mut folder, "--workers=1", &FreeGate);
    let repeats = first == second && is_accepted(rt, &mut folder, first.as_slice());
    drop(folder);
    repeats
}

#[test]
fn one_worker_answers_alike_each_time(rt: HostRuntime) {
    assert!(rt; one_worker_repeats_itself(&rt));
}

/// What task compact makes of a report on the folder.
fn compact_of<R: AllocGlobal + Threads + Wait + Sync + Abort>(
    rt: &R,
    folder: &mut MemoryFolder,
    report: &[u8],
) -> Vec<u8> {
    folder.write("d/report", report).expect(rt, "a report");
    text_of(rt, &["--task=compact", "d"], folder, &FreeGate)
}

/// Whether a compact report is accepted, and stays as it is where it is made compact.
fn stays_compact<R: AllocGlobal + Threads + Wait + Sync + Abort>(rt: &R) -> bool {
    let mut folder = large_folder(rt);
    let report = large_report(rt, &mut folder, "--workers=1", &FreeGate);
    let first = compact_of(rt, &mut folder, report.as_slice());
    let second = compact_of(rt, &mut folder, first.as_slice());
    let stays = first == second && is_accepted(rt, &mut folder, first.as_slice());
    drop(folder);
    stays
}

#[test]
fn a_compact_report_is_accepted_and_stays_so(rt: HostRuntime) {
    assert!(rt; stays_compact(&rt));
}

/// What analysing the recording prints in format 2, with so many workers.
fn report_in_format_2<R: AllocGlobal + Threads + Wait + Sync + Abort>(
    rt: &R,
    folder: &mut MemoryFolder,
    workers: &str,
) -> Vec<u8> {
    let words = ["--task=analyse", workers, "--report=2", "d"];
    text_of(rt, &words, folder, &FreeGate)
}

/// Whether an analysis in format 2 prints what task compact makes of one in format 1: of 3 windows by one worker, and of 10
/// by two, who share out the windows, so that each has the answers of one worker.
fn is_compact_from_the_start<R: AllocGlobal + Threads + Wait + Sync + Abort>(
    rt: &R,
    events: &str,
    workers: &str,
) -> bool {
    let words = ["--task=make", "--seed=7", "--threads=4", events, "d"];
    let mut folder = made_folder(rt, &words);
    let plain = large_report(rt, &mut folder, "--workers=1", &FreeGate);
    let later = compact_of(rt, &mut folder, plain.as_slice());
    let at_once = report_in_format_2(rt, &mut folder, workers);
    drop(folder);
    plain != later && at_once == later
}

#[test]
fn an_analysis_is_compact_from_the_start(rt: HostRuntime) {
    assert!(rt; is_compact_from_the_start(&rt, "--events=600", "--workers=1"));
    assert!(rt; is_compact_from_the_start(&rt, "--events=2000", "--workers=2"));
}

fn is_answer(line: &[u8]) -> bool {
    line.starts_with(b"found ")
        || line.starts_with(b"impossible ")
        || line.starts_with(b"undecided ")
}

/// The first byte of each answer of a report: `f` of found, `i` of impossible, `u` of undecided.
fn answers(rt: &impl Abort, alloc: Global, report: &[u8]) -> Vec<u8> {
    let mut told = Vec::new(alloc);
    for line in report.split(|byte| *byte == b'\n') {
        if is_answer(line) {
            put_first(rt, &mut told, line);
        }
    }
    told
}

fn put_first(rt: &impl Abort, told: &mut Vec<u8>, line: &[u8]) {
    let first = line.get(..1).unwrap_or(b"");
    told.extend_from_slice(first).expect(rt, "memory");
}

/// Whether two lists answer all instances, some of them both, and no answer in one is contradicted by the other.
fn agree(some: &[u8], others: &[u8]) -> bool {
    some.len() == 42 && others.len() == 42 && none_differs(some, others) && some_meet(some, others)
}

fn none_differs(some: &[u8], others: &[u8]) -> bool {
    some.iter().zip(others).all(|(a, b)| is_alike(*a, *b))
}

fn is_alike(one: u8, other: u8) -> bool {
    one == other || one == b'u' || other == b'u'
}

fn some_meet(some: &[u8], others: &[u8]) -> bool {
    some.iter().zip(others).any(|(a, b)| *a == *b && *a != b'u')
}

/// The answers of a report by so many workers, where it is accepted; else none.
fn accepted_answers<R: AllocGlobal + Threads + Wait + Sync + Abort>(
    rt: &R,
    folder: &mut MemoryFolder,
    workers: &str,
) -> Vec<u8> {
    let report = large_report(rt, folder, workers, &FreeGate);
    if !is_accepted(rt, folder, report.as_slice()) {
        return Vec::new(rt.alloc());
    }
    answers(rt, rt.alloc(), report.as_slice())
}

/// Whether the reports by one, four and sixteen workers are accepted, and no two of them contradict each other.
fn workers_agree<R: AllocGlobal + Threads + Wait + Sync + Abort>(rt: &R) -> bool {
    let mut folder = large_folder(rt);
    let one = accepted_answers(rt, &mut folder, "--workers=1");
    let four = accepted_answers(rt, &mut folder, "--workers=4");
    let sixteen = accepted_answers(rt, &mut folder, "--workers=16");
    drop(folder);
    agree(one.as_slice(), four.as_slice())
        && agree(one.as_slice(), sixteen.as_slice())
        && agree(four.as_slice(), sixteen.as_slice())
}

#[test]
fn several_workers_never_contradict_one(rt: HostRuntime) {
    assert!(rt; workers_agree(&rt));
}

/// Whether the second worker passes the gate while the first is held at it.
fn two_workers_meet<R: AllocGlobal + Threads + Wait + Sync + Abort>(rt: &R) -> bool {
    let mut folder = large_folder(rt);
    let gate = HoldGate::new(10_000_000);
    let report = large_report(rt, &mut folder, "--workers=2", &gate);
    let meet = gate.met() && is_accepted(rt, &mut folder, report.as_slice());
    drop(gate);
    drop(folder);
    meet
}

#[test]
fn two_workers_answer_at_once(rt: HostRuntime) {
    assert!(rt; two_workers_meet(&rt));
}
