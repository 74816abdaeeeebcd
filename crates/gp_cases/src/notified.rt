// The kept report of task notify: its text, and whether the pairs of its schedules are right.
use crate::book::Book;
use crate::case::Case;
use crate::layers::recording_of;
use crate::layers::windows::window_numbered;
use crate::style::tell_text;
use gp_notified::{NotifyReport, Paired, print_notified};
use gp_notify::signalled;
use gp_replay::{ReplayFault, replay, replay_means_feasible};
use gp_report::{AnswerOf, WindowRecordOf};
use gp_window::{Recording, Window};
use std::alloc::{AllocError, Global};
use std::io;
use std::sync::Wait;
use std::thread::Threads;

/// Tells a report as it is printed.
pub fn tell_notified(
    rt: &(impl AllocGlobal + Print),
    case: &Case,
    report: &NotifyReport,
) -> io::Result<()> {
    let text = print_notified(rt.alloc(), report)?;
    let told = tell_text(rt, case.style(), text.as_slice());
    drop(text);
    told
}

/// Tells of each schedule of the report that the last run kept whether its pairs serve its wakes.
pub fn tell_signals<R: AllocGlobal + Print + Threads + Sync>(
    rt: &R,
    book: &Book,
) -> io::Result<()> {
    let Some(report) = book.ended().and_then(|ended| ended.notified()) else {
        return println!(rt; "no signals");
    };
    match recording_of(rt, book.case())? {
        Ok(recording) => {
            let told = tell_windows(rt, &recording, report.windows.as_slice());
            drop(recording);
            told
        }
        Err(_) => println!(rt; "no recording"),
    }
}

fn tell_windows(
    rt: &(impl AllocGlobal + Print),
    recording: &Recording,
    records: &[WindowRecordOf<Paired>],
) -> io::Result<()> {
    for record in records {
        tell_record(rt, recording, record)?;
    }
    Ok(())
}

fn tell_record(
    rt: &(impl AllocGlobal + Print),
    recording: &Recording,
    record: &WindowRecordOf<Paired>,
) -> io::Result<()> {
    match window_numbered(rt.alloc(), recording, record.number)? {
        Some(window) => {
            let told = tell_window(rt, &window, record);
            drop(window);
            told
        }
        None => println!(rt; "no window"),
    }
}

fn tell_window(
    rt: &(impl AllocGlobal + Print),
    window: &Window,
    record: &WindowRecordOf<Paired>,
) -> io::Result<()> {
    for property in record.body.properties() {
        for entry in property.body.entries() {
            tell_answer(rt, window, &entry.answer)?;
        }
    }
    Ok(())
}

fn tell_answer(
    rt: &(impl AllocGlobal + Print),
    window: &Window,
    answer: &AnswerOf<Paired>,
) -> io::Result<()> {
    match answer {
        AnswerOf::Found(shown) if is_signalled(rt.alloc(), window, shown)? => {
            println!(rt; "signalled")
        }
        AnswerOf::Found(_) => println!(rt; "not signalled"),
        _ => Ok(()),
    }
}

/// Whether a schedule is feasible, and signalled with its pairs.
fn is_signalled(alloc: Global, window: &Window, shown: &Paired) -> Result<bool, AllocError> {
    replay_means_feasible();
    match replay(alloc, window, &shown.schedule) {
        Ok(state) => {
            drop(state);
            Ok(signalled(window, &shown.schedule, shown.pairs.as_slice()))
        }
        Err(ReplayFault::Stuck { .. }) => Ok(false),
        Err(ReplayFault::Memory) => Err(AllocError),
    }
}
