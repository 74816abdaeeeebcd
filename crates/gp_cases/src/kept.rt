// The report that a run keeps beside its text.
use crate::book::Book;
use crate::case::Case;
use crate::ended::{Ended, ran, tell};
use crate::notified::tell_notified;
use crate::reading::tell_report;
use gp_notified::{NotifyReport, Paired};
use gp_report::{AnswerOf, Report, WindowRecordOf};
use gp_window::{EventId, Schedule};
use std::alloc::{AllocError, Global};
use std::io;
use std::sync::Wait;
use std::thread::Threads;

/// The report that the last run kept.
pub fn kept_report(book: &Book) -> Option<&Report> {
    book.ended()?.report()
}

/// The report with signals that the last run kept.
pub fn kept_notified(book: &Book) -> Option<&NotifyReport> {
    book.ended()?.notified()
}

/// Tells the report that the last run kept as it is printed.
pub fn tell_kept(rt: &(impl AllocGlobal + Print), book: &Book) -> io::Result<()> {
    if let Some(report) = kept_notified(book) {
        return tell_notified(rt, book.case(), report);
    }
    match kept_report(book) {
        Some(report) => tell_report(rt, book.case(), report),
        None => println!(rt; "no report"),
    }
}

/// Replays each schedule of the report that the last run kept.
pub fn tell_replayed<R: AllocGlobal + Print + Threads + Wait + Sync>(
    rt: &R,
    book: &Book,
) -> io::Result<()> {
    if let Some(report) = kept_notified(book) {
        return replay_all(rt, book.case(), report.windows.as_slice());
    }
    match kept_report(book) {
        Some(report) => replay_all(rt, book.case(), report.windows()),
        None => println!(rt; "no report"),
    }
}

/// What has a schedule.
trait Scheduled {
    fn schedule(&self) -> &Schedule;
}

impl Scheduled for Schedule {
    fn schedule(&self) -> &Schedule {
        self
    }
}

impl Scheduled for Paired {
    fn schedule(&self) -> &Schedule {
        &self.schedule
    }
}

fn replay_all<S: Scheduled, R: AllocGlobal + Print + Threads + Wait + Sync>(
    rt: &R,
    case: &Case,
    windows: &[WindowRecordOf<S>],
) -> io::Result<()> {
    for window in windows {
        replay_window(rt, case, window)?;
    }
    Ok(())
}

fn replay_window<S: Scheduled, R: AllocGlobal + Print + Threads + Wait + Sync>(
    rt: &R,
    case: &Case,
    window: &WindowRecordOf<S>,
) -> io::Result<()> {
    for property in window.body.properties() {
        for entry in property.body.entries() {
            replay_answer(rt, case, window.number, &entry.answer)?;
        }
    }
    Ok(())
}

fn replay_answer<S: Scheduled, R: AllocGlobal + Print + Threads + Wait + Sync>(
    rt: &R,
    case: &Case,
    window: u32,
    answer: &AnswerOf<S>,
) -> io::Result<()> {
    match answer {
        AnswerOf::Found(shown) => replay_schedule(rt, case, window, shown.schedule()),
        _ => Ok(()),
    }
}

fn replay_schedule<R: AllocGlobal + Print + Threads + Wait + Sync>(
    rt: &R,
    case: &Case,
    window: u32,
    schedule: &Schedule,
) -> io::Result<()> {
    let text = written(rt.alloc(), window, schedule)?;
    let told = replay_text(rt, case, text.as_bytes());
    drop(text);
    told
}

/// Replays the schedule that a text is on the files of a case.
fn replay_text<R: AllocGlobal + Print + Threads + Wait + Sync>(
    rt: &R,
    case: &Case,
    text: &[u8],
) -> io::Result<()> {
    let mut replayed = case.clone()?;
    let told = replay_as(rt, &mut replayed, text);
    drop(replayed);
    told
}

fn replay_as<R: AllocGlobal + Print + Threads + Wait + Sync>(
    rt: &R,
    case: &mut Case,
    text: &[u8],
) -> io::Result<()> {
    case.say(rt.alloc(), "--task=replay d")?;
    case.give(rt.alloc(), "d/schedule", text)?;
    let ended = ran(rt, case)?;
    let told = tell(rt, case, &ended);
    drop(ended);
    told
}

/// A schedule as a file of its window, an event a line.
fn written(alloc: Global, window: u32, schedule: &Schedule) -> Result<String, AllocError> {
    let mut text = format!(in alloc; "window {window}\n")?;
    match write_events(alloc, &mut text, schedule.events.as_slice()) {
        Ok(()) => Ok(text),
        Err(error) => {
            drop(text);
            Err(error)
        }
    }
}

fn write_events(alloc: Global, text: &mut String, events: &[EventId]) -> Result<(), AllocError> {
    for event in events {
        write_event(alloc, text, event)?;
    }
    Ok(())
}

fn write_event(alloc: Global, text: &mut String, event: &EventId) -> Result<(), AllocError> {
    let line = format!(in alloc; "{}.{}\n", event.thread, event.index)?;
    let written = text.push_str(line.as_str());
    drop(line);
    Ok(written?)
}
