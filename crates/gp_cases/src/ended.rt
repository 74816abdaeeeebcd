use crate::case::{Case, words_behind};
use crate::style::{Style, tell_text};
use gp_linked::LinkReport;
use gp_notified::NotifyReport;
use gp_outside::{FreeGate, MemoryFolder, MemorySink};
use gp_predict::{Outcome, run};
use gp_report::Report;
use gp_shards::shards;
use gp_show::show;
use std::alloc::{AllocError, Global};
use std::sync::Wait;
use std::thread::Threads;
use std::{io, str};

/// What a run ended with, what it wrote, and the files that it left.
#[derive(Drop)]
pub struct Ended {
    outcome: Outcome,
    sink: MemorySink,
    folder: MemoryFolder,
}

impl Ended {
    pub fn status(&self) -> u8 {
        self.outcome.status
    }

    /// The report that is kept, of an analysis or of deadlocks.
    pub fn report(&self) -> Option<&Report> {
        match &self.outcome.report {
            Some(report) => Some(report),
            None => self.deadlocks(),
        }
    }

    /// The report of deadlocks that is kept.
    pub fn deadlocks(&self) -> Option<&Report> {
        self.outcome.stuck.as_ref()
    }

    /// The report of links that is kept.
    pub fn links(&self) -> Option<&LinkReport> {
        self.outcome.links.as_ref()
    }

    /// The report with signals that is kept.
    pub fn notified(&self) -> Option<&NotifyReport> {
        self.outcome.notified.as_ref()
    }

    pub fn text(&self) -> &[u8] {
        self.sink.bytes()
    }

    pub fn files(&self) -> &[(String, Vec<u8>)] {
        self.folder.files()
    }
}

/// Runs a case.
pub fn ran<R: AllocGlobal + Threads + Wait + Sync>(
    rt: &R,
    case: &Case,
) -> Result<Ended, AllocError> {
    ran_where(rt, case, case.failing(), case.puts())
}

/// Runs a case where these calls and puts fail.
pub fn ran_where<R: AllocGlobal + Threads + Wait + Sync>(
    rt: &R,
    case: &Case,
    failing: &[u64],
    puts: &[(u64, u64)],
) -> Result<Ended, AllocError> {
    let alloc = rt.alloc();
    let puts = Vec::from_slice(alloc, puts)?;
    let sink = MemorySink::new(alloc, puts);
    match folder_of(alloc, case, failing) {
        Ok(folder) => Ok(ran_on(rt, case.words(), folder, sink)),
        Err(error) => {
            drop(sink);
            Err(error)
        }
    }
}

/// The folder of a case, where these calls fail.
fn folder_of(alloc: Global, case: &Case, failing: &[u64]) -> Result<MemoryFolder, AllocError> {
    let failing = Vec::from_slice(alloc, failing)?;
    match case.files(alloc) {
        Ok(files) => Ok(MemoryFolder::new(files, failing)),
        Err(error) => {
            drop(failing);
            Err(error)
        }
    }
}

fn ran_on<R: AllocGlobal + Threads + Wait + Sync>(
    rt: &R,
    words: &[String],
    folder: MemoryFolder,
    sink: MemorySink,
) -> Ended {
    let mut folder = folder;
    let mut sink = sink;
    let outcome = run_program(rt, words, &mut folder, &mut sink);
    Ended {
        outcome,
        sink,
        folder,
    }
}

/// Runs the program whose words these are.
fn run_program<R: AllocGlobal + Threads + Wait + Sync>(
    rt: &R,
    words: &[String],
    folder: &mut MemoryFolder,
    sink: &mut MemorySink,
) -> Outcome {
    if let Some(words) = words_behind("gpshow", words) {
        return show(rt, words, folder, sink);
    }
    match words_behind("gpshards", words) {
        Some(words) => shards(rt, words, folder, sink),
        None => run(rt, words, folder, sink, &FreeGate),
    }
}

/// What is kept beside the status.
pub fn kept(ended: &Ended) -> &str {
    let outcome = &ended.outcome;
    match (
        &outcome.report,
        &outcome.links,
        &outcome.stuck,
        &outcome.notified,
    ) {
        (None, None, None, None) => "",
        (Some(_), None, None, None) => " report",
        (None, Some(_), None, None) => " links",
        (None, None, Some(_), None) => " stuck",
        (None, None, None, Some(_)) => " notified",
        _ => " several",
    }
}

/// Tells the status, the text, and each file that was written or changed.
pub fn tell(rt: &impl Print, case: &Case, ended: &Ended) -> io::Result<()> {
    let status = ended.status();
    println!(rt; "status {status}{}", kept(ended))?;
    tell_text(rt, case.style(), ended.text())?;
    tell_files(rt, case, ended)
}

fn tell_files(rt: &impl Print, case: &Case, ended: &Ended) -> io::Result<()> {
    for (path, bytes) in ended.files() {
        if !case.gives(path.as_str(), bytes.as_slice()) {
            tell_file(rt, case.style(), path.as_str(), bytes.as_slice())?;
        }
    }
    Ok(())
}

/// The most bytes of a file that is told whole.
const SMALL: usize = 1_000;

/// Tells a file: its length, and its text where it is small, else its fingerprint.
fn tell_file(rt: &impl Print, style: &Style, path: &str, bytes: &[u8]) -> io::Result<()> {
    let length = bytes.len();
    if length > SMALL {
        return println!(rt; "file {path} {length} {}", fingerprint(bytes));
    }
    println!(rt; "file {path} {length}")?;
    tell_text(rt, style, bytes)
}

/// A number that another text of this length hardly has: 64 bits by the method of Fowler, Noll and Vo, 1a.
fn fingerprint(bytes: &[u8]) -> u64 {
    let mut print = 0xcbf2_9ce4_8422_2325u64;
    for byte in bytes {
        print = (print ^ u64::from(*byte)).wrapping_mul(0x100_0000_01b3);
    }
    print
}

/// Gives a case the files that a run left, and what it wrote as the file with this path, where one is named.
pub fn give_back(
    alloc: Global,
    case: &mut Case,
    ended: &Ended,
    report: &str,
) -> Result<(), AllocError> {
    for (path, bytes) in ended.files() {
        case.give(alloc, path.as_str(), bytes.as_slice())?;
    }
    if report.is_empty() {
        return Ok(());
    }
    case.give(alloc, report, ended.text())
}
