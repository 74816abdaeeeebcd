// How reports are read and printed.
use crate::case::Case;
use crate::style::tell_text;
use gp_report::{Report, print_report, read_report};
use std::io;

/// The most bytes of a report that is read here.
const MOST: usize = 100_000;

/// Tells a report as it is printed.
pub fn tell_report(
    rt: &(impl AllocGlobal + Print),
    case: &Case,
    report: &Report,
) -> io::Result<()> {
    let text = print_report(rt.alloc(), report)?;
    let told = tell_text(rt, case.style(), text.as_slice());
    drop(text);
    told
}

/// Reads a file as a report, and tells it as it is printed.
pub fn tell_read(rt: &(impl AllocGlobal + Print), case: &Case, path: &str) -> io::Result<()> {
    let text = case.bytes(rt.alloc(), path)?;
    let told = tell_read_text(rt, case, text.as_slice());
    drop(text);
    told
}

fn tell_read_text(rt: &(impl AllocGlobal + Print), case: &Case, text: &[u8]) -> io::Result<()> {
    if text.len() > MOST {
        return println!(rt; "too long");
    }
    match read_report(rt.alloc(), text) {
        Ok(read) => {
            let told = tell_report(rt, case, &read.report);
            drop(read);
            told
        }
        Err(_) => println!(rt; "no report"),
    }
}
