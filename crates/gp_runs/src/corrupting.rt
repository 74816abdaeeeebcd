// Whole runs of task check on reports that are spoilt: what chance has spoilt is accepted, rejected or refused in one line; what
// means the same is accepted, and what lacks a line is not.
use crate::large::{is_accepted, large_folder, large_report, verdict_on};
use gp_outside::{FreeGate, MemoryFolder};
use std::alloc::Global;
use std::process::Abort;
use std::sync::Wait;
use std::thread::Threads;

/// The next of a row of numbers that begins with a seed.
fn next(state: u64) -> u64 {
    state
        .wrapping_mul(6_364_136_223_846_793_005)
        .wrapping_add(1_442_695_040_888_963_407)
}

/// One of the first `count` numbers, or 0 where there is none.
fn below(state: u64, count: usize) -> usize {
    let drawn = (state >> 33) as usize;
    drawn.checked_rem(count).unwrap_or(0)
}

/// The bytes, the words or the lines of a text, each with what parts it from the next.
fn pieces<'a>(rt: &impl Abort, alloc: Global, text: &'a [u8], kind: usize) -> Vec<&'a [u8]> {
    match kind {
        0 => bytes_of(rt, alloc, text),
        1 => parts_of(rt, alloc, text, b' '),
        _ => parts_of(rt, alloc, text, b'\n'),
    }
}

fn bytes_of<'a>(rt: &impl Abort, alloc: Global, text: &'a [u8]) -> Vec<&'a [u8]> {
    let mut pieces = Vec::new(alloc);
    for byte in text.chunks(1) {
        pieces.push(byte).expect(rt, "memory");
    }
    pieces
}

fn parts_of<'a>(rt: &impl Abort, alloc: Global, text: &'a [u8], end: u8) -> Vec<&'a [u8]> {
    let mut pieces = Vec::new(alloc);
    for part in text.split_inclusive(|byte| *byte == end || *byte == b'\n') {
        pieces.push(part).expect(rt, "memory");
    }
    pieces
}

/// What becomes of the pieces at two places.
#[derive(Clone, Copy)]
enum Change {
    Swapped,
    Doubled,
    Dropped,
}

fn change_of(number: usize) -> Change {
    match number {
        0 => Change::Swapped,
        1 => Change::Doubled,
        _ => Change::Dropped,
    }
}

/// Swaps the pieces at two places, puts the one at the second place before the other once more, or drops the first.
fn apply(rt: &impl Abort, pieces: &mut Vec<&[u8]>, first: usize, second: usize, change: Change) {
    let Some(piece) = pieces.get(second).copied() else {
        return;
    };
    if first >= pieces.len() {
        return;
    }
    match change {
        Change::Swapped => pieces.as_mut_slice().swap(first, second),
        Change::Doubled => pieces.insert(first, piece).expect(rt, "memory"),
        Change::Dropped => {
            let _ = pieces.remove(first);
        }
    }
}

/// A text in which chance has swapped, doubled or dropped a byte, a word or a line.
fn spoilt(rt: &impl Abort, alloc: Global, report: &[u8], state: u64) -> Vec<u8> {
    let kind = next(state);
    let first = next(kind);
    let second = next(first);
    let mut pieces = pieces(rt, alloc, report, below(state, 3));
    let count = pieces.len();
    let change = change_of(below(kind, 3));
    let (first, second) = (below(first, count), below(second, count));
    apply(rt, &mut pieces, first, second, change);
    joined(rt, alloc, pieces.as_slice())
}

fn joined(rt: &impl Abort, alloc: Global, pieces: &[&[u8]]) -> Vec<u8> {
    let mut text = Vec::new(alloc);
    for piece in pieces {
        text.extend_from_slice(piece).expect(rt, "memory");
    }
    text
}

/// Whether this is one line, and the one that this status of task check has.
fn is_verdict(status: u8, text: &[u8]) -> bool {
    let begins = match status {
        0 => text.starts_with(b"accepted "),
        1 => text.starts_with(b"rejected "),
        3 => text.starts_with(b"refused report "),
        _ => false,
    };
    begins && text.iter().position(|byte| *byte == b'\n') == text.len().checked_sub(1)
}

/// Whether task check has a verdict on a report that chance has spoilt.
fn has_verdict<R: AllocGlobal + Threads + Wait + Sync + Abort>(
    rt: &R,
    folder: &mut MemoryFolder,
    report: &[u8],
    state: u64,
) -> bool {
    let text = spoilt(rt, rt.alloc(), report, state);
    let (status, told) = verdict_on(rt, folder, text.as_slice());
    is_verdict(status, told.as_slice())
}

/// Whether it has one on each of fifty.
fn have_verdicts<R: AllocGlobal + Threads + Wait + Sync + Abort>(
    rt: &R,
    folder: &mut MemoryFolder,
    report: &[u8],
) -> bool {
    let mut hold = true;
    let mut state = 20_261_128u64;
    for _ in 0..50 {
        state = next(next(next(next(state))));
        hold &= has_verdict(rt, folder, report, state);
    }
    hold
}

/// Whether a report has a verdict wherever chance has spoilt it, and is accepted before and after.
fn spoilt_reports_have_verdicts<R: AllocGlobal + Threads + Wait + Sync + Abort>(rt: &R) -> bool {
    let mut folder = large_folder(rt);
    let report = large_report(rt, &mut folder, "--workers=1", &FreeGate);
    let holds = is_accepted(rt, &mut folder, report.as_slice())
        && have_verdicts(rt, &mut folder, report.as_slice())
        && is_accepted(rt, &mut folder, report.as_slice());
    drop(folder);
    holds
}

#[test]
fn a_spoilt_report_has_a_verdict(rt: HostRuntime) {
    assert!(rt; spoilt_reports_have_verdicts(&rt));
}

/// A text with a space more wherever there is one, and a comment behind each line.
fn spread(rt: &impl Abort, alloc: Global, text: &[u8]) -> Vec<u8> {
    let mut told = Vec::new(alloc);
    for byte in text {
        put_spread(rt, &mut told, *byte);
    }
    told
}

fn put_spread(rt: &impl Abort, told: &mut Vec<u8>, byte: u8) {
    match byte {
        b' ' => told.extend_from_slice(b"  ").expect(rt, "memory"),
        b'\n' => told
            .extend_from_slice(b" \n# no more\n")
            .expect(rt, "memory"),
        byte => told.push(byte).expect(rt, "memory"),
    }
}

/// A text without the line behind the first ones, so many of them.
fn without_line(rt: &impl Abort, alloc: Global, text: &[u8], place: usize) -> Vec<u8> {
    let mut told = Vec::new(alloc);
    let lines = text.split_inclusive(|byte| *byte == b'\n');
    for (number, line) in lines.enumerate() {
        if number != place {
            told.extend_from_slice(line).expect(rt, "memory");
        }
    }
    told
}

/// Whether a report is rejected or refused without the line at a place.
fn line_is_missed<R: AllocGlobal + Threads + Wait + Sync + Abort>(
    rt: &R,
    folder: &mut MemoryFolder,
    report: &[u8],
    place: usize,
) -> bool {
    let text = without_line(rt, rt.alloc(), report, place);
    let (status, told) = verdict_on(rt, folder, text.as_slice());
    status != 0 && is_verdict(status, told.as_slice())
}

/// Whether it is at each of these places.
fn lines_are_missed<R: AllocGlobal + Threads + Wait + Sync + Abort>(
    rt: &R,
    folder: &mut MemoryFolder,
    report: &[u8],
) -> bool {
    let mut missed = true;
    for place in 0..40usize {
        missed &= line_is_missed(rt, folder, report, place);
    }
    missed
}

fn changes_are_told_apart<R: AllocGlobal + Threads + Wait + Sync + Abort>(rt: &R) -> bool {
    let mut folder = large_folder(rt);
    let report = large_report(rt, &mut folder, "--workers=1", &FreeGate);
    let wide = spread(rt, rt.alloc(), report.as_slice());
    let apart = is_accepted(rt, &mut folder, wide.as_slice())
        && lines_are_missed(rt, &mut folder, report.as_slice());
    drop(folder);
    apart
}

#[test]
fn what_means_the_same_is_accepted_and_what_lacks_a_line_is_not(rt: HostRuntime) {
    assert!(rt; changes_are_told_apart(&rt));
}
