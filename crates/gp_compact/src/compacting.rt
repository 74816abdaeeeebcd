ghost use Rattle.std.specs.Prelude.{◌≡◌, ◌+◌, if◌then◌else◌, true, IfOk, None, Some, drop, length, min};
ghost use Rattle.gp_window.specs.Windows.{all_windows};
ghost use Rattle.gp_compact.specs.Compact.{CompactKeepsAcceptance, IsCompacted, compacted_next, compacted_window, compacted_windows, sizes_of};
ghost use Rattle.gp_sharing.specs.Compacted.{are_few, compacted_by, entries_in_body, own_steps, steps_in};

use crate::rewriting::rewrite_body;
use crate::sharing::share;
use gp_base::Row;
use gp_constraint::{BaseFault, Encoded, base, problems_are_valid};
use gp_report::{Answer, Entry, Report, WindowBody, WindowRecord};
use gp_sharing::Sizes;
use gp_window::{Recording, Window, Windows};
use std::alloc::{AllocError, Global};

// Nothing moves in a window with so many base clauses, shared steps and steps of certificates together, or more.
const MOST_STEPS: u64 = 2_147_483_648;

/// The report in format 2, where each step of a certificate that rests on the base of its window alone stands in the
/// shared steps of the window, once for all certificates that use it.
pub fn compact(alloc: Global, recording: &Recording, report: Report) -> Result<Report, AllocError>
    ensures { IfOk result (IsCompacted recording.now report) }
{
    let budget = report.budget();
    let windows = compact_windows(alloc, recording, report.into_windows())?;
    Ok(Report::new(2, budget, windows))
}

/// A law: a compacted report is accepted exactly where the report is of which it was made.
pub fn compact_keeps_acceptance()
    ensures { CompactKeepsAcceptance }
{
    problems_are_valid();
}

fn compact_windows(
    alloc: Global,
    recording: &Recording,
    records: Row<WindowRecord>,
) -> Result<Row<WindowRecord>, AllocError>
    ensures { IfOk result (λ made. made ≡ compacted_windows (all_windows recording.now) records) }
{
    let mut windows = Windows::new(alloc, recording)?;
    let made = compact_over(alloc, &mut windows, records);
    drop(windows);
    made
}

// The records of the windows that are to come.
fn compact_over(
    alloc: Global,
    windows: &mut Windows,
    records: Row<WindowRecord>,
) -> Result<Row<WindowRecord>, AllocError>
    ensures { IfOk result (λ made. made ≡ compacted_windows windows.old records) }
{
    let mut made = Vec::new(alloc);
    for told in records.into_vec() {
        made.push(compact_next(alloc, windows, told)?)?;
    }
    Ok(Row::from_vec(made))
}

// The record of the next window; one over the epochs stays as it is.
fn compact_next(
    alloc: Global,
    windows: &mut Windows,
    told: WindowRecord,
) -> Result<WindowRecord, AllocError>
    ensures made { IfOk result (λ made. made ≡ compacted_next windows.old told) }
    ensures left { IfOk result (λ made. windows.new ≡ drop 1 windows.old) }
{
    match windows.next(alloc) {
        Ok(Some(window)) => compact_window(alloc, window, told),
        Ok(None) => Ok(told),
        Err(error) => {
            drop(told);
            Err(error)
        }
    }
}

fn compact_window(
    alloc: Global,
    window: Window,
    told: WindowRecord,
) -> Result<WindowRecord, AllocError>
    ensures { IfOk result (λ made. made ≡ compacted_window window told) }
{
    match base(alloc, window) {
        Ok(encoded) => {
            let made = compact_encoded(alloc, &encoded, told);
            drop(encoded);
            made
        }
        Err(BaseFault::TooLarge { .. }) => Ok(told),
        Err(BaseFault::Memory) => {
            drop(told);
            Err(AllocError)
        }
    }
}

// The record of a window that has these constraints.
fn compact_encoded(
    alloc: Global,
    encoded: &Encoded,
    told: WindowRecord,
) -> Result<WindowRecord, AllocError>
    ensures { IfOk result (λ made. made ≡ compacted_by (sizes_of encoded.now told.shared) told) }
{
    match sizes_of(encoded, &told) {
        Some(sizes) => compact_by(alloc, sizes, told),
        None => Ok(told),
    }
}

// By what the steps of a window are numbered, where they are few.
fn sizes_of(encoded: &Encoded, told: &WindowRecord) -> Option<Sizes>
    ensures { result ≡ (if are_few (sizes_of encoded.now told.now.shared) told.now.body then Some (sizes_of encoded.now told.now.shared) else None) }
{
    let problem = encoded.problem();
    let shared = told.shared.as_slice();
    let first = (problem.clauses.len() as u64).saturating_add(shared.len() as u64);
    if count_steps(first, &told.body) >= MOST_STEPS {
        return None;
    }
    Some(Sizes::of(problem, shared))
}

// A number and the steps of a window's certificates together, or the greatest number if they do not fit.
fn count_steps(count: u64, body: &WindowBody) -> u64
    ensures { result ≡ min (count + steps_in (entries_in_body body.now)) 18446744073709551615 }
{
    let mut count = count;
    for property in body.properties() {
        count = count_among(count, property.body.entries());
    }
    count
}

fn count_among(count: u64, entries: &[Entry]) -> u64
    ensures { result ≡ min (count + steps_in entries.now) 18446744073709551615 }
{
    let mut count = count;
    for entry in entries {
        count = count.saturating_add(count_own(&entry.answer) as u64);
    }
    count
}

// How many steps the certificate of an answer has.
fn count_own(answer: &Answer) -> usize
    ensures { result ≡ length (own_steps answer.now) }
{
    match answer {
        Answer::Impossible(certificate) => certificate.steps.len(),
        Answer::Found(_) => 0,
        Answer::Undecided { .. } => 0,
    }
}

fn compact_by(alloc: Global, sizes: Sizes, told: WindowRecord) -> Result<WindowRecord, AllocError>
    requires few { are_few sizes told.body ≡ true }
    requires shared { sizes.shared ≡ length told.shared }
    ensures { IfOk result (λ made. made ≡ compacted_by sizes told) }
{
    let WindowRecord {
        number,
        shared,
        body,
        records,
    } = told;
    let list = share(alloc, sizes, shared, &body)?;
    let body = rewrite_body(alloc, sizes, &list, body)?;
    Ok(WindowRecord {
        number,
        shared: list.into_row(),
        body,
        records,
    })
}
