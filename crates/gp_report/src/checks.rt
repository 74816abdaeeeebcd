ghost use Rattle.std.specs.Prelude.{◌≡◌, ◌⊎◌, ◌↔◌, IsTrue, All, length, map};
ghost use Rattle.gp_window.specs.WindowForm.{numbers_from};
ghost use Rattle.gp_report.specs.Report.{IsEntry, IsPropertyBody, IsPropertyRecord, IsReport, IsPrintableAnswer, IsPrintableStep, IsWindowBody, IsWindowRecord};

use crate::record::{
    Answer, Entry, MOST_BUDGET, MOST_ENTRIES, MOST_EVENTS, MOST_WORKERS, PropertyBody,
    PropertyRecord, WindowBody, WindowRecord,
};
use gp_certificate::Step;

// The variables that can be told: their numbers from 1 go up to 2^31 - 1.
pub(crate) const VARIABLES: u32 = 2_147_483_647;

// Whether a text can tell a report of these parts.
pub(crate) fn is_report(format: u32, budget: u64, windows: &[WindowRecord]) -> bool
    ensures { IsTrue result ↔ IsReport (record { format = format; budget = budget; windows = windows.now }) }
{
    is_format(format)
        && 1 <= budget
        && budget <= MOST_BUDGET
        && are_numbered(windows)
        && are_window_records(format, windows)
}

fn is_format(format: u32) -> bool
    ensures { IsTrue result ↔ ((format ≡ 1) ⊎ (format ≡ 2)) }
{
    format == 1 || format == 2
}

fn are_numbered(windows: &[WindowRecord]) -> bool
    ensures { IsTrue result ↔ (map (λ window. window.number) windows.now ≡ numbers_from 1 (length windows.now)) }
{
    for (place, window) in windows.iter().enumerate() {
        if window.number as usize != place + 1 {
            return false;
        }
    }
    true
}

fn are_window_records(format: u32, windows: &[WindowRecord]) -> bool
    ensures { IsTrue result ↔ All (IsWindowRecord format) windows.now }
{
    windows
        .iter()
        .all(|window| is_window_record(format, window))
}

fn is_window_record(format: u32, window: &WindowRecord) -> bool
    ensures { IsTrue result ↔ IsWindowRecord format window.now }
{
    let shared = window.shared.as_slice();
    are_printable_steps(shared)
        && (format != 1 || shared.is_empty())
        && is_window_body(shared, &window.body)
}

fn is_window_body(shared: &[Step], body: &WindowBody) -> bool
    ensures { IsTrue result ↔ IsWindowBody shared.now body.now }
{
    match body {
        WindowBody::TooLarge { .. } => shared.is_empty(),
        WindowBody::Answers(properties) => are_property_records(properties.as_slice()),
    }
}

fn are_property_records(properties: &[PropertyRecord]) -> bool
    ensures { IsTrue result ↔ All IsPropertyRecord properties.now }
{
    properties
        .iter()
        .all(|property| is_property_body(&property.body))
}

fn is_property_body(body: &PropertyBody) -> bool
    ensures { IsTrue result ↔ IsPropertyBody body.now }
{
    match body {
        PropertyBody::TooMany => true,
        PropertyBody::Entries(entries) => {
            entries.len() <= MOST_ENTRIES && are_entries(entries.as_slice())
        }
    }
}

fn are_entries(entries: &[Entry]) -> bool
    ensures { IsTrue result ↔ All IsEntry entries.now }
{
    entries.iter().all(is_entry)
}

fn is_entry(entry: &Entry) -> bool
    ensures { IsTrue result ↔ IsEntry entry.now }
{
    1 <= entry.events.len()
        && entry.events.len() <= MOST_EVENTS
        && is_printable_answer(&entry.answer)
}

fn is_printable_answer(answer: &Answer) -> bool
    ensures { IsTrue result ↔ IsPrintableAnswer answer.now }
{
    match answer {
        Answer::Found(_) => true,
        Answer::Impossible(certificate) => are_printable_steps(certificate.steps.as_slice()),
        Answer::Undecided { worker, .. } => 1 <= *worker && *worker <= MOST_WORKERS,
    }
}

fn are_printable_steps(steps: &[Step]) -> bool
    ensures { IsTrue result ↔ All IsPrintableStep steps.now }
{
    steps.iter().all(is_printable_step)
}

fn is_printable_step(step: &Step) -> bool
    ensures { IsTrue result ↔ IsPrintableStep step.now }
{
    step.clause
        .lits()
        .iter()
        .all(|lit| lit.variable < VARIABLES)
}
