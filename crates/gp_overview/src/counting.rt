ghost use Rattle.std.specs.Prelude.{◌≡◌, ◌+◌, [], ◌∷◌, IfOk, filter, length};
ghost use Rattle.gp_report.specs.Entries.{entries_among, entries_of, properties_in};
ghost use Rattle.gp_overview.specs.Counting.{with_entries, with_told};
ghost use Rattle.gp_overview.specs.Counts.{counts_of, has_name, total_of};

use crate::counts::Counts;
use gp_report::{Answer, Entry, PropertyBody, PropertyRecord, WindowBody, WindowRecord};
use gp_text::Name;
use std::alloc::AllocError;

/// Counts what is told of the property of this name. A count past 2^64 - 1 would not fit into memory.
pub fn counts_of(windows: &[WindowRecord], name: &Name) -> Result<Counts, AllocError>
    ensures { IfOk result (λ counts. counts ≡ counts_of windows.now name.now) }
{
    let mut counts = Counts::none();
    for window in windows {
        counts = with_window_named(counts, window, name)?;
    }
    Ok(counts)
}

fn with_window_named(
    counts: Counts,
    window: &WindowRecord,
    name: &Name,
) -> Result<Counts, AllocError>
    ensures { IfOk result (λ new. new ≡ with_told counts (filter (has_name name.now) (properties_in window.now.body)) (window.now ∷ [])) }
{
    let sized = with_size(counts, window)?;
    with_records_named(sized, window.body.properties(), name)
}

fn with_records_named(
    counts: Counts,
    records: &[PropertyRecord],
    name: &Name,
) -> Result<Counts, AllocError>
    ensures { IfOk result (λ new. new ≡ with_told counts (filter (has_name name.now) records.now) []) }
{
    let mut counts = counts;
    for told in records {
        counts = with_record_named(counts, told, name)?;
    }
    Ok(counts)
}

fn with_record_named(
    counts: Counts,
    told: &PropertyRecord,
    name: &Name,
) -> Result<Counts, AllocError>
    ensures { IfOk result (λ new. new ≡ with_told counts (filter (has_name name.now) (told.now ∷ [])) []) }
{
    if told.name == *name {
        with_record(counts, told)
    } else {
        Ok(counts)
    }
}

/// Counts all that is told.
pub fn total_of(windows: &[WindowRecord]) -> Result<Counts, AllocError>
    ensures { IfOk result (λ counts. counts ≡ total_of windows.now) }
{
    let mut counts = Counts::none();
    for window in windows {
        counts = with_window(counts, window)?;
    }
    Ok(counts)
}

fn with_window(counts: Counts, window: &WindowRecord) -> Result<Counts, AllocError>
    ensures { IfOk result (λ new. new ≡ with_told counts (properties_in window.now.body) (window.now ∷ [])) }
{
    let sized = with_size(counts, window)?;
    with_records(sized, window.body.properties())
}

fn with_records(counts: Counts, records: &[PropertyRecord]) -> Result<Counts, AllocError>
    ensures { IfOk result (λ new. new ≡ with_told counts records.now []) }
{
    let mut counts = counts;
    for told in records {
        counts = with_record(counts, told)?;
    }
    Ok(counts)
}

// Counts a window that is too large.
fn with_size(counts: Counts, window: &WindowRecord) -> Result<Counts, AllocError>
    ensures { IfOk result (λ new. new ≡ with_told counts [] (window.now ∷ [])) }
{
    match &window.body {
        WindowBody::TooLarge { .. } => Ok(Counts {
            too_large: more(counts.too_large)?,
            ..counts
        }),
        WindowBody::Answers(_) => Ok(counts),
    }
}

fn with_record(counts: Counts, told: &PropertyRecord) -> Result<Counts, AllocError>
    ensures { IfOk result (λ new. new ≡ with_told counts (told.now ∷ []) []) }
{
    match &told.body {
        PropertyBody::TooMany => Ok(Counts {
            too_many: more(counts.too_many)?,
            ..counts
        }),
        PropertyBody::Entries(entries) => with_entries(counts, entries.as_slice()),
    }
}

fn with_entries(counts: Counts, entries: &[Entry]) -> Result<Counts, AllocError>
    ensures { IfOk result (λ new. new ≡ with_entries counts entries.now) }
{
    let mut counts = counts;
    for entry in entries {
        counts = with_entry(counts, entry)?;
    }
    Ok(counts)
}

fn with_entry(counts: Counts, entry: &Entry) -> Result<Counts, AllocError>
    ensures { IfOk result (λ new. new ≡ with_entries counts (entry.now ∷ [])) }
{
    match &entry.answer {
        Answer::Found(_) => Ok(Counts {
            found: more(counts.found)?,
            ..counts
        }),
        Answer::Impossible(_) => Ok(Counts {
            impossible: more(counts.impossible)?,
            ..counts
        }),
        Answer::Undecided { .. } => Ok(Counts {
            undecided: more(counts.undecided)?,
            ..counts
        }),
    }
}

fn more(count: u64) -> Result<u64, AllocError>
    ensures { IfOk result (λ next. next ≡ count + 1) }
{
    count.checked_add(1).ok_or(AllocError)
}

/// How many answers there are.
pub fn answer_count(windows: &[WindowRecord]) -> Result<u64, AllocError>
    ensures { IfOk result (λ count. count ≡ length (entries_of windows.now)) }
{
    let mut count = 0;
    for window in windows {
        count = with_answers(count, window.body.properties())?;
    }
    Ok(count)
}

fn with_answers(count: u64, records: &[PropertyRecord]) -> Result<u64, AllocError>
    ensures { IfOk result (λ new. new ≡ count + length (entries_among records.now)) }
{
    let mut count = count;
    for told in records {
        count = plus(count, told.body.entries().len())?;
    }
    Ok(count)
}

fn plus(count: u64, further: usize) -> Result<u64, AllocError>
    ensures { IfOk result (λ sum. sum ≡ count + further) }
{
    count.checked_add(further as u64).ok_or(AllocError)
}
