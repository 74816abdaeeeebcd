ghost use Rattle.std.specs.Prelude.{◌≡◌, ◌≢◌, ◌+◌, ◌==◌, codes, length};
ghost use Rattle.gp_text.specs.Name.{name_of};
ghost use Rattle.gp_report.specs.Reading.{Gives, both, entry_count, name_and_count, read_answers, read_body, read_properties, read_property, read_shared, read_too_large, read_window, read_window_body, read_window_number, read_windows, shared_in, told_by};

use crate::fault::{ReportFault, ReportRule};
use crate::reading::answers::read_entries;
use crate::reading::cursor::{ReportLine, ReportLines};
use crate::reading::numbers::{told_number, told_two_numbers};
use crate::reading::steps::read_steps;
use crate::record::{MOST_ENTRIES, PropertyBody, PropertyRecord, WindowBody, WindowRecord};
use gp_base::Row;
use gp_certificate::Step;
use gp_text::{Name, Words, one_spelling, read_u64};
use gp_window::event_ids_read_exactly;
use std::alloc::Global;

// Reads windows, numbered from 1, as long as the next line begins with `window`.
pub(super) fn read_windows(
    alloc: Global,
    end: u32,
    format: u64,
    lines: &mut ReportLines,
) -> Result<Row<WindowRecord>, ReportFault>
    ensures { Gives result lines.new (read_windows end format 1 (length lines.old) lines.old) }
{
    one_spelling();
    event_ids_read_exactly();
    let mut windows = Row::new(alloc);
    while lines.is_at(b"window") {
        let window = read_window(alloc, end, format, windows.len(), lines)?;
        windows.push(window)?;
    }
    Ok(windows)
}

// Reads the window behind so many.
#[tactic(auto, unfolding(crate::specs::Reading::read_window))]
fn read_window(
    alloc: Global,
    end: u32,
    format: u64,
    before: usize,
    lines: &mut ReportLines,
) -> Result<WindowRecord, ReportFault>
    ensures { Gives result lines.new (read_window end format (before + 1) lines.old) }
{
    let line = lines.take(end)?;
    let number = read_window_number(before, line)?;
    let (shared, body) = read_window_body(alloc, end, format, lines)?;
    Ok(WindowRecord {
        number,
        shared,
        body,
        records: Row::new(alloc),
    })
}

// Reads `window K`, where K is one more than so many.
#[tactic(auto, unfolding(crate::specs::Reading::read_window_number))]
fn read_window_number(before: usize, line: ReportLine) -> Result<u32, ReportFault>
    ensures { result ≡ read_window_number (before + 1) line.entry }
{
    let malformed = line.breaks(ReportRule::Form);
    let out_of_order = line.breaks(ReportRule::Order);
    let number = told_number(b"window", line)?;
    let number = u32::try_from(number).ok().ok_or(malformed)?;
    if number >= 1 && (number - 1) as usize == before {
        Ok(number)
    } else {
        Err(out_of_order)
    }
}

fn read_window_body(
    alloc: Global,
    end: u32,
    format: u64,
    lines: &mut ReportLines,
) -> Result<(Row<Step>, WindowBody), ReportFault>
    ensures { Gives result lines.new (read_window_body end format lines.old) }
{
    if lines.is_at(b"toolarge") {
        read_too_large(alloc, end, lines)
    } else {
        read_answers(alloc, end, format, lines)
    }
}

#[tactic(auto, unfolding(crate::specs::Reading::read_too_large))]
fn read_too_large(
    alloc: Global,
    end: u32,
    lines: &mut ReportLines,
) -> Result<(Row<Step>, WindowBody), ReportFault>
    ensures { Gives result lines.new (read_too_large end lines.old) }
{
    let line = lines.take(end)?;
    let (events, clauses) = told_two_numbers(b"toolarge", line)?;
    Ok((Row::new(alloc), WindowBody::TooLarge { events, clauses }))
}

#[tactic(auto, unfolding(crate::specs::Reading::read_answers))]
fn read_answers(
    alloc: Global,
    end: u32,
    format: u64,
    lines: &mut ReportLines,
) -> Result<(Row<Step>, WindowBody), ReportFault>
    ensures { Gives result lines.new (read_answers end format lines.old) }
{
    let shared = shared_in(alloc, end, format, lines)?;
    let properties = read_properties(alloc, end, lines)?;
    Ok((shared, WindowBody::Answers(properties)))
}

fn shared_in(
    alloc: Global,
    end: u32,
    format: u64,
    lines: &mut ReportLines,
) -> Result<Row<Step>, ReportFault>
    ensures { Gives result lines.new (shared_in end format lines.old) }
{
    if format == 2 {
        read_shared(alloc, end, lines)
    } else {
        Ok(Row::new(alloc))
    }
}

#[tactic(auto, unfolding(crate::specs::Reading::read_shared))]
fn read_shared(alloc: Global, end: u32, lines: &mut ReportLines) -> Result<Row<Step>, ReportFault>
    ensures { Gives result lines.new (read_shared end lines.old) }
{
    let line = lines.take(end)?;
    let count = told_number(b"shared", line)?;
    read_steps(alloc, end, count, lines)
}

// Reads properties, as long as the next line begins with `property`.
fn read_properties(
    alloc: Global,
    end: u32,
    lines: &mut ReportLines,
) -> Result<Row<PropertyRecord>, ReportFault>
    ensures { Gives result lines.new (read_properties end (length lines.old) lines.old) }
{
    one_spelling();
    event_ids_read_exactly();
    let mut properties = Row::new(alloc);
    while lines.is_at(b"property") {
        let property = read_property(alloc, end, lines)?;
        properties.push(property)?;
    }
    Ok(properties)
}

#[tactic(auto, unfolding(crate::specs::Reading::read_property))]
fn read_property(
    alloc: Global,
    end: u32,
    lines: &mut ReportLines,
) -> Result<PropertyRecord, ReportFault>
    ensures { Gives result lines.new (read_property end lines.old) }
{
    let line = lines.take(end)?;
    let (name, count) = told_property(line)?;
    let body = read_body(alloc, end, count, lines)?;
    Ok(PropertyRecord { name, body })
}

fn read_body(
    alloc: Global,
    end: u32,
    count: Option<u64>,
    lines: &mut ReportLines,
) -> Result<PropertyBody, ReportFault>
    ensures { Gives result lines.new (read_body end count lines.old) }
{
    match count {
        Some(count) => {
            let entries = read_entries(alloc, end, count, lines)?;
            Ok(PropertyBody::Entries(entries))
        }
        None => Ok(PropertyBody::TooMany),
    }
}

// The name on a `property` line, and how many entries follow, or none where they are too many.
fn told_property(line: ReportLine) -> Result<(Name, Option<u64>), ReportFault>
    ensures { result ≡ told_by (codes "property") name_and_count line.entry }
{
    let malformed = line.breaks(ReportRule::Form);
    let words = line.words_after(b"property").ok_or(malformed)?;
    name_and_count(words).ok_or(malformed)
}

fn name_and_count(words: Words) -> Option<(Name, Option<u64>)>
    ensures { result ≡ name_and_count words.entry }
{
    let mut words = words;
    let name = words.next()?;
    let count = words.next()?;
    if words.is_empty() {
        both_told(name, count)
    } else {
        None
    }
}

fn both_told(name: &[u8], count: &[u8]) -> Option<(Name, Option<u64>)>
    ensures { result ≡ both (name_of name.now) (entry_count count.now) }
{
    Some((Name::of(name)?, entry_count(count)?))
}

fn entry_count(word: &[u8]) -> Option<Option<u64>>
    ensures { result ≡ entry_count word.now }
{
    if word == b"toomany".as_slice() {
        return Some(None);
    }
    let count = read_u64(word)?;
    if count <= MOST_ENTRIES as u64 {
        Some(Some(count))
    } else {
        None
    }
}
