ghost use Rattle.std.specs.Prelude.{◌≡◌, ◌≢◌, codes, if◌then◌else◌};
ghost use Rattle.gp_report.specs.declared.record.AnswerOf.TheVariants.{Undecided};
ghost use Rattle.gp_report.specs.Reading.{Gives, answer_at, is_undecided_with, number_and_words, read_answer, read_entries, read_entry, read_found, read_impossible, read_instance, read_undecided, told_by};

use crate::fault::{ReportFault, ReportRule};
use crate::reading::cursor::{ReportLine, ReportLines};
use crate::reading::lists::{push_words, read_list};
use crate::reading::numbers::{told_number, told_three_numbers};
use crate::reading::steps::read_steps;
use crate::record::{Answer, Entry, MOST_EVENTS, MOST_WORKERS};
use gp_base::Row;
use gp_certificate::Certificate;
use gp_text::{Words, read_u32};
use gp_window::{EventId, Schedule};
use std::alloc::Global;

// Reads so many entries, numbered from 0.
pub(super) fn read_entries(
    alloc: Global,
    end: u32,
    count: u64,
    lines: &mut ReportLines,
) -> Result<Row<Entry>, ReportFault>
    ensures { Gives result lines.new (read_entries end 0 count lines.old) }
{
    let mut entries = Row::new(alloc);
    for due in 0..count {
        let entry = read_entry(alloc, end, due, lines)?;
        entries.push(entry)?;
    }
    Ok(entries)
}

// Reads the entry of this number: its instance and its answer.
#[tactic(auto, unfolding(crate::specs::Reading::read_entry))]
fn read_entry(
    alloc: Global,
    end: u32,
    due: u64,
    lines: &mut ReportLines,
) -> Result<Entry, ReportFault>
    ensures { Gives result lines.new (read_entry end due lines.old) }
{
    let line = lines.take(end)?;
    let events = read_instance(alloc, due, line)?;
    let answer = read_answer(alloc, end, lines)?;
    Ok(Entry { events, answer })
}

// Reads `instance I` and 1 to 6 events, where I is due.
#[tactic(auto, unfolding(crate::specs::Reading::read_instance))]
fn read_instance(alloc: Global, due: u64, line: ReportLine) -> Result<Row<EventId>, ReportFault>
    ensures { result ≢ Err ReportFault.Memory → result ≡ read_instance due line.entry }
{
    let number = line.number();
    let malformed = line.breaks(ReportRule::Form);
    let (told, words) = told_instance(line)?;
    let mut events = Row::new(alloc);
    push_words(&mut events, number, words)?;
    if events.is_empty() || events.len() > MOST_EVENTS {
        return Err(malformed);
    }
    if u64::from(told) != due {
        return Err(ReportFault::Rule {
            line: number,
            rule: ReportRule::Order,
        });
    }
    Ok(events)
}

// The number of an `instance` line, and the words behind it.
fn told_instance<'a>(line: ReportLine<'a>) -> Result<(u32, Words<'a>), ReportFault>
    ensures { result ≡ told_by (codes "instance") number_and_words line.entry }
{
    let malformed = line.breaks(ReportRule::Form);
    let words = line.words_after(b"instance").ok_or(malformed)?;
    number_and_words(words).ok_or(malformed)
}

fn number_and_words<'a>(words: Words<'a>) -> Option<(u32, Words<'a>)>
    ensures { result ≡ number_and_words words.entry }
{
    let mut words = words;
    let number = read_u32(words.next()?)?;
    Some((number, words))
}

#[tactic(auto, unfolding(crate::specs::Reading::read_answer))]
fn read_answer(alloc: Global, end: u32, lines: &mut ReportLines) -> Result<Answer, ReportFault>
    ensures { Gives result lines.new (read_answer end lines.old) }
{
    let line = lines.take(end)?;
    answer_at(alloc, end, line, lines)
}

// Reads the answer that begins with this line.
#[tactic(auto, unfolding(crate::specs::Reading::answer_at))]
fn answer_at(
    alloc: Global,
    end: u32,
    line: ReportLine,
    lines: &mut ReportLines,
) -> Result<Answer, ReportFault>
    ensures { Gives result lines.new (answer_at end line.entry lines.old) }
{
    if line.begins_with(b"found") {
        return read_found(alloc, end, line, lines);
    }
    if line.begins_with(b"impossible") {
        return read_impossible(alloc, end, line, lines);
    }
    read_undecided(line)
}

#[tactic(auto, unfolding(crate::specs::Reading::read_found))]
fn read_found(
    alloc: Global,
    end: u32,
    line: ReportLine,
    lines: &mut ReportLines,
) -> Result<Answer, ReportFault>
    ensures { Gives result lines.new (read_found end line.entry lines.old) }
{
    let number = line.number();
    let count = told_number(b"found", line)?;
    let (events, _) = read_list::<EventId>(alloc, end, number, count, lines)?;
    Ok(Answer::Found(Schedule { events }))
}

#[tactic(auto, unfolding(crate::specs::Reading::read_impossible))]
fn read_impossible(
    alloc: Global,
    end: u32,
    line: ReportLine,
    lines: &mut ReportLines,
) -> Result<Answer, ReportFault>
    ensures { Gives result lines.new (read_impossible end line.entry lines.old) }
{
    let count = told_number(b"impossible", line)?;
    let steps = read_steps(alloc, end, count, lines)?;
    Ok(Answer::Impossible(Certificate { steps }))
}

#[tactic(auto, unfolding(crate::specs::Reading::read_undecided))]
fn read_undecided(line: ReportLine) -> Result<Answer, ReportFault>
    ensures { result ≡ read_undecided line.entry }
{
    let malformed = line.breaks(ReportRule::Form);
    let (worker, (from, to)) = told_three_numbers(b"undecided", line)?;
    undecided_with(worker, from, to).ok_or(malformed)
}

fn undecided_with(worker: u64, from: u64, to: u64) -> Option<Answer>
    ensures { result ≡ (if is_undecided_with worker from to then Some (Undecided worker from to) else None) }
{
    if worker < 1 || worker > u64::from(MOST_WORKERS) {
        return None;
    }
    Some(Answer::Undecided {
        worker: worker as u32,
        from: u32::try_from(from).ok()?,
        to: u32::try_from(to).ok()?,
    })
}
