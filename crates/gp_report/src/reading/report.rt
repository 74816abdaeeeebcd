ghost use Rattle.std.specs.Prelude.{◌≡◌, ◌≢◌, ◌-◌, ◌^◌, ◌<◌, ◌==◌, IfOk, length};
ghost use Rattle.gp_report.specs.Reading.{Gives, are_counts, read_summary, report_from, report_of, told_report};

use crate::fault::{ReportFault, ReportRule};
use crate::reading::cursor::ReportLines;
use crate::reading::numbers::{read_between, told_three_numbers};
use crate::reading::windows::read_windows;
use crate::record::{MOST_BUDGET, WindowRecord};
use crate::report::Report;
use crate::tally::{Tally, tally_of};
use gp_text::{Lines, check_text, end_line, one_spelling};
use gp_window::event_ids_read_exactly;
use std::alloc::Global;

/// A report that was read: what was printed, without the workers' records.
#[derive(Drop)]
pub struct ReadReport {
    pub report: Report,
}

/// Reads the text of a report. The first line that breaks a rule is told, with the first rule that it breaks; the end of
/// a text counts as the line after its last newline.
pub fn read_report(alloc: Global, bytes: &[u8]) -> Result<ReadReport, ReportFault>
    requires { length bytes.now < 2 ^ 32 - 1 }
    ensures exact { result ≢ Err ReportFault.Memory → told_report result ≡ report_of bytes.now }
{
    check_text(bytes)?;
    let mut lines = ReportLines::of(Lines::of(bytes));
    let report = report_from(alloc, end_line(bytes), &mut lines)?;
    Ok(ReadReport { report })
}

#[tactic(auto, unfolding(crate::specs::Reading::report_from))]
fn report_from(alloc: Global, end: u32, lines: &mut ReportLines) -> Result<Report, ReportFault>
    ensures { result ≢ Err ReportFault.Memory → result ≡ report_from end lines.old }
{
    one_spelling();
    event_ids_read_exactly();
    let format = read_between(end, b"gpredict", 1, 2, lines)?;
    let budget = read_between(end, b"budget", 1, MOST_BUDGET, lines)?;
    let windows = read_windows(alloc, end, format, lines)?;
    read_summary(end, windows.as_slice(), lines)?;
    lines.finish()?;
    Ok(Report::new(format as u32, budget, windows))
}

#[tactic(auto, unfolding(crate::specs::Reading::read_summary))]
fn read_summary(
    end: u32,
    windows: &[WindowRecord],
    lines: &mut ReportLines,
) -> Result<(), ReportFault>
    ensures { Gives result lines.new (read_summary end windows.now lines.old) }
{
    let line = lines.take(end)?;
    let not_theirs = line.breaks(ReportRule::End);
    let numbers = told_three_numbers(b"summary", line)?;
    let tally = tally_of(windows)?;
    if are_counts(numbers, tally) {
        Ok(())
    } else {
        Err(not_theirs)
    }
}

fn are_counts(numbers: (u64, (u64, u64)), tally: Tally) -> bool
    ensures { result ≡ are_counts numbers tally }
{
    let (found, (impossible, undecided)) = numbers;
    found == tally.found && impossible == tally.impossible && undecided == tally.undecided
}
