ghost use Rattle.std.specs.Prelude.{◌≡◌, IfOk, ◌≤◌};
ghost use Rattle.gp_text.specs.Numbers.{number_of};
ghost use Rattle.gp_report.specs.Reading.{Gives, both, kept_if, one_number, read_between, three_numbers, told_by, two_numbers};

use crate::fault::{ReportFault, ReportRule};
use crate::reading::cursor::{ReportLine, ReportLines};
use gp_text::{Words, read_u64};

// The number of a line of this keyword.
pub(super) fn told_number(keyword: &[u8], line: ReportLine) -> Result<u64, ReportFault>
    ensures { result ≡ told_by keyword.now one_number line.entry }
{
    let broken = line.breaks(ReportRule::Form);
    let words = line.words_after(keyword).ok_or(broken)?;
    one_number(words).ok_or(broken)
}

// The two numbers of a line of this keyword.
pub(super) fn told_two_numbers(keyword: &[u8], line: ReportLine) -> Result<(u64, u64), ReportFault>
    ensures { result ≡ told_by keyword.now two_numbers line.entry }
{
    let broken = line.breaks(ReportRule::Form);
    let words = line.words_after(keyword).ok_or(broken)?;
    two_numbers(words).ok_or(broken)
}

// The three numbers of a line of this keyword.
pub(super) fn told_three_numbers(
    keyword: &[u8],
    line: ReportLine,
) -> Result<(u64, (u64, u64)), ReportFault>
    ensures { result ≡ told_by keyword.now three_numbers line.entry }
{
    let broken = line.breaks(ReportRule::Form);
    let words = line.words_after(keyword).ok_or(broken)?;
    three_numbers(words).ok_or(broken)
}

// The number of the next line, which is of this keyword, where it lies between these two.
#[tactic(auto, unfolding(crate::specs::Reading::read_between))]
pub(super) fn read_between(
    end: u32,
    keyword: &[u8],
    low: u64,
    high: u64,
    lines: &mut ReportLines,
) -> Result<u64, ReportFault>
    ensures due { Gives result lines.new (read_between end keyword.now low high lines.old) }
    ensures within { IfOk result (λ number. (low ≤ number) × (number ≤ high)) }
{
    let line = lines.take(end)?;
    let broken = line.breaks(ReportRule::Form);
    let number = told_number(keyword, line)?;
    if low <= number && number <= high {
        Ok(number)
    } else {
        Err(broken)
    }
}

fn one_number(words: Words) -> Option<u64>
    ensures { result ≡ one_number words.entry }
{
    let mut words = words;
    let number = read_u64(words.next()?)?;
    if words.is_empty() { Some(number) } else { None }
}

fn two_numbers(words: Words) -> Option<(u64, u64)>
    ensures { result ≡ two_numbers words.entry }
{
    let mut words = words;
    let first = words.next()?;
    let second = words.next()?;
    if words.is_empty() {
        both_numbers(first, second)
    } else {
        None
    }
}

fn both_numbers(first: &[u8], second: &[u8]) -> Option<(u64, u64)>
    ensures { result ≡ both (number_of first.now) (number_of second.now) }
{
    Some((read_u64(first)?, read_u64(second)?))
}

fn three_numbers(words: Words) -> Option<(u64, (u64, u64))>
    ensures { result ≡ three_numbers words.entry }
{
    let mut words = words;
    let first = words.next()?;
    let second = words.next()?;
    let third = words.next()?;
    if words.is_empty() {
        Some((read_u64(first)?, both_numbers(second, third)?))
    } else {
        None
    }
}
