ghost use Rattle.std.specs.Prelude.{◌≡◌, ◌≤◌, ◌+◌, IfOk, OnOk, length};
ghost use Rattle.gp_predict.specs.Tasks.{Means, Verdict, as_verdict, either_expected};
ghost use Rattle.gp_predict.specs.Telling.{of_answer};
ghost use Rattle.gp_predict.specs.Finished.{CameTo, told_by};
ghost use Rattle.gp_predict.specs.Stage.{IsStage};
ghost use Rattle.gp_predict.specs.Submission.{CanBeChecked, submission_at};
ghost use Rattle.gp_predict.specs.Verdict.{IsVerdict, accepted, rejected, then_number, verdict_on};
ghost use Rattle.gp_report.specs.Entries.{entries_among, entries_of};

use crate::reply::{Reply, line_of, one_line};
use crate::results::Answer;
use crate::stop::Stop;
use crate::submission::{Submission, submission_at};
use gp_checker::{Checked, Failure, accepted_is_true, check_report};
use gp_outside::Folder;
use gp_report::{PropertyRecord, Report, WindowRecord};
use gp_text::print_u64;
use std::alloc::{AllocError, Global};
use std::thread::Threads;

/// Task check: whether a report is accepted.
pub fn checked<R: AllocGlobal + Threads + Sync, F: Folder>(
    rt: &R,
    folder: &mut F,
    directory: &str,
) -> Result<Answer, Stop>
    ensures { IsStage result (λ files. CameTo (told_by of_answer result) (either_expected (as_verdict (submission_at files directory.now)))) (F.files folder.old) (F.files folder.new) (F.faults folder.old) (F.faults folder.new) }
{
    let submission = submission_at(rt, folder, directory)?;
    let told = verdict_of(rt.alloc(), &submission);
    drop(submission);
    Ok(told?)
}

/// The verdict on a report.
fn verdict_of(alloc: Global, submission: &Submission) -> Result<Answer, AllocError>
    requires { CanBeChecked submission.now }
    ensures { IfOk result (λ answer. Means (Verdict submission.now) (of_answer answer)) }
{
    let checked = checked_report(alloc, submission)?;
    let reply = verdict_on(alloc, &submission.report, checked)?;
    Ok(Answer { reply })
}

/// Checks a report against the recording and the properties beside it. It takes the time of making the clauses of each window anew.
pub fn checked_report(alloc: Global, submission: &Submission) -> Result<Checked, AllocError>
    requires { CanBeChecked submission.now }
    ensures { IfOk result (IsVerdict submission.now) }
{
    accepted_is_true();
    let listing = &submission.listing;
    listing.recording.keeps_rules();
    check_report(
        alloc,
        &listing.recording,
        listing.properties.as_slice(),
        &submission.report,
    )
}

fn verdict_on(alloc: Global, report: &Report, checked: Checked) -> Result<Reply, AllocError>
    ensures text { IfOk result (λ answer. answer ≡ verdict_on report.now checked) }
    ensures status { IfOk result (λ answer. answer.status ≤ 1) }
{
    match checked {
        Checked::Accepted => accepted(alloc, entry_count(report.windows())?),
        Checked::Rejected(failure) => rejected(alloc, failure),
    }
}

fn accepted(alloc: Global, count: u64) -> Result<Reply, AllocError>
    ensures { IfOk result (λ answer. answer ≡ accepted count) }
{
    one_line(alloc, 0, format!(in alloc; "accepted {count}\n")?)
}

fn rejected(alloc: Global, failure: Failure) -> Result<Reply, AllocError>
    ensures { IfOk result (λ answer. answer ≡ rejected failure) }
{
    let mut line = Vec::from_slice(alloc, b"rejected")?;
    push_number(&mut line, u64::from(failure.window))?;
    push_number(&mut line, u64::from(failure.property))?;
    push_number(&mut line, u64::from(failure.instance))?;
    push_number(&mut line, u64::from(failure.reason.number()))?;
    push_number(&mut line, failure.place)?;
    line.push(b'\n')?;
    line_of(alloc, 1, line)
}

fn push_number(line: &mut Vec<u8>, number: u64) -> Result<(), AllocError>
    ensures { OnOk result (line.new.items ≡ then_number line.old.items number) }
{
    line.push(b' ')?;
    print_u64(line, number)
}

/// How many instances a report answers. Entries past 2^64 - 1 would not fit into memory.
fn entry_count(windows: &[WindowRecord]) -> Result<u64, AllocError>
    ensures { IfOk result (λ count. count ≡ length (entries_of windows.now)) }
{
    let mut count = 0;
    for window in windows {
        count = with_entries(count, window.body.properties())?;
    }
    Ok(count)
}

fn with_entries(before: u64, properties: &[PropertyRecord]) -> Result<u64, AllocError>
    ensures { IfOk result (λ count. count ≡ before + length (entries_among properties.now)) }
{
    let mut count = before;
    for property in properties {
        let more = property.body.entries().len() as u64;
        count = count.checked_add(more).ok_or(AllocError)?;
    }
    Ok(count)
}
