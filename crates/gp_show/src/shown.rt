ghost use Rattle.std.specs.Prelude.{◌≡◌, ◌≤◌, false, Err, IfOk, List, Some};
ghost use Rattle.gp_outside.specs.Faults.{Rose};
ghost use Rattle.gp_outside.specs.Folders.{File};
ghost use Rattle.gp_predict.specs.Finished.{CameToBy, told_by};
ghost use Rattle.gp_predict.specs.Refused.{stops_at_limit};
ghost use Rattle.gp_predict.specs.Stage.{IsStage};
ghost use Rattle.gp_predict.specs.Submission.{CanBeChecked, submission_at};
ghost use Rattle.gp_predict.specs.Verdict.{IsVerdict};
ghost use Rattle.gp_show.specs.Due.{Means, Text, as_shown, noted_of};
ghost use Rattle.gp_show.specs.Show.{show_status};
ghost use Rattle.gp_show.specs.Telling.{of_result};
ghost use Rattle.gp_words.specs.Showing.{show_form};

use crate::writing::put_report;
use gp_beside::{NoteStop, Noted, noted_at};
use gp_checker::Checked;
use gp_outside::{Folder, PutFault, Sink};
use gp_predict::{Outcome, Stop, Submission, Tells, checked_report, submission_at};
use gp_words::ShowCommand;
use std::alloc::Global;
use std::thread::Threads;

/// A report that was checked, as it is to be shown. Its text is made instance by instance while it is written.
#[derive(Drop)]
pub struct Shown<'a> {
    pub command: ShowCommand<'a>,
    pub submission: Submission,
    /// What stands beside the report.
    pub noted: Noted,
    pub checked: Checked,
}

impl<'a> Tells for Shown<'a> {
    ghost use Rattle.gp_show.specs.Telling.{of_result};

    ghost told = { of_result };

    fn put<S: Sink>(&self, alloc: Global, sink: &mut S) -> Result<(), PutFault> {
        put_report(alloc, sink, self)
    }

    fn end(self) -> Outcome {
        Outcome::of(status_of(self.checked))
    }
}

/// The status of a report that was checked so.
fn status_of(checked: Checked) -> u8
    ensures { result ≡ show_status checked }
{
    match checked {
        Checked::Accepted => 0,
        Checked::Rejected(_) => 1,
    }
}

/// Reads and checks a report that is to be shown as a command asks, and reads what stands beside it.
pub fn shown_at<'a, R: AllocGlobal + Threads + Sync, F: Folder>(
    rt: &R,
    folder: &mut F,
    command: &ShowCommand<'a>,
) -> Result<Shown<'a>, Stop>
    ensures stage { IsStage result (λ files. CameToBy Means Text (told_by of_result result) (as_shown files (show_form command.now) (submission_at files command.now.folder.now))) (F.files folder.old) (F.files folder.new) (F.faults folder.old) (F.faults folder.new) }
    ensures limit { stops_at_limit result ≡ false }
{
    let submission = submission_at(rt, folder, command.folder)?;
    match checked_and_noted(rt.alloc(), folder, command, &submission) {
        Ok((checked, noted)) => Ok(Shown {
            command: *command,
            submission,
            noted,
            checked,
        }),
        Err(NoteStop::FolderFailed) => {
            drop(submission);
            Err(Stop::FolderFailed)
        }
        Err(NoteStop::Memory) => {
            drop(submission);
            Err(Stop::Memory)
        }
    }
}

/// Checks the report of a submission, and reads what stands beside it.
fn checked_and_noted<F: Folder>(
    alloc: Global,
    folder: &mut F,
    command: &ShowCommand<'_>,
    submission: &Submission,
) -> Result<(Checked, Noted), NoteStop>
    requires { CanBeChecked submission.now }
    ensures later { F.faults folder.old ≤ F.faults folder.new }
    ensures kept { F.files folder.new ≡ F.files folder.old }
    ensures checks { IfOk result (λ both. IsVerdict submission.now both.0) }
    ensures told { (files : List File) → F.files folder.old ≡ Some files → IfOk result (λ both. both.1 ≡ noted_of files (show_form command.now) submission.now) }
    ensures fault { result ≡ Err NoteStop.FolderFailed → Rose (F.faults folder.old) (F.faults folder.new) }
{
    let checked = checked_report(alloc, submission)?;
    let traces = submission.listing.recording.traces();
    let noted = noted_at(alloc, folder, command.folder, command.source, traces)?;
    Ok((checked, noted))
}
