ghost use Rattle.std.specs.Prelude.{◌≡◌, ◌≢◌, ◌*◌, ◌≤◌, Err, IfOk, false};
ghost use Rattle.gp_resumed.specs.Question.{asked_total};
ghost use Rattle.gp_predict.specs.Analysing.{IsAskable, of_report};
ghost use Rattle.gp_predict.specs.Finished.{CameTo, told_by};
ghost use Rattle.gp_predict.specs.Refused.{stops_absent};
ghost use Rattle.gp_predict.specs.Resuming.{AnswersResumption, resuming_at, resumption_form, resumption_of};
ghost use Rattle.gp_predict.specs.Stage.{IsStage};
ghost use Rattle.gp_predict.specs.Submission.{CanBeChecked};
ghost use Rattle.gp_predict.specs.Tasks.{as_resumption, either_expected};

use crate::analysing::Asked;
use crate::refusal::Refusal;
use crate::stop::Stop;
use crate::submission::{Submission, submission_at};
use gp_outside::{Folder, Gate};
use gp_report::Report;
use gp_resumed::{analyse, too_much};
use std::alloc::AllocError;
use std::sync::Wait;
use std::thread::Threads;

/// Task resume: keeps each answer of the report in the folder that still stands, and answers the other instances of what would be
/// listed. The report has format 2, whatever is asked for.
pub fn resumed<R: AllocGlobal + Threads + Wait + Sync, F: Folder, G: Gate + Sync>(
    rt: &R,
    folder: &mut F,
    directory: &str,
    asked: Asked,
    gate: &G,
) -> Result<Report, Stop>
    requires { IsAskable asked }
    ensures { IsStage result (λ files. CameTo (told_by of_report result) (either_expected (as_resumption (resuming_at files directory.now asked)))) (F.files folder.old) (F.files folder.new) (F.faults folder.old) (F.faults folder.new) }
{
    let submission = submission_at(rt, folder, directory)?;
    let told = resumption_of(rt, &submission, asked, gate);
    drop(submission);
    told
}

/// The report of what was submitted, where what is not kept is not too much work.
fn resumption_of<R: AllocGlobal + Threads + Wait + Sync, G: Gate + Sync>(
    rt: &R,
    submission: &Submission,
    asked: Asked,
    gate: &G,
) -> Result<Report, Stop>
    requires within { CanBeChecked submission.now }
    requires askable { IsAskable asked }
    ensures due { CameTo (told_by of_report result) (either_expected (as_resumption (resumption_of submission.now asked))) }
    ensures no_fault { result ≢ Err Stop.FolderFailed }
    ensures present { stops_absent result ≡ false }
{
    let recording = &submission.listing.recording;
    let properties = submission.listing.properties.as_slice();
    let old = &submission.report;
    match too_much(rt, rt.alloc(), recording, properties, old, asked.budget)? {
        Some(total) => Err(Stop::Refused(Refusal::Limit {
            total,
            budget: asked.budget,
        })),
        None => Ok(resumption_report(rt, submission, asked, gate)?),
    }
}

/// The report that keeps what still stands of what was submitted.
fn resumption_report<R: AllocGlobal + Threads + Wait + Sync, G: Gate + Sync>(
    rt: &R,
    submission: &Submission,
    asked: Asked,
    gate: &G,
) -> Result<Report, AllocError>
    requires within { CanBeChecked submission.now }
    requires askable { IsAskable asked }
    requires limit { asked_total submission.now.listing.recording submission.now.listing.properties submission.now.report * asked.budget ≤ 1000000 }
    ensures { IfOk result (AnswersResumption (resumption_form submission.now asked)) }
{
    let report = analyse(
        rt,
        rt.alloc(),
        &submission.listing.recording,
        submission.listing.properties.as_slice(),
        &submission.report,
        asked.workers,
        asked.budget,
        gate,
    )?;
    Ok(report)
}
