ghost use Rattle.std.specs.Prelude.{◌≡◌, ◌≢◌, Err, false};
ghost use Rattle.gp_predict.specs.Analysing.{IsAskable};
ghost use Rattle.gp_predict.specs.Deadlocks.{deadlocks_at, deadlocks_of, of_deadlocks};
ghost use Rattle.gp_predict.specs.Finished.{CameTo, told_by};
ghost use Rattle.gp_predict.specs.Refused.{stops_absent};
ghost use Rattle.gp_predict.specs.Stage.{IsStage};
ghost use Rattle.gp_predict.specs.Tasks.{as_deadlocks, either_expected};

use crate::analysing::Asked;
use crate::content::recording_at;
use crate::outcome::Outcome;
use crate::refusal::Refusal;
use crate::reporting::{put_report, status_of};
use crate::results::Tells;
use crate::stop::Stop;
use gp_deadlocks::{analyse, too_much};
use gp_outside::{Folder, Gate, PutFault, Sink};
use gp_report::Report;
use gp_window::Recording;
use std::alloc::Global;
use std::sync::Wait;
use std::thread::Threads;

/// The report of an analysis for deadlocks.
#[derive(Drop)]
pub struct DeadlockReport {
    pub report: Report,
}

impl Tells for DeadlockReport {
    ghost use Rattle.gp_predict.specs.Deadlocks.{of_deadlocks};

    ghost told = { of_deadlocks };

    fn put<S: Sink>(&self, alloc: Global, sink: &mut S) -> Result<(), PutFault> {
        put_report(alloc, sink, &self.report)
    }

    fn end(self) -> Outcome {
        Outcome {
            status: status_of(&self.report),
            report: None,
            links: None,
            stuck: Some(self.report),
            notified: None,
        }
    }
}

/// Task stuck: answers each cycle of threads that wait for each other's locks. The recording alone is read, and the report has
/// format 1, whatever is asked for.
pub fn deadlocks_at<R: AllocGlobal + Threads + Wait + Sync, F: Folder, G: Gate + Sync>(
    rt: &R,
    folder: &mut F,
    directory: &str,
    asked: Asked,
    gate: &G,
) -> Result<DeadlockReport, Stop>
    requires { IsAskable asked }
    ensures { IsStage result (λ files. CameTo (told_by of_deadlocks result) (either_expected (as_deadlocks (deadlocks_at files directory.now asked)))) (F.files folder.old) (F.files folder.new) (F.faults folder.old) (F.faults folder.new) }
{
    let recording = recording_at(rt, folder, directory)?;
    let told = deadlocks_of(rt, &recording, asked, gate);
    drop(recording);
    told
}

/// The deadlocks of a recording, where that is not too much work.
fn deadlocks_of<R: AllocGlobal + Threads + Wait + Sync, G: Gate + Sync>(
    rt: &R,
    recording: &Recording,
    asked: Asked,
    gate: &G,
) -> Result<DeadlockReport, Stop>
    requires { IsAskable asked }
    ensures due { CameTo (told_by of_deadlocks result) (either_expected (as_deadlocks (deadlocks_of recording.now asked))) }
    ensures no_fault { result ≢ Err Stop.FolderFailed }
    ensures present { stops_absent result ≡ false }
{
    let Asked {
        workers,
        budget,
        ..
    } = asked;
    if let Some(total) = too_much(rt, rt.alloc(), recording, budget)? {
        return Err(Stop::Refused(Refusal::Limit { total, budget }));
    }
    let report = analyse(rt, rt.alloc(), recording, workers, budget, gate)?;
    Ok(DeadlockReport { report })
}
