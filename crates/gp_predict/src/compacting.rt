ghost use Rattle.std.specs.Prelude.{IfOk};
ghost use Rattle.gp_predict.specs.Compacting.{of_compact_form};
ghost use Rattle.gp_predict.specs.Tasks.{Compacted, Means, as_compacted, either_expected};
ghost use Rattle.gp_predict.specs.Finished.{CameTo, told_by};
ghost use Rattle.gp_predict.specs.Stage.{IsStage};
ghost use Rattle.gp_predict.specs.Submission.{submission_at};

use crate::outcome::Outcome;
use crate::reporting::put_report;
use crate::results::Tells;
use crate::stop::Stop;
use crate::submission::{Submission, submission_at};
use gp_compact::compact;
use gp_outside::{Folder, PutFault, Sink};
use gp_report::Report;
use std::alloc::{AllocError, Global};
use std::thread::Threads;

/// The compact form of a report. It is not kept, since no analysis was made.
#[derive(Drop)]
pub struct CompactForm {
    pub report: Report,
}

impl Tells for CompactForm {
    ghost use Rattle.gp_predict.specs.Compacting.{of_compact_form};

    ghost told = { of_compact_form };

    fn put<S: Sink>(&self, alloc: Global, sink: &mut S) -> Result<(), PutFault> {
        put_report(alloc, sink, &self.report)
    }

    fn end(self) -> Outcome {
        Outcome::of(0)
    }
}

/// Task compact: the compact form of a report.
pub fn compacted<R: AllocGlobal + Threads + Sync, F: Folder>(
    rt: &R,
    folder: &mut F,
    directory: &str,
) -> Result<CompactForm, Stop>
    ensures { IsStage result (λ files. CameTo (told_by of_compact_form result) (either_expected (as_compacted (submission_at files directory.now)))) (F.files folder.old) (F.files folder.new) (F.faults folder.old) (F.faults folder.new) }
{
    let submission = submission_at(rt, folder, directory)?;
    Ok(compact_form(rt.alloc(), submission)?)
}

fn compact_form(alloc: Global, submission: Submission) -> Result<CompactForm, AllocError>
    ensures { IfOk result (λ form. Means (Compacted submission) (of_compact_form form)) }
{
    let Submission { listing, report } = submission;
    let compacted = compact(alloc, &listing.recording, report);
    drop(listing);
    Ok(CompactForm { report: compacted? })
}
