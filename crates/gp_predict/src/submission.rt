ghost use Rattle.std.specs.Prelude.{◌≡◌, ◌≢◌, ◌≤◌, ◌<◌, ◌-◌, ◌^◌, Err, IfOk, false, length};
ghost use Rattle.gp_predict.specs.Refusal.{report_refusal};
ghost use Rattle.gp_predict.specs.Refused.{stops_absent, stops_at_limit};
ghost use Rattle.gp_predict.specs.Stage.{IsStage, refusal_of};
ghost use Rattle.gp_predict.specs.Submission.{CanBeChecked, report_at, submission_at};
ghost use Rattle.gp_report.specs.Reading.{report_of};
ghost use Rattle.gp_base.specs.Results.{or_refused};
ghost use Rattle.gp_window.specs.Gives.{Gives};

use crate::content::content_at;
use crate::listing::{Listing, listing_at};
use crate::refusal::Refusal;
use crate::stop::Stop;
use gp_outside::Folder;
use gp_report::{Report, ReportFault, read_report};
use gp_window::FileName;
use std::alloc::Global;
use std::thread::Threads;

/// A report beside the recording and the properties that it is to answer.
#[derive(Drop)]
pub struct Submission {
    pub listing: Listing,
    pub report: Report,
}

/// Reads the recording, the properties and the report in a folder. The traces of the threads are read beside each other.
/// It stops with the refusal of the first file that breaks a rule, at a fault of the folder, or at want of memory.
pub fn submission_at<R: AllocGlobal + Threads + Sync, F: Folder>(
    rt: &R,
    folder: &mut F,
    directory: &str,
) -> Result<Submission, Stop>
    ensures stage { IsStage result (λ files. Gives refusal_of result (submission_at files directory.now)) (F.files folder.old) (F.files folder.new) (F.faults folder.old) (F.faults folder.new) }
    ensures within { IfOk result CanBeChecked }
    ensures limit { stops_at_limit result ≡ false }
{
    let listing = listing_at(rt, folder, directory)?;
    match report_at(rt.alloc(), folder, directory) {
        Ok(report) => Ok(Submission { listing, report }),
        Err(stop) => {
            drop(listing);
            Err(stop)
        }
    }
}

fn report_at<F: Folder>(alloc: Global, folder: &mut F, directory: &str) -> Result<Report, Stop>
    ensures stage { IsStage result (λ files. Gives refusal_of result (report_at files directory.now)) (F.files folder.old) (F.files folder.new) (F.faults folder.old) (F.faults folder.new) }
    ensures limit { stops_at_limit result ≡ false }
{
    let bytes = content_at(alloc, folder, directory, FileName::Report)?;
    report_from(alloc, bytes.as_slice())
}

fn report_from(alloc: Global, bytes: &[u8]) -> Result<Report, Stop>
    requires { length bytes.now < 2 ^ 32 - 1 }
    ensures due { Gives refusal_of result (or_refused report_refusal (report_of bytes.now)) }
    ensures no_fault { result ≢ Err Stop.FolderFailed }
    ensures present { stops_absent result ≡ false }
    ensures limit { stops_at_limit result ≡ false }
{
    match read_report(alloc, bytes) {
        Ok(read) => Ok(read.report),
        Err(ReportFault::Memory) => Err(Stop::Memory),
        Err(fault) => Err(Stop::Refused(Refusal::Report(fault))),
    }
}
