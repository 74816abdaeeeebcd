ghost use Rattle.std.specs.Prelude.{ℕ, ◌≡◌, ◌≢◌, ◌≤◌, Err, IfOk, false, length};
ghost use Rattle.gp_predict.specs.Analysing.{Answers, CanBeAnalysed, IsAskable, analysing_at, analysis_form, analysis_of, of_report};
ghost use Rattle.gp_predict.specs.Tasks.{as_analysis, either_expected};
ghost use Rattle.gp_predict.specs.Asking.{asked_of};
ghost use Rattle.gp_predict.specs.Finished.{CameTo, told_by};
ghost use Rattle.gp_predict.specs.Refused.{stops_absent};
ghost use Rattle.gp_predict.specs.Stage.{IsStage};
ghost use Rattle.gp_words.specs.Command.{IsInRanges, form_of};

use crate::listing::{Listing, listing_at};
use crate::refusal::Refusal;
use crate::stop::Stop;
use gp_acceptance::compact_is_answered;
use gp_outside::{Folder, Gate};
use gp_patterns::{analyse, analyse_compact, too_much};
use gp_report::Report;
use gp_words::Command;
use std::alloc::AllocError;
use std::sync::Wait;
use std::thread::Threads;

/// The format that tells the steps which the certificates of a window share by themselves.
const COMPACT: u32 = 2;

/// What is asked of an analysis.
#[derive(Clone, Copy)]
pub struct Asked {
    /// How many workers answer the queries of a window, from 1 to 16.
    pub workers: u32,
    /// How many clauses a query may learn.
    pub budget: u64,
    /// The format of the report: 1, or 2 for the compact form.
    pub format: u32,
}

/// What a command asks of an analysis.
pub fn asked_of(command: &Command<'_>) -> Asked
    requires { IsInRanges (form_of command.now) }
    ensures numbers { result ≡ asked_of (form_of command.now) }
    ensures askable { IsAskable result }
{
    Asked {
        workers: command.workers,
        budget: command.budget,
        format: command.format,
    }
}

/// Task analyse: answers each instance of what would be listed, in the format that is asked for.
pub fn analysed<R: AllocGlobal + Threads + Wait + Sync, F: Folder, G: Gate + Sync>(
    rt: &R,
    folder: &mut F,
    directory: &str,
    asked: Asked,
    gate: &G,
) -> Result<Report, Stop>
    requires { IsAskable asked }
    ensures { IsStage result (λ files. CameTo (told_by of_report result) (either_expected (as_analysis (analysing_at files directory.now asked)))) (F.files folder.old) (F.files folder.new) (F.faults folder.old) (F.faults folder.new) }
{
    let listing = listing_at(rt, folder, directory)?;
    let told = analysis_of(rt, &listing, asked, gate);
    drop(listing);
    told
}

/// The report of what would be listed, where that is not too much work.
fn analysis_of<R: AllocGlobal + Threads + Wait + Sync, G: Gate + Sync>(
    rt: &R,
    listing: &Listing,
    asked: Asked,
    gate: &G,
) -> Result<Report, Stop>
    requires few { length listing.now.properties ≤ 64 }
    requires askable { IsAskable asked }
    ensures due { CameTo (told_by of_report result) (either_expected (as_analysis (analysis_of listing.now asked))) }
    ensures no_fault { result ≢ Err Stop.FolderFailed }
    ensures present { stops_absent result ≡ false }
{
    let properties = listing.properties.as_slice();
    match too_much(rt, rt.alloc(), &listing.recording, properties, asked.budget)? {
        Some(total) => Err(Stop::Refused(Refusal::Limit {
            total,
            budget: asked.budget,
        })),
        None => Ok(analysis_report(rt, listing, asked, gate)?),
    }
}

/// The report of an analysis, in the format that is asked for.
fn analysis_report<R: AllocGlobal + Threads + Wait + Sync, G: Gate + Sync>(
    rt: &R,
    listing: &Listing,
    asked: Asked,
    gate: &G,
) -> Result<Report, AllocError>
    requires { CanBeAnalysed listing.now asked }
    ensures { IfOk result (Answers (analysis_form listing.now asked)) }
{
    compact_is_answered();
    let recording = &listing.recording;
    let properties = listing.properties.as_slice();
    let (workers, budget) = (asked.workers, asked.budget);
    if asked.format == COMPACT {
        return analyse_compact(rt, rt.alloc(), recording, properties, workers, budget, gate);
    }
    analyse(rt, rt.alloc(), recording, properties, workers, budget, gate)
}
