ghost use Rattle.std.specs.Prelude.{◌≡◌, ◌≢◌, ◌*◌, ◌≤◌, Err, IfOk, OnErr, OnOk, false, length};
ghost use Rattle.gp_analysis.specs.Tickets.{asked_total};
ghost use Rattle.gp_notified.specs.Printed.{notified_lines};
ghost use Rattle.gp_notified.specs.Question.{notified};
ghost use Rattle.gp_outside.specs.Faults.{Rose};
ghost use Rattle.gp_outside.specs.Sinks.{Appends, AppendsFront};
ghost use Rattle.gp_text.specs.Spelling.{spelling};
ghost use Rattle.gp_predict.specs.Analysing.{IsAskable};
ghost use Rattle.gp_predict.specs.Finished.{CameTo, told_by};
ghost use Rattle.gp_predict.specs.Notifying.{AnswersNotifying, notifying_at, notifying_form, notifying_of, of_notified};
ghost use Rattle.gp_predict.specs.Refused.{stops_absent};
ghost use Rattle.gp_predict.specs.Stage.{IsStage};
ghost use Rattle.gp_predict.specs.Tasks.{as_notifying, either_expected};

use crate::analysing::Asked;
use crate::each_line::put_each_line;
use crate::listing::{Listing, listing_at};
use crate::outcome::Outcome;
use crate::refusal::Refusal;
use crate::results::Tells;
use crate::stop::Stop;
use gp_notified::{NotifyReport, analyse, print_notified, status_of, too_much};
use gp_outside::{Folder, Gate, PutFault, Sink};
use std::alloc::{AllocError, Global};
use std::sync::Wait;
use std::thread::Threads;

impl Tells for NotifyReport {
    ghost use Rattle.gp_predict.specs.Notifying.{of_notified};

    ghost told = { of_notified };

    fn put<S: Sink>(&self, alloc: Global, sink: &mut S) -> Result<(), PutFault> {
        put_notified(alloc, sink, self)
    }

    fn end(self) -> Outcome {
        Outcome {
            status: status_of(&self),
            report: None,
            links: None,
            stuck: None,
            notified: Some(self),
        }
    }
}

/// Writes the text of a report with signals.
fn put_notified<S: Sink>(alloc: Global, sink: &mut S, report: &NotifyReport) -> Result<(), PutFault>
    ensures later { S.faults sink.old ≤ S.faults sink.new }
    ensures ok { OnOk result (Appends (S.written sink.old) (S.written sink.new) (spelling (notified_lines report.now))) }
    ensures err { OnErr result (AppendsFront (S.written sink.old) (S.written sink.new) (spelling (notified_lines report.now))) }
    ensures failed { result ≡ Err PutFault.Failed → Rose (S.faults sink.old) (S.faults sink.new) }
{
    let text = print_notified(alloc, report)?;
    put_each_line(sink, text.as_slice())
}

/// Task notify: answers each instance of what would be listed, where each wake needs a signal. The report has one form, whatever
/// format is asked for.
pub fn notified<R: AllocGlobal + Threads + Wait + Sync, F: Folder, G: Gate + Sync>(
    rt: &R,
    folder: &mut F,
    directory: &str,
    asked: Asked,
    gate: &G,
) -> Result<NotifyReport, Stop>
    requires { IsAskable asked }
    ensures { IsStage result (λ files. CameTo (told_by of_notified result) (either_expected (as_notifying (notifying_at files directory.now asked)))) (F.files folder.old) (F.files folder.new) (F.faults folder.old) (F.faults folder.new) }
{
    let listing = listing_at(rt, folder, directory)?;
    let told = notifying_of(rt, &listing, asked, gate);
    drop(listing);
    told
}

/// The report of what would be listed, where that is not too much work.
fn notifying_of<R: AllocGlobal + Threads + Wait + Sync, G: Gate + Sync>(
    rt: &R,
    listing: &Listing,
    asked: Asked,
    gate: &G,
) -> Result<NotifyReport, Stop>
    requires few { length listing.now.properties ≤ 64 }
    requires askable { IsAskable asked }
    ensures due { CameTo (told_by of_notified result) (either_expected (as_notifying (notifying_of listing.now asked))) }
    ensures no_fault { result ≢ Err Stop.FolderFailed }
    ensures present { stops_absent result ≡ false }
{
    let properties = listing.properties.as_slice();
    match too_much(rt, rt.alloc(), &listing.recording, properties, asked.budget)? {
        Some(total) => Err(Stop::Refused(Refusal::Limit {
            total,
            budget: asked.budget,
        })),
        None => Ok(notify_report(rt, listing, asked, gate)?),
    }
}

/// The report of what would be listed, where each wake needs a signal.
fn notify_report<R: AllocGlobal + Threads + Wait + Sync, G: Gate + Sync>(
    rt: &R,
    listing: &Listing,
    asked: Asked,
    gate: &G,
) -> Result<NotifyReport, AllocError>
    requires few { length listing.now.properties ≤ 64 }
    requires askable { IsAskable asked }
    requires limit { asked_total (notified listing.now.properties) listing.now.recording * asked.budget ≤ 1000000 }
    ensures { IfOk result (AnswersNotifying (notifying_form listing.now asked)) }
{
    let report = analyse(
        rt,
        rt.alloc(),
        &listing.recording,
        listing.properties.as_slice(),
        asked.workers,
        asked.budget,
        gate,
    )?;
    Ok(report)
}
