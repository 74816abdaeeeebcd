ghost use Rattle.std.specs.Prelude.{◌≡◌, ◌≢◌, ◌≤◌, Err, OnErr, OnOk, false};
ghost use Rattle.gp_linked.specs.Printed.{links_lines};
ghost use Rattle.gp_outside.specs.Faults.{Rose};
ghost use Rattle.gp_outside.specs.Sinks.{Appends, AppendsFront};
ghost use Rattle.gp_text.specs.Spelling.{spelling};
ghost use Rattle.gp_predict.specs.Analysing.{IsAskable};
ghost use Rattle.gp_predict.specs.Finished.{CameTo, told_by};
ghost use Rattle.gp_predict.specs.Linking.{link_count, linking_at, linking_of, of_links};
ghost use Rattle.gp_predict.specs.Refused.{stops_absent};
ghost use Rattle.gp_predict.specs.Stage.{IsStage};
ghost use Rattle.gp_predict.specs.Tasks.{as_linking, either_expected};

use crate::analysing::Asked;
use crate::content::recording_at;
use crate::each_line::put_each_line;
use crate::outcome::Outcome;
use crate::refusal::Refusal;
use crate::results::Tells;
use crate::stop::Stop;
use gp_linked::{LinkReport, link_recording, print_links, status_of};
use gp_outside::{Folder, PutFault, Sink};
use gp_window::Recording;
use std::alloc::Global;
use std::thread::Threads;

/// The most work: the windows that are to be linked, times the budget.
const MOST_WORK: u64 = 1_000_000;

impl Tells for LinkReport {
    ghost use Rattle.gp_predict.specs.Linking.{of_links};

    ghost told = { of_links };

    fn put<S: Sink>(&self, alloc: Global, sink: &mut S) -> Result<(), PutFault> {
        put_links(alloc, sink, self)
    }

    fn end(self) -> Outcome {
        Outcome {
            status: status_of(&self),
            report: None,
            links: Some(self),
            stuck: None,
            notified: None,
        }
    }
}

/// Writes the text of a report of links.
fn put_links<S: Sink>(alloc: Global, sink: &mut S, report: &LinkReport) -> Result<(), PutFault>
    ensures later { S.faults sink.old ≤ S.faults sink.new }
    ensures ok { OnOk result (Appends (S.written sink.old) (S.written sink.new) (spelling (links_lines report.now))) }
    ensures err { OnErr result (AppendsFront (S.written sink.old) (S.written sink.new) (spelling (links_lines report.now))) }
    ensures failed { result ≡ Err PutFault.Failed → Rose (S.faults sink.old) (S.faults sink.new) }
{
    let text = print_links(alloc, report)?;
    put_each_line(sink, text.as_slice())
}

/// Task link: whether each window but the last is linked to the next.
pub fn linked<R: AllocGlobal + Threads + Sync, F: Folder>(
    rt: &R,
    folder: &mut F,
    directory: &str,
    asked: Asked,
) -> Result<LinkReport, Stop>
    requires { IsAskable asked }
    ensures { IsStage result (λ files. CameTo (told_by of_links result) (either_expected (as_linking (linking_at files directory.now asked.budget)))) (F.files folder.old) (F.files folder.new) (F.faults folder.old) (F.faults folder.new) }
{
    let recording = recording_at(rt, folder, directory)?;
    let told = links_of(rt, &recording, asked);
    drop(recording);
    told
}

/// The links of a recording, where that is not too much work.
fn links_of<R: AllocGlobal + Threads + Sync>(
    rt: &R,
    recording: &Recording,
    asked: Asked,
) -> Result<LinkReport, Stop>
    requires { IsAskable asked }
    ensures due { CameTo (told_by of_links result) (either_expected (as_linking (linking_of recording.now asked.budget))) }
    ensures no_fault { result ≢ Err Stop.FolderFailed }
    ensures present { stops_absent result ≡ false }
{
    let Asked {
        workers,
        budget,
        ..
    } = asked;
    let total = link_count(recording);
    if total * budget > MOST_WORK {
        return Err(Stop::Refused(Refusal::Limit { total, budget }));
    }
    Ok(link_recording(rt, rt.alloc(), recording, workers, budget)?)
}

/// How many windows are to be linked: each but the last.
fn link_count(recording: &Recording) -> u64
    ensures count { result ≡ link_count recording.now }
    ensures few { result ≤ 4095 }
{
    recording.keeps_rules();
    u64::from(recording.manifest().epochs()) - 1
}
