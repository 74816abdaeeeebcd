ghost use Rattle.std.specs.Prelude.{◌≡◌, ◌≤◌, ◌≢◌, IfOk, IfSome, length};
ghost use Rattle.gp_predict.specs.Analysing.{of_report};
ghost use Rattle.gp_shards.specs.Came.{CameTo, IsMergeChecked};
ghost use Rattle.gp_shards.specs.Due.{due_to_merge, where_told};
ghost use Rattle.gp_shards.specs.Folders.{AreAllParts};
ghost use Rattle.gp_shards.specs.Headline.{OfAllParts};
ghost use Rattle.gp_shards.specs.Merging.{parts_in};
ghost use Rattle.gp_shards.specs.Run.{IsShardRun};
ghost use Rattle.gp_shards.specs.Stage.{IsShardStage, refusal_of};
ghost use Rattle.gp_window.specs.Gives.{Gives};
ghost use Rattle.gp_words.specs.Sharding.{IsMerge, merge_form};
ghost use Rattle.gp_words.specs.Value.{lent_texts};

use crate::content::listing_in;
use crate::finishing::put_stop;
use crate::folders::{PartFolder, folders_in};
use crate::ordering::all_in_order;
use crate::refusal::PartFault;
use crate::reports::parts_from;
use crate::stop::{ShardStop, refuse_in};
use gp_base::Row;
use gp_checker::accepted_is_true;
use gp_cut::parts_are_whole;
use gp_merge::{CheckedMerge, PartFailure, PartReport, merge_checked};
use gp_outside::{Folder, Sink};
use gp_predict::{Listing, Outcome, finish};
use gp_report::Report;
use gp_window::Recording;
use gp_words::MergeCommand;
use std::alloc::Global;
use std::thread::Threads;

/// All parts of a recording, in their order: the folders, and what each has with its report.
#[derive(Drop)]
pub struct AllParts<'a> {
    pub folders: Row<PartFolder<'a>>,
    pub parts: Row<PartReport>,
}

/// Tells the report of the recording in a folder out of the reports of its parts, where it is accepted.
pub fn merge_at<R: AllocGlobal + Threads + Sync, F: Folder, S: Sink>(
    rt: &R,
    merge: &MergeCommand<'_>,
    folder: &mut F,
    sink: &mut S,
) -> Outcome
    requires { IsMerge (merge_form merge.now) }
    ensures run { IsShardRun (where_told (due_to_merge (merge_form merge.now)) (F.files folder.old)) (F.files folder.old) result (S.written sink.old) (S.written sink.new) (S.faults sink.old) (S.faults sink.new) (F.faults folder.old) (F.faults folder.new) }
    ensures kept { F.files folder.new ≡ F.files folder.old }
    ensures merged { IfSome result.report (OfAllParts (merge_form merge.now) (F.files folder.old)) }
    ensures words { result.status ≢ 2 }
{
    match whole_at(rt, folder, merge) {
        Ok(report) => finish(rt.alloc(), sink, Ok(report)),
        Err(stop) => put_stop(rt.alloc(), sink, stop),
    }
}

/// The report of the recording in a folder out of those of its parts, where it is accepted.
fn whole_at<R: AllocGlobal + Threads + Sync, F: Folder>(
    rt: &R,
    folder: &mut F,
    merge: &MergeCommand<'_>,
) -> Result<Report, ShardStop>
    requires { IsMerge (merge_form merge.now) }
    ensures stage { IsShardStage result (λ files. CameTo of_report result (due_to_merge (merge_form merge.now) files)) (F.files folder.old) (F.files folder.new) (F.faults folder.old) (F.faults folder.new) }
    ensures whole { IfOk result (OfAllParts (merge_form merge.now) (F.files folder.old)) }
{
    accepted_is_true();
    let listing = listing_in(rt, folder, merge.folder)?;
    match parts_in(
        rt.alloc(),
        folder,
        &listing.recording,
        merge.outs.as_slice(),
    ) {
        Ok(all) => {
            let whole = checked_whole(rt.alloc(), &listing, all);
            listing.recording.keeps_rules();
            drop(listing);
            whole
        }
        Err(stop) => {
            drop(listing);
            Err(stop)
        }
    }
}

/// All parts of a recording with their reports, in the order of the parts, out of these folders.
fn parts_in<'a, F: Folder>(
    alloc: Global,
    folder: &mut F,
    recording: &Recording,
    outs: &[&'a str],
) -> Result<AllParts<'a>, ShardStop>
    requires { 1 ≤ length outs.now }
    ensures stage { IsShardStage result (λ files. Gives refusal_of result (parts_in files recording.now (lent_texts outs.now))) (F.files folder.old) (F.files folder.new) (F.faults folder.old) (F.faults folder.new) }
    ensures parts { IfOk result (AreAllParts recording.now) }
{
    parts_are_whole();
    let folders = folders_in(alloc, folder, recording, outs)?;
    let ordered = all_in_order(alloc, folders.as_slice());
    drop(folders);
    let ordered = ordered?;
    match parts_from(alloc, folder, ordered.as_slice()) {
        Ok(parts) => Ok(AllParts {
            folders: ordered,
            parts,
        }),
        Err(stop) => {
            drop(ordered);
            Err(stop)
        }
    }
}

/// The report of the whole, in the format and with the budget of the first part's, where it is accepted for the recording.
fn checked_whole(alloc: Global, listing: &Listing, all: AllParts<'_>) -> Result<Report, ShardStop>
    requires few { length listing.now.properties ≤ 64 }
    requires parts { AreAllParts listing.now.recording all }
    ensures { IsMergeChecked listing.now all.entry result }
{
    let AllParts { folders, parts } = all;
    let whole = merged_whole(alloc, listing, folders.as_slice(), parts);
    drop(folders);
    whole
}

/// The same of these parts; a failure is told of the folder of the part that has it.
fn merged_whole(
    alloc: Global,
    listing: &Listing,
    folders: &[PartFolder<'_>],
    parts: Row<PartReport>,
) -> Result<Report, ShardStop>
    requires few { length listing.now.properties ≤ 64 }
    requires parts { AreAllParts listing.now.recording (record { folders = folders.now; parts = parts }) }
    ensures { IsMergeChecked listing.now (record { folders = folders.now; parts = parts }) result }
{
    let recording = &listing.recording;
    recording.keeps_rules();
    let first = &parts.as_slice()[0].report;
    let (format, budget) = (first.format(), first.budget());
    let properties = listing.properties.as_slice();
    match merge_checked(alloc, recording, properties, format, budget, parts)? {
        CheckedMerge::Accepted(report) => Ok(report),
        CheckedMerge::Rejected(PartFailure { place, failure }) => {
            let out = folders[place as usize].out();
            refuse_in(alloc, out, PartFault::Rejected(failure))
        }
    }
}
