ghost use Rattle.std.specs.Prelude.{◌≡◌, ◌<◌, ◌-◌, ◌^◌, [], IfOk, IfSome, false, length};
ghost use Rattle.std.specs.List.{list_any};
ghost use Rattle.gp_base.specs.Results.{or_refused};
ghost use Rattle.gp_shard.specs.Reading.{shard_of_text};
ghost use Rattle.gp_shard.specs.Shard.{IsShard};
ghost use Rattle.gp_shards.specs.Folders.{AreFolders, FitsBehind};
ghost use Rattle.gp_shards.specs.Merging.{are_other_parts, are_same_windows, folder_at, folder_behind, folder_fault, folders_from, is_of_part, shard_in};
ghost use Rattle.gp_shards.specs.Refusing.{shard_refusal};
ghost use Rattle.gp_shards.specs.Stage.{IsShardStage, IsShardStep, is_absent_in, refusal_of};
ghost use Rattle.gp_window.specs.Gives.{Gives};
ghost use Rattle.gp_words.specs.Value.{lent_texts};

use crate::content::content_in;
use crate::cutting::shard_of;
use crate::refusal::PartFault;
use crate::stop::{ShardStop, refuse_in, unless_wrong};
use gp_base::Row;
use gp_outside::Folder;
use gp_shard::{Shard, ShardFault, read_shard};
use gp_window::{FileName, Recording};
use std::alloc::Global;
use std::marker::Model;

/// A folder that holds a part of a recording: its name, and which part it says that it has.
#[derive(Drop)]
pub struct PartFolder<'a> {
    out: &'a str,
    shard: Shard,
}

impl<'a> Model for PartFolder<'a> {
    ghost use Rattle.gp_shards.specs.PartFolders.{PartFolderForm};

    ghost Value = { PartFolderForm };

    ghost view = { λ f. record { out = f.out.now; shard = f.shard } };
}

impl<'a> PartFolder<'a> {
    /// The name of the folder.
    pub fn out(&self) -> &'a str
        ensures { result.now ≡ self.now.out }
    {
        self.out
    }

    /// Which part the folder has.
    pub fn shard(&self) -> Shard
        ensures { result ≡ self.now.shard }
    {
        self.shard
    }

    /// The same folder once more.
    pub fn again(&self) -> PartFolder<'a>
        ensures { result ≡ self.now }
    {
        PartFolder {
            out: self.out,
            shard: self.shard,
        }
    }
}

/// Reads which part each of these folders has, in their order.
pub fn folders_in<'a, F: Folder>(
    alloc: Global,
    folder: &mut F,
    recording: &Recording,
    outs: &[&'a str],
) -> Result<Row<PartFolder<'a>>, ShardStop>
    ensures stage { IsShardStage result (λ files. Gives refusal_of result (folders_from files recording.now [] (lent_texts outs.now))) (F.files folder.old) (F.files folder.new) (F.faults folder.old) (F.faults folder.new) }
    ensures parts { IfOk result (AreFolders recording.now) }
    ensures count { IfOk result (λ folders. length folders ≡ length outs.now) }
{
    let mut folders = Row::new(alloc);
    for out in outs {
        let part = folder_at(alloc, folder, recording, folders.as_slice(), *out)?;
        folders.push(part)?;
    }
    Ok(folders)
}

/// Reads which part a folder has, and whether it fits the recording and the folders before it.
fn folder_at<'a, F: Folder>(
    alloc: Global,
    folder: &mut F,
    recording: &Recording,
    before: &[PartFolder<'a>],
    out: &'a str,
) -> Result<PartFolder<'a>, ShardStop>
    ensures stage { IsShardStage result (λ files. Gives refusal_of result (folder_at files recording.now before.now out.now)) (F.files folder.old) (F.files folder.new) (F.faults folder.old) (F.faults folder.new) }
    ensures part { IfOk result (FitsBehind recording.now before.now) }
{
    let shard = shard_in(alloc, folder, out)?;
    folder_behind(alloc, recording, before, out, shard)
}

/// Which part a folder says that it has.
fn shard_in<F: Folder>(alloc: Global, folder: &mut F, out: &str) -> Result<Shard, ShardStop>
    ensures stage { IsShardStage result (λ files. Gives refusal_of result (shard_in files out.now)) (F.files folder.old) (F.files folder.new) (F.faults folder.old) (F.faults folder.new) }
    ensures rules { IfOk result IsShard }
{
    let bytes = content_in(alloc, folder, out, FileName::Shard)?;
    shard_from(alloc, out, bytes.as_slice())
}

fn shard_from(alloc: Global, out: &str, bytes: &[u8]) -> Result<Shard, ShardStop>
    requires { length bytes.now < 2 ^ 32 - 1 }
    ensures step { IsShardStep result (or_refused (shard_refusal out.now) (shard_of_text bytes.now)) }
    ensures rules { IfOk result IsShard }
{
    match read_shard(alloc, bytes) {
        Ok(shard) => Ok(shard),
        Err(ShardFault::Memory) => Err(ShardStop::Memory),
        Err(fault) => refuse_in(alloc, out, PartFault::Shard(fault)),
    }
}

/// The folder of a part, where it fits the recording and the folders before it.
fn folder_behind<'a>(
    alloc: Global,
    recording: &Recording,
    before: &[PartFolder<'a>],
    out: &'a str,
    shard: Shard,
) -> Result<PartFolder<'a>, ShardStop>
    requires { IsShard shard }
    ensures { IsShardStep result (folder_behind recording.now before.now out.now shard) }
{
    let fault = folder_fault(recording, before, &shard);
    unless_wrong(alloc, out, fault, PartFolder { out, shard })
}

/// Why a folder with this part does not fit the recording and the folders before it, if so.
fn folder_fault(
    recording: &Recording,
    before: &[PartFolder<'_>],
    shard: &Shard,
) -> Option<PartFault>
    requires { IsShard shard.now }
    ensures value { result ≡ folder_fault recording.now before.now shard.now }
    ensures present { IfSome result (λ fault. is_absent_in fault ≡ false) }
{
    if are_other_parts(shard.parts, before) {
        return Some(PartFault::OtherParts);
    }
    if is_any_of_part(before, shard.part) {
        return Some(PartFault::Twice);
    }
    if !are_same_windows(shard, &shard_of(recording, shard.part, shard.parts)) {
        return Some(PartFault::OtherWindows);
    }
    None
}

/// Whether the first of these folders, if there is one, is one of another number of parts.
fn are_other_parts(parts: u32, folders: &[PartFolder<'_>]) -> bool
    ensures { result ≡ are_other_parts parts folders.now }
{
    match folders.first() {
        None => false,
        Some(first) => first.shard().parts != parts,
    }
}

/// Whether one of these folders has this part.
fn is_any_of_part(folders: &[PartFolder<'_>], part: u32) -> bool
    ensures { result ≡ list_any (is_of_part part) folders.now }
{
    folders.iter().any(|folder| folder.shard().part == part)
}

/// Whether two parts have the same windows of as many.
fn are_same_windows(one: &Shard, other: &Shard) -> bool
    ensures { result ≡ are_same_windows one.now other.now }
{
    one.before == other.before && one.count == other.count && one.epochs == other.epochs
}
