ghost use Rattle.std.specs.Prelude.{◌≡◌, Ok};
ghost use Rattle.gp_shards.specs.Sparing.{holds_recording, is_there, unless_recording};
ghost use Rattle.gp_shards.specs.Stage.{IsShardStage, refusal_of};
ghost use Rattle.gp_window.specs.Gives.{Gives};

use crate::refusal::PartFault;
use crate::stop::{ShardStop, refuse_in};
use gp_outside::Folder;
use gp_window::{ContentFault, FileName, content_of};
use std::alloc::Global;

/// Refuses a folder that holds a recording which is no part, so that none is written over.
pub fn unless_recording<F: Folder>(
    alloc: Global,
    folder: &mut F,
    out: &str,
) -> Result<(), ShardStop>
    ensures { IsShardStage result (λ files. Gives refusal_of result (unless_recording files out.now)) (F.files folder.old) (F.files folder.new) (F.faults folder.old) (F.faults folder.new) }
{
    if holds_recording(alloc, folder, out)? {
        return refuse_in(alloc, out, PartFault::HoldsRecording);
    }
    Ok(())
}

/// Whether a folder holds a manifest, and no file that says which part it has.
fn holds_recording<F: Folder>(alloc: Global, folder: &mut F, out: &str) -> Result<bool, ShardStop>
    ensures { IsShardStage result (λ files. Gives refusal_of result (Ok (holds_recording files out.now))) (F.files folder.old) (F.files folder.new) (F.faults folder.old) (F.faults folder.new) }
{
    if !is_there(alloc, folder, out, FileName::Manifest)? {
        return Ok(false);
    }
    let says_part = is_there(alloc, folder, out, FileName::Shard)?;
    Ok(!says_part)
}

/// Whether a folder has this file, however long that is.
fn is_there<F: Folder>(
    alloc: Global,
    folder: &mut F,
    out: &str,
    file: FileName,
) -> Result<bool, ShardStop>
    ensures { IsShardStage result (λ files. Gives refusal_of result (Ok (is_there files out.now file))) (F.files folder.old) (F.files folder.new) (F.faults folder.old) (F.faults folder.new) }
{
    match content_of(alloc, folder, out, &file) {
        Ok(_) | Err(ContentFault::TooLong(_)) => Ok(true),
        Err(ContentFault::Absent(_)) => Ok(false),
        Err(ContentFault::ReadFailed) => Err(ShardStop::FolderFailed),
        Err(ContentFault::Memory) => Err(ShardStop::Memory),
    }
}
