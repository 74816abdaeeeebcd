ghost use Rattle.std.specs.Prelude.{◌≡◌, ◌≤◌, IfOk, length};
ghost use Rattle.std.specs.List.{AllByRecursion};
ghost use Rattle.gp_predict.specs.Content.{recording_at};
ghost use Rattle.gp_predict.specs.Listing.{listing_at, properties_at};
ghost use Rattle.gp_property.specs.Property.{IsProperty};
ghost use Rattle.gp_shards.specs.Cutting.{properties_text};
ghost use Rattle.gp_shards.specs.Merging.{content_in};
ghost use Rattle.gp_shards.specs.Stage.{IsShardStage, refusal_of};
ghost use Rattle.gp_window.specs.FileNames.{limit_of};
ghost use Rattle.gp_window.specs.Gives.{Gives};

use crate::refusal::PartFault;
use crate::stop::{ShardStop, refuse_in};
use gp_base::Row;
use gp_outside::Folder;
use gp_predict::{Listing, content_at, properties_from, recording_at};
use gp_property::Property;
use gp_window::{ContentFault, FileName, Recording, content_of};
use std::alloc::Global;
use std::thread::Threads;

/// The recording in a folder.
pub fn recording_in<R: AllocGlobal + Threads + Sync, F: Folder>(
    rt: &R,
    folder: &mut F,
    directory: &str,
) -> Result<Recording, ShardStop>
    ensures { IsShardStage result (λ files. Gives refusal_of result (recording_at files directory.now)) (F.files folder.old) (F.files folder.new) (F.faults folder.old) (F.faults folder.new) }
{
    Ok(recording_at(rt, folder, directory)?)
}

/// The recording in a folder, with the properties beside it.
pub fn listing_in<R: AllocGlobal + Threads + Sync, F: Folder>(
    rt: &R,
    folder: &mut F,
    directory: &str,
) -> Result<Listing, ShardStop>
    ensures stage { IsShardStage result (λ files. Gives refusal_of result (listing_at files directory.now)) (F.files folder.old) (F.files folder.new) (F.faults folder.old) (F.faults folder.new) }
    ensures few { IfOk result (λ listing. length listing.properties ≤ 64) }
    ensures valid { IfOk result (λ listing. AllByRecursion IsProperty listing.properties) }
{
    let recording = recording_in(rt, folder, directory)?;
    match properties_in(rt.alloc(), folder, directory) {
        Ok(properties) => Ok(Listing {
            recording,
            properties,
        }),
        Err(stop) => {
            drop(recording);
            Err(stop)
        }
    }
}

/// The properties in a folder.
fn properties_in<F: Folder>(
    alloc: Global,
    folder: &mut F,
    directory: &str,
) -> Result<Row<Property>, ShardStop>
    ensures stage { IsShardStage result (λ files. Gives refusal_of result (properties_at files directory.now)) (F.files folder.old) (F.files folder.new) (F.faults folder.old) (F.faults folder.new) }
    ensures few { IfOk result (λ properties. length properties ≤ 64) }
    ensures valid { IfOk result (λ properties. AllByRecursion IsProperty properties) }
{
    let text = content_at(alloc, folder, directory, FileName::Properties)?;
    Ok(properties_from(alloc, text.as_slice())?)
}

/// The text of the properties in a folder, where they are properties.
pub fn properties_text<F: Folder>(
    alloc: Global,
    folder: &mut F,
    directory: &str,
) -> Result<Row<u8>, ShardStop>
    ensures { IsShardStage result (λ files. Gives refusal_of result (properties_text files directory.now)) (F.files folder.old) (F.files folder.new) (F.faults folder.old) (F.faults folder.new) }
{
    let text = content_at(alloc, folder, directory, FileName::Properties)?;
    let _properties = properties_from(alloc, text.as_slice())?;
    Ok(text)
}

/// The bytes of a file in the folder of a part.
pub fn content_in<F: Folder>(
    alloc: Global,
    folder: &mut F,
    out: &str,
    file: FileName,
) -> Result<Row<u8>, ShardStop>
    ensures stage { IsShardStage result (λ files. Gives refusal_of result (content_in files out.now file)) (F.files folder.old) (F.files folder.new) (F.faults folder.old) (F.faults folder.new) }
    ensures fits { IfOk result (λ bytes. length bytes ≤ limit_of file) }
{
    match content_of(alloc, folder, out, &file) {
        Ok(bytes) => Ok(bytes),
        Err(ContentFault::ReadFailed) => Err(ShardStop::FolderFailed),
        Err(ContentFault::Memory) => Err(ShardStop::Memory),
        Err(fault) => refuse_in(alloc, out, PartFault::Content(fault)),
    }
}
