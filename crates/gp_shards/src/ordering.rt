ghost use Rattle.std.specs.Prelude.{◌≡◌, find};
ghost use Rattle.gp_shards.specs.Merging.{all_in_order, in_order, is_of_part, parts_of};
ghost use Rattle.gp_shards.specs.Stage.{IsShardStep};

use crate::folders::PartFolder;
use crate::refusal::ShardRefusal;
use crate::stop::ShardStop;
use gp_base::Row;
use std::alloc::Global;

/// The folders of all parts, in the order of the parts.
pub fn all_in_order<'a>(
    alloc: Global,
    folders: &[PartFolder<'a>],
) -> Result<Row<PartFolder<'a>>, ShardStop>
    ensures { IsShardStep result (all_in_order folders.now) }
{
    in_order(alloc, folders, parts_of(folders))
}

/// Of how many parts these folders are.
fn parts_of(folders: &[PartFolder<'_>]) -> u32
    ensures { result ≡ parts_of folders.now }
{
    match folders.first() {
        None => 0,
        Some(first) => first.shard().parts,
    }
}

/// The folders of so many parts, from the first part on.
fn in_order<'a>(
    alloc: Global,
    folders: &[PartFolder<'a>],
    parts: u32,
) -> Result<Row<PartFolder<'a>>, ShardStop>
    ensures { IsShardStep result (in_order folders.now 1 parts) }
{
    let mut ordered = Row::new(alloc);
    for before in 0..parts {
        let Some(folder) = folder_of(folders, before + 1) else {
            return Err(ShardStop::Refused(ShardRefusal::Missing(before + 1)));
        };
        ordered.push(folder)?;
    }
    Ok(ordered)
}

/// The first of these folders that has this part.
fn folder_of<'a>(folders: &[PartFolder<'a>], part: u32) -> Option<PartFolder<'a>>
    ensures { result ≡ find (is_of_part part) folders.now }
{
    for folder in folders {
        if folder.shard().part == part {
            return Some(folder.again());
        }
    }
    None
}
