ghost use Rattle.std.specs.Prelude.{◌≡◌, IfOk, IfSome, length, map, nat_le, option_map, string_bytes};
ghost use Rattle.std.specs.List.{list_all, list_any};
ghost use Rattle.std.specs.Str.{bytes_eq};
ghost use Rattle.gp_words.specs.Command.{is_folder};
ghost use Rattle.gp_words.specs.Sharding.{IsSound, are_different, are_folders, asked_of, cut_form, cut_into, cut_of, folders_of, merge_form, merge_of, shard_command_of, shard_form, shard_of, shard_task_named, shard_task_of};
ghost use Rattle.gp_words.specs.Value.{lent_texts};

use crate::argument::{Argument, Program};
use crate::command::is_folder;
use crate::number::number_asked;
use crate::value::{all_values_of, value_of};
use gp_base::Row;
use std::alloc::{AllocError, Global};

/// The most parts of a recording.
const MOST_PARTS: u32 = 4096;

/// The most folders that may be named: that of the recording, and one for each part.
const MOST_FOLDERS: usize = 4097;

/// What gpshards is asked to do.
#[derive(Clone, Copy)]
enum ShardTask {
    Cut,
    Merge,
}

/// The task, and the numbers of a part and of the parts, where they are given.
#[derive(Clone, Copy)]
struct Asked {
    task: ShardTask,
    part: Option<u32>,
    parts: Option<u32>,
}

/// Which part of a recording is cut out.
#[derive(Clone, Copy, PartialEq, Eq)]
pub struct CutCommand<'a> {
    /// The number of the part, from 1.
    pub part: u32,
    /// How many parts the recording has.
    pub parts: u32,
    /// The folder that holds the recording.
    pub folder: &'a str,
    /// The folder that the part is written into.
    pub out: &'a str,
}

/// Which reports are merged.
#[derive(Drop)]
pub struct MergeCommand<'a> {
    /// The folder that holds the recording.
    pub folder: &'a str,
    /// The folders that hold the parts and their reports, in the order of the words.
    pub outs: Row<&'a str>,
}

/// What the words of a command line of gpshards ask for.
#[derive(Drop)]
pub enum ShardCommand<'a> {
    /// To write a part of a recording into a folder.
    Cut(CutCommand<'a>),
    /// To print the report of a recording out of those of its parts.
    Merge(MergeCommand<'a>),
}

/// The command that the words are. It is `None` exactly where they are refused.
pub fn shard_command_of(
    alloc: Global,
    words: &[String],
) -> Result<Option<ShardCommand<'_>>, AllocError>
    ensures due { IfOk result (λ found. option_map shard_form found ≡ shard_command_of (map string_bytes words.now)) }
    ensures sound { IfOk result (λ found. IfSome found (λ command. IsSound (shard_form command))) }
{
    let Some(asked) = asked_of(words) else {
        return Ok(None);
    };
    let Some(folders) = folders_of(alloc, words)? else {
        return Ok(None);
    };
    shard_of(alloc, asked, folders.as_slice())
}

fn asked_of(words: &[String]) -> Option<Asked>
    ensures { result ≡ asked_of (map string_bytes words.now) }
{
    Some(Asked {
        task: shard_task_of(words)?,
        part: number_asked(words, Program::Gpshards, Argument::Part, 1, MOST_PARTS)?,
        parts: number_asked(words, Program::Gpshards, Argument::Of, 1, MOST_PARTS)?,
    })
}

fn shard_task_of(words: &[String]) -> Option<ShardTask>
    ensures { result ≡ shard_task_of (map string_bytes words.now) }
{
    shard_task_named(value_of(words, Program::Gpshards, Argument::Task)??)
}

fn shard_task_named(name: &str) -> Option<ShardTask>
    ensures { result ≡ shard_task_named name.now }
{
    match name {
        "cut" => Some(ShardTask::Cut),
        "merge" => Some(ShardTask::Merge),
        _ => None,
    }
}

/// The folders, in order.
fn folders_of(alloc: Global, words: &[String]) -> Result<Option<Row<&str>>, AllocError>
    ensures { IfOk result (λ folders. option_map lent_texts folders ≡ folders_of (map string_bytes words.now)) }
{
    let names = all_values_of(alloc, words, Program::Gpshards, Argument::Folder)?;
    Ok(names.filter(|names| are_folders(names.as_slice())))
}

fn are_folders(names: &[&str]) -> bool
    ensures { result ≡ are_folders (lent_texts names.now) }
{
    are_few(names) && are_all_folders(names) && are_different(names)
}

fn are_few(names: &[&str]) -> bool
    ensures { result ≡ nat_le (length (lent_texts names.now)) 4097 }
{
    names.len() <= MOST_FOLDERS
}

fn are_all_folders(names: &[&str]) -> bool
    ensures { result ≡ list_all is_folder (lent_texts names.now) }
{
    for name in names {
        if !is_folder(name) {
            return false;
        }
    }
    true
}

/// Whether no two of these names are the same.
///
/// Each is compared with all behind it, since they are few, and nothing is stored so.
fn are_different(names: &[&str]) -> bool
    ensures { result ≡ are_different (lent_texts names.now) }
{
    for (i, name) in names.iter().enumerate() {
        if is_among(name, &names[i + 1..]) {
            return false;
        }
    }
    true
}

fn is_among(name: &str, others: &[&str]) -> bool
    ensures { result ≡ list_any (bytes_eq name.now) (lent_texts others.now) }
{
    for other in others {
        if name == *other {
            return true;
        }
    }
    false
}

/// The command of a task, where what it wants is given.
fn shard_of<'a>(
    alloc: Global,
    asked: Asked,
    folders: &[&'a str],
) -> Result<Option<ShardCommand<'a>>, AllocError>
    ensures { IfOk result (λ found. option_map shard_form found ≡ shard_of asked.task asked.part asked.parts (lent_texts folders.now)) }
{
    match asked.task {
        ShardTask::Cut => Ok(cut_of(asked.part, asked.parts, folders).map(ShardCommand::Cut)),
        ShardTask::Merge => Ok(merge_of(alloc, folders)?.map(ShardCommand::Merge)),
    }
}

fn cut_of<'a>(part: Option<u32>, parts: Option<u32>, folders: &[&'a str]) -> Option<CutCommand<'a>>
    ensures { option_map cut_form result ≡ cut_of part parts (lent_texts folders.now) }
{
    cut_into(part?, parts?, folders)
}

fn cut_into<'a>(part: u32, parts: u32, folders: &[&'a str]) -> Option<CutCommand<'a>>
    ensures { option_map cut_form result ≡ cut_into part parts (lent_texts folders.now) }
{
    let [folder, out] = folders else {
        return None;
    };
    if part > parts {
        return None;
    }
    Some(CutCommand {
        part,
        parts,
        folder: *folder,
        out: *out,
    })
}

fn merge_of<'a>(alloc: Global, folders: &[&'a str]) -> Result<Option<MergeCommand<'a>>, AllocError>
    ensures { IfOk result (λ found. option_map merge_form found ≡ merge_of (lent_texts folders.now)) }
{
    let [folder, outs @ ..] = folders else {
        return Ok(None);
    };
    if outs.is_empty() {
        return Ok(None);
    }
    Ok(Some(MergeCommand {
        folder: *folder,
        outs: Row::from_vec(Vec::from_slice(alloc, outs)?),
    }))
}
