ghost use Rattle.std.specs.Prelude.{◌≡◌, ◌≤◌, ◌<◌, ◌+◌, ◌++◌, [], ◌∷◌, IfOk, IfSome, OnOk, false};
ghost use Rattle.gp_shard.specs.Shard.{IsShard};
ghost use Rattle.gp_shards.specs.Cutting.{CanBeWritten, cut_answer, cutting_at, cutting_of, length_fault, part_files, shard_of, within_limits};
ghost use Rattle.gp_shards.specs.Stage.{IsShardStage, IsShardStep, is_absent_in, refusal_of};
ghost use Rattle.gp_window.specs.Gives.{Gives};
ghost use Rattle.gp_words.specs.Sharding.{IsCut, cut_form};

use crate::content::{properties_text, recording_in};
use crate::refusal::PartFault;
use crate::sparing::unless_recording;
use crate::stop::{ShardStop, refuse_in, unless_wrong};
use gp_base::Row;
use gp_cut::{Part, part_of};
use gp_cut_files::cut_files;
use gp_files::MadeFile;
use gp_outside::Folder;
use gp_predict::{Reply, one_line};
use gp_shard::{Shard, print_shard};
use gp_window::{ContentFault, FileName, MOST_EPOCHS, Recording};
use gp_words::CutCommand;
use std::alloc::{AllocError, Global};
use std::thread::Threads;

/// A part of a recording that is to be written: which one it is, and its files.
#[derive(Drop)]
pub struct Cutting {
    pub shard: Shard,
    pub files: Row<MadeFile>,
}

/// Reads the recording and the properties in a folder, and makes the files of the part that is asked for, where the part's own folder
/// holds no other recording. Nothing is written yet.
pub fn cutting_at<R: AllocGlobal + Threads + Sync, F: Folder>(
    rt: &R,
    folder: &mut F,
    cut: &CutCommand<'_>,
) -> Result<Cutting, ShardStop>
    requires { IsCut (cut_form cut.now) }
    ensures stage { IsShardStage result (λ files. Gives refusal_of result (cutting_at files (cut_form cut.now))) (F.files folder.old) (F.files folder.new) (F.faults folder.old) (F.faults folder.new) }
    ensures writable { IfOk result CanBeWritten }
{
    unless_recording(rt.alloc(), folder, cut.out)?;
    let recording = recording_in(rt, folder, cut.folder)?;
    let properties = properties_text(rt.alloc(), folder, cut.folder)?;
    cutting_of(rt.alloc(), &recording, properties, cut)
}

/// The part that is asked for.
fn cutting_of(
    alloc: Global,
    recording: &Recording,
    properties: Row<u8>,
    cut: &CutCommand<'_>,
) -> Result<Cutting, ShardStop>
    requires { IsCut (cut_form cut.now) }
    ensures step { IsShardStep result (cutting_of recording.now properties (cut_form cut.now)) }
    ensures writable { IfOk result CanBeWritten }
{
    recording.keeps_rules();
    let shard = shard_of(recording, cut.part, cut.parts);
    if shard.count >= MOST_EPOCHS {
        return refuse_in(alloc, cut.out, PartFault::ManyWindows);
    }
    let files = part_files(alloc, recording, properties, &shard)?;
    within_limits(alloc, cut.out, shard, files)
}

/// The part of this number, of so many.
pub fn shard_of(recording: &Recording, part: u32, parts: u32) -> Shard
    requires first { 1 ≤ part }
    requires last { part ≤ parts }
    requires few { parts ≤ 4096 }
    ensures value { result ≡ shard_of recording.now part parts }
    ensures rules { IsShard result }
{
    recording.keeps_rules();
    let windows = part_of(recording, part, parts);
    Shard {
        part,
        parts,
        before: windows.before,
        count: windows.count,
        epochs: recording.manifest().epochs(),
    }
}

/// The files of a part: its windows as a recording of their own, the properties as they are, and which part it is.
fn part_files(
    alloc: Global,
    recording: &Recording,
    properties: Row<u8>,
    shard: &Shard,
) -> Result<Row<MadeFile>, AllocError>
    requires rules { IsShard shard.now }
    requires there { shard.now.before + shard.now.count ≤ recording.now.manifest.epochs }
    requires few { shard.now.count < 4096 }
    ensures { IfOk result (λ files. files ≡ part_files recording.now properties shard.now) }
{
    let windows = Part {
        before: shard.before,
        count: shard.count,
    };
    let mut files = cut_files(alloc, recording, windows)?;
    let text = print_shard(alloc, shard)?;
    add_files(&mut files, properties, text)?;
    Ok(files)
}

/// Puts the properties, and the text of the file `shard`, behind the files of a recording.
fn add_files(
    files: &mut Row<MadeFile>,
    properties: Row<u8>,
    shard: Row<u8>,
) -> Result<(), AllocError>
    ensures { OnOk result (files.new ≡ files.old ++ record { name = FileName.Properties; text = properties } ∷ record { name = FileName.Shard; text = shard } ∷ []) }
{
    files.push(MadeFile::new(FileName::Properties, properties))?;
    files.push(MadeFile::new(FileName::Shard, shard))
}

/// The part with these files, where none of them is too long.
fn within_limits(
    alloc: Global,
    out: &str,
    shard: Shard,
    files: Row<MadeFile>,
) -> Result<Cutting, ShardStop>
    requires { CanBeWritten (record { shard = shard; files = files }) }
    ensures step { IsShardStep result (within_limits out.now shard files) }
    ensures writable { IfOk result CanBeWritten }
{
    let fault = length_fault(files.as_slice());
    unless_wrong(alloc, out, fault, Cutting { shard, files })
}

/// Why these files cannot be written: the first that has more bytes than its limit, if one has.
fn length_fault(files: &[MadeFile]) -> Option<PartFault>
    ensures value { result ≡ length_fault files.now }
    ensures present { IfSome result (λ fault. is_absent_in fault ≡ false) }
{
    for made in files {
        if made.text().len() as u64 > made.name().limit() {
            return Some(PartFault::Content(ContentFault::TooLong(made.name())));
        }
    }
    None
}

/// The answer that a part was written: which of how many, the number of its first window, and how many windows it has.
pub fn cut_answer(alloc: Global, shard: &Shard) -> Result<Reply, AllocError>
    requires { IsShard shard.now }
    ensures { IfOk result (λ answer. answer ≡ cut_answer shard.now) }
{
    let Shard {
        part,
        parts,
        before,
        count,
        ..
    } = *shard;
    let first = before + 1;
    one_line(
        alloc,
        0,
        format!(in alloc; "cut {part} {parts} {first} {count}\n")?,
    )
}
