ghost use Rattle.std.specs.Prelude.{◌≡◌, ◌+◌, ◌<◌, ◌≤◌, IfOk};
ghost use Rattle.gp_cut.specs.Cut.{cut_trace};
ghost use Rattle.gp_trace.specs.Trace.{IsLocalTrace};
ghost use Rattle.gp_cut_files.specs.CutFiles.{cut_files, trace_file};

use crate::manifest::cut_manifest;
use crate::traces::cut_trace;
use gp_base::Row;
use gp_cut::{Part, cuts_are_recordings};
use gp_files::MadeFile;
use gp_trace::{LocalTrace, print_trace};
use gp_window::{FileName, Recording};
use std::alloc::{AllocError, Global};

/// The files of the windows of a part, with the window that sets their stage: the manifest, and the traces by thread.
pub fn cut_files(
    alloc: Global,
    recording: &Recording,
    part: Part,
) -> Result<Row<MadeFile>, AllocError>
    requires there { part.before + part.count ≤ recording.now.manifest.epochs }
    requires few { part.count < 4096 }
    ensures { IfOk result (λ files. files ≡ cut_files part.before part.count recording.now) }
{
    cuts_are_recordings();
    recording.keeps_rules();
    let manifest = cut_manifest(alloc, recording, part)?;
    let mut files = Row::new(alloc);
    files.push(MadeFile::new(FileName::Manifest, manifest))?;
    for trace in recording.traces() {
        files.push(trace_file(alloc, trace, part)?)?;
    }
    Ok(files)
}

/// The file of what a thread does in the windows of a part, and in the window that sets their stage.
fn trace_file(alloc: Global, trace: &LocalTrace, part: Part) -> Result<MadeFile, AllocError>
    requires rules { IsLocalTrace (cut_trace part.before part.count trace.now) }
    requires few { part.count < 4096 }
    ensures { IfOk result (λ file. file ≡ trace_file (cut_trace part.before part.count trace.now)) }
{
    let cut = cut_trace(alloc, trace, part)?;
    let name = FileName::Trace(cut.thread());
    let text = print_trace(alloc, &cut);
    drop(cut);
    Ok(MadeFile::new(name, text?))
}
