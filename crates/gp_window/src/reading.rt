ghost use Rattle.std.specs.Prelude.{ℕ, ◌≡◌, ◌≢◌, ◌≤◌, ◌<◌, ◌+◌, ◌-◌, ◌^◌, [], All, List, Some, Result, Err, IfOk, length, slice_index_or};
ghost use Rattle.gp_outside.specs.Faults.{Rose};
ghost use Rattle.gp_outside.specs.Folders.{File, HasNone};
ghost use Rattle.gp_trace.specs.declared.fault.TraceFault.{TraceFault};
ghost use Rattle.gp_trace.specs.Trace.{LocalTraceForm};
ghost use Rattle.gp_window.specs.FileNames.{path_of};
ghost use Rattle.gp_window.specs.ManifestForm.{IsManifest};
ghost use Rattle.gp_window.specs.Parsed.{AreTraces, IsRead, gathered};
ghost use Rattle.gp_window.specs.Gives.{Gives};
ghost use Rattle.gp_window.specs.Recording.{manifest_at, recording_cause, recording_of, recording_with, trace_or_fault, traces_from};

use crate::content::{content_of, contents_of};
use crate::fault::RecordingFault;
use crate::file_name::FileName;
use crate::manifest::{Manifest, read_manifest};
use crate::recording::{Recording, checked};
use gp_base::Row;
use gp_outside::Folder;
use gp_trace::{LocalTrace, TraceFault, read_trace, traces_fit};
use std::alloc::{AllocError, Global};
use std::thread;
use std::thread::Threads;

/// Reads the recording in a directory of the folder: the manifest, then the bytes of every trace, and
/// only then what the traces spell, each in a thread of its own. The faults come in the order in which
/// reading and parsing the files one after another finds them.
pub fn read_recording<R: Threads + Sync, F: Folder>(
    rt: &R,
    alloc: Global,
    folder: &mut F,
    directory: &str,
) -> Result<Recording, RecordingFault>
    ensures later { F.faults folder.old ≤ F.faults folder.new }
    ensures kept { F.files folder.new ≡ F.files folder.old }
    ensures told { (files : List File) → F.files folder.old ≡ Some files
        → Gives recording_cause result (recording_of files directory.now) }
    ensures absent { (other : FileName) → result ≡ Err (RecordingFault.Absent other)
        → HasNone (F.files folder.old) (path_of directory.now other) (Rose (F.faults folder.old) (F.faults folder.new)) }
    ensures fault { result ≡ Err RecordingFault.ReadFailed → Rose (F.faults folder.old) (F.faults folder.new) }
{
    let manifest = manifest_at(alloc, folder, directory)?;
    match contents_of(alloc, folder, directory, manifest.threads()) {
        Ok(contents) => {
            let read = recording_with(rt, alloc, manifest, contents.as_slice());
            drop(contents);
            read
        }
        Err(fault) => {
            drop(manifest);
            Err(RecordingFault::from(fault))
        }
    }
}

fn manifest_at<F: Folder>(
    alloc: Global,
    folder: &mut F,
    directory: &str,
) -> Result<Manifest, RecordingFault>
    ensures later { F.faults folder.old ≤ F.faults folder.new }
    ensures kept { F.files folder.new ≡ F.files folder.old }
    ensures told { (files : List File) → F.files folder.old ≡ Some files
        → Gives recording_cause result (manifest_at files directory.now) }
    ensures absent { (other : FileName) → result ≡ Err (RecordingFault.Absent other)
        → HasNone (F.files folder.old) (path_of directory.now other) (Rose (F.faults folder.old) (F.faults folder.new)) }
    ensures fault { result ≡ Err RecordingFault.ReadFailed → Rose (F.faults folder.old) (F.faults folder.new) }
{
    let bytes = content_of(alloc, folder, directory, &FileName::Manifest)?;
    let manifest = read_manifest(alloc, bytes.as_slice());
    drop(bytes);
    match manifest {
        Ok(manifest) => Ok(manifest),
        Err(fault) => Err(RecordingFault::from(fault)),
    }
}

fn recording_with<R: Threads + Sync>(
    rt: &R,
    alloc: Global,
    manifest: Manifest,
    contents: &[Row<u8>],
) -> Result<Recording, RecordingFault>
    requires count { length contents.now ≡ manifest.threads }
    requires rules { IsManifest manifest }
    requires fits { All (λ bytes. length bytes ≤ 2097152) contents.now }
    ensures due { result ≢ Err RecordingFault.Memory → result ≡ recording_with manifest contents.now }
    ensures no_fault { result ≢ Err RecordingFault.ReadFailed }
{
    match traces_from(rt, alloc, manifest.format(), manifest.epochs(), contents) {
        Ok(traces) => checked(alloc, manifest, traces),
        Err(fault) => {
            drop(manifest);
            Err(fault)
        }
    }
}

fn traces_from<R: Threads + Sync>(
    rt: &R,
    alloc: Global,
    format: u32,
    epochs: u32,
    contents: &[Row<u8>],
) -> Result<Row<LocalTrace>, RecordingFault>
    requires epochs { 1 ≤ epochs }
    requires count { length contents.now < 2 ^ 32 - 1 }
    requires fits { All (λ bytes. length bytes ≤ 2097152) contents.now }
    ensures due { result ≢ Err RecordingFault.Memory → result ≡ traces_from format (epochs - 1) 1 contents.now }
    ensures traces { IfOk result (AreTraces epochs 1 contents.now) }
    ensures no_fault { result ≢ Err RecordingFault.ReadFailed }
{
    traces_fit();
    let read = read_all(rt, alloc, format, epochs - 1, contents)?;
    gathered(alloc, read)
}

/// Reads each text as the trace of its thread.
fn read_all<R: Threads + Sync>(
    rt: &R,
    alloc: Global,
    format: u32,
    marks: u32,
    contents: &[Row<u8>],
) -> Result<Vec<Result<LocalTrace, TraceFault>>, AllocError>
    requires count { length contents.now < 2 ^ 32 - 1 }
    requires fits { All (λ bytes. length bytes ≤ 2097152) contents.now }
    ensures len { IfOk result (λ read. length read.items ≡ length contents.now) }
    ensures each { IfOk result (λ read. (i : ℕ) (d : Result LocalTraceForm TraceFault) → i < length contents.now
        → IsRead format marks (i + 1) (slice_index_or contents.now i []) (slice_index_or read.items i d)) }
{
    thread::map_indices(
        rt,
        alloc,
        contents.len(),
        &|i| { read_trace(alloc, format, i as u32 + 1, marks, contents[i].as_slice()) },
    )
}

/// The traces that were read, or the first fault in order of thread.
fn gathered(
    alloc: Global,
    read: Vec<Result<LocalTrace, TraceFault>>,
) -> Result<Row<LocalTrace>, RecordingFault>
    requires { length read.items < 2 ^ 32 - 1 }
    ensures due { result ≢ Err RecordingFault.Memory → result ≡ gathered 1 read.items }
    ensures no_fault { result ≢ Err RecordingFault.ReadFailed }
{
    let mut traces = Row::new(alloc);
    let mut thread = 1u32;
    for one in read {
        traces.push(trace_or_fault(thread, one)?)?;
        thread += 1;
    }
    Ok(traces)
}

fn trace_or_fault(
    thread: u32,
    read: Result<LocalTrace, TraceFault>,
) -> Result<LocalTrace, RecordingFault>
    ensures due { result ≡ trace_or_fault thread read }
    ensures no_fault { result ≢ Err RecordingFault.ReadFailed }
{
    match read {
        Ok(trace) => Ok(trace),
        Err(TraceFault::Memory) => Err(RecordingFault::Memory),
        Err(fault) => Err(RecordingFault::Trace(thread, fault)),
    }
}
