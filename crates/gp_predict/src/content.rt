ghost use Rattle.std.specs.Prelude.{◌≡◌, ◌≤◌, IfOk, false, length};
ghost use Rattle.gp_predict.specs.Content.{content_at, recording_at};
ghost use Rattle.gp_predict.specs.Refused.{is_at_limit, stop_of_recording, stops_at_limit};
ghost use Rattle.gp_predict.specs.Stage.{IsStage, refusal_of};
ghost use Rattle.gp_window.specs.FileNames.{limit_of};
ghost use Rattle.gp_window.specs.Gives.{Gives};

use crate::refusal::Refusal;
use crate::stop::Stop;
use gp_base::Row;
use gp_outside::Folder;
use gp_window::{ContentFault, FileName, Recording, RecordingFault, content_of, read_recording};
use std::alloc::Global;
use std::thread::Threads;

/// The recording in the folder.
pub fn recording_at<R: AllocGlobal + Threads + Sync, F: Folder>(
    rt: &R,
    folder: &mut F,
    directory: &str,
) -> Result<Recording, Stop>
    ensures stage { IsStage result (λ files. Gives refusal_of result (recording_at files directory.now)) (F.files folder.old) (F.files folder.new) (F.faults folder.old) (F.faults folder.new) }
    ensures limit { stops_at_limit result ≡ false }
{
    match read_recording(rt, rt.alloc(), folder, directory) {
        Ok(recording) => Ok(recording),
        Err(fault) => Err(stop_of_recording(fault)),
    }
}

/// What a fault of reading a recording stops with.
fn stop_of_recording(fault: RecordingFault) -> Stop
    ensures value { result ≡ stop_of_recording fault }
    ensures limit { is_at_limit result ≡ false }
{
    match fault {
        RecordingFault::ReadFailed => Stop::FolderFailed,
        RecordingFault::Memory => Stop::Memory,
        fault => Stop::Refused(Refusal::Recording(fault)),
    }
}

/// The bytes of an input file in the folder, where it is there and not too long.
pub fn content_at<F: Folder>(
    alloc: Global,
    folder: &mut F,
    directory: &str,
    file: FileName,
) -> Result<Row<u8>, Stop>
    ensures stage { IsStage result (λ files. Gives refusal_of result (content_at files directory.now file)) (F.files folder.old) (F.files folder.new) (F.faults folder.old) (F.faults folder.new) }
    ensures fits { IfOk result (λ bytes. length bytes ≤ limit_of file) }
    ensures limit { stops_at_limit result ≡ false }
{
    match content_of(alloc, folder, directory, &file) {
        Ok(bytes) => Ok(bytes),
        Err(ContentFault::ReadFailed) => Err(Stop::FolderFailed),
        Err(ContentFault::Memory) => Err(Stop::Memory),
        Err(fault) => Err(Stop::Refused(Refusal::Content(fault))),
    }
}
