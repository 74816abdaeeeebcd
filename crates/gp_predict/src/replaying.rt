ghost use Rattle.std.specs.Prelude.{◌≡◌, ◌≢◌, ◌≤◌, ◌<◌, ◌-◌, ◌^◌, Err, IfOk, OnErr, false, length};
ghost use Rattle.gp_predict.specs.Replaying.{replay_answer, replay_at, schedule_at};
ghost use Rattle.gp_replay.specs.Schedule.{schedule_of_text};
ghost use Rattle.gp_predict.specs.Refusal.{schedule_refusal};
ghost use Rattle.gp_base.specs.Results.{or_refused};
ghost use Rattle.gp_predict.specs.Finished.{CameTo, told_by};
ghost use Rattle.gp_predict.specs.Refused.{stops_absent};
ghost use Rattle.gp_predict.specs.Tasks.{as_text, either_expected};
ghost use Rattle.gp_predict.specs.Telling.{of_answer};
ghost use Rattle.gp_predict.specs.Stage.{IsStage, refusal_of};
ghost use Rattle.gp_window.specs.Gives.{Gives};

use crate::content::{content_at, recording_at};
use crate::refusal::Refusal;
use crate::reply::{Reply, feasible, stuck};
use crate::results::Answer;
use crate::stop::Stop;
use gp_outside::Folder;
use gp_replay::{ReplayFault, ScheduleFault, WindowSchedule, read_schedule, replay};
use gp_window::{FileName, Recording, cut};
use std::alloc::Global;
use std::thread::Threads;

/// Task replay: whether a schedule can happen.
pub fn replayed<R: AllocGlobal + Threads + Sync, F: Folder>(
    rt: &R,
    folder: &mut F,
    directory: &str,
) -> Result<Answer, Stop>
    ensures { IsStage result (λ files. CameTo (told_by of_answer result) (either_expected (as_text (replay_at files directory.now)))) (F.files folder.old) (F.files folder.new) (F.faults folder.old) (F.faults folder.new) }
{
    let reply = replay_at(rt, folder, directory)?;
    Ok(Answer { reply })
}

/// Reads the recording and the schedule in a folder, and answers whether the schedule can happen.
fn replay_at<R: AllocGlobal + Threads + Sync, F: Folder>(
    rt: &R,
    folder: &mut F,
    directory: &str,
) -> Result<Reply, Stop>
    ensures stage { IsStage result (λ files. Gives refusal_of result (replay_at files directory.now)) (F.files folder.old) (F.files folder.new) (F.faults folder.old) (F.faults folder.new) }
    ensures verdict { IfOk result (λ answer. answer.status ≤ 1) }
{
    let recording = recording_at(rt, folder, directory)?;
    let epochs = recording.manifest().epochs();
    match schedule_at(rt.alloc(), folder, directory, epochs) {
        Ok(read) => {
            let told = verdict_on(rt.alloc(), &recording, &read);
            drop((recording, read));
            told
        }
        Err(stop) => {
            drop(recording);
            Err(stop)
        }
    }
}

fn schedule_at<F: Folder>(
    alloc: Global,
    folder: &mut F,
    directory: &str,
    epochs: u32,
) -> Result<WindowSchedule, Stop>
    ensures stage { IsStage result (λ files. Gives refusal_of result (schedule_at files directory.now epochs)) (F.files folder.old) (F.files folder.new) (F.faults folder.old) (F.faults folder.new) }
    ensures window { IfOk result (λ read. (1 ≤ read.window) × (read.window ≤ epochs)) }
{
    let bytes = content_at(alloc, folder, directory, FileName::Schedule)?;
    schedule_from(alloc, epochs, bytes.as_slice())
}

fn schedule_from(alloc: Global, epochs: u32, bytes: &[u8]) -> Result<WindowSchedule, Stop>
    requires { length bytes.now < 2 ^ 32 - 1 }
    ensures due { Gives refusal_of result (or_refused schedule_refusal (schedule_of_text epochs bytes.now)) }
    ensures window { IfOk result (λ read. (1 ≤ read.window) × (read.window ≤ epochs)) }
    ensures no_fault { result ≢ Err Stop.FolderFailed }
    ensures present { stops_absent result ≡ false }
{
    match read_schedule(alloc, epochs, bytes) {
        Ok(read) => Ok(read),
        Err(ScheduleFault::Memory) => Err(Stop::Memory),
        Err(fault) => Err(Stop::Refused(Refusal::Schedule(fault))),
    }
}

fn verdict_on(alloc: Global, recording: &Recording, read: &WindowSchedule) -> Result<Reply, Stop>
    requires first { 1 ≤ read.now.window }
    requires last { read.now.window ≤ recording.now.manifest.epochs }
    ensures due { IfOk result (λ answer. answer ≡ replay_answer recording.now read.now) }
    ensures verdict { IfOk result (λ answer. answer.status ≤ 1) }
    ensures memory { OnErr result (result ≡ Err Stop.Memory) }
{
    let window = cut(alloc, recording, read.window)?;
    let replayed = replay(alloc, &window, &read.schedule);
    drop(window);
    match replayed {
        Ok(_) => Ok(feasible(alloc, read.schedule.events.len())?),
        Err(ReplayFault::Stuck { place, rule }) => Ok(stuck(alloc, place, rule)?),
        Err(ReplayFault::Memory) => Err(Stop::Memory),
    }
}
