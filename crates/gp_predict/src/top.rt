ghost use Rattle.std.specs.Prelude.{◌≡◌, ◌≢◌, ◌≤◌, ◌⊎◌, None, Some, map, string_bytes};
ghost use Rattle.gp_outside.specs.Faults.{Rose};
ghost use Rattle.gp_predict.specs.Due.{due_answer, due_by, words_refused};
ghost use Rattle.gp_predict.specs.Tasks.{Text, reads_files};
ghost use Rattle.gp_predict.specs.Making.{LeavesBy, LeavesFiles};
ghost use Rattle.gp_predict.specs.Run.{IsBegun, IsGiven, IsNothing, IsRefused, IsRun, WhereDue};
ghost use Rattle.gp_predict.specs.Told.{IsDone};
ghost use Rattle.gp_words.specs.Command.{IsInRanges, command_of, form_of};

use crate::analysing::{analysed, asked_of};
use crate::compacting::compacted;
use crate::deadlocks::deadlocks_at;
use crate::finishing::{finish, put_reply};
use crate::linking::linked;
use crate::listing::listed;
use crate::making::make_at;
use crate::notifying::notified;
use crate::outcome::Outcome;
use crate::replaying::replayed;
use crate::reply::words_refused;
use crate::resuming::resumed;
use crate::verdict::checked;
use gp_outside::{Folder, Gate, Sink};
use gp_words::{Command, Task, command_of};
use std::alloc::Global;
use std::sync::Wait;
use std::thread::Threads;

/// Does what the words ask for, with the files of the folder, and writes the text to the sink.
///
/// `words` are the words after the program's name: options, of which `--task` is one, and the folder that holds
/// `manifest`, `t1.trace` and so on, and `props`, `schedule` or `report`. A worker of tasks analyse, resume, stuck and notify passes
/// the gate before each query; those of task link, each with windows of its own, pass none. Two workers or more of one window pass
/// each other what they learn, and one may wait there for another: that the call returns is said by no clause.
pub fn run<R: AllocGlobal + Threads + Wait + Sync, F: Folder, S: Sink, G: Gate + Sync>(
    rt: &R,
    words: &[String],
    folder: &mut F,
    sink: &mut S,
    gate: &G,
) -> Outcome
    // An answer is given only where it is due, and then whole.
    ensures due { IsDone result.status → WhereDue
        (due_answer (map string_bytes words.now) (F.files folder.old))
        (IsGiven result (S.written sink.old) (S.written sink.new)) }
    ensures words { result.status ≡ 2 → command_of (map string_bytes words.now) ≡ None }
    // A refusal has its text, and nothing is kept; where the files are not told, that of an absent file has its cause.
    ensures refused { result.status ≡ 3 → IsRefused result (F.files folder.old)
        (Rose (F.faults folder.old) (F.faults folder.new)) (S.written sink.old) (S.written sink.new) }
    // Where nothing outside fails, the answer that is due is given, or memory is wanting.
    ensures complete { ¬ (Rose (F.faults folder.old) (F.faults folder.new))
        → ¬ (Rose (S.faults sink.old) (S.faults sink.new)) → IsDone result.status ⊎ (result.status ≡ 6) }
    ensures read_fault { result.status ≡ 4 → Rose (F.faults folder.old) (F.faults folder.new)
        × IsNothing result (S.written sink.old) (S.written sink.new) }
    // A fault of the sink, or of memory, leaves a prefix of the text that is due; of a report, which is then kept.
    ensures write_fault { result.status ≡ 5 → Rose (S.faults sink.old) (S.faults sink.new) × WhereDue
        (due_answer (map string_bytes words.now) (F.files folder.old))
        (IsBegun result (S.written sink.old) (S.written sink.new)) }
    ensures memory { result.status ≡ 6 → IsNothing result (S.written sink.old) (S.written sink.new) ⊎ WhereDue
        (due_answer (map string_bytes words.now) (F.files folder.old))
        (IsBegun result (S.written sink.old) (S.written sink.new)) }
    // Task make alone changes files; what it leaves of them is said by status.
    ensures kept { LeavesFiles (command_of (map string_bytes words.now)) result.status
        (F.files folder.old) (F.files folder.new) }
    ensures range { result.status ≤ 7 }
{
    match command_of(words) {
        None => refuse_words(rt.alloc(), sink),
        Some(command) => answer(rt, &command, folder, sink, gate),
    }
}

/// Refuses the words, whatever the folder.
fn refuse_words<S: Sink>(alloc: Global, sink: &mut S) -> Outcome
    ensures run { IsRun (Some (Text words_refused)) None result (S.written sink.old) (S.written sink.new) (S.faults sink.old) (S.faults sink.new) 0 0 }
    ensures words { result.status ≢ 3 }
{
    match words_refused(alloc) {
        Ok(reply) => put_reply(sink, &reply),
        Err(_) => Outcome::of(6),
    }
}

/// Does what a command asks for. A refusal is an answer too.
fn answer<R: AllocGlobal + Threads + Wait + Sync, F: Folder, S: Sink, G: Gate + Sync>(
    rt: &R,
    command: &Command<'_>,
    folder: &mut F,
    sink: &mut S,
    gate: &G,
) -> Outcome
    requires { IsInRanges (form_of command.now) }
    ensures run { IsRun (due_by (reads_files command.now.task) (form_of command.now) (F.files folder.old)) (F.files folder.old) result (S.written sink.old) (S.written sink.new) (S.faults sink.old) (S.faults sink.new) (F.faults folder.old) (F.faults folder.new) }
    ensures left { LeavesBy (form_of command.now) command.now.task result.status (F.files folder.old) (F.files folder.new) }
    ensures words { result.status ≢ 2 }
{
    let alloc = rt.alloc();
    let directory = command.folder;
    match command.task {
        Task::Replay => {
            let made = replayed(rt, folder, directory);
            finish(alloc, sink, made)
        }
        Task::List => {
            let made = listed(rt, folder, directory);
            finish(alloc, sink, made)
        }
        Task::Analyse => {
            let made = analysed(rt, folder, directory, asked_of(command), gate);
            finish(alloc, sink, made)
        }
        Task::Check => {
            let made = checked(rt, folder, directory);
            finish(alloc, sink, made)
        }
        Task::Compact => {
            let made = compacted(rt, folder, directory);
            finish(alloc, sink, made)
        }
        Task::Link => {
            let made = linked(rt, folder, directory, asked_of(command));
            finish(alloc, sink, made)
        }
        Task::Stuck => {
            let made = deadlocks_at(rt, folder, directory, asked_of(command), gate);
            finish(alloc, sink, made)
        }
        Task::Notify => {
            let made = notified(rt, folder, directory, asked_of(command), gate);
            finish(alloc, sink, made)
        }
        Task::Resume => {
            let made = resumed(rt, folder, directory, asked_of(command), gate);
            finish(alloc, sink, made)
        }
        Task::Make => make_at(alloc, command, folder, sink),
    }
}
