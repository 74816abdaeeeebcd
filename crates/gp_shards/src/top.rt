ghost use Rattle.std.specs.Prelude.{◌≡◌, ◌≢◌, ◌≤◌, ◌⊎◌, IfSome, None, Some, map, string_bytes};
ghost use Rattle.gp_outside.specs.Faults.{Rose};
ghost use Rattle.gp_predict.specs.Due.{words_refused};
ghost use Rattle.gp_predict.specs.Run.{IsBegunBy, IsGivenBy, IsNothing, WhereDue};
ghost use Rattle.gp_predict.specs.Told.{IsDone};
ghost use Rattle.gp_shards.specs.Due.{Means, Text, due_answer, due_to, where_told};
ghost use Rattle.gp_shards.specs.Headline.{WhereCut, WhereMerged};
ghost use Rattle.gp_shards.specs.Leaving.{LeavesBy, LeavesFiles};
ghost use Rattle.gp_shards.specs.Run.{IsShardRefused, IsShardRun};
ghost use Rattle.gp_words.specs.Sharding.{IsSound, shard_command_of, shard_form};

use crate::merging::merge_at;
use crate::writing::cut_at;
use gp_outside::{Folder, Sink};
use gp_predict::{Outcome, put_reply, words_refused};
use gp_words::{ShardCommand, shard_command_of};
use std::alloc::Global;
use std::thread::Threads;

/// Writes a part of a recording, or tells the report of a recording out of those of its parts, as the words ask.
///
/// `words` are the words after the program's name: `--task=cut` with `--part` and `--of`, the folder that holds `manifest`, `t1.trace` and
/// so on and `props`, and the folder that the part is written into; or `--task=merge`, the folder of the recording, and the folders of its
/// parts, each of which holds `shard` and `report`.
pub fn shards<R: AllocGlobal + Threads + Sync, F: Folder, S: Sink>(
    rt: &R,
    words: &[String],
    folder: &mut F,
    sink: &mut S,
) -> Outcome
    // An answer is given only where it is due, and then whole.
    ensures due { IsDone result.status → WhereDue
        (due_answer (map string_bytes words.now) (F.files folder.old))
        (IsGivenBy Means result (S.written sink.old) (S.written sink.new)) }
    ensures words { result.status ≡ 2 → shard_command_of (map string_bytes words.now) ≡ None }
    // A refusal has its text; where the files are not told, that of an absent file has its cause.
    ensures refused { result.status ≡ 3 → IsShardRefused (F.files folder.old)
        (Rose (F.faults folder.old) (F.faults folder.new)) (S.written sink.old) (S.written sink.new) }
    // Where nothing outside fails, the answer that is due is given, or memory is wanting.
    ensures complete { ¬ (Rose (F.faults folder.old) (F.faults folder.new))
        → ¬ (Rose (S.faults sink.old) (S.faults sink.new)) → IsDone result.status ⊎ (result.status ≡ 6) }
    ensures read_fault { result.status ≡ 4 → Rose (F.faults folder.old) (F.faults folder.new)
        × IsNothing result (S.written sink.old) (S.written sink.new) }
    // A fault of the sink, or of memory, leaves a prefix of the text that is due; of a report, which is then kept.
    ensures write_fault { result.status ≡ 5 → Rose (S.faults sink.old) (S.faults sink.new) × WhereDue
        (due_answer (map string_bytes words.now) (F.files folder.old))
        (IsBegunBy Means result (S.written sink.old) (S.written sink.new)) }
    ensures memory { result.status ≡ 6 → IsNothing result (S.written sink.old) (S.written sink.new) ⊎ WhereDue
        (due_answer (map string_bytes words.now) (F.files folder.old))
        (IsBegunBy Means result (S.written sink.old) (S.written sink.new)) }
    // A cut alone changes files; what it leaves of them is said by status.
    ensures left { LeavesFiles (shard_command_of (map string_bytes words.now)) result.status
        (F.files folder.old) (F.files folder.new) }
    // What a cut writes is read as the part of the recording.
    ensures cut { result.status ≡ 0 → WhereCut (shard_command_of (map string_bytes words.now))
        (F.files folder.old) (F.files folder.new) }
    // A report that is kept is the one of all parts, and is accepted for the recording.
    ensures merge { IfSome result.report (WhereMerged (shard_command_of (map string_bytes words.now)) (F.files folder.old)) }
    ensures range { result.status ≤ 6 }
{
    match shard_command_of(rt.alloc(), words) {
        Ok(None) => refuse_words(rt.alloc(), sink),
        Ok(Some(command)) => answer(rt, &command, folder, sink),
        Err(_) => Outcome::of(6),
    }
}

/// Refuses the words, whatever the folder.
fn refuse_words<S: Sink>(alloc: Global, sink: &mut S) -> Outcome
    ensures run { IsShardRun (Some (Text words_refused)) None result (S.written sink.old) (S.written sink.new) (S.faults sink.old) (S.faults sink.new) 0 0 }
    ensures words { result.status ≢ 3 }
    ensures nothing { result.report ≡ None }
    ensures told { result.status ≢ 0 }
{
    match words_refused(alloc) {
        Ok(reply) => put_reply(sink, &reply),
        Err(_) => Outcome::of(6),
    }
}

/// Does what a command asks for. A refusal is an answer too.
fn answer<R: AllocGlobal + Threads + Sync, F: Folder, S: Sink>(
    rt: &R,
    command: &ShardCommand<'_>,
    folder: &mut F,
    sink: &mut S,
) -> Outcome
    requires { IsSound (shard_form command.now) }
    ensures run { IsShardRun (where_told (due_to (shard_form command.now)) (F.files folder.old)) (F.files folder.old) result (S.written sink.old) (S.written sink.new) (S.faults sink.old) (S.faults sink.new) (F.faults folder.old) (F.faults folder.new) }
    ensures left { LeavesBy (shard_form command.now) result.status (F.files folder.old) (F.files folder.new) }
    ensures cut { result.status ≡ 0 → WhereCut (Some (shard_form command.now)) (F.files folder.old) (F.files folder.new) }
    ensures merged { IfSome result.report (WhereMerged (Some (shard_form command.now)) (F.files folder.old)) }
    ensures words { result.status ≢ 2 }
{
    match command {
        ShardCommand::Cut(cut) => cut_at(rt, cut, folder, sink),
        ShardCommand::Merge(merge) => merge_at(rt, merge, folder, sink),
    }
}
