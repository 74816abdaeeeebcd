ghost use Rattle.std.specs.Prelude.{◌≡◌, ◌≢◌, ◌≤◌, ◌⊎◌};
ghost use Rattle.gp_files.specs.Writing.{AreApart, AreMadeInOrder, WhereTold, files_at};
ghost use Rattle.gp_outside.specs.Faults.{Rose};
ghost use Rattle.gp_predict.specs.Finished.{IsPut};
ghost use Rattle.gp_predict.specs.Making.{LeavesMade};
ghost use Rattle.gp_predict.specs.Run.{IsNothing};
ghost use Rattle.gp_predict.specs.Telling.{of_reply};
ghost use Rattle.gp_shard.specs.Shard.{IsShard};
ghost use Rattle.gp_shards.specs.Cutting.{cut_answer};
ghost use Rattle.gp_shards.specs.Due.{due_to_cut, where_told};
ghost use Rattle.gp_shards.specs.Headline.{IsCutOut};
ghost use Rattle.gp_shards.specs.Leaving.{LeavesPart};
ghost use Rattle.gp_shards.specs.Run.{IsShardRun};
ghost use Rattle.gp_words.specs.Sharding.{IsCut, cut_form};

use crate::cutting::{Cutting, cut_answer, cutting_at};
use crate::finishing::put_stop;
use gp_cut::cut_windows_are_the_same;
use gp_cut_files::{cuts_are_read, what_is_read_can_be_spelled};
use gp_files::{names_tell_apart, write_files};
use gp_outside::{Folder, Sink, WriteFault};
use gp_predict::{Outcome, put_reply};
use gp_shard::{Shard, shards_read_again};
use gp_words::CutCommand;
use std::alloc::Global;
use std::thread::Threads;

/// Writes a part of the recording in a folder into another folder, and tells which part that is.
pub fn cut_at<R: AllocGlobal + Threads + Sync, F: Folder, S: Sink>(
    rt: &R,
    cut: &CutCommand<'_>,
    folder: &mut F,
    sink: &mut S,
) -> Outcome
    requires { IsCut (cut_form cut.now) }
    ensures run { IsShardRun (where_told (due_to_cut (cut_form cut.now)) (F.files folder.old)) (F.files folder.old) result (S.written sink.old) (S.written sink.new) (S.faults sink.old) (S.faults sink.new) (F.faults folder.old) (F.faults folder.new) }
    ensures left { WhereTold (F.files folder.old) (F.files folder.new) (LeavesPart (cut_form cut.now) result.status) }
    ensures cut { result.status ≡ 0 → WhereTold (F.files folder.old) (F.files folder.new) (IsCutOut (cut_form cut.now)) }
    ensures words { result.status ≢ 2 }
{
    cut_windows_are_the_same();
    cuts_are_read();
    what_is_read_can_be_spelled();
    shards_read_again();
    names_tell_apart();
    match cutting_at(rt, folder, cut) {
        Ok(cutting) => put_part(rt.alloc(), folder, sink, cut.out, &cutting),
        Err(stop) => put_stop(rt.alloc(), sink, stop),
    }
}

/// Writes the files of a part into a folder, and tells which part that is.
fn put_part<F: Folder, S: Sink>(
    alloc: Global,
    folder: &mut F,
    sink: &mut S,
    out: &str,
    cutting: &Cutting,
) -> Outcome
    requires rules { IsShard cutting.now.shard }
    requires apart { AreApart (files_at out.now cutting.now.files) }
    ensures later { F.faults folder.old ≤ F.faults folder.new }
    ensures put { result.status ≢ 4 → IsPut (of_reply (cut_answer cutting.now.shard)) result (S.written sink.old) (S.written sink.new) (S.faults sink.old) (S.faults sink.new) }
    ensures failed { result.status ≡ 4 → Rose (F.faults folder.old) (F.faults folder.new) × IsNothing result (S.written sink.old) (S.written sink.new) }
    ensures left { LeavesMade (files_at out.now cutting.now.files) result.status (F.files folder.old) (F.files folder.new) }
    ensures order { WhereTold (F.files folder.old) (F.files folder.new) (AreMadeInOrder (files_at out.now cutting.now.files)) }
    ensures status { (result.status ≡ 0) ⊎ (result.status ≡ 4) ⊎ (result.status ≡ 5) ⊎ (result.status ≡ 6) }
{
    match write_files(alloc, folder, out, cutting.files.as_slice()) {
        Ok(()) => put_answer(alloc, sink, &cutting.shard),
        Err(WriteFault::Failed) => Outcome::of(4),
        Err(WriteFault::Memory) => Outcome::of(6),
    }
}

/// Tells that a part was written.
fn put_answer<S: Sink>(alloc: Global, sink: &mut S, shard: &Shard) -> Outcome
    requires { IsShard shard.now }
    ensures put { IsPut (of_reply (cut_answer shard.now)) result (S.written sink.old) (S.written sink.new) (S.faults sink.old) (S.faults sink.new) }
    ensures status { (result.status ≡ 0) ⊎ (result.status ≡ 5) ⊎ (result.status ≡ 6) }
{
    match cut_answer(alloc, shard) {
        Ok(reply) => put_reply(sink, &reply),
        Err(_) => Outcome::of(6),
    }
}
