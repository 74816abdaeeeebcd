ghost use Rattle.std.specs.Prelude.{◌≡◌, ◌≤◌, ◌⊎◌, None, map, string_bytes};
ghost use Rattle.gp_outside.specs.Faults.{Rose};
ghost use Rattle.gp_words.specs.Command.{command_of};
ghost use Rattle.gp_predict.specs.Due.{due_answer};
ghost use Rattle.gp_predict.specs.Making.{LeavesFiles};
ghost use Rattle.gp_predict.specs.Run.{IsBegun, IsGiven, IsNothing, IsRefused, WhereDue};
ghost use Rattle.gp_predict.specs.Told.{IsDone};

use gp_outside::{Folder, Gate, Sink};
use gp_predict::Outcome;
use std::sync::Wait;
use std::thread::Threads;

/// As `gp_predict::run`.
pub fn run<R: AllocGlobal + Threads + Wait + Sync, F: Folder, S: Sink, G: Gate + Sync>(
    rt: &R,
    words: &[String],
    folder: &mut F,
    sink: &mut S,
    gate: &G,
) -> Outcome
    ensures due { IsDone result.status → WhereDue
        (due_answer (map string_bytes words.now) (F.files folder.old))
        (IsGiven result (S.written sink.old) (S.written sink.new)) }
    ensures words { result.status ≡ 2 → command_of (map string_bytes words.now) ≡ None }
    ensures refused { result.status ≡ 3 → IsRefused result (F.files folder.old)
        (Rose (F.faults folder.old) (F.faults folder.new)) (S.written sink.old) (S.written sink.new) }
    ensures complete { ¬ (Rose (F.faults folder.old) (F.faults folder.new))
        → ¬ (Rose (S.faults sink.old) (S.faults sink.new)) → IsDone result.status ⊎ (result.status ≡ 6) }
    ensures read_fault { result.status ≡ 4 → Rose (F.faults folder.old) (F.faults folder.new)
        × IsNothing result (S.written sink.old) (S.written sink.new) }
    ensures write_fault { result.status ≡ 5 → Rose (S.faults sink.old) (S.faults sink.new) × WhereDue
        (due_answer (map string_bytes words.now) (F.files folder.old))
        (IsBegun result (S.written sink.old) (S.written sink.new)) }
    ensures memory { result.status ≡ 6 → IsNothing result (S.written sink.old) (S.written sink.new) ⊎ WhereDue
        (due_answer (map string_bytes words.now) (F.files folder.old))
        (IsBegun result (S.written sink.old) (S.written sink.new)) }
    ensures kept { LeavesFiles (command_of (map string_bytes words.now)) result.status
        (F.files folder.old) (F.files folder.new) }
    ensures range { result.status ≤ 7 }
{
    gp_predict::run(rt, words, folder, sink, gate)
}
