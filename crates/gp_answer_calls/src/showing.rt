ghost use Rattle.std.specs.Prelude.{◌≡◌, ◌≤◌, ◌⊎◌, None, map, string_bytes};
ghost use Rattle.gp_outside.specs.Faults.{Rose};
ghost use Rattle.gp_words.specs.Showing.{show_command_of};
ghost use Rattle.gp_predict.specs.Run.{IsBegunBy, IsGivenBy, IsNothing, IsRefused, WhereDue};
ghost use Rattle.gp_predict.specs.Told.{IsDone};
ghost use Rattle.gp_show.specs.Due.{Means, due_answer};

use gp_outside::{Folder, Sink};
use gp_predict::Outcome;
use std::thread::Threads;

/// As `gp_show::show`.
pub fn show<R: AllocGlobal + Threads + Sync, F: Folder, S: Sink>(
    rt: &R,
    words: &[String],
    folder: &mut F,
    sink: &mut S,
) -> Outcome
    ensures due { IsDone result.status → WhereDue
        (due_answer (map string_bytes words.now) (F.files folder.old))
        (IsGivenBy Means result (S.written sink.old) (S.written sink.new)) }
    ensures words { result.status ≡ 2 → show_command_of (map string_bytes words.now) ≡ None }
    ensures refused { result.status ≡ 3 → IsRefused result (F.files folder.old)
        (Rose (F.faults folder.old) (F.faults folder.new)) (S.written sink.old) (S.written sink.new) }
    ensures complete { ¬ (Rose (F.faults folder.old) (F.faults folder.new))
        → ¬ (Rose (S.faults sink.old) (S.faults sink.new)) → IsDone result.status ⊎ (result.status ≡ 6) }
    ensures read_fault { result.status ≡ 4 → Rose (F.faults folder.old) (F.faults folder.new)
        × IsNothing result (S.written sink.old) (S.written sink.new) }
    ensures write_fault { result.status ≡ 5 → Rose (S.faults sink.old) (S.faults sink.new) × WhereDue
        (due_answer (map string_bytes words.now) (F.files folder.old))
        (IsBegunBy Means result (S.written sink.old) (S.written sink.new)) }
    ensures memory { result.status ≡ 6 → IsNothing result (S.written sink.old) (S.written sink.new) ⊎ WhereDue
        (due_answer (map string_bytes words.now) (F.files folder.old))
        (IsBegunBy Means result (S.written sink.old) (S.written sink.new)) }
    ensures kept { F.files folder.new ≡ F.files folder.old }
    ensures range { result.status ≤ 6 }
{
    gp_show::show(rt, words, folder, sink)
}
