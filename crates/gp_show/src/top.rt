ghost use Rattle.std.specs.Prelude.{◌≡◌, ◌≢◌, ◌≤◌, ◌⊎◌, None, Some, map, string_bytes};
ghost use Rattle.gp_outside.specs.Faults.{Rose};
ghost use Rattle.gp_predict.specs.Due.{words_refused};
ghost use Rattle.gp_predict.specs.Run.{IsBegunBy, IsGivenBy, IsNothing, IsRefused, IsRunBy, WhereDue};
ghost use Rattle.gp_predict.specs.Told.{IsDone};
ghost use Rattle.gp_show.specs.Due.{Means, Text, due_answer, due_by};
ghost use Rattle.gp_words.specs.Showing.{show_command_of, show_form};

use crate::shown::shown_at;
use gp_outside::{Folder, Sink};
use gp_predict::{Outcome, finish, put_reply, words_refused};
use gp_words::{ShowCommand, show_command_of};
use std::alloc::Global;
use std::thread::Threads;

/// Shows the report of the folder as the words ask, and writes that to the sink.
///
/// `words` are the words after the program's name: `--as=text`, `--as=html`, `--as=json` or `--as=sarif`, `--source`, `--window`, `--property`, `--instance` and `--answer` of
/// the instances that are shown, `--most` for how many, and the folder that holds `manifest`, `t1.trace` and so on, `props` and `report`.
pub fn show<R: AllocGlobal + Threads + Sync, F: Folder, S: Sink>(
    rt: &R,
    words: &[String],
    folder: &mut F,
    sink: &mut S,
) -> Outcome
    // An answer is given only where it is due, and then whole.
    ensures due { IsDone result.status → WhereDue
        (due_answer (map string_bytes words.now) (F.files folder.old))
        (IsGivenBy Means result (S.written sink.old) (S.written sink.new)) }
    ensures words { result.status ≡ 2 → show_command_of (map string_bytes words.now) ≡ None }
    // A refusal has its text, and nothing is kept; where the files are not told, that of an absent file has its cause.
    ensures refused { result.status ≡ 3 → IsRefused result (F.files folder.old)
        (Rose (F.faults folder.old) (F.faults folder.new)) (S.written sink.old) (S.written sink.new) }
    // Where nothing outside fails, the answer that is due is given, or memory is wanting.
    ensures complete { ¬ (Rose (F.faults folder.old) (F.faults folder.new))
        → ¬ (Rose (S.faults sink.old) (S.faults sink.new)) → IsDone result.status ⊎ (result.status ≡ 6) }
    ensures read_fault { result.status ≡ 4 → Rose (F.faults folder.old) (F.faults folder.new)
        × IsNothing result (S.written sink.old) (S.written sink.new) }
    // A fault of the sink, or of memory, leaves a prefix of the text that is due.
    ensures write_fault { result.status ≡ 5 → Rose (S.faults sink.old) (S.faults sink.new) × WhereDue
        (due_answer (map string_bytes words.now) (F.files folder.old))
        (IsBegunBy Means result (S.written sink.old) (S.written sink.new)) }
    ensures memory { result.status ≡ 6 → IsNothing result (S.written sink.old) (S.written sink.new) ⊎ WhereDue
        (due_answer (map string_bytes words.now) (F.files folder.old))
        (IsBegunBy Means result (S.written sink.old) (S.written sink.new)) }
    ensures kept { F.files folder.new ≡ F.files folder.old }
    ensures range { result.status ≤ 6 }
{
    match show_command_of(words) {
        None => refuse_words(rt.alloc(), sink),
        Some(command) => answer(rt, &command, folder, sink),
    }
}

/// Refuses the words, whatever the folder.
fn refuse_words<S: Sink>(alloc: Global, sink: &mut S) -> Outcome
    ensures run { IsRunBy Means (Some (Text words_refused)) None result (S.written sink.old) (S.written sink.new) (S.faults sink.old) (S.faults sink.new) 0 0 }
    ensures words { result.status ≢ 3 }
    ensures limit { result.status ≢ 7 }
{
    match words_refused(alloc) {
        Ok(reply) => put_reply(sink, &reply),
        Err(_) => Outcome::of(6),
    }
}

/// Shows the report as a command asks. A refusal is an answer too.
fn answer<R: AllocGlobal + Threads + Sync, F: Folder, S: Sink>(
    rt: &R,
    command: &ShowCommand<'_>,
    folder: &mut F,
    sink: &mut S,
) -> Outcome
    ensures run { IsRunBy Means (due_by (show_form command.now) (F.files folder.old)) (F.files folder.old) result (S.written sink.old) (S.written sink.new) (S.faults sink.old) (S.faults sink.new) (F.faults folder.old) (F.faults folder.new) }
    ensures kept { F.files folder.new ≡ F.files folder.old }
    ensures words { result.status ≢ 2 }
    ensures limit { result.status ≢ 7 }
{
    let made = shown_at(rt, folder, command);
    finish(rt.alloc(), sink, made)
}
