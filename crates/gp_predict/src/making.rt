ghost use Rattle.std.specs.Prelude.{◌≡◌, ◌≢◌, ◌≤◌, ◌<◌, Err, IfErr, IfOk, OnOk, Some};
ghost use Rattle.gp_files.specs.Writing.{AreAllMade, AreKeptOrMade, AreSomeMade, WhereTold};
ghost use Rattle.gp_make.specs.Writing.{made_at};
ghost use Rattle.gp_outside.specs.Faults.{Rose};
ghost use Rattle.gp_predict.specs.Asking.{recipe_of};
ghost use Rattle.gp_predict.specs.Tasks.{Text};
ghost use Rattle.gp_predict.specs.Telling.{of_answer};
ghost use Rattle.gp_predict.specs.Finished.{CameTo, told_by};
ghost use Rattle.gp_predict.specs.Making.{LeavesMade, MakingStops, made_answer};
ghost use Rattle.gp_predict.specs.Run.{IsRun};
ghost use Rattle.gp_words.specs.Command.{IsInRanges, form_of};

use crate::finishing::finish;
use crate::outcome::Outcome;
use crate::reply::{Reply, one_line};
use crate::results::Answer;
use crate::stop::Stop;
use gp_make::{Recipe, write_recording};
use gp_outside::{Folder, Sink, WriteFault};
use gp_words::Command;
use std::alloc::{AllocError, Global};

/// Task make: makes a recording with its properties in the folder of a command, and tells how large it is.
pub fn make_at<F: Folder, S: Sink>(
    alloc: Global,
    command: &Command<'_>,
    folder: &mut F,
    sink: &mut S,
) -> Outcome
    requires { IsInRanges (form_of command.now) }
    ensures run { IsRun (Some (Text (made_answer (recipe_of (form_of command.now))))) (F.files folder.old) result (S.written sink.old) (S.written sink.new) (S.faults sink.old) (S.faults sink.new) (F.faults folder.old) (F.faults folder.new) }
    ensures left { LeavesMade (made_at command.now.folder.now (recipe_of (form_of command.now))) result.status (F.files folder.old) (F.files folder.new) }
    ensures words { result.status ≢ 2 }
{
    let recipe = recipe_of(command);
    let made = made(alloc, folder, command.folder, &recipe);
    finish(alloc, sink, made)
}

/// From which three numbers the recording of a command is made.
pub fn recipe_of(command: &Command<'_>) -> Recipe
    requires { IsInRanges (form_of command.now) }
    ensures numbers { result ≡ recipe_of (form_of command.now) }
    ensures threads { 0 < result.threads }
    ensures events { 0 < result.events }
{
    Recipe {
        seed: command.seed,
        threads: command.threads,
        events: command.events,
    }
}

/// Writes the files of a recording, and tells how large it is.
fn made<F: Folder>(
    alloc: Global,
    folder: &mut F,
    directory: &str,
    recipe: &Recipe,
) -> Result<Answer, Stop>
    requires threads { 0 < recipe.now.threads }
    requires events { 0 < recipe.now.events }
    ensures later { F.faults folder.old ≤ F.faults folder.new }
    ensures due { CameTo (told_by of_answer result) (Text (made_answer recipe.now)) }
    ensures fault { result ≡ Err Stop.FolderFailed → Rose (F.faults folder.old) (F.faults folder.new) }
    ensures all { OnOk result (WhereTold (F.files folder.old) (F.files folder.new) (AreAllMade (made_at directory.now recipe.now))) }
    ensures stopped { IfErr result (MakingStops (made_at directory.now recipe.now) (F.files folder.old) (F.files folder.new)) }
{
    match write_recording(alloc, folder, directory, recipe) {
        Ok(()) => Ok(answer_of(alloc, recipe)?),
        Err(WriteFault::Failed) => Err(Stop::FolderFailed),
        Err(WriteFault::Memory) => Err(Stop::Memory),
    }
}

fn answer_of(alloc: Global, recipe: &Recipe) -> Result<Answer, AllocError>
    ensures { IfOk result (λ answer. answer.reply ≡ made_answer recipe.now) }
{
    let reply = made_answer(alloc, recipe)?;
    Ok(Answer { reply })
}

/// The answer that so many threads, events and windows were made.
fn made_answer(alloc: Global, recipe: &Recipe) -> Result<Reply, AllocError>
    ensures { IfOk result (λ answer. answer ≡ made_answer recipe.now) }
{
    let Recipe {
        threads,
        events,
        ..
    } = *recipe;
    let windows = recipe.windows();
    one_line(
        alloc,
        0,
        format!(in alloc; "made {threads} {events} {windows}\n")?,
    )
}
