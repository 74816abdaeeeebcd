ghost use Rattle.std.specs.Prelude.{◌≡◌, ◌≤◌, ◌<◌, IfOk, IfSome, OnOk, map, option_map, string_bytes};
ghost use Rattle.gp_outside.specs.Faults.{Rose};
ghost use Rattle.gp_make.specs.Files.{made_files};
ghost use Rattle.gp_files.specs.Writing.{AreAllMade, AreKeptOrMade, AreSomeMade, WhereTold};
ghost use Rattle.gp_make.specs.Writing.{made_at};
ghost use Rattle.gp_words.specs.Command.{IsInRanges, command_of, form_of};

use gp_base::Row;
use gp_files::MadeFile;
use gp_make::Recipe;
use gp_outside::{Folder, WriteFault};
use gp_words::Command;
use std::alloc::{AllocError, Global};

/// As `gp_words::command_of`.
pub fn command_of(words: &[String]) -> Option<Command<'_>>
    ensures due { option_map form_of result ≡ command_of (map string_bytes words.now) }
    ensures within { IfSome result (λ command. IsInRanges (form_of command)) }
{
    gp_words::command_of(words)
}

/// As `gp_make::make`.
pub fn make(alloc: Global, recipe: &Recipe) -> Result<Row<MadeFile>, AllocError>
    requires threads { 0 < recipe.now.threads }
    requires events { 0 < recipe.now.events }
    ensures { IfOk result (λ files. files ≡ made_files recipe.now) }
{
    gp_make::make(alloc, recipe)
}

/// As `gp_make::write_recording`.
pub fn write_recording<F: Folder>(
    alloc: Global,
    folder: &mut F,
    directory: &str,
    recipe: &Recipe,
) -> Result<(), WriteFault>
    requires threads { 0 < recipe.now.threads }
    requires events { 0 < recipe.now.events }
    ensures later { F.faults folder.old ≤ F.faults folder.new }
    ensures made { OnOk result (WhereTold (F.files folder.old) (F.files folder.new) (AreAllMade (made_at directory.now recipe.now))) }
    ensures failed { result ≡ Err WriteFault.Failed → Rose (F.faults folder.old) (F.faults folder.new) }
    ensures spared { result ≡ Err WriteFault.Failed
        → WhereTold (F.files folder.old) (F.files folder.new) (AreSomeMade (made_at directory.now recipe.now)) }
    ensures memory { result ≡ Err WriteFault.Memory
        → WhereTold (F.files folder.old) (F.files folder.new) (AreKeptOrMade (made_at directory.now recipe.now)) }
{
    gp_make::write_recording(alloc, folder, directory, recipe)
}
