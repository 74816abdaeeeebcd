ghost use Rattle.std.specs.Prelude.{◌≡◌, ◌≤◌, ◌<◌, OnOk};
ghost use Rattle.gp_outside.specs.Faults.{Rose};
ghost use Rattle.gp_files.specs.Writing.{AreAllMade, AreKeptOrMade, AreSomeMade, WhereTold};
ghost use Rattle.gp_make.specs.Writing.{made_at};

use crate::making::make;
use crate::recipe::Recipe;
use gp_files::{names_tell_apart, write_files};
use gp_outside::{Folder, WriteFault};
use std::alloc::Global;

/// Makes the files of the recording and writes them into a directory of the folder, one after another.
pub fn write_recording<F: Folder>(
    alloc: Global,
    folder: &mut F,
    directory: &str,
    recipe: &Recipe,
) -> Result<(), WriteFault>
    requires threads { 0 < recipe.now.threads }
    requires events { 0 < recipe.now.events }
    ensures later { F.faults folder.old ≤ F.faults folder.new }
    ensures made { OnOk result (WhereTold (F.files folder.old) (F.files folder.new) (AreAllMade (made_at directory.now recipe.now))) }
    ensures failed { result ≡ Err WriteFault.Failed → Rose (F.faults folder.old) (F.faults folder.new) }
    ensures spared { result ≡ Err WriteFault.Failed
        → WhereTold (F.files folder.old) (F.files folder.new) (AreSomeMade (made_at directory.now recipe.now)) }
    ensures memory { result ≡ Err WriteFault.Memory
        → WhereTold (F.files folder.old) (F.files folder.new) (AreKeptOrMade (made_at directory.now recipe.now)) }
{
    names_tell_apart();
    let files = make(alloc, recipe)?;
    write_files(alloc, folder, directory, files.as_slice())
}
