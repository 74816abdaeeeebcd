ghost use Rattle.std.specs.Prelude.{◌≡◌, ◌≤◌, OnOk};
ghost use Rattle.gp_outside.specs.Faults.{Rose};
ghost use Rattle.gp_outside.specs.Folders.{Spares, Writes};
ghost use Rattle.gp_window.specs.FileNames.{path_of};
ghost use Rattle.gp_files.specs.Writing.{AreAllMade, AreApart, AreKeptOrMade, AreMadeInOrder, AreSomeMade, WhereTold, files_at};

use crate::made_file::MadeFile;
use gp_outside::{Folder, WriteFault};
use std::alloc::Global;

/// Writes the files into a directory of the folder in order, up to the first one that is not written.
pub fn write_files<F: Folder>(
    alloc: Global,
    folder: &mut F,
    directory: &str,
    files: &[MadeFile],
) -> Result<(), WriteFault>
    requires { AreApart (files_at directory.now files.now) }
    ensures later { F.faults folder.old ≤ F.faults folder.new }
    ensures made { OnOk result (WhereTold (F.files folder.old) (F.files folder.new) (AreAllMade (files_at directory.now files.now))) }
    // However it ends, no file is changed before all those in front of it are there.
    ensures order { WhereTold (F.files folder.old) (F.files folder.new) (AreMadeInOrder (files_at directory.now files.now)) }
    ensures failed { result ≡ Err WriteFault.Failed → Rose (F.faults folder.old) (F.faults folder.new) }
    ensures spared { result ≡ Err WriteFault.Failed
        → WhereTold (F.files folder.old) (F.files folder.new) (AreSomeMade (files_at directory.now files.now)) }
    ensures memory { result ≡ Err WriteFault.Memory
        → WhereTold (F.files folder.old) (F.files folder.new) (AreKeptOrMade (files_at directory.now files.now)) }
{
    for file in files {
        write_file(alloc, folder, directory, file)?;
    }
    Ok(())
}

// Writes a file under its name in the directory.
fn write_file<F: Folder>(
    alloc: Global,
    folder: &mut F,
    directory: &str,
    file: &MadeFile,
) -> Result<(), WriteFault>
    ensures later { F.faults folder.old ≤ F.faults folder.new }
    ensures written { OnOk result (Writes (F.files folder.old) (F.files folder.new) (path_of directory.now file.now.name) file.now.text) }
    ensures failed { result ≡ Err WriteFault.Failed → Rose (F.faults folder.old) (F.faults folder.new) }
    ensures spared { result ≡ Err WriteFault.Failed
        → Spares (F.files folder.old) (F.files folder.new) (path_of directory.now file.now.name) }
    ensures unchanged { result ≡ Err WriteFault.Memory → F.files folder.new ≡ F.files folder.old }
{
    let path = file.name().path(alloc, directory)?;
    folder.write(path.as_str(), file.text())
}
