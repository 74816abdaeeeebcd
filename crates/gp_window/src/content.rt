ghost use Rattle.std.specs.Prelude.{ℕ, ◌≡◌, ◌≤◌, All, List, Some, Err, IfErr, IfOk, length};
ghost use Rattle.gp_outside.specs.Faults.{Rose};
ghost use Rattle.gp_outside.specs.Folders.{File, HasNone};
ghost use Rattle.gp_window.specs.Contents.{content_cause, content_of, contents_from, IsOf};
ghost use Rattle.gp_window.specs.FileNames.{limit_of, path_of};
ghost use Rattle.gp_window.specs.Gives.{Gives};

use crate::file_name::FileName;
use gp_base::Row;
use gp_outside::{Folder, ReadFault};
use std::alloc::{AllocError, Global};

/// Why the bytes of a file are not told.
#[derive(Clone, Copy, PartialEq, Eq)]
pub enum ContentFault {
    /// The file is not there.
    Absent(FileName),
    /// The file has more bytes than its limit.
    TooLong(FileName),
    /// The folder failed.
    ReadFailed,
    /// Want of memory.
    Memory,
}

impl From<AllocError> for ContentFault {
    ghost use Rattle.std.specs.Prelude.{◌≡◌};
    ghost use Rattle.gp_window.specs.declared.content.ContentFault.TheVariants.{Memory};

    ghost from_gives = { λ _ e. e ≡ Memory };

    fn from(_error: AllocError) -> ContentFault {
        ContentFault::Memory
    }
}

/// The bytes of a file in this directory, where it is there and not too long.
pub fn content_of<F: Folder>(
    alloc: Global,
    folder: &mut F,
    directory: &str,
    file: &FileName,
) -> Result<Row<u8>, ContentFault>
    ensures later { F.faults folder.old ≤ F.faults folder.new }
    ensures kept { F.files folder.new ≡ F.files folder.old }
    ensures told { (files : List File) → F.files folder.old ≡ Some files
        → Gives content_cause result (content_of files directory.now file.now) }
    ensures fits { IfOk result (λ bytes. length bytes ≤ limit_of file.now) }
    ensures named { IfErr result (IsOf file.now) }
    ensures absent { (other : FileName) → result ≡ Err (ContentFault.Absent other)
        → HasNone (F.files folder.old) (path_of directory.now other) (Rose (F.faults folder.old) (F.faults folder.new)) }
    ensures fault { result ≡ Err ContentFault.ReadFailed → Rose (F.faults folder.old) (F.faults folder.new) }
{
    let path = file.path(alloc, directory)?;
    let mut bytes = Vec::new(alloc);
    match folder.read(path.as_str(), file.limit(), &mut bytes) {
        Ok(()) => Ok(Row::from_vec(bytes)),
        Err(ReadFault::Absent) => Err(ContentFault::Absent(*file)),
        Err(ReadFault::TooLong) => Err(ContentFault::TooLong(*file)),
        Err(ReadFault::Failed) => Err(ContentFault::ReadFailed),
        Err(ReadFault::Memory) => Err(ContentFault::Memory),
    }
}

/// The bytes of the traces of so many threads.
pub fn contents_of<F: Folder>(
    alloc: Global,
    folder: &mut F,
    directory: &str,
    threads: u32,
) -> Result<Row<Row<u8>>, ContentFault>
    ensures later { F.faults folder.old ≤ F.faults folder.new }
    ensures kept { F.files folder.new ≡ F.files folder.old }
    ensures told { (files : List File) → F.files folder.old ≡ Some files
        → Gives content_cause result (contents_from files directory.now 1 threads) }
    ensures absent { (other : FileName) → result ≡ Err (ContentFault.Absent other)
        → HasNone (F.files folder.old) (path_of directory.now other) (Rose (F.faults folder.old) (F.faults folder.new)) }
    ensures fault { result ≡ Err ContentFault.ReadFailed → Rose (F.faults folder.old) (F.faults folder.new) }
    ensures count { IfOk result (λ contents. length contents ≡ threads) }
    ensures fits { IfOk result (All (λ bytes. length bytes ≤ 2097152)) }
{
    let mut contents = Row::new(alloc);
    for before in 0..threads {
        let content = content_of(alloc, folder, directory, &FileName::Trace(before + 1))?;
        contents.push(content)?;
    }
    Ok(contents)
}
