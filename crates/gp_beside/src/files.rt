ghost use Rattle.std.specs.Prelude.{◌≡◌, ◌≤◌, ◌++◌, IfOk, List, Some, codes, length, string_bytes};
ghost use Rattle.gp_outside.specs.Faults.{Rose};
ghost use Rattle.gp_outside.specs.Folders.{File, file_named};
ghost use Rattle.gp_text.specs.Lines.{lines_of};
ghost use Rattle.gp_beside.specs.Files.{IsWithin, content_of, file_lines, lines_at, lines_held, name_of};

use crate::fault::{Cause, NoteFile, NoteStop};
use gp_base::Row;
use gp_outside::{Folder, ReadFault};
use gp_text::{Line, TextFault, end_line, read_lines};
use std::alloc::{AllocError, Global};

/// The most bytes of a file.
const MOST_BYTES: u64 = 1_048_576;

/// What is read of a file.
#[derive(Drop)]
pub enum Content {
    /// The file is not there.
    Absent,
    /// The file has more bytes than its limit.
    TooLong,
    Held(Row<u8>),
}

/// The lines of a file, and the number of the line at which it ends.
#[derive(Drop)]
pub struct FileLines {
    pub last: u32,
    pub lines: Row<Line>,
}

/// The lines of a file in this directory, where it is there.
pub(crate) fn lines_at<F: Folder>(
    alloc: Global,
    folder: &mut F,
    directory: &str,
    file: NoteFile,
) -> Result<Result<Option<FileLines>, Cause>, NoteStop>
    ensures later { F.faults folder.old ≤ F.faults folder.new }
    ensures kept { F.files folder.new ≡ F.files folder.old }
    ensures told { (files : List File) → F.files folder.old ≡ Some files
        → IfOk result (λ found. found ≡ lines_at files directory.now file) }
    ensures fault { result ≡ Err NoteStop.FolderFailed → Rose (F.faults folder.old) (F.faults folder.new) }
{
    let name = name_of(alloc, file)?;
    let path = path_to(alloc, directory, name.as_str())?;
    let content = content_at(alloc, folder, path.as_str())?;
    Ok(lines_held(alloc, content)?)
}

fn name_of(alloc: Global, file: NoteFile) -> Result<String, AllocError>
    ensures { IfOk result (λ name. string_bytes name ≡ name_of file) }
{
    match file {
        NoteFile::Places => String::from_str(alloc, "places"),
        NoteFile::ThreadPlaces(thread) => format!(in alloc; "t{thread}.places"),
        NoteFile::Confirmed => String::from_str(alloc, "confirmed"),
    }
}

/// The name that is handed to the folder, for a file of this name in a directory.
pub(crate) fn path_to(alloc: Global, directory: &str, name: &str) -> Result<String, AllocError>
    ensures { IfOk result (λ path. string_bytes path ≡ directory.now ++ codes "/" ++ name.now) }
{
    let mut path = String::from_str(alloc, directory)?;
    path.push_str("/")?;
    path.push_str(name)?;
    Ok(path)
}

/// What the folder has under this name.
pub(crate) fn content_at<F: Folder>(
    alloc: Global,
    folder: &mut F,
    path: &str,
) -> Result<Content, NoteStop>
    ensures later { F.faults folder.old ≤ F.faults folder.new }
    ensures kept { F.files folder.new ≡ F.files folder.old }
    ensures told { (files : List File) → F.files folder.old ≡ Some files
        → IfOk result (λ content. content ≡ content_of (file_named files path.now)) }
    ensures fits { IfOk result IsWithin }
    ensures fault { result ≡ Err NoteStop.FolderFailed → Rose (F.faults folder.old) (F.faults folder.new) }
{
    let mut bytes = Vec::new(alloc);
    match folder.read(path, MOST_BYTES, &mut bytes) {
        Ok(()) => Ok(Content::Held(Row::from_vec(bytes))),
        Err(ReadFault::Absent) => Ok(Content::Absent),
        Err(ReadFault::TooLong) => Ok(Content::TooLong),
        Err(ReadFault::Failed) => Err(NoteStop::FolderFailed),
        Err(ReadFault::Memory) => Err(NoteStop::Memory),
    }
}

fn lines_held(
    alloc: Global,
    content: Content,
) -> Result<Result<Option<FileLines>, Cause>, AllocError>
    requires { IsWithin content }
    ensures { IfOk result (λ found. found ≡ lines_held content) }
{
    match content {
        Content::Absent => Ok(Ok(None)),
        Content::TooLong => Ok(Err(Cause::TooLong)),
        Content::Held(bytes) => file_lines(alloc, bytes.as_slice()),
    }
}

fn file_lines(alloc: Global, bytes: &[u8]) -> Result<Result<Option<FileLines>, Cause>, AllocError>
    requires { length bytes.now ≤ 1048576 }
    ensures { IfOk result (λ found. found ≡ file_lines bytes.now (lines_of bytes.now)) }
{
    match read_lines(alloc, bytes) {
        Ok(lines) => Ok(Ok(Some(FileLines {
            last: end_line(bytes),
            lines,
        }))),
        Err(TextFault::Memory) => Err(AllocError),
        Err(fault) => Ok(Err(Cause::Text(fault))),
    }
}
