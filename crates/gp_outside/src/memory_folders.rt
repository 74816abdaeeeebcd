ghost use Rattle.gp_outside.specs.Folders.{file_named};
ghost use Rattle.gp_outside.specs.MemoryFolders.{after_call, after_write, answer_by, bytes_by, fails_next, files_of, read_answer, read_bytes, with_file, write_answer};
ghost use Rattle.std.specs.Option.{option_copied};
ghost use Rattle.std.specs.List.{position};
ghost use Rattle.std.specs.Prelude.{◌++◌, ◌≡◌, ◌≢◌, ◌≤◌, IsTrue, OnErr, OnOk, string_bytes};
ghost use Rattle.std.specs.Str.{bytes_eq};

use crate::folders::{Folder, ReadFault, WriteFault};
use std::alloc::AllocError;
use std::marker::Model;

/// Files in memory, for tests. Calls are numbered from 1, and those that the script names fail.
#[derive(Drop)]
pub struct MemoryFolder {
    files: Vec<(String, Vec<u8>)>,
    failing: Vec<u64>,
    calls: u64,
    faults: u64,
}

impl Model for MemoryFolder {
    ghost use Rattle.gp_outside.specs.MemoryFolders.{FolderState, files_of};

    ghost Value = { FolderState };

    ghost view = { λ f. record {
      files = files_of f.files.items;
      failing = f.failing.items;
      calls = f.calls;
      faults = f.faults;
    } };
}

impl MemoryFolder {
    /// A folder of these files, whose calls with a number in `failing` fail.
    /// Where several files have one name, the first is the file of that name.
    pub fn new(files: Vec<(String, Vec<u8>)>, failing: Vec<u64>) -> MemoryFolder
        ensures { result ≡ record {
          files = files_of files.items;
          failing = failing.items;
          calls = 0;
          faults = 0;
        } }
    {
        MemoryFolder {
            files,
            failing,
            calls: 0,
            faults: 0,
        }
    }

    /// The files, each as its name and its bytes.
    pub fn files(&self) -> &[(String, Vec<u8>)]
        ensures { files_of result.now ≡ self.now.files }
    {
        self.files.as_slice()
    }

    // Counts one call more, and says whether it is one that fails.
    fn begin_call(&mut self) -> bool
        ensures fails { result ≡ fails_next self.old }
        ensures later { self.old.faults ≤ self.new.faults }
        ensures counted { self.new ≡ after_call self.old }
    {
        self.calls = self.calls.saturating_add(1);
        let fails = self.failing.contains(&self.calls);
        if fails {
            self.faults = self.faults.saturating_add(1);
        }
        fails
    }
}

// What the first file of that name holds.
fn content_of<'a>(files: &'a [(String, Vec<u8>)], name: &str) -> Option<&'a [u8]>
    ensures { option_copied result ≡ file_named (files_of files.now) name.now }
{
    for (own, bytes) in files {
        if own.as_str() == name {
            return Some(bytes.as_slice());
        }
    }
    None
}

// Appends the content, or one byte more of it than the limit where it is longer.
fn append_within(content: &[u8], limit: u64, out: &mut Vec<u8>) -> Result<(), ReadFault>
    ensures answer { result ≢ Err ReadFault.Memory → result ≡ answer_by (Some content.now) limit }
    ensures bytes { result ≢ Err ReadFault.Memory →
        out.new.items ≡ out.old.items ++ bytes_by (Some content.now) limit }
    ensures memory { result ≡ Err ReadFault.Memory → out.new.items ≡ out.old.items }
{
    if content.len() as u64 > limit {
        out.extend_from_slice(&content[..limit as usize + 1])?;
        return Err(ReadFault::TooLong);
    }
    out.extend_from_slice(content)?;
    Ok(())
}

// The place of the first file of that name.
fn place_of(files: &[(String, Vec<u8>)], name: &str) -> Option<usize>
    ensures { result ≡ position (λ file. bytes_eq (string_bytes file.0) name.now) files.now }
{
    files.iter().position(|(own, _)| own.as_str() == name)
}

// Gives the bytes to the first file of that name, or to a new one at the end.
fn put_file(files: &mut Vec<(String, Vec<u8>)>, name: &str, bytes: &[u8]) -> Result<(), AllocError>
    ensures ok { OnOk result
        (files_of files.new.items ≡ with_file (files_of files.old.items) name.now bytes.now) }
    ensures err { OnErr result (files.new.items ≡ files.old.items) }
{
    let alloc = *files.allocator();
    let content = Vec::from_slice(alloc, bytes)?;
    match place_of(files.as_slice(), name) {
        Some(place) => files[place].1 = content,
        None => files.push((String::from_str(alloc, name)?, content))?,
    }
    Ok(())
}

impl Folder for MemoryFolder {
    ghost use Rattle.std.specs.Prelude.{Some};

    ghost files = { λ folder. Some folder.files };

    ghost faults = { λ folder. folder.faults };

    /// Exact but for want of memory: which call fails, what each other call answers and reads, and
    /// how the counts change.
    fn read(&mut self, name: &str, limit: u64, out: &mut Vec<u8>) -> Result<(), ReadFault>
        ensures later { self.old.faults ≤ self.new.faults }
        ensures counted { self.new ≡ after_call self.old }
        ensures scripted { IsTrue (fails_next self.old) → result ≡ Err ReadFault.Failed }
        ensures answer { result ≢ Err ReadFault.Memory → result ≡ read_answer self.old name.now limit }
        ensures bytes { result ≢ Err ReadFault.Memory →
            out.new.items ≡ out.old.items ++ read_bytes self.old name.now limit }
        ensures memory { result ≡ Err ReadFault.Memory → out.new.items ≡ out.old.items }
    {
        if self.begin_call() {
            return Err(ReadFault::Failed);
        }
        match content_of(self.files.as_slice(), name) {
            Some(content) => append_within(content, limit, out),
            None => Err(ReadFault::Absent),
        }
    }

    /// Exact but for want of memory: which call fails, what each other call writes, and how the
    /// counts change. A call that fails writes nothing.
    fn write(&mut self, name: &str, bytes: &[u8]) -> Result<(), WriteFault>
        ensures later { self.old.faults ≤ self.new.faults }
        ensures scripted { IsTrue (fails_next self.old) → result ≡ Err WriteFault.Failed }
        ensures answer { result ≢ Err WriteFault.Memory → result ≡ write_answer self.old }
        ensures after { result ≢ Err WriteFault.Memory →
            self.new ≡ after_write self.old name.now bytes.now }
        ensures memory { result ≡ Err WriteFault.Memory → self.new ≡ after_call self.old }
    {
        if self.begin_call() {
            return Err(WriteFault::Failed);
        }
        put_file(&mut self.files, name, bytes)?;
        Ok(())
    }
}
