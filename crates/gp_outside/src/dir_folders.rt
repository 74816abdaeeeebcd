ghost use Rattle.gp_outside.specs.DirFolders.{Moves, faults_after, faults_after_write};
ghost use Rattle.gp_outside.specs.Folders.{BeginsWith};
ghost use Rattle.std.specs.Io.KnownBytes.{IsAtEnd};
ghost use Rattle.std.specs.Prelude.{◌+◌, ◌≡◌, ◌≢◌, ◌≤◌, OnOk, length};

use crate::folders::{Folder, ReadFault, WriteFault};
use crate::writing::write_whole;
use std::fs;
use std::io::{self, ErrorKind, Read, Write};
use std::marker::Model;
use std::rt::Files;

/// The files of the system, by their paths. No content is told: a contract sees the count of faults.
#[derive(Drop)]
pub struct DirFolder<R> {
    rt: R,
    faults: u64,
}

impl<R> Model for DirFolder<R> {
    ghost use Rattle.std.specs.Prelude.{ℕ};

    ghost Value = { ℕ };

    ghost view = { λ folder. folder.faults };
}

impl<R> DirFolder<R> {
    /// The files that this runtime reaches.
    pub fn new(rt: R) -> DirFolder<R>
        ensures { result ≡ 0 }
    {
        DirFolder { rt, faults: 0 }
    }
}

impl<R: Files> Folder for DirFolder<R> {
    ghost use Rattle.std.specs.Prelude.{None};

    ghost files = { λ _. None };

    ghost faults = { λ folder. folder };

    /// The name is a path. A file that is not found is `Absent`, and any other error `Failed`.
    fn read(&mut self, name: &str, limit: u64, out: &mut Vec<u8>) -> Result<(), ReadFault>
        ensures later { self.old ≤ self.new }
        ensures counted { self.new ≡ faults_after result self.old }
        ensures prefix { BeginsWith out.new.items out.old.items }
        ensures fits { OnOk result (length out.new.items ≤ length out.old.items + limit) }
        ensures one_more { result ≡ Err ReadFault.TooLong →
            length out.new.items ≡ length out.old.items + limit + 1 }
    {
        let answer = read_file(&self.rt, name, limit, out);
        if matches!(answer, Err(ReadFault::Absent | ReadFault::Failed)) {
            self.faults = self.faults.saturating_add(1);
        }
        answer
    }

    /// The name is a path, at which a file is made or emptied first. It takes no memory, and each
    /// error is `Failed`.
    fn write(&mut self, name: &str, bytes: &[u8]) -> Result<(), WriteFault>
        ensures later { self.old ≤ self.new }
        ensures counted { self.new ≡ faults_after_write result self.old }
        ensures no_memory { result ≢ Err WriteFault.Memory }
    {
        let answer = write_file(&self.rt, name, bytes).map_err(|_| WriteFault::Failed);
        if answer.is_err() {
            self.faults = self.faults.saturating_add(1);
        }
        answer
    }
}

// What the file then holds is named by no contract. That each byte is written is the promise of `write_whole`.
fn write_file<R: Files>(rt: &R, name: &str, bytes: &[u8]) -> io::Result<()> {
    let mut file = fs::create(rt, name)?;
    write_whole(&mut file, bytes)?;
    file.flush()
}

fn read_file<R: Files>(rt: &R, name: &str, limit: u64, out: &mut Vec<u8>) -> Result<(), ReadFault>
    ensures prefix { BeginsWith out.new.items out.old.items }
    ensures fits { OnOk result (length out.new.items ≤ length out.old.items + limit) }
    ensures one_more { result ≡ Err ReadFault.TooLong →
        length out.new.items ≡ length out.old.items + limit + 1 }
{
    match fs::open(rt, name) {
        Ok(mut file) => read_within(&mut file, limit, out),
        Err(error) if error.kind() == ErrorKind::NotFound => Err(ReadFault::Absent),
        Err(_) => Err(ReadFault::Failed),
    }
}

/// Reads to the end of the input, or to one byte more than the limit. No byte is lost or made up.
pub fn read_within<F: Read>(file: &mut F, limit: u64, out: &mut Vec<u8>) -> Result<(), ReadFault>
    ensures moved { result ≢ Err ReadFault.Memory →
        Moves (F.remaining file.old) (F.remaining file.new) out.old.items out.new.items }
    ensures end { OnOk result (IsAtEnd (F.remaining file.new)) }
    ensures prefix { BeginsWith out.new.items out.old.items }
    ensures fits { OnOk result (length out.new.items ≤ length out.old.items + limit) }
    ensures one_more { result ≡ Err ReadFault.TooLong →
        length out.new.items ≡ length out.old.items + limit + 1 }
{
    let mut buffer = [0u8; 4096];
    let mut left = limit;
    loop {
        let room = left.min(4095) as usize + 1;
        let part = &mut buffer[..room];
        let count = file.read(part).map_err(|_| ReadFault::Failed)?;
        if count == 0 {
            return Ok(());
        }
        out.extend_from_slice(&part[..count])?;
        if count as u64 > left {
            return Err(ReadFault::TooLong);
        }
        left -= count as u64;
    }
}
