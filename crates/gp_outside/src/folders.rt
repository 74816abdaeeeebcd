ghost use Rattle.gp_outside.specs.Faults.{Rose};
ghost use Rattle.gp_outside.specs.Folders.{BeginsWith, File, HasLonger, HasNone, ReadWhole, Spares, Writes};
ghost use Rattle.std.specs.Prelude.{◌+◌, ◌⊎◌, ◌≡◌, ◌≤◌, List, OnOk, Option, length, ℕ};

use std::alloc::AllocError;
use thiserror::Error;

/// Why a file was not read whole.
#[derive(Debug, Clone, Copy, PartialEq, Eq, Error)]
pub enum ReadFault {
    /// There is no file of that name.
    #[error("there is no such file")]
    Absent,
    /// The file has more bytes than the limit.
    #[error("the file is longer than the limit")]
    TooLong,
    /// The read failed.
    #[error("the file could not be read")]
    Failed,
    /// There was no memory for the bytes.
    #[error("out of memory")]
    Memory,
}

impl From<AllocError> for ReadFault {
    ghost use Rattle.gp_outside.specs.declared.folders.ReadFault.TheVariants.{Memory};
    ghost use Rattle.std.specs.Prelude.{◌≡◌};

    ghost from_gives = { λ _ e. e ≡ Memory };

    fn from(_error: AllocError) -> ReadFault {
        ReadFault::Memory
    }
}

/// Why a file was not written.
#[derive(Debug, Clone, Copy, PartialEq, Eq, Error)]
pub enum WriteFault {
    /// The write failed. What the file of that name holds is open.
    #[error("the file could not be written")]
    Failed,
    /// There was no memory for the file, and nothing was written.
    #[error("out of memory")]
    Memory,
}

impl From<AllocError> for WriteFault {
    ghost use Rattle.gp_outside.specs.declared.folders.WriteFault.TheVariants.{Memory};
    ghost use Rattle.std.specs.Prelude.{◌≡◌};

    ghost from_gives = { λ _ e. e ≡ Memory };

    fn from(_error: AllocError) -> WriteFault {
        WriteFault::Memory
    }
}

/// A place of files that are read and written by name.
pub trait Folder {
    /// The files, where the folder tells them.
    ghost files: { Self → Option (List File) };

    /// How many calls failed, up to its last value 2^64 - 1.
    ghost faults: { Self → ℕ };

    /// Reads the file of that name, of at most `limit` bytes, to the end of `out`.
    fn read(&mut self, name: &str, limit: u64, out: &mut Vec<u8>) -> Result<(), ReadFault>
        ensures later { faults self.old ≤ faults self.new }
        ensures kept { files self.new ≡ files self.old }
        ensures prefix { BeginsWith out.new.items out.old.items }

        ensures whole { OnOk result
            (ReadWhole (files self.old) name.now limit out.old.items out.new.items) }
        // Also where no files are told.
        ensures fits { OnOk result (length out.new.items ≤ length out.old.items + limit) }

        ensures absent { result ≡ Err ReadFault.Absent →
            HasNone (files self.old) name.now (Rose (faults self.old) (faults self.new)) }
        ensures missing { HasNone (files self.old) name.now ⊥ →
            ¬ (Rose (faults self.old) (faults self.new)) →
            (result ≡ Err ReadFault.Absent) ⊎ (result ≡ Err ReadFault.Memory) }

        ensures longer { result ≡ Err ReadFault.TooLong → HasLonger (files self.old) name.now limit }
        ensures one_more { result ≡ Err ReadFault.TooLong →
            length out.new.items ≡ length out.old.items + limit + 1 }

        ensures failed { result ≡ Err ReadFault.Failed → Rose (faults self.old) (faults self.new) };

    /// Writes these bytes as the file of that name, in place of what it held.
    fn write(&mut self, name: &str, bytes: &[u8]) -> Result<(), WriteFault>
        ensures later { faults self.old ≤ faults self.new }
        ensures written { OnOk result (Writes (files self.old) (files self.new) name.now bytes.now) }
        ensures failed { result ≡ Err WriteFault.Failed → Rose (faults self.old) (faults self.new) }
        ensures spared { result ≡ Err WriteFault.Failed →
            Spares (files self.old) (files self.new) name.now }
        ensures unchanged { result ≡ Err WriteFault.Memory → files self.new ≡ files self.old };
}
