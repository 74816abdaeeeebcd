ghost use Rattle.std.specs.Prelude.{◌≡◌, IfOk, string_bytes};
ghost use Rattle.gp_window.specs.FileNames.{limit_of, name_of, path_of};

use std::alloc::{AllocError, Global};

/// An input file of a folder.
#[derive(Clone, Copy, Debug, PartialEq, Eq)]
pub enum FileName {
    /// The manifest of the recording.
    Manifest,
    /// The trace of the thread of this number.
    Trace(u32),
    /// The properties.
    Properties,
    /// The schedule.
    Schedule,
    /// The report.
    Report,
    /// Which part of a longer recording the folder holds.
    Shard,
}

impl FileName {
    /// The name of the file in its directory.
    pub fn name(&self, alloc: Global) -> Result<String, AllocError>
        ensures { IfOk result (λ name. string_bytes name ≡ name_of self.now) }
    {
        match self {
            FileName::Manifest => String::from_str(alloc, "manifest"),
            FileName::Trace(thread) => {
                let thread = *thread;
                format!(in alloc; "t{thread}.trace")
            }
            FileName::Properties => String::from_str(alloc, "props"),
            FileName::Schedule => String::from_str(alloc, "schedule"),
            FileName::Report => String::from_str(alloc, "report"),
            FileName::Shard => String::from_str(alloc, "shard"),
        }
    }

    /// The most bytes of the file.
    pub fn limit(&self) -> u64
        ensures { result ≡ limit_of self.now }
    {
        match self {
            FileName::Manifest => 1_048_576,
            FileName::Trace(_) => 2_097_152,
            FileName::Properties => 262_144,
            FileName::Schedule => 16_777_216,
            FileName::Report => 67_108_864,
            FileName::Shard => 4_096,
        }
    }

    /// The name that is handed to the folder, for a file in this directory.
    pub fn path(&self, alloc: Global, directory: &str) -> Result<String, AllocError>
        ensures { IfOk result (λ path. string_bytes path ≡ path_of directory.now self.now) }
    {
        let name = self.name(alloc)?;
        let mut path = String::from_str(alloc, directory)?;
        path.push_str("/")?;
        path.push_str(name.as_str())?;
        Ok(path)
    }
}
