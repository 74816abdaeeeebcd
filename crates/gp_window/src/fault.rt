use crate::content::ContentFault;
use crate::file_name::FileName;
use crate::manifest::ManifestFault;
use gp_text::{Name, TextFault};
use gp_trace::TraceFault;
use std::alloc::AllocError;
use thiserror::Error;

/// Why the files of a folder are no recording. The first cause in the order of reading is told.
#[derive(Clone, Copy, Debug, PartialEq, Eq, Error)]
pub enum RecordingFault {
    /// The file is not there.
    #[error("a file is absent")]
    Absent(FileName),
    /// The file has more bytes than its limit.
    #[error("a file is too long")]
    TooLong(FileName),
    /// The folder failed.
    #[error("a file could not be read")]
    ReadFailed,
    /// The manifest has no lines.
    #[error("manifest: {0}")]
    ManifestText(TextFault),
    /// The first bad line of the manifest.
    #[error("manifest: line {0} is not one of a manifest")]
    ManifestLine(u32),
    /// The trace of this thread is refused.
    #[error("trace of thread {0}: {1}")]
    Trace(u32, TraceFault),
    /// A start or join names a thread that the recording has not.
    #[error("there is no thread {0}")]
    UnknownThread(u32),
    /// A root is started.
    #[error("thread {0} is a root and is started")]
    StartsRoot(u32),
    /// A thread is started twice.
    #[error("thread {0} is started twice")]
    TwoStarts(u32),
    /// Two threads hold this lock over the mark before the window of this number.
    #[error("a lock has two holders before window {1}")]
    TwoHolders(Name, u32),
    /// Want of memory.
    #[error("out of memory")]
    Memory,
}

impl From<ManifestFault> for RecordingFault {
    ghost use Rattle.std.specs.Prelude.{◌≡◌};
    ghost use Rattle.gp_window.specs.Recording.{from_manifest};

    ghost from_gives = { λ f e. e ≡ from_manifest f };

    fn from(fault: ManifestFault) -> RecordingFault {
        match fault {
            ManifestFault::Text(text) => RecordingFault::ManifestText(text),
            ManifestFault::Line(line) => RecordingFault::ManifestLine(line),
            ManifestFault::Memory => RecordingFault::Memory,
        }
    }
}

impl From<ContentFault> for RecordingFault {
    ghost use Rattle.std.specs.Prelude.{◌≡◌};
    ghost use Rattle.gp_window.specs.Recording.{from_content};

    ghost from_gives = { λ f e. e ≡ from_content f };

    fn from(fault: ContentFault) -> RecordingFault {
        match fault {
            ContentFault::Absent(file) => RecordingFault::Absent(file),
            ContentFault::TooLong(file) => RecordingFault::TooLong(file),
            ContentFault::ReadFailed => RecordingFault::ReadFailed,
            ContentFault::Memory => RecordingFault::Memory,
        }
    }
}

impl From<AllocError> for RecordingFault {
    ghost use Rattle.std.specs.Prelude.{◌≡◌};
    ghost use Rattle.gp_window.specs.declared.fault.RecordingFault.TheVariants.{Memory};

    ghost from_gives = { λ _ e. e ≡ Memory };

    fn from(_error: AllocError) -> RecordingFault {
        RecordingFault::Memory
    }
}
