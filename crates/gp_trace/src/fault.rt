use gp_text::TextFault;
use std::alloc::AllocError;
use thiserror::Error;

/// Why a text is no trace of its thread, with the number of the first line that breaks a rule. Where
/// a line breaks several, the first of these is told.
#[derive(Clone, Copy, Debug, PartialEq, Eq, Error)]
pub enum TraceFault {
    /// The text has no lines of words.
    #[error("{0}")]
    Text(TextFault),
    /// The line follows `exit` and is no `mark`.
    #[error("line {0} follows exit and is no mark")]
    AfterExit(u32),
    /// The line spells no event, no `mark` and no `exit`.
    #[error("line {0} is none of a trace")]
    BadWord(u32),
    /// The thread starts or joins itself.
    #[error("in line {0} the thread names itself")]
    NameSelf(u32),
    /// The thread does not hold the lock that it releases.
    #[error("in line {0} a lock is released that is not held")]
    ReleaseUnheld(u32),
    /// The thread holds the lock that it acquires.
    #[error("in line {0} a lock is acquired that is held")]
    AcquireHeld(u32),
    /// The region that ends is not the innermost that is begun.
    #[error("in line {0} a region ends that is not the innermost")]
    RegionUnmatched(u32),
    /// One mark too many, or at the end too few; the end's line is one more than the newlines.
    #[error("at line {0} the number of marks is wrong")]
    MarkCount(u32),
    #[error("out of memory")]
    Memory,
}

impl From<AllocError> for TraceFault {
    ghost use Rattle.std.specs.Prelude.{◌≡◌};
    ghost use Rattle.gp_trace.specs.declared.fault.TraceFault.TheVariants.{Memory};

    ghost from_gives = { λ _ e. e ≡ Memory };

    fn from(_error: AllocError) -> TraceFault {
        TraceFault::Memory
    }
}

impl From<TextFault> for TraceFault {
    ghost use Rattle.std.specs.Prelude.{◌≡◌};
    ghost use Rattle.gp_trace.specs.Faults.{from_text};

    ghost from_gives = { λ f e. e ≡ from_text f };

    fn from(fault: TextFault) -> TraceFault {
        match fault {
            TextFault::Memory => TraceFault::Memory,
            other => TraceFault::Text(other),
        }
    }
}
