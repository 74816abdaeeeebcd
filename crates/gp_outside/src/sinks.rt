ghost use Rattle.gp_outside.specs.Faults.{Rose};
ghost use Rattle.gp_outside.specs.Sinks.{Appends, AppendsFront};
ghost use Rattle.std.specs.Prelude.{◌≡◌, ◌≤◌, List, OnErr, OnOk, Option, ℕ};

use std::alloc::AllocError;
use thiserror::Error;

/// Why a piece was not written whole.
#[derive(Debug, Clone, Copy, PartialEq, Eq, Error)]
pub enum PutFault {
    /// The write failed. A prefix of the piece may have been written.
    #[error("the bytes could not be written")]
    Failed,
    /// There was no memory for the piece, and none of it was written.
    #[error("out of memory")]
    Memory,
}

impl From<AllocError> for PutFault {
    ghost use Rattle.gp_outside.specs.declared.sinks.PutFault.TheVariants.{Memory};
    ghost use Rattle.std.specs.Prelude.{◌≡◌};

    ghost from_gives = { λ _ e. e ≡ Memory };

    fn from(_error: AllocError) -> PutFault {
        PutFault::Memory
    }
}

/// A place that bytes are written to, one piece after the other.
pub trait Sink {
    /// The bytes written, where the sink tells them.
    ghost written: { Self → Option (List ℕ) };

    /// How many calls failed, up to its last value 2^64 - 1.
    ghost faults: { Self → ℕ };

    /// Writes the piece after what was written before.
    fn put(&mut self, piece: &[u8]) -> Result<(), PutFault>
        ensures later { faults self.old ≤ faults self.new }
        ensures ok { OnOk result (Appends (written self.old) (written self.new) piece.now) }
        ensures err { OnErr result (AppendsFront (written self.old) (written self.new) piece.now) }
        ensures failed { result ≡ Err PutFault.Failed → Rose (faults self.old) (faults self.new) }
        ensures memory { result ≡ Err PutFault.Memory → written self.new ≡ written self.old };
}
