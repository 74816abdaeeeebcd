use crate::refusal::Refusal;
use std::alloc::AllocError;

/// Why a stage, which reads the folder, gave nothing.
#[derive(Clone, Copy)]
pub enum Stop {
    /// An input file, the recording as a whole, or what is asked of them is refused.
    Refused(Refusal),
    /// The folder failed.
    FolderFailed,
    /// Want of memory.
    Memory,
}

impl From<AllocError> for Stop {
    ghost use Rattle.std.specs.Prelude.{◌≡◌};
    ghost use Rattle.gp_predict.specs.declared.stop.Stop.TheVariants.{Memory};

    ghost from_gives = { λ _ e. e ≡ Memory };

    fn from(_error: AllocError) -> Stop {
        Stop::Memory
    }
}
