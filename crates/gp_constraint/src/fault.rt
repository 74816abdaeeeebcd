use std::alloc::AllocError;
use thiserror::Error;

/// The most events of a window that has constraints.
pub const MOST_POINTS: usize = 2_048;

/// The most clauses of a window.
pub const MOST_CLAUSES: usize = 500_000;

/// Why a window has no constraints.
#[derive(Clone, Copy, Debug, PartialEq, Eq, Error)]
pub enum BaseFault {
    /// There are more than 2,048 events, and then no clauses are counted; or more than 500,000 clauses, and then the
    /// first 500,001 are counted.
    #[error("the window is too large: {events} events, {clauses} clauses")]
    TooLarge { events: u64, clauses: u64 },
    #[error("out of memory")]
    Memory,
}

impl From<AllocError> for BaseFault {
    ghost use Rattle.std.specs.Prelude.{◌≡◌};
    ghost use Rattle.gp_constraint.specs.declared.fault.BaseFault.TheVariants.{Memory};

    ghost from_gives = { λ _ e. e ≡ Memory };

    fn from(_error: AllocError) -> BaseFault {
        BaseFault::Memory
    }
}

/// Why a clause is not added.
#[derive(Clone, Copy, PartialEq, Eq)]
pub enum Full {
    /// There are 500,000 clauses already.
    TooMany,
    Memory,
}

impl From<AllocError> for Full {
    ghost use Rattle.std.specs.Prelude.{◌≡◌};
    ghost use Rattle.gp_constraint.specs.declared.fault.Full.TheVariants.{Memory};

    ghost from_gives = { λ _ e. e ≡ Memory };

    fn from(_error: AllocError) -> Full {
        Full::Memory
    }
}
