use std::alloc::AllocError;
use thiserror::Error;

/// Whether a bound was kept, or refused because it closes a negative cycle.
#[derive(Clone, Copy, PartialEq, Eq)]
pub enum Asserted {
    Kept,
    Cycle,
}

/// Why a graph was not made.
#[derive(Debug, Clone, Copy, PartialEq, Eq, Error)]
pub enum GraphFault {
    #[error("the fixed edges hold a negative cycle")]
    FixedCycle,
    #[error("out of memory")]
    Memory,
}

impl From<AllocError> for GraphFault {
    ghost use Rattle.std.specs.Prelude.{◌≡◌};
    ghost use Rattle.gp_difference.specs.declared.fault.GraphFault.TheVariants.{Memory};

    ghost from_gives = { λ _ fault. fault ≡ Memory };

    fn from(_error: AllocError) -> GraphFault {
        GraphFault::Memory
    }
}
