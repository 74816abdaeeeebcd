use gp_constraint::BaseFault;
use thiserror::Error;

/// Why there is no problem of a window and the next.
#[derive(Clone, Copy, Debug, PartialEq, Eq, Error)]
pub enum LinkFault {
    /// There are more than 500,000 clauses, of which the first 500,001 are counted.
    #[error("the link is too large: {events} events, {clauses} clauses")]
    TooLarge { events: u64, clauses: u64 },
    #[error("out of memory")]
    Memory,
}

impl From<BaseFault> for LinkFault {
    ghost use Rattle.std.specs.Prelude.{◌≡◌};
    ghost use Rattle.gp_link.specs.LinkProblem.{fault_of};

    ghost from_gives = { λ fault e. e ≡ fault_of fault };

    fn from(fault: BaseFault) -> LinkFault {
        match fault {
            BaseFault::TooLarge { events, clauses } => LinkFault::TooLarge { events, clauses },
            BaseFault::Memory => LinkFault::Memory,
        }
    }
}
