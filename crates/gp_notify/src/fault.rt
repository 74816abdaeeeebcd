use gp_constraint::BaseFault;
use gp_window::EventId;
use std::alloc::AllocError;
use thiserror::Error;

/// Why there is no problem of a window with its signals.
#[derive(Clone, Copy, Debug, PartialEq, Eq, Error)]
pub enum NotifyFault {
    /// The first wake before which its thread does not sleep.
    #[error("a wake without a sleep")]
    Unpaired(EventId),
    /// There are more than 500,000 clauses, of which the first 500,001 are counted.
    #[error("the window is too large with its signals: {events} events, {clauses} clauses")]
    TooLarge { events: u64, clauses: u64 },
    #[error("out of memory")]
    Memory,
}

impl From<BaseFault> for NotifyFault {
    ghost use Rattle.std.specs.Prelude.{◌≡◌};
    ghost use Rattle.gp_notify.specs.NotifyProblem.{fault_of};

    ghost from_gives = { λ fault e. e ≡ fault_of fault };

    fn from(fault: BaseFault) -> NotifyFault {
        match fault {
            BaseFault::TooLarge { events, clauses } => NotifyFault::TooLarge { events, clauses },
            BaseFault::Memory => NotifyFault::Memory,
        }
    }
}

impl From<AllocError> for NotifyFault {
    ghost use Rattle.std.specs.Prelude.{◌≡◌};
    ghost use Rattle.gp_notify.specs.declared.fault.NotifyFault.TheVariants.{Memory};

    ghost from_gives = { λ _ e. e ≡ Memory };

    fn from(_error: AllocError) -> NotifyFault {
        NotifyFault::Memory
    }
}
