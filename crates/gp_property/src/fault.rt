use gp_text::TextFault;
use std::alloc::AllocError;
use thiserror::Error;

/// Why a text is no file of properties, with the number of the first line that breaks a rule. In one
/// line the faults are told in the order in which they stand here.
#[derive(Clone, Copy, Debug, PartialEq, Eq, Error)]
pub enum PropertyFault {
    /// The text has no lines; told before all others.
    #[error("{0}")]
    Text(TextFault),
    /// A pattern without atoms, a new property or the end where a pattern is due, or no property.
    #[error("line {0}: a pattern or a property is missing")]
    Empty(u32),
    /// The line is none of the forms that may stand at its place.
    #[error("line {0} is no line of a property")]
    BadWord(u32),
    /// A property has the name of one before it, or an event that of one before it in its property.
    #[error("line {0} repeats a name")]
    RepeatedName(u32),
    /// Over 6 atoms in the pattern, or over 4 in one group.
    #[error("line {0} has too many atoms")]
    TooManyAtoms(u32),
    /// An atom names no event of its property.
    #[error("line {0} names an unknown event")]
    UnknownEvent(u32),
    /// A region is not opened by one `begin` atom and closed by one later `end` atom of its thread.
    #[error("line {0} misuses a region")]
    RegionUse(u32),
    #[error("out of memory")]
    Memory,
}

impl From<AllocError> for PropertyFault {
    ghost use Rattle.std.specs.Prelude.{◌≡◌};
    ghost use Rattle.gp_property.specs.declared.fault.PropertyFault.TheVariants.{Memory};

    ghost from_gives = { λ _ e. e ≡ Memory };

    fn from(_error: AllocError) -> PropertyFault {
        PropertyFault::Memory
    }
}

impl From<TextFault> for PropertyFault {
    ghost use Rattle.std.specs.Prelude.{◌≡◌};
    ghost use Rattle.gp_property.specs.Fault.{from_text};

    ghost from_gives = { λ f e. e ≡ from_text f };

    fn from(fault: TextFault) -> PropertyFault {
        match fault {
            TextFault::Memory => PropertyFault::Memory,
            other => PropertyFault::Text(other),
        }
    }
}
