ghost use Rattle.std.specs.Prelude.{◌≡◌};
ghost use Rattle.gp_checker.specs.Reasons.{number_of};

/// Why a report is rejected, in the order in which the reasons are told.
#[derive(Clone, Copy, PartialEq, Eq)]
pub enum Reason {
    /// There are not as many windows as epochs.
    WindowCount,
    /// A window is told as too large and is not, or with other numbers, or the reverse.
    WrongSize,
    /// A property is missing or surplus, has another name, or has not an entry for each of its instances.
    WrongProperty,
    /// An entry has other events than its instance.
    WrongEvents,
    /// A schedule is stuck at the place.
    Stuck,
    /// A schedule is feasible and does not match.
    Unmatched,
    /// The step of a certificate at the place fails.
    BadStep,
    /// All steps pass, and there is none or the last has a literal that is no negated assumption.
    Unrefuted,
    /// An undecided entry has another budget.
    WrongBudget,
    /// The shared step at the place fails.
    BadSharedStep,
}

impl Reason {
    /// The number by which the reason is told, from 1 to 10.
    pub fn number(self) -> u8
        ensures { result ≡ number_of self }
    {
        match self {
            Reason::WindowCount => 1,
            Reason::WrongSize => 2,
            Reason::WrongProperty => 3,
            Reason::WrongEvents => 4,
            Reason::Stuck => 5,
            Reason::Unmatched => 6,
            Reason::BadStep => 7,
            Reason::Unrefuted => 8,
            Reason::WrongBudget => 9,
            Reason::BadSharedStep => 10,
        }
    }
}

/// The first failure of a report. Windows are numbered from 1, properties and instances from 0; what a reason does not use
/// is 0.
#[derive(Clone, Copy, PartialEq, Eq)]
pub struct Failure {
    pub window: u32,
    pub property: u32,
    pub instance: u32,
    pub reason: Reason,
    pub place: u64,
}

impl Failure {
    /// A failure with this reason and place, of no window, property or instance as yet.
    pub fn of(reason: Reason, place: u64) -> Failure
        ensures { result ≡ record { window = 0; property = 0; instance = 0; reason = reason; place = place } }
    {
        Failure {
            window: 0,
            property: 0,
            instance: 0,
            reason,
            place,
        }
    }
}

/// What checking a report says.
#[derive(Clone, Copy, PartialEq, Eq)]
pub enum Checked {
    Accepted,
    Rejected(Failure),
}
