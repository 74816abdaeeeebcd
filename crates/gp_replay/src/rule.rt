ghost use Rattle.std.specs.Prelude.{◌≡◌};
ghost use Rattle.gp_replay.specs.Rule.{number_of_rule};

use std::alloc::AllocError;

/// Why an event may not happen now. The rules are tested in this order.
#[derive(Clone, Copy, PartialEq, Eq)]
pub enum Rule {
    /// The event is not the next one of its thread.
    NotNext,
    /// Its thread is not started.
    NotStarted,
    /// An acquire of a lock that a thread holds.
    LockHeld,
    /// A read would find another value than the recorded one.
    WrongValue,
    /// A join of a thread that is not started, does not exit, or has events left.
    NotExited,
}

impl Rule {
    /// The number by which the rule is told.
    pub fn number(self) -> u64
        ensures { result ≡ number_of_rule self }
    {
        match self {
            Rule::NotNext => 1,
            Rule::NotStarted => 2,
            Rule::LockHeld => 3,
            Rule::WrongValue => 4,
            Rule::NotExited => 5,
        }
    }
}

/// Why a step was not made.
#[derive(Clone, Copy, PartialEq, Eq)]
pub enum StepFault {
    /// The event may not happen, by this rule.
    Broken(Rule),
    /// Want of memory.
    Memory,
}

impl From<AllocError> for StepFault {
    ghost use Rattle.std.specs.Prelude.{◌≡◌};
    ghost use Rattle.gp_replay.specs.declared.rule.StepFault.TheVariants.{Memory};

    ghost from_gives = { λ _ e. e ≡ Memory };

    fn from(_error: AllocError) -> StepFault {
        StepFault::Memory
    }
}

impl From<Rule> for StepFault {
    ghost use Rattle.std.specs.Prelude.{◌≡◌};
    ghost use Rattle.gp_replay.specs.declared.rule.StepFault.TheVariants.{Broken};

    ghost from_gives = { λ rule e. e ≡ Broken rule };

    fn from(rule: Rule) -> StepFault {
        StepFault::Broken(rule)
    }
}
