ghost use Rattle.std.specs.Prelude.{◌≡◌};
ghost use Rattle.gp_story.specs.Deeds.{lock_of, variable_of};

use gp_text::Name;
use gp_trace::{Event, LockUse};

/// The variable that an event reads or writes, where it does.
pub fn variable_of(event: &Event) -> Option<Name>
    ensures { result ≡ variable_of event.now }
{
    match event {
        Event::Read(variable, _) => Some(*variable),
        Event::Write(variable, _) => Some(*variable),
        _ => None,
    }
}

/// The lock that is used.
pub fn lock_of(lock_use: &LockUse) -> Name
    ensures { result ≡ lock_of lock_use.now }
{
    match lock_use {
        LockUse::Take(_, lock) => *lock,
        LockUse::GiveBack(_, lock) => *lock,
    }
}
