ghost use Rattle.std.specs.Prelude.{◌≡◌, ◌++◌, OnOk};
ghost use Rattle.gp_tell.specs.Naming.{name_by};

use gp_place::{Places, put_named};
use gp_window::EventId;
use std::alloc::AllocError;

/// How the events of a window are named: with these places.
#[derive(Clone, Copy)]
pub struct Naming<'a> {
    pub places: &'a Places,
    pub window: u32,
}

/// Puts the name of an event.
#[tactic(auto, unfolding(crate::specs::Naming::name_by))]
pub(crate) fn put_name(
    text: &mut Vec<u8>,
    naming: &Naming<'_>,
    event: EventId,
) -> Result<(), AllocError>
    ensures { OnOk result (text.new.items ≡ text.old.items ++ name_by naming.now event) }
{
    put_named(text, naming.places, naming.window, event)
}
