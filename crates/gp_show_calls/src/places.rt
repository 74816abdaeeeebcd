ghost use Rattle.std.specs.Prelude.{◌≡◌, ◌++◌, OnOk};
ghost use Rattle.gp_text.specs.Spelling.{after_words};
ghost use Rattle.gp_place.specs.Places.{behind, named};

use gp_place::Places;
use gp_window::EventId;
use std::alloc::AllocError;

/// As `gp_place::put_behind`.
pub fn put_behind(
    text: &mut Vec<u8>,
    places: &Places,
    window: u32,
    event: EventId,
) -> Result<(), AllocError>
    ensures { OnOk result (text.new.items ≡ text.old.items ++ after_words (behind places.now window event)) }
{
    gp_place::put_behind(text, places, window, event)
}

/// As `gp_place::put_named`.
pub fn put_named(
    text: &mut Vec<u8>,
    places: &Places,
    window: u32,
    event: EventId,
) -> Result<(), AllocError>
    ensures { OnOk result (text.new.items ≡ text.old.items ++ named places.now window event) }
{
    gp_place::put_named(text, places, window, event)
}
