ghost use Rattle.std.specs.Prelude.{◌≡◌};
ghost use Rattle.gp_witness.specs.Witness.{up_to_last};

use gp_base::Row;
use gp_window::{EventId, contains_event};

/// A schedule up to the last of these events; nothing where it has none of them. Takes no memory.
pub fn up_to_last(events: &[EventId], schedule: Row<EventId>) -> Row<EventId>
    ensures { result ≡ up_to_last events.now schedule }
{
    let mut ids = schedule.into_vec();
    while let Some(last) = ids.as_slice().last().copied() {
        if contains_event(events, last) {
            break;
        }
        ids.pop();
    }
    Row::from_vec(ids)
}
