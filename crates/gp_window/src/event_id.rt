ghost use Rattle.std.specs.Prelude.{◌≡◌, ◌++◌, OnOk};
ghost use Rattle.gp_window.specs.EventIds.{EventIdsReadExactly, event_id_of, event_id_text};

use crate::schedule::EventId;
use gp_text::{cut, one_spelling, print_u64, read_u32};
use std::alloc::AllocError;

/// The id of an event that a word `T.X` names.
pub fn event_id_of(word: &[u8]) -> Option<EventId>
    ensures { result ≡ event_id_of word.now }
{
    let (thread, index) = cut(word, b'.')?;
    match cut(index, b'.') {
        Some(_) => None,
        None => Some(EventId {
            thread: read_u32(thread)?,
            index: read_u32(index)?,
        }),
    }
}

/// Writes the id of an event as a word `T.X`.
pub fn put_event_id(out: &mut Vec<u8>, id: EventId) -> Result<(), AllocError>
    ensures { OnOk result (out.new.items ≡ out.old.items ++ event_id_text id) }
{
    print_u64(out, u64::from(id.thread))?;
    out.push(b'.')?;
    print_u64(out, u64::from(id.index))
}

/// A word is read as an id exactly where it is the id's text.
pub fn event_ids_read_exactly()
    ensures { EventIdsReadExactly }
{
    one_spelling();
}
