ghost use Rattle.std.specs.Prelude.{◌≡◌};
ghost use Rattle.gp_report.specs.Entries.{any_found, entries_among, entries_of};

use crate::record::{AnswerOf, EntryOf, PropertyRecordOf, WindowRecordOf};

/// Whether some entry of these windows is found.
pub fn is_any_found<S>(windows: &[WindowRecordOf<S>]) -> bool
    ensures { result ≡ any_found (entries_of windows.now) }
{
    for window in windows {
        if is_found_among(window.body.properties()) {
            return true;
        }
    }
    false
}

fn is_found_among<S>(properties: &[PropertyRecordOf<S>]) -> bool
    ensures { result ≡ any_found (entries_among properties.now) }
{
    for property in properties {
        if is_found_in(property.body.entries()) {
            return true;
        }
    }
    false
}

fn is_found_in<S>(entries: &[EntryOf<S>]) -> bool
    ensures { result ≡ any_found entries.now }
{
    entries
        .iter()
        .any(|entry| matches!(entry.answer, AnswerOf::Found(_)))
}
