ghost use Rattle.std.specs.Prelude.{◌≡◌, ◌++◌, OnOk};
ghost use Rattle.gp_json.specs.Json.{json_text};
ghost use Rattle.gp_sarif.specs.Locations.{message_value};

use gp_json::put_named_string;
use std::alloc::AllocError;

/// Puts bytes as they stand.
pub(crate) fn put_piece(text: &mut Vec<u8>, piece: &[u8]) -> Result<(), AllocError>
    ensures { OnOk result (text.new.items ≡ text.old.items ++ piece.now) }
{
    text.extend_from_slice(piece)
}

/// Puts a message of these words.
#[tactic(auto, unfolding(crate::specs::Locations::message_value))]
pub(crate) fn put_message(text: &mut Vec<u8>, words: &[u8]) -> Result<(), AllocError>
    ensures { OnOk result (text.new.items ≡ text.old.items ++ json_text (message_value words.now)) }
{
    text.extend_from_slice(b"{")?;
    put_named_string(text, 0, b"text", words)?;
    text.extend_from_slice(b"}")
}
