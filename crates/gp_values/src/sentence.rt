ghost use Rattle.std.specs.Prelude.{◌≡◌, ◌++◌, OnOk, drop};
ghost use Rattle.gp_json.specs.Strings.{string_text};

use gp_json::put_string;
use std::alloc::AllocError;

/// Puts bytes as they stand.
pub(crate) fn put_piece(text: &mut Vec<u8>, piece: &[u8]) -> Result<(), AllocError>
    ensures { OnOk result (text.new.items ≡ text.old.items ++ piece.now) }
{
    text.extend_from_slice(piece)
}

/// Puts phrases as a string. Each of them stands behind a space, and that of the first is left out.
pub(crate) fn put_sentence(text: &mut Vec<u8>, phrases: &[u8]) -> Result<(), AllocError>
    ensures { OnOk result (text.new.items ≡ text.old.items ++ string_text (drop 1 phrases.now)) }
{
    put_string(text, behind_first(phrases))
}

fn behind_first(phrases: &[u8]) -> &[u8]
    ensures { result.now ≡ drop 1 phrases.now }
{
    match phrases {
        [_space, rest @ ..] => rest,
        [] => &[],
    }
}
