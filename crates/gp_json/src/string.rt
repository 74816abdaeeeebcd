ghost use Rattle.std.specs.Prelude.{◌≡◌, ◌<◌, ◌++◌, ◌∷◌, [], if◌then◌else◌, OnOk};
ghost use Rattle.gp_json.specs.Strings.{by_number, character_text, characters_text, hexadecimal, is_numbered, string_text};

use std::alloc::AllocError;

/// Puts a string of these bytes, each of them a character.
#[tactic(auto, unfolding(crate::specs::Strings::string_text))]
pub fn put_string(text: &mut Vec<u8>, bytes: &[u8]) -> Result<(), AllocError>
    ensures { OnOk result (text.new.items ≡ text.old.items ++ string_text bytes.now) }
{
    text.extend_from_slice(b"\"")?;
    put_characters(text, bytes)?;
    text.extend_from_slice(b"\"")
}

fn put_characters(text: &mut Vec<u8>, bytes: &[u8]) -> Result<(), AllocError>
    ensures { OnOk result (text.new.items ≡ text.old.items ++ characters_text bytes.now) }
{
    for byte in bytes {
        put_character(text, *byte)?;
    }
    Ok(())
}

fn put_character(text: &mut Vec<u8>, byte: u8) -> Result<(), AllocError>
    ensures { OnOk result (text.new.items ≡ text.old.items ++ character_text byte) }
{
    match byte {
        b'"' => text.extend_from_slice(b"\\\""),
        b'\\' => text.extend_from_slice(b"\\\\"),
        _ => put_other(text, byte),
    }
}

fn put_other(text: &mut Vec<u8>, byte: u8) -> Result<(), AllocError>
    ensures { OnOk result (text.new.items ≡ text.old.items ++ (if is_numbered byte then by_number byte else byte ∷ [])) }
{
    if is_numbered(byte) {
        return put_by_number(text, byte);
    }
    text.push(byte)?;
    Ok(())
}

fn is_numbered(byte: u8) -> bool
    ensures { result ≡ is_numbered byte }
{
    byte < b' ' || b'~' < byte
}

fn put_by_number(text: &mut Vec<u8>, byte: u8) -> Result<(), AllocError>
    ensures { OnOk result (text.new.items ≡ text.old.items ++ by_number byte) }
{
    text.extend_from_slice(b"\\u00")?;
    text.push(hexadecimal(byte / 16))?;
    text.push(hexadecimal(byte % 16))?;
    Ok(())
}

fn hexadecimal(digit: u8) -> u8
    requires { digit < 16 }
    ensures { result ≡ hexadecimal digit }
{
    if digit < 10 {
        b'0' + digit
    } else {
        b'a' - 10 + digit
    }
}
