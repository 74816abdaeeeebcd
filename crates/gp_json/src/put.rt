ghost use Rattle.std.specs.Prelude.{◌≡◌, ◌++◌, OnOk, decimal};
ghost use Rattle.gp_json.specs.Json.{comma, flag_text, name_text};
ghost use Rattle.gp_json.specs.Strings.{string_text};

use crate::string::put_string;
use gp_text::print_u64;
use std::alloc::AllocError;

/// Puts the comma that parts an element or a member from those before it, where there are any.
pub fn put_comma(text: &mut Vec<u8>, before: usize) -> Result<(), AllocError>
    ensures { OnOk result (text.new.items ≡ text.old.items ++ comma before) }
{
    match before {
        0 => Ok(()),
        _ => text.extend_from_slice(b","),
    }
}

/// Puts a truth value.
pub fn put_flag(text: &mut Vec<u8>, flag: bool) -> Result<(), AllocError>
    ensures { OnOk result (text.new.items ≡ text.old.items ++ flag_text flag) }
{
    match flag {
        true => text.extend_from_slice(b"true"),
        false => text.extend_from_slice(b"false"),
    }
}

/// Puts the name of a member before which so many others stand. Its value is to follow.
pub fn put_name(text: &mut Vec<u8>, before: usize, name: &[u8]) -> Result<(), AllocError>
    ensures { OnOk result (text.new.items ≡ text.old.items ++ (comma before ++ name_text name.now)) }
{
    put_comma(text, before)?;
    put_string(text, name)?;
    text.extend_from_slice(b":")
}

/// Puts a member that is a number.
pub fn put_named_number(
    text: &mut Vec<u8>,
    before: usize,
    name: &[u8],
    number: u64,
) -> Result<(), AllocError>
    ensures { OnOk result (text.new.items ≡ text.old.items ++ (comma before ++ name_text name.now ++ decimal number)) }
{
    put_name(text, before, name)?;
    print_u64(text, number)
}

/// Puts a member that is a number below 2^32.
pub fn put_named_small(
    text: &mut Vec<u8>,
    before: usize,
    name: &[u8],
    number: u32,
) -> Result<(), AllocError>
    ensures { OnOk result (text.new.items ≡ text.old.items ++ (comma before ++ name_text name.now ++ decimal number)) }
{
    put_named_number(text, before, name, u64::from(number))
}

/// Puts a member that is a string.
pub fn put_named_string(
    text: &mut Vec<u8>,
    before: usize,
    name: &[u8],
    bytes: &[u8],
) -> Result<(), AllocError>
    ensures { OnOk result (text.new.items ≡ text.old.items ++ (comma before ++ name_text name.now ++ string_text bytes.now)) }
{
    put_name(text, before, name)?;
    put_string(text, bytes)
}
