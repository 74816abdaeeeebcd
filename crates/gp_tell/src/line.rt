ghost use Rattle.std.specs.Prelude.{◌≡◌, ◌+◌, ◌++◌, [], ◌∷◌, OnOk, decimal};

use gp_text::print_u64;
use std::alloc::AllocError;

/// Puts the number of a place: places count from 0, and numbers from 1. That of the last place of all, 2^64 - 1, is no `u64`.
pub fn put_number(text: &mut Vec<u8>, place: u64) -> Result<(), AllocError>
    ensures { OnOk result (text.new.items ≡ text.old.items ++ decimal (place + 1)) }
{
    let Some(number) = place.checked_add(1) else {
        text.extend_from_slice(b"18446744073709551616")?;
        return Ok(());
    };
    print_u64(text, number)
}

/// Ends the line.
pub(crate) fn end_line(text: &mut Vec<u8>) -> Result<(), AllocError>
    ensures { OnOk result (text.new.items ≡ text.old.items ++ 10 ∷ []) }
{
    text.push(b'\n')?;
    Ok(())
}
