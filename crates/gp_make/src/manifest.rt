ghost use Rattle.std.specs.Prelude.{◌≡◌, [], ◌∷◌, ◌++◌, IfOk, OnOk};
ghost use Rattle.gp_text.specs.Spelling.{spelling};
ghost use Rattle.gp_make.specs.Texts.{change_lines, changes_lines, head_lines, value_words};

use crate::lines::{put_number_line, put_value_line};
use crate::program::VARIABLES;
use gp_text::print_u64;
use std::alloc::{AllocError, Global};

/// The lines of a manifest that come before its values.
pub(crate) fn manifest_head(
    alloc: Global,
    threads: u32,
    windows: u32,
) -> Result<Vec<u8>, AllocError>
    ensures { IfOk result (λ text. text.items ≡ spelling (head_lines threads windows)) }
{
    let mut text = Vec::from_slice(alloc, b"gptrace 1\n")?;
    put_number_line(&mut text, b"threads ", threads)?;
    put_number_line(&mut text, b"epochs ", windows)?;
    text.extend_from_slice(b"roots 1\n")?;
    Ok(text)
}

/// Puts a line for each variable whose value at the beginning of this window is not the one before.
pub(crate) fn put_changes(
    text: &mut Vec<u8>,
    window: u32,
    before: &[u32; VARIABLES],
    values: &[u32; VARIABLES],
) -> Result<(), AllocError>
    ensures { OnOk result (text.new.items ≡ text.old.items ++ spelling (changes_lines window before.now values.now)) }
{
    for variable in 0..VARIABLES {
        put_change(
            text,
            window,
            variable as u32,
            before[variable],
            values[variable],
        )?;
    }
    Ok(())
}

// Puts a line for a variable, where its value is not the one before.
fn put_change(
    text: &mut Vec<u8>,
    window: u32,
    variable: u32,
    before: u32,
    value: u32,
) -> Result<(), AllocError>
    ensures { OnOk result (text.new.items ≡ text.old.items ++ spelling (change_lines window variable before value)) }
{
    if before == value {
        return Ok(());
    }
    put_value(text, window, variable, value)
}

fn put_value(text: &mut Vec<u8>, window: u32, variable: u32, value: u32) -> Result<(), AllocError>
    ensures { OnOk result (text.new.items ≡ text.old.items ++ spelling (value_words window variable value ∷ [])) }
{
    text.extend_from_slice(b"value ")?;
    print_u64(text, u64::from(window))?;
    put_value_line(text, b" v", variable, value)
}
