ghost use Rattle.std.specs.Prelude.{◌≡◌, [], ◌∷◌, ◌++◌, OnOk, decimal, map};
ghost use Rattle.gp_text.specs.Spelling.{after_words, spelling};
ghost use Rattle.gp_window.specs.Grammar.{value_words};

use gp_text::{print_i64, print_u64};
use gp_window::StartValue;
use std::alloc::AllocError;

/// Puts a line of a keyword and numbers.
#[tactic(auto, using(gp_text::specs::SpellingLaws::line_put))]
pub(crate) fn put_line(
    text: &mut Vec<u8>,
    keyword: &[u8],
    numbers: &[u32],
) -> Result<(), AllocError>
    ensures { OnOk result (text.new.items ≡ text.old.items ++ spelling ((keyword.now ∷ map decimal numbers.now) ∷ [])) }
{
    text.extend_from_slice(keyword)?;
    put_numbers(text, numbers)?;
    text.extend_from_slice(b"\n")
}

/// Puts numbers behind what stands in a line.
fn put_numbers(text: &mut Vec<u8>, numbers: &[u32]) -> Result<(), AllocError>
    ensures { OnOk result (text.new.items ≡ text.old.items ++ after_words (map decimal numbers.now)) }
{
    for number in numbers {
        text.extend_from_slice(b" ")?;
        print_u64(text, u64::from(*number))?;
    }
    Ok(())
}

/// Puts a line for each value.
pub(crate) fn put_values(text: &mut Vec<u8>, values: &[StartValue]) -> Result<(), AllocError>
    ensures { OnOk result (text.new.items ≡ text.old.items ++ spelling (map value_words values.now)) }
{
    for value in values {
        put_value(text, value)?;
    }
    Ok(())
}

fn put_value(text: &mut Vec<u8>, value: &StartValue) -> Result<(), AllocError>
    ensures { OnOk result (text.new.items ≡ text.old.items ++ spelling (value_words value.now ∷ [])) }
{
    text.extend_from_slice(b"value ")?;
    print_u64(text, u64::from(value.window))?;
    text.extend_from_slice(b" ")?;
    text.extend_from_slice(value.variable.as_bytes())?;
    text.extend_from_slice(b" ")?;
    print_i64(text, value.value)?;
    text.extend_from_slice(b"\n")
}
