ghost use Rattle.std.specs.Prelude.{◌≡◌, [], ◌∷◌, ◌++◌, OnOk, decimal};
ghost use Rattle.gp_text.specs.Spelling.{spelling};
ghost use Rattle.gp_trace.specs.Printed.{event_words};
ghost use Rattle.gp_make.specs.Texts.{told_event};

use crate::action::Action;
use gp_text::print_u64;
use std::alloc::AllocError;

/// Puts the line of what a thread did.
pub(crate) fn put_action(text: &mut Vec<u8>, action: Action) -> Result<(), AllocError>
    ensures { OnOk result (text.new.items ≡ text.old.items ++ spelling (event_words (told_event action) ∷ [])) }
{
    match action {
        Action::Start(thread) => put_number_line(text, b"start ", thread),
        Action::Use => text.extend_from_slice(b"op use o\n"),
        Action::Authorise => text.extend_from_slice(b"op auth o\n"),
        Action::Acquire(lock) => put_number_line(text, b"acquire l", lock),
        Action::Release(lock) => put_number_line(text, b"release l", lock),
        Action::Read(variable, value) => put_value_line(text, b"read v", variable, value),
        Action::Write(variable, value) => put_value_line(text, b"write v", variable, value),
    }
}

/// Puts a line that ends with a number.
pub(crate) fn put_number_line(
    text: &mut Vec<u8>,
    front: &[u8],
    number: u32,
) -> Result<(), AllocError>
    ensures { OnOk result (text.new.items ≡ text.old.items ++ (front.now ++ (decimal number ++ 10 ∷ []))) }
{
    text.extend_from_slice(front)?;
    print_u64(text, u64::from(number))?;
    text.push(b'\n')?;
    Ok(())
}

/// Puts a line that ends with the number of a variable and its value.
pub(crate) fn put_value_line(
    text: &mut Vec<u8>,
    front: &[u8],
    variable: u32,
    value: u32,
) -> Result<(), AllocError>
    ensures { OnOk result (text.new.items ≡ text.old.items ++ (front.now ++ ((decimal variable ++ 32 ∷ decimal value) ++ 10 ∷ []))) }
{
    text.extend_from_slice(front)?;
    print_u64(text, u64::from(variable))?;
    put_number_line(text, b" ", value)
}
