ghost use Rattle.std.specs.Prelude.{◌≡◌, ◌++◌, IfOk, OnOk, map, option_map, string_bytes};
ghost use Rattle.gp_words.specs.Reading.{given_form};
ghost use Rattle.gp_words.specs.Value.{all_values_of, lent_texts, value_now, value_of, values_in};

use crate::argument::{Argument, Program};
use crate::reading::{Expected, Given, read_word};
use gp_base::Row;
use std::alloc::{AllocError, Global};

/// The value that the words of a program give an argument, where they give one. They are refused where
/// one of them is, where an option waits for a value at their end, and where the argument is given twice.
///
/// Each argument is looked up by a walk of its own, since the words are few and nothing is stored so.
pub fn value_of(words: &[String], program: Program, argument: Argument) -> Option<Option<&str>>
    ensures { option_map (option_map (λ value. value.now)) result ≡ value_of program argument (map string_bytes words.now) }
{
    let mut expected = Expected::AnyWord;
    let mut value = None;
    for word in words {
        let reading = read_word(program, expected, word.as_str())?;
        value = value_now(value, reading.given, argument)?;
        expected = reading.next;
    }
    match expected {
        Expected::ValueOf(_) => None,
        Expected::AnyWord | Expected::PlainWord => Some(value),
    }
}

/// The value so far, or the one that was given now; both are refused.
fn value_now<'a>(
    value: Option<&'a str>,
    given: Option<Given<'a>>,
    argument: Argument,
) -> Option<Option<&'a str>>
    ensures { option_map (option_map (λ value. value.now)) result ≡ value_now argument (option_map (λ value. value.now) value.entry) (option_map given_form given.entry) }
{
    match given {
        Some(given) if given.argument == argument => match value {
            None => Some(Some(given.value)),
            Some(_) => None,
        },
        _ => Some(value),
    }
}

/// All values that the words of a program give an argument, in order. The words are refused where one of them
/// is, and where an option waits for a value at their end.
pub fn all_values_of(
    alloc: Global,
    words: &[String],
    program: Program,
    argument: Argument,
) -> Result<Option<Row<&str>>, AllocError>
    ensures { IfOk result (λ values. option_map lent_texts values ≡ all_values_of program argument (map string_bytes words.now)) }
{
    let mut expected = Expected::AnyWord;
    let mut values = Row::new(alloc);
    for word in words {
        let Some(reading) = read_word(program, expected, word.as_str()) else {
            return Ok(None);
        };
        add_value(&mut values, reading.given, argument)?;
        expected = reading.next;
    }
    match expected {
        Expected::ValueOf(_) => Ok(None),
        Expected::AnyWord | Expected::PlainWord => Ok(Some(values)),
    }
}

/// Adds what was given, where it was given to this argument.
fn add_value<'a>(
    values: &mut Row<&'a str>,
    given: Option<Given<'a>>,
    argument: Argument,
) -> Result<(), AllocError>
    ensures { OnOk result (lent_texts values.new ≡ lent_texts values.old ++ values_in argument (option_map given_form given.entry)) }
{
    match given {
        Some(given) if given.argument == argument => values.push(given.value),
        _ => Ok(()),
    }
}
