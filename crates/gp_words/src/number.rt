ghost use Rattle.std.specs.Prelude.{◌≡◌, ◌≤◌, IfSome, map, string_bytes};
ghost use Rattle.gp_text.specs.Numbers.{number_of};
ghost use Rattle.gp_words.specs.Command.{number_asked, number_given, number_in};
ghost use Rattle.gp_words.specs.declared.argument.Argument.TheVariants.{Seed};
ghost use Rattle.gp_words.specs.declared.argument.Program.TheVariants.{Gpredict};

use crate::argument::{Argument, Program};
use crate::value::value_of;
use gp_text::{between, read_u32, read_u64};

/// The seed where the words give none.
const USUAL_SEED: u64 = 1;

/// An option whose value is a number: its range, both ends included, and its value where none is given.
#[derive(Clone, Copy)]
pub struct Setting {
    pub option: Argument,
    pub low: u32,
    pub high: u32,
    pub usual: u32,
}

/// The number of an option that may be left out.
pub fn number(words: &[String], program: Program, setting: Setting) -> Option<u32>
    requires { (setting.low ≤ setting.usual) × (setting.usual ≤ setting.high) }
    ensures due { result ≡ number_given program setting.option (number_in setting.low setting.high) setting.usual (map string_bytes words.now) }
    ensures within { IfSome result (λ number. (setting.low ≤ number) × (number ≤ setting.high)) }
{
    match value_of(words, program, setting.option)? {
        None => Some(setting.usual),
        Some(digits) => between(setting.low, setting.high, read_u32(digits.as_bytes())),
    }
}

/// The number in this range, both ends included, that an option gives, where it is given.
pub fn number_asked(
    words: &[String],
    program: Program,
    option: Argument,
    low: u32,
    high: u32,
) -> Option<Option<u32>>
    ensures { result ≡ number_asked program option low high (map string_bytes words.now) }
{
    match value_of(words, program, option)? {
        None => Some(None),
        Some(digits) => between(low, high, read_u32(digits.as_bytes())).map(Some),
    }
}

/// The seed of gpredict, which may be any number of 64 bits.
pub fn seed(words: &[String]) -> Option<u64>
    ensures { result ≡ number_given Gpredict Seed number_of 1 (map string_bytes words.now) }
{
    match value_of(words, Program::Gpredict, Argument::Seed)? {
        None => Some(USUAL_SEED),
        Some(digits) => read_u64(digits.as_bytes()),
    }
}
