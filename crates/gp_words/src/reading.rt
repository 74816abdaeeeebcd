ghost use Rattle.std.specs.Prelude.{◌≡◌, None, option_map};
ghost use Rattle.gp_words.specs.Reading.{gives, is_hyphened, is_option_word, read_any, read_option, read_word, reading_form};
ghost use Rattle.gp_words.specs.declared.reading.Expected.TheVariants.{AnyWord, ValueOf};

use crate::argument::{Argument, Program, option_named};

/// What the next word may be.
#[derive(Clone, Copy)]
pub enum Expected {
    /// An option, a plain word, or the end of the options.
    AnyWord,
    /// The value of this option, whose name was the last word.
    ValueOf(Argument),
    /// A plain word, since the options have ended.
    PlainWord,
}

/// An option with its value, or a folder with the plain word that names it.
#[derive(Clone, Copy)]
pub struct Given<'a> {
    pub argument: Argument,
    pub value: &'a str,
}

/// What one word gives, and what may come after it.
#[derive(Clone, Copy)]
pub struct Reading<'a> {
    pub given: Option<Given<'a>>,
    pub next: Expected,
}

/// Reads one word of a program's command line. It is refused where it cannot come here.
pub fn read_word(program: Program, expected: Expected, word: &str) -> Option<Reading<'_>>
    ensures { option_map reading_form result ≡ read_word program expected word.now }
{
    match expected {
        Expected::AnyWord => read_any(program, word),
        Expected::ValueOf(_) if is_hyphened(word) => None,
        Expected::ValueOf(option) => Some(gives(option, word, Expected::AnyWord)),
        Expected::PlainWord => Some(gives(Argument::Folder, word, Expected::PlainWord)),
    }
}

fn read_any(program: Program, word: &str) -> Option<Reading<'_>>
    ensures { option_map reading_form result ≡ read_any program word.now }
{
    if word == "--" {
        Some(Reading {
            given: None,
            next: Expected::PlainWord,
        })
    } else if is_option_word(word) {
        read_option(program, word)
    } else {
        Some(gives(Argument::Folder, word, Expected::AnyWord))
    }
}

fn read_option(program: Program, word: &str) -> Option<Reading<'_>>
    ensures { option_map reading_form result ≡ read_option program word.now }
{
    match word.split_once('=') {
        Some((name, value)) => with_value(option_named(program, name), value),
        None => awaits_value(option_named(program, word)),
    }
}

fn with_value(option: Option<Argument>, value: &str) -> Option<Reading<'_>>
    ensures { option_map reading_form result ≡ option_map (λ option. gives option value.now AnyWord) option }
{
    Some(gives(option?, value, Expected::AnyWord))
}

fn awaits_value<'a>(option: Option<Argument>) -> Option<Reading<'a>>
    ensures { option_map reading_form result ≡ option_map (λ option. record { given = None; next = ValueOf option }) option }
{
    Some(Reading {
        given: None,
        next: Expected::ValueOf(option?),
    })
}

fn gives<'a>(argument: Argument, value: &'a str, next: Expected) -> Reading<'a>
    ensures { reading_form result ≡ gives argument value.now next }
{
    Reading {
        given: Some(Given { argument, value }),
        next,
    }
}

fn is_hyphened(word: &str) -> bool
    ensures { result ≡ is_hyphened word.now }
{
    match word.as_bytes() {
        [] => false,
        [first, ..] => *first == b'-',
    }
}

fn is_option_word(word: &str) -> bool
    ensures { result ≡ is_option_word word.now }
{
    match word.as_bytes() {
        [] | [_] => false,
        [first, _, ..] => *first == b'-',
    }
}
