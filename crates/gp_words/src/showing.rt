ghost use Rattle.std.specs.Prelude.{◌≡◌, map, option_map, string_bytes};
ghost use Rattle.gp_words.specs.Showing.{answer_named, answer_of, show_command_of, show_form, style_named, style_of};

use crate::argument::{Argument, Program};
use crate::command::{folder_asked, folder_of};
use crate::number::{Setting, number, number_asked};
use crate::value::value_of;

const MOST: Setting = Setting {
    option: Argument::Most,
    low: 1,
    high: 10_000,
    usual: 100,
};

/// How a report is shown.
#[derive(Clone, Copy, Debug, PartialEq, Eq)]
pub enum Style {
    /// As lines of text.
    Text,
    /// As one HTML page, which wants nothing from outside.
    Page,
    /// As one JSON value.
    Json,
    /// As a log of findings in SARIF, which is one JSON value too.
    Sarif,
}

/// What a report may answer of an instance.
#[derive(Clone, Copy, Debug, PartialEq, Eq)]
pub enum AnswerKind {
    Found,
    Impossible,
    Undecided,
}

/// What the words of a command line of gpshow ask for.
#[derive(Clone, Copy, PartialEq, Eq)]
pub struct ShowCommand<'a> {
    pub style: Style,
    /// The folder that holds the files.
    pub folder: &'a str,
    /// The directory in which the sources of the program lie, where that is said.
    pub source: Option<&'a str>,
    /// The window whose instances are shown; those of all windows, where it is `None`.
    pub window: Option<u32>,
    /// The property whose instances are shown, or all.
    pub property: Option<&'a str>,
    /// The number of the instances that are shown, or all.
    pub instance: Option<u32>,
    /// The answer of the instances that are shown, or any.
    pub answer: Option<AnswerKind>,
    /// How many instances are shown at most.
    pub most: u32,
}

/// The command that the words are. It is `None` exactly where they are refused.
pub fn show_command_of(words: &[String]) -> Option<ShowCommand<'_>>
    ensures { option_map show_form result ≡ show_command_of (map string_bytes words.now) }
{
    Some(ShowCommand {
        style: style_of(words)?,
        folder: folder_of(words, Program::Gpshow)?,
        source: folder_asked(words, Program::Gpshow, Argument::Source)?,
        window: number_asked(words, Program::Gpshow, Argument::Window, 1, 4096)?,
        property: value_of(words, Program::Gpshow, Argument::Property)?,
        instance: number_asked(words, Program::Gpshow, Argument::Instance, 0, 9999)?,
        answer: answer_of(words)?,
        most: number(words, Program::Gpshow, MOST)?,
    })
}

fn style_of(words: &[String]) -> Option<Style>
    ensures { result ≡ style_of (map string_bytes words.now) }
{
    match value_of(words, Program::Gpshow, Argument::As)? {
        None => Some(Style::Text),
        Some(name) => style_named(name),
    }
}

fn style_named(name: &str) -> Option<Style>
    ensures { result ≡ style_named name.now }
{
    match name {
        "text" => Some(Style::Text),
        "html" => Some(Style::Page),
        "json" => Some(Style::Json),
        "sarif" => Some(Style::Sarif),
        _ => None,
    }
}

fn answer_of(words: &[String]) -> Option<Option<AnswerKind>>
    ensures { result ≡ answer_of (map string_bytes words.now) }
{
    match value_of(words, Program::Gpshow, Argument::Answer)? {
        None => Some(None),
        Some(name) => answer_named(name).map(Some),
    }
}

fn answer_named(name: &str) -> Option<AnswerKind>
    ensures { result ≡ answer_named name.now }
{
    match name {
        "found" => Some(AnswerKind::Found),
        "impossible" => Some(AnswerKind::Impossible),
        "undecided" => Some(AnswerKind::Undecided),
        _ => None,
    }
}
