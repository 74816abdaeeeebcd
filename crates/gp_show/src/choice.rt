ghost use Rattle.std.specs.Prelude.{◌≡◌, option_map};
ghost use Rattle.gp_show.specs.Choice.{asks, asks_answer, asks_in, asks_kind, asks_name, asks_number, is_found, is_told_in, kind_of, wants, wants_property, wants_window};
ghost use Rattle.gp_view.specs.Answered.{form_of};
ghost use Rattle.gp_words.specs.Showing.{show_form};

use gp_report::{Answer, PropertyRecord, WindowRecord};
use gp_text::Name;
use gp_view::Answered;
use gp_words::{AnswerKind, ShowCommand, Style};

/// A pass over a report. The first one tells of the instances that are found, and the second one of the others.
#[derive(Clone, Copy)]
pub enum Pass {
    Found,
    Others,
}

/// Whether an instance is asked for, and a pass tells of it.
pub fn asks_in(command: &ShowCommand<'_>, pass: Pass, answered: &Answered<'_>) -> bool
    ensures { result ≡ asks_in (show_form command.now) pass (form_of answered.now) }
{
    asks(command, answered) && is_told_in(pass, &answered.entry.answer)
}

/// Whether an instance is asked for.
fn asks(command: &ShowCommand<'_>, answered: &Answered<'_>) -> bool
    ensures { result ≡ asks (show_form command.now) (form_of answered.now) }
{
    asks_number(command.window, answered.encoded.window().number())
        && asks_name(command.property, answered.property.name())
        && asks_number(command.instance, answered.number)
        && asks_kind(command.answer, &answered.entry.answer)
        && asks_answer(command.style, &answered.entry.answer)
}

fn asks_number(asked: Option<u32>, number: u32) -> bool
    ensures { result ≡ asks_number asked number }
{
    match asked {
        None => true,
        Some(asked) => number == asked,
    }
}

fn asks_name(asked: Option<&str>, name: &Name) -> bool
    ensures { result ≡ asks_name (option_map (λ text. text.now) asked.entry) name.now }
{
    match asked {
        None => true,
        Some(asked) => name.as_bytes() == asked.as_bytes(),
    }
}

fn asks_kind(asked: Option<AnswerKind>, answer: &Answer) -> bool
    ensures { result ≡ asks_kind asked answer.now }
{
    match asked {
        None => true,
        Some(asked) => kind_of(answer) == asked,
    }
}

fn kind_of(answer: &Answer) -> AnswerKind
    ensures { result ≡ kind_of answer.now }
{
    match answer {
        Answer::Found(_) => AnswerKind::Found,
        Answer::Impossible(_) => AnswerKind::Impossible,
        Answer::Undecided { .. } => AnswerKind::Undecided,
    }
}

fn asks_answer(style: Style, answer: &Answer) -> bool
    ensures { result ≡ asks_answer style answer.now }
{
    match style {
        Style::Text | Style::Page | Style::Json => true,
        Style::Sarif => is_found(answer),
    }
}

/// Whether a window has an answer that may be asked for and that a pass tells of.
pub fn wants_window(command: &ShowCommand<'_>, pass: Pass, told: &WindowRecord) -> bool
    ensures { result ≡ wants_window (show_form command.now) pass told.now }
{
    told.body
        .properties()
        .iter()
        .any(|property| wants_property(command, pass, property))
}

fn wants_property(command: &ShowCommand<'_>, pass: Pass, property: &PropertyRecord) -> bool
    ensures { result ≡ wants_property (show_form command.now) pass property.now }
{
    property
        .body
        .entries()
        .iter()
        .any(|entry| wants(command, pass, &entry.answer))
}

fn wants(command: &ShowCommand<'_>, pass: Pass, answer: &Answer) -> bool
    ensures { result ≡ wants (show_form command.now) pass answer.now }
{
    asks_kind(command.answer, answer)
        && asks_answer(command.style, answer)
        && is_told_in(pass, answer)
}

fn is_told_in(pass: Pass, answer: &Answer) -> bool
    ensures { result ≡ is_told_in pass answer.now }
{
    match pass {
        Pass::Found => is_found(answer),
        Pass::Others => !is_found(answer),
    }
}

fn is_found(answer: &Answer) -> bool
    ensures { result ≡ is_found answer.now }
{
    match answer {
        Answer::Found(_) => true,
        Answer::Impossible(_) => false,
        Answer::Undecided { .. } => false,
    }
}
