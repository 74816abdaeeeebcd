ghost use Rattle.std.specs.Prelude.{◌≡◌, [], ◌∷◌, ◌++◌, IfOk, Ok, OnOk, codes, flat_map};
ghost use Rattle.gp_text.specs.Spelling.{after_words, spelling};
ghost use Rattle.gp_report.specs.Entries.{entries_of};
ghost use Rattle.gp_report.specs.Reading.{report_of};
ghost use Rattle.gp_report.specs.Telling.{IsWhole, without_records};
ghost use Rattle.gp_report.specs.Typed.{AreCounted};
ghost use Rattle.gp_report.specs.Printed.{answer_lines_of, count_word, entries_lines_of, instance_words, property_lines_of, report_lines, shared_lines, summary_words, window_body_lines_of, window_lines_of};

use crate::fit::windows_fit;
use crate::laws::reports_read_again;
use crate::record::{
    AnswerOf, EntryOf, PropertyBodyOf, PropertyRecordOf, WindowBodyOf, WindowRecordOf,
};
use crate::report::Report;
use crate::shows::Shows;
use crate::tally::tally_of;
use gp_base::Row;
use gp_certificate::Step;
use gp_writer::{put_line, put_numbered_line, put_steps, put_word, put_words};
use std::alloc::{AllocError, Global};

/// The text of a report: its lines of words, with one space between words and a newline after each line. It is read as the
/// report without its workers' records.
pub fn print_report(alloc: Global, report: &Report) -> Result<Row<u8>, AllocError>
    ensures text { IfOk result (λ text. text ≡ spelling (report_lines report.now)) }
    ensures whole { IfOk result (λ text. IsWhole report.now) }
    ensures again { IfOk result (λ text. report_of text ≡ Ok (without_records report.now)) }
{
    reports_read_again();
    let windows = report.windows();
    windows_fit(windows);
    let mut text = Vec::new(alloc);
    put_line(&mut text, b"gpredict", &[u64::from(report.format())])?;
    put_line(&mut text, b"budget", &[report.budget()])?;
    put_windows(&mut text, report.format(), windows)?;
    put_summary(&mut text, windows)?;
    Ok(Row::from_vec(text))
}

fn put_windows<S: Shows>(
    text: &mut Vec<u8>,
    format: u32,
    windows: &[WindowRecordOf<S>],
) -> Result<(), AllocError>
    ensures { OnOk result (text.new.items ≡ text.old.items ++ spelling (flat_map (window_lines_of S.lines format) windows.now)) }
{
    for window in windows {
        put_window(text, format, window)?;
    }
    Ok(())
}

/// Puts what a report of this format tells of a window.
pub fn put_window<S: Shows>(
    text: &mut Vec<u8>,
    format: u32,
    window: &WindowRecordOf<S>,
) -> Result<(), AllocError>
    ensures { OnOk result (text.new.items ≡ text.old.items ++ spelling (window_lines_of S.lines format window.now)) }
{
    put_line(text, b"window", &[window.number])?;
    put_window_body(text, format, window.shared.as_slice(), &window.body)
}

fn put_window_body<S: Shows>(
    text: &mut Vec<u8>,
    format: u32,
    shared: &[Step],
    body: &WindowBodyOf<S>,
) -> Result<(), AllocError>
    ensures { OnOk result (text.new.items ≡ text.old.items ++ spelling (window_body_lines_of S.lines format shared.now body.now)) }
{
    match body {
        WindowBodyOf::TooLarge { events, clauses } => {
            put_line(text, b"toolarge", &[*events, *clauses])
        }
        WindowBodyOf::Answers(properties) => {
            put_answers(text, format, shared, properties.as_slice())
        }
    }
}

#[tactic(auto, using(gp_writer::specs::LinesLaws::lines_put))]
fn put_answers<S: Shows>(
    text: &mut Vec<u8>,
    format: u32,
    shared: &[Step],
    properties: &[PropertyRecordOf<S>],
) -> Result<(), AllocError>
    ensures { OnOk result (text.new.items ≡ text.old.items ++ spelling (shared_lines format shared.now ++ flat_map (property_lines_of S.lines) properties.now)) }
{
    put_shared(text, format, shared)?;
    put_properties(text, properties)
}

fn put_shared(text: &mut Vec<u8>, format: u32, shared: &[Step]) -> Result<(), AllocError>
    ensures { OnOk result (text.new.items ≡ text.old.items ++ spelling (shared_lines format shared.now)) }
{
    if format != 2 {
        return Ok(());
    }
    put_steps(text, b"shared", shared)
}

fn put_properties<S: Shows>(
    text: &mut Vec<u8>,
    properties: &[PropertyRecordOf<S>],
) -> Result<(), AllocError>
    ensures { OnOk result (text.new.items ≡ text.old.items ++ spelling (flat_map (property_lines_of S.lines) properties.now)) }
{
    for property in properties {
        put_property(text, property)?;
    }
    Ok(())
}

fn put_property<S: Shows>(
    text: &mut Vec<u8>,
    property: &PropertyRecordOf<S>,
) -> Result<(), AllocError>
    ensures { OnOk result (text.new.items ≡ text.old.items ++ spelling (property_lines_of S.lines property.now)) }
{
    put_property_line(text, property)?;
    put_entries(text, property.body.entries())
}

fn put_property_line<S>(
    text: &mut Vec<u8>,
    property: &PropertyRecordOf<S>,
) -> Result<(), AllocError>
    ensures { OnOk result (text.new.items ≡ text.old.items ++ spelling ((codes "property" ∷ property.now.name ∷ count_word property.now.body ∷ []) ∷ [])) }
{
    text.extend_from_slice(b"property")?;
    put_word(text, property.name.as_bytes())?;
    put_count(text, &property.body)?;
    text.push(b'\n')?;
    Ok(())
}

fn put_count<S>(text: &mut Vec<u8>, body: &PropertyBodyOf<S>) -> Result<(), AllocError>
    ensures { OnOk result (text.new.items ≡ text.old.items ++ after_words (count_word body.now ∷ [])) }
{
    match body {
        PropertyBodyOf::TooMany => put_word(text, b"toomany"),
        PropertyBodyOf::Entries(entries) => put_words(text, &[entries.len() as u64]),
    }
}

fn put_entries<S: Shows>(text: &mut Vec<u8>, entries: &[EntryOf<S>]) -> Result<(), AllocError>
    ensures { OnOk result (text.new.items ≡ text.old.items ++ spelling (entries_lines_of S.lines 0 entries.now)) }
{
    for (number, entry) in entries.iter().enumerate() {
        put_entry(text, number as u64, entry)?;
    }
    Ok(())
}

fn put_entry<S: Shows>(
    text: &mut Vec<u8>,
    number: u64,
    entry: &EntryOf<S>,
) -> Result<(), AllocError>
    ensures { OnOk result (text.new.items ≡ text.old.items ++ spelling (instance_words number entry.now ∷ answer_lines_of S.lines entry.now.answer)) }
{
    put_numbered_line(text, b"instance", number, entry.events.as_slice())?;
    put_answer(text, &entry.answer)
}

fn put_answer<S: Shows>(text: &mut Vec<u8>, answer: &AnswerOf<S>) -> Result<(), AllocError>
    ensures { OnOk result (text.new.items ≡ text.old.items ++ spelling (answer_lines_of S.lines answer.now)) }
{
    match answer {
        AnswerOf::Found(shown) => shown.put(text),
        AnswerOf::Impossible(certificate) => {
            put_steps(text, b"impossible", certificate.steps.as_slice())
        }
        AnswerOf::Undecided { worker, from, to } => {
            put_line(text, b"undecided", &[*worker, *from, *to])
        }
    }
}

/// Puts the last line of a report: how many entries are found, impossible and undecided.
pub fn put_summary<S>(text: &mut Vec<u8>, windows: &[WindowRecordOf<S>]) -> Result<(), AllocError>
    ensures text { OnOk result (text.new.items ≡ text.old.items ++ spelling (summary_words (entries_of windows.now) ∷ [])) }
    ensures counted { OnOk result (AreCounted (entries_of windows.now)) }
{
    let tally = tally_of(windows)?;
    let counts = [tally.found, tally.impossible, tally.undecided];
    put_line(text, b"summary", &counts)
}
