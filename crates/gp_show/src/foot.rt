ghost use Rattle.std.specs.Prelude.{◌≡◌, ◌≤◌, ◌++◌, Err, OnErr, OnOk, min};
ghost use Rattle.gp_outside.specs.Faults.{Rose};
ghost use Rattle.gp_outside.specs.Sinks.{Appends, AppendsFront};
ghost use Rattle.gp_show.specs.Show.{foot_text, shown_text, shown_words, unshown_text};
ghost use Rattle.gp_text.specs.Spelling.{joined};

use crate::page::put_page_foot;
use gp_drawing::put_between;
use gp_outside::{PutFault, Sink};
use gp_predict::put_each_line;
use gp_values::{put_counted, put_end, put_uncounted};
use gp_words::Style;
use gp_writer::{put_word, put_words};
use std::alloc::{AllocError, Global};

/// Writes how many of the instances that are asked for are shown, where `most` are shown at most.
pub fn put_count<S: Sink>(
    alloc: Global,
    sink: &mut S,
    style: Style,
    most: u32,
    asked: u64,
) -> Result<(), PutFault>
    ensures later { S.faults sink.old ≤ S.faults sink.new }
    ensures ok { OnOk result (Appends (S.written sink.old) (S.written sink.new) (shown_text style (min most asked) asked)) }
    ensures err { OnErr result (AppendsFront (S.written sink.old) (S.written sink.new) (shown_text style (min most asked) asked)) }
    ensures failed { result ≡ Err PutFault.Failed → Rose (S.faults sink.old) (S.faults sink.new) }
{
    let mut text = Vec::new(alloc);
    add_count(alloc, &mut text, style, asked.min(u64::from(most)), asked)?;
    put_each_line(sink, text.as_slice())
}

fn add_count(
    alloc: Global,
    text: &mut Vec<u8>,
    style: Style,
    shown: u64,
    asked: u64,
) -> Result<(), AllocError>
    ensures { OnOk result (text.new.items ≡ text.old.items ++ shown_text style shown asked) }
{
    match style {
        Style::Text => add_count_lines(text, shown, asked),
        Style::Page => add_count_part(alloc, text, shown, asked),
        Style::Json => put_counted(text, shown, asked),
        Style::Sarif => gp_sarif::put_counted(text, shown, asked),
    }
}

fn add_count_lines(text: &mut Vec<u8>, shown: u64, asked: u64) -> Result<(), AllocError>
    ensures { OnOk result (text.new.items ≡ text.old.items ++ shown_text Style.Text shown asked) }
{
    text.push(b'\n')?;
    add_shown_words(text, shown, asked)?;
    text.push(b'\n')?;
    Ok(())
}

fn add_count_part(
    alloc: Global,
    text: &mut Vec<u8>,
    shown: u64,
    asked: u64,
) -> Result<(), AllocError>
    ensures { OnOk result (text.new.items ≡ text.old.items ++ shown_text Style.Page shown asked) }
{
    let mut words = Vec::new(alloc);
    add_shown_words(&mut words, shown, asked)?;
    put_between(text, b"<p>", words.as_slice(), b"</p>\n")
}

fn add_shown_words(text: &mut Vec<u8>, shown: u64, asked: u64) -> Result<(), AllocError>
    ensures { OnOk result (text.new.items ≡ text.old.items ++ joined (shown_words shown asked)) }
{
    text.extend_from_slice(b"shown")?;
    put_words(text, &[shown])?;
    put_word(text, b"of")?;
    put_words(text, &[asked])
}

/// Writes what stands in place of instances where the report is rejected.
pub fn put_unshown<S: Sink>(alloc: Global, sink: &mut S, style: Style) -> Result<(), PutFault>
    ensures later { S.faults sink.old ≤ S.faults sink.new }
    ensures ok { OnOk result (Appends (S.written sink.old) (S.written sink.new) (unshown_text style)) }
    ensures err { OnErr result (AppendsFront (S.written sink.old) (S.written sink.new) (unshown_text style)) }
    ensures failed { result ≡ Err PutFault.Failed → Rose (S.faults sink.old) (S.faults sink.new) }
{
    let mut text = Vec::new(alloc);
    add_unshown(&mut text, style)?;
    put_each_line(sink, text.as_slice())
}

fn add_unshown(text: &mut Vec<u8>, style: Style) -> Result<(), AllocError>
    ensures { OnOk result (text.new.items ≡ text.old.items ++ unshown_text style) }
{
    match style {
        Style::Text => Ok(()),
        Style::Page => Ok(()),
        Style::Json => put_uncounted(text),
        Style::Sarif => gp_sarif::put_uncounted(text),
    }
}

/// Writes what stands at the end.
pub fn put_foot<S: Sink>(alloc: Global, sink: &mut S, style: Style) -> Result<(), PutFault>
    ensures later { S.faults sink.old ≤ S.faults sink.new }
    ensures ok { OnOk result (Appends (S.written sink.old) (S.written sink.new) (foot_text style)) }
    ensures err { OnErr result (AppendsFront (S.written sink.old) (S.written sink.new) (foot_text style)) }
    ensures failed { result ≡ Err PutFault.Failed → Rose (S.faults sink.old) (S.faults sink.new) }
{
    let mut text = Vec::new(alloc);
    add_foot(&mut text, style)?;
    put_each_line(sink, text.as_slice())
}

fn add_foot(text: &mut Vec<u8>, style: Style) -> Result<(), AllocError>
    ensures { OnOk result (text.new.items ≡ text.old.items ++ foot_text style) }
{
    match style {
        Style::Text => Ok(()),
        Style::Page => put_page_foot(text),
        Style::Json => put_end(text),
        Style::Sarif => gp_sarif::put_end(text),
    }
}
