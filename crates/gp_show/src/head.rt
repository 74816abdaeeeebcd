ghost use Rattle.std.specs.Prelude.{◌≡◌, ◌≤◌, ◌++◌, ◌∷◌, [], Err, OnErr, OnOk};
ghost use Rattle.gp_outside.specs.Faults.{Rose};
ghost use Rattle.gp_outside.specs.Sinks.{Appends, AppendsFront};
ghost use Rattle.gp_overview.specs.Verdict.{verdict_words};
ghost use Rattle.gp_text.specs.Spelling.{spelling};
ghost use Rattle.gp_show.specs.Show.{before_text, head_text};
ghost use Rattle.gp_words.specs.Showing.{show_form};

use crate::left_out::add_left_out;
use crate::page::put_page_head;
use crate::shown::Shown;
use gp_checker::Checked;
use gp_outside::{PutFault, Sink};
use gp_overview::{put_table, put_table_part, put_verdict, put_verdict_part};
use gp_predict::{Submission, put_each_line};
use gp_report::WindowRecord;
use gp_sarif::put_log_head;
use gp_values::put_overview;
use gp_words::Style;
use std::alloc::{AllocError, Global};

/// Writes what stands before the instances: the verdict on a report, its table, and which files beside it are left out.
pub fn put_head<S: Sink>(alloc: Global, sink: &mut S, shown: &Shown<'_>) -> Result<(), PutFault>
    ensures later { S.faults sink.old ≤ S.faults sink.new }
    ensures ok { OnOk result (Appends (S.written sink.old) (S.written sink.new) (before_text (show_form shown.now.command).style shown.now.submission shown.now.noted shown.now.checked)) }
    ensures err { OnErr result (AppendsFront (S.written sink.old) (S.written sink.new) (before_text (show_form shown.now.command).style shown.now.submission shown.now.noted shown.now.checked)) }
    ensures failed { result ≡ Err PutFault.Failed → Rose (S.faults sink.old) (S.faults sink.new) }
{
    let mut text = Vec::new(alloc);
    add_before(&mut text, shown)?;
    put_each_line(sink, text.as_slice())
}

fn add_before(text: &mut Vec<u8>, shown: &Shown<'_>) -> Result<(), AllocError>
    ensures { OnOk result (text.new.items ≡ text.old.items ++ before_text (show_form shown.now.command).style shown.now.submission shown.now.noted shown.now.checked) }
{
    let style = shown.command.style;
    add_head(text, style, &shown.submission, shown.checked)?;
    add_left_out(text, style, shown.noted.left_out.as_slice())
}

fn add_head(
    text: &mut Vec<u8>,
    style: Style,
    submission: &Submission,
    checked: Checked,
) -> Result<(), AllocError>
    ensures { OnOk result (text.new.items ≡ text.old.items ++ head_text style submission.now checked) }
{
    match style {
        Style::Text => add_lines(text, submission, checked),
        Style::Page => add_parts(text, submission, checked),
        Style::Json => add_overview(text, submission, checked),
        Style::Sarif => add_log_head(text, submission, checked),
    }
}

fn add_lines(
    text: &mut Vec<u8>,
    submission: &Submission,
    checked: Checked,
) -> Result<(), AllocError>
    ensures { OnOk result (text.new.items ≡ text.old.items ++ head_text Style.Text submission.now checked) }
{
    let windows = submission.report.windows();
    add_verdict(text, windows, checked)?;
    put_table(text, submission.listing.properties.as_slice(), windows)
}

/// Puts the verdict, and an empty line.
fn add_verdict(
    text: &mut Vec<u8>,
    windows: &[WindowRecord],
    checked: Checked,
) -> Result<(), AllocError>
    ensures { OnOk result (text.new.items ≡ text.old.items ++ spelling (verdict_words windows.now checked ∷ [] ∷ [])) }
{
    put_verdict(text, windows, checked)?;
    text.push(b'\n')?;
    Ok(())
}

fn add_parts(
    text: &mut Vec<u8>,
    submission: &Submission,
    checked: Checked,
) -> Result<(), AllocError>
    ensures { OnOk result (text.new.items ≡ text.old.items ++ head_text Style.Page submission.now checked) }
{
    let windows = submission.report.windows();
    put_page_head(text)?;
    put_verdict_part(text, windows, checked)?;
    put_table_part(text, submission.listing.properties.as_slice(), windows)
}

fn add_overview(
    text: &mut Vec<u8>,
    submission: &Submission,
    checked: Checked,
) -> Result<(), AllocError>
    ensures { OnOk result (text.new.items ≡ text.old.items ++ head_text Style.Json submission.now checked) }
{
    let windows = submission.report.windows();
    put_overview(
        text,
        submission.listing.properties.as_slice(),
        windows,
        checked,
    )
}

fn add_log_head(
    text: &mut Vec<u8>,
    submission: &Submission,
    checked: Checked,
) -> Result<(), AllocError>
    ensures { OnOk result (text.new.items ≡ text.old.items ++ head_text Style.Sarif submission.now checked) }
{
    let windows = submission.report.windows();
    put_log_head(
        text,
        submission.listing.properties.as_slice(),
        windows,
        checked,
    )
}
