ghost use Rattle.std.specs.Prelude.{◌≡◌, [], ◌∷◌, ◌++◌, IfOk, OnOk, codes, decimal, flat_map};
ghost use Rattle.gp_report.specs.Entries.{entries_of};
ghost use Rattle.gp_report.specs.Printed.{summary_words};
ghost use Rattle.gp_text.specs.Spelling.{spelling};
ghost use Rattle.gp_window.specs.EventIds.{event_id_text};
ghost use Rattle.gp_notified.specs.Printed.{notified_lines, told_lines, wake_of, window_lines};

use crate::paired::Paired;
use crate::report::{NotifyReport, Unpaired};
use gp_base::Row;
use gp_report::{WindowRecordOf, put_summary, put_window};
use gp_window::EventId;
use gp_writer::put_line;
use std::alloc::{AllocError, Global};

/// The text of a report: its lines of words, with one space between words and a newline after each line.
#[tactic(auto, using(gp_writer::specs::LinesLaws::lines_put))]
pub fn print_notified(alloc: Global, report: &NotifyReport) -> Result<Row<u8>, AllocError>
    ensures { IfOk result (λ text. text ≡ spelling (notified_lines report.now)) }
{
    let mut text = Vec::new(alloc);
    put_head(&mut text, report.budget)?;
    put_body(
        &mut text,
        report.unpaired.as_slice(),
        report.windows.as_slice(),
    )?;
    Ok(Row::from_vec(text))
}

#[tactic(auto, using(gp_writer::specs::LinesLaws::lines_put))]
fn put_head(text: &mut Vec<u8>, budget: u64) -> Result<(), AllocError>
    ensures { OnOk result (text.new.items ≡ text.old.items ++ spelling ((codes "gpnotify" ∷ decimal 1 ∷ []) ∷ (codes "budget" ∷ decimal budget ∷ []) ∷ [])) }
{
    put_line(text, b"gpnotify", &[1u64])?;
    put_line(text, b"budget", &[budget])
}

#[tactic(auto, using(gp_writer::specs::LinesLaws::lines_put))]
fn put_body(
    text: &mut Vec<u8>,
    unpaired: &[Unpaired],
    windows: &[WindowRecordOf<Paired>],
) -> Result<(), AllocError>
    ensures { OnOk result (text.new.items ≡ text.old.items ++ spelling (flat_map (window_lines unpaired.now) windows.now ++ summary_words (entries_of windows.now) ∷ [])) }
{
    put_windows(text, unpaired, windows)?;
    put_summary(text, windows)
}

fn put_windows(
    text: &mut Vec<u8>,
    unpaired: &[Unpaired],
    windows: &[WindowRecordOf<Paired>],
) -> Result<(), AllocError>
    ensures { OnOk result (text.new.items ≡ text.old.items ++ spelling (flat_map (window_lines unpaired.now) windows.now)) }
{
    for window in windows {
        put_told(text, window, wake_of(window.number, unpaired))?;
    }
    Ok(())
}

fn put_told(
    text: &mut Vec<u8>,
    window: &WindowRecordOf<Paired>,
    unpaired: Option<EventId>,
) -> Result<(), AllocError>
    ensures { OnOk result (text.new.items ≡ text.old.items ++ spelling (told_lines window.now unpaired)) }
{
    match unpaired {
        None => put_window(text, 1, window),
        Some(wake) => put_unpaired(text, window.number, wake),
    }
}

#[tactic(auto, using(gp_writer::specs::LinesLaws::lines_put))]
fn put_unpaired(text: &mut Vec<u8>, number: u32, wake: EventId) -> Result<(), AllocError>
    ensures { OnOk result (text.new.items ≡ text.old.items ++ spelling ((codes "window" ∷ decimal number ∷ []) ∷ (codes "unpaired" ∷ event_id_text wake ∷ []) ∷ [])) }
{
    put_line(text, b"window", &[number])?;
    put_line(text, b"unpaired", &[wake])
}

/// The wake for which the window of this number is left out.
fn wake_of(number: u32, unpaired: &[Unpaired]) -> Option<EventId>
    ensures { result ≡ wake_of number unpaired.now }
{
    for one in unpaired {
        if one.window == number {
            return Some(one.wake);
        }
    }
    None
}
