ghost use Rattle.std.specs.Prelude.{◌≡◌, ◌++◌, ◌+◌, OnOk, map};
ghost use Rattle.gp_json.specs.Json.{elements_of, elements_text, json_text};
ghost use Rattle.gp_sarif.specs.Log.{fault_value, is_accepted, notification_value, verdict_level, verdict_value};

use crate::message::put_message;
use gp_beside::{NoteFault, put_fault};
use gp_checker::Checked;
use gp_json::{put_comma, put_name, put_named_string};
use gp_overview::verdict_words;
use gp_report::WindowRecord;
use std::alloc::AllocError;

/// Puts the verdict on a report of these windows.
pub(crate) fn put_verdict(
    text: &mut Vec<u8>,
    windows: &[WindowRecord],
    checked: Checked,
) -> Result<(), AllocError>
    ensures { OnOk result (text.new.items ≡ text.old.items ++ json_text (verdict_value windows.now checked)) }
{
    let words = verdict_words(*text.allocator(), windows, checked)?;
    put_notification(text, verdict_level(checked), words.as_slice())
}

fn verdict_level(checked: Checked) -> &'static [u8]
    ensures { result.now ≡ verdict_level checked }
{
    match checked {
        Checked::Accepted => b"note",
        Checked::Rejected(_) => b"error",
    }
}

/// Whether a report is accepted.
pub(crate) fn is_accepted(checked: Checked) -> bool
    ensures { result ≡ is_accepted checked }
{
    match checked {
        Checked::Accepted => true,
        Checked::Rejected(_) => false,
    }
}

#[tactic(auto, unfolding(crate::specs::Log::notification_value))]
fn put_notification(text: &mut Vec<u8>, level: &[u8], words: &[u8]) -> Result<(), AllocError>
    ensures { OnOk result (text.new.items ≡ text.old.items ++ json_text (notification_value level.now words.now)) }
{
    text.extend_from_slice(b"{")?;
    put_named_string(text, 0, b"level", level)?;
    put_name(text, 1, b"message")?;
    put_message(text, words)?;
    text.extend_from_slice(b"}")
}

/// Puts which files beside a report are left out, behind one other element.
pub(crate) fn put_faults(text: &mut Vec<u8>, faults: &[NoteFault]) -> Result<(), AllocError>
    ensures { OnOk result (text.new.items ≡ text.old.items ++ elements_text 1 (elements_of (map fault_value faults.now))) }
{
    for (before, fault) in faults.iter().enumerate() {
        put_comma(text, before + 1)?;
        put_fault_notification(text, *fault)?;
    }
    Ok(())
}

fn put_fault_notification(text: &mut Vec<u8>, fault: NoteFault) -> Result<(), AllocError>
    ensures { OnOk result (text.new.items ≡ text.old.items ++ json_text (fault_value fault)) }
{
    let mut words = Vec::new(*text.allocator());
    put_fault(&mut words, fault)?;
    put_notification(text, b"warning", words.as_slice())
}
