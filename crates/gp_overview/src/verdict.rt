ghost use Rattle.std.specs.Prelude.{◌≡◌, ◌++◌, ◌∷◌, [], IfOk, OnOk, codes, decimal, length};
ghost use Rattle.gp_report.specs.Entries.{entries_of};
ghost use Rattle.gp_text.specs.Spelling.{after_words, joined, spelling};
ghost use Rattle.gp_overview.specs.Verdict.{instance_words, place_words, property_words, reason_words, rejected_words, verdict_words, window_words};

use crate::counting::answer_count;
use gp_checker::{Checked, Failure, Reason};
use gp_report::WindowRecord;
use gp_text::print_u64;
use gp_writer::{put_word, put_words};
use std::alloc::{AllocError, Global};

/// Puts the verdict on a report of these windows as a line.
pub fn put_verdict(
    text: &mut Vec<u8>,
    windows: &[WindowRecord],
    checked: Checked,
) -> Result<(), AllocError>
    ensures { OnOk result (text.new.items ≡ text.old.items ++ spelling (verdict_words windows.now checked ∷ [])) }
{
    put_verdict_words(text, windows, checked)?;
    text.push(b'\n')?;
    Ok(())
}

/// The verdict on a report of these windows.
pub fn verdict_words(
    alloc: Global,
    windows: &[WindowRecord],
    checked: Checked,
) -> Result<Vec<u8>, AllocError>
    ensures { IfOk result (λ words. words.items ≡ joined (verdict_words windows.now checked)) }
{
    let mut words = Vec::new(alloc);
    put_verdict_words(&mut words, windows, checked)?;
    Ok(words)
}

fn put_verdict_words(
    text: &mut Vec<u8>,
    windows: &[WindowRecord],
    checked: Checked,
) -> Result<(), AllocError>
    ensures { OnOk result (text.new.items ≡ text.old.items ++ joined (verdict_words windows.now checked)) }
{
    match checked {
        Checked::Accepted => put_accepted(text, answer_count(windows)?),
        Checked::Rejected(failure) => put_rejected(text, failure),
    }
}

fn put_accepted(text: &mut Vec<u8>, answers: u64) -> Result<(), AllocError>
    ensures { OnOk result (text.new.items ≡ text.old.items ++ joined (codes "the report is accepted, answers:" ∷ decimal answers ∷ [])) }
{
    text.extend_from_slice(b"the report is accepted, answers: ")?;
    print_u64(text, answers)
}

fn put_rejected(text: &mut Vec<u8>, failure: Failure) -> Result<(), AllocError>
    ensures { OnOk result (text.new.items ≡ text.old.items ++ joined (rejected_words failure)) }
{
    text.extend_from_slice(b"the report is rejected at")?;
    put_place(text, failure)?;
    put_cause(text, failure.reason, failure.place)
}

// Puts at what the report fails.
fn put_place(text: &mut Vec<u8>, failure: Failure) -> Result<(), AllocError>
    ensures { OnOk result (text.new.items ≡ text.old.items ++ after_words (place_words failure.reason failure)) }
{
    match failure.reason {
        Reason::WindowCount | Reason::WrongSize | Reason::BadSharedStep => {
            put_window(text, failure)
        }
        Reason::WrongProperty => put_property(text, failure),
        Reason::WrongEvents
        | Reason::Stuck
        | Reason::Unmatched
        | Reason::BadStep
        | Reason::Unrefuted
        | Reason::WrongBudget => put_instance(text, failure),
    }
}

fn put_window(text: &mut Vec<u8>, failure: Failure) -> Result<(), AllocError>
    ensures { OnOk result (text.new.items ≡ text.old.items ++ after_words (window_words failure)) }
{
    put_numbered(text, b"window", u64::from(failure.window))
}

#[tactic(auto, using(crate::proofs::Told::words_put))]
fn put_property(text: &mut Vec<u8>, failure: Failure) -> Result<(), AllocError>
    ensures { OnOk result (text.new.items ≡ text.old.items ++ after_words (property_words failure)) }
{
    put_window(text, failure)?;
    put_numbered(text, b"property", u64::from(failure.property))
}

#[tactic(auto, using(crate::proofs::Told::words_put))]
fn put_instance(text: &mut Vec<u8>, failure: Failure) -> Result<(), AllocError>
    ensures { OnOk result (text.new.items ≡ text.old.items ++ after_words (instance_words failure)) }
{
    put_property(text, failure)?;
    put_numbered(text, b"instance", u64::from(failure.instance))
}

// Puts why it fails there.
#[tactic(auto, using(crate::proofs::Told::words_put))]
fn put_cause(text: &mut Vec<u8>, reason: Reason, place: u64) -> Result<(), AllocError>
    ensures { OnOk result (text.new.items ≡ text.old.items ++ after_words (codes "since" ∷ reason_words reason place)) }
{
    put_word(text, b"since")?;
    put_reason(text, reason, place)
}

/// Puts why a report fails, as phrases behind what stands in the line.
pub fn put_reason(text: &mut Vec<u8>, reason: Reason, place: u64) -> Result<(), AllocError>
    ensures { OnOk result (text.new.items ≡ text.old.items ++ after_words (reason_words reason place)) }
{
    match reason {
        Reason::WindowCount => put_word(
            text,
            b"the report has not as many windows as the recording",
        ),
        Reason::WrongSize => put_word(
            text,
            b"it is told as too large and is not, or the reverse, or with other numbers",
        ),
        Reason::WrongProperty => put_word(
            text,
            b"it is missing or surplus, has another name, or has not an entry for each of its instances",
        ),
        Reason::WrongEvents => put_word(text, b"its events are not those of the instance"),
        Reason::Stuck => put_numbered(text, b"its schedule cannot go on at place", place),
        Reason::Unmatched => put_word(text, b"its schedule can happen and does not show it"),
        Reason::BadStep => put_numbered(text, b"its certificate does not follow at step", place),
        Reason::Unrefuted => put_word(text, b"its certificate ends in no contradiction"),
        Reason::WrongBudget => put_word(
            text,
            b"it is undecided with another budget than the report has",
        ),
        Reason::BadSharedStep => {
            put_numbered(text, b"its shared steps do not follow at step", place)
        }
    }
}

fn put_numbered(text: &mut Vec<u8>, word: &[u8], number: u64) -> Result<(), AllocError>
    ensures { OnOk result (text.new.items ≡ text.old.items ++ after_words (word.now ∷ decimal number ∷ [])) }
{
    put_word(text, word)?;
    put_words(text, &[number])
}
