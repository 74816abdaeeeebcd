ghost use Rattle.std.specs.Prelude.{◌≡◌, ◌++◌, OnOk, map};
ghost use Rattle.gp_json.specs.Json.{elements_of, elements_text, json_text, members_of, members_text};
ghost use Rattle.gp_values.specs.Overview.{accepted_members, count_members, counted_value, counts_value, failed_instance, failed_property, failure_value, property_value, rejected_members, verdict_members, why_value};

use crate::sentence::{put_piece, put_sentence};
use gp_checker::{Checked, Failure, Reason};
use gp_json::{put_comma, put_flag, put_name, put_named_number, put_named_small, put_named_string};
use gp_overview::{Counts, answer_count, counts_of, put_reason, total_of};
use gp_property::Property;
use gp_report::WindowRecord;
use gp_text::print_u64;
use std::alloc::AllocError;

/// Puts the members that tell the verdict on a report of these windows, behind one other member.
pub(crate) fn put_verdict(
    text: &mut Vec<u8>,
    windows: &[WindowRecord],
    checked: Checked,
) -> Result<(), AllocError>
    ensures { OnOk result (text.new.items ≡ text.old.items ++ members_text 1 (members_of (verdict_members windows.now checked))) }
{
    match checked {
        Checked::Accepted => put_accepted(text, answer_count(windows)?),
        Checked::Rejected(failure) => put_rejected(text, failure),
    }
}

fn put_accepted(text: &mut Vec<u8>, answers: u64) -> Result<(), AllocError>
    ensures { OnOk result (text.new.items ≡ text.old.items ++ members_text 1 (members_of (accepted_members answers))) }
{
    put_name(text, 1, b"accepted")?;
    put_flag(text, true)?;
    put_named_number(text, 2, b"answers", answers)?;
    put_name(text, 3, b"failure")?;
    text.extend_from_slice(b"null")
}

fn put_rejected(text: &mut Vec<u8>, failure: Failure) -> Result<(), AllocError>
    ensures { OnOk result (text.new.items ≡ text.old.items ++ members_text 1 (members_of (rejected_members failure))) }
{
    put_name(text, 1, b"accepted")?;
    put_flag(text, false)?;
    put_name(text, 2, b"answers")?;
    text.extend_from_slice(b"null")?;
    put_name(text, 3, b"failure")?;
    put_failure(text, failure)
}

#[tactic(auto, unfolding(crate::specs::Overview::failure_value))]
fn put_failure(text: &mut Vec<u8>, failure: Failure) -> Result<(), AllocError>
    ensures { OnOk result (text.new.items ≡ text.old.items ++ json_text (failure_value failure)) }
{
    put_piece(text, b"{")?;
    put_named_small(text, 0, b"window", failure.window)?;
    put_name(text, 1, b"property")?;
    put_failed_property(text, failure)?;
    put_name(text, 2, b"instance")?;
    put_failed_instance(text, failure)?;
    put_name(text, 3, b"reason")?;
    put_why(text, failure.reason, failure.place)?;
    put_piece(text, b"}")?;
    Ok(())
}

fn put_failed_property(text: &mut Vec<u8>, failure: Failure) -> Result<(), AllocError>
    ensures { OnOk result (text.new.items ≡ text.old.items ++ json_text (failed_property failure.reason failure)) }
{
    match failure.reason {
        Reason::WindowCount | Reason::WrongSize | Reason::BadSharedStep => {
            text.extend_from_slice(b"null")
        }
        Reason::WrongProperty
        | Reason::WrongEvents
        | Reason::Stuck
        | Reason::Unmatched
        | Reason::BadStep
        | Reason::Unrefuted
        | Reason::WrongBudget => print_u64(text, u64::from(failure.property)),
    }
}

fn put_failed_instance(text: &mut Vec<u8>, failure: Failure) -> Result<(), AllocError>
    ensures { OnOk result (text.new.items ≡ text.old.items ++ json_text (failed_instance failure.reason failure)) }
{
    match failure.reason {
        Reason::WindowCount | Reason::WrongSize | Reason::BadSharedStep | Reason::WrongProperty =>
            text.extend_from_slice(b"null"),
        Reason::WrongEvents
        | Reason::Stuck
        | Reason::Unmatched
        | Reason::BadStep
        | Reason::Unrefuted
        | Reason::WrongBudget => print_u64(text, u64::from(failure.instance)),
    }
}

#[tactic(auto, using(crate::proofs::Sentences::reason_words_first))]
fn put_why(text: &mut Vec<u8>, reason: Reason, place: u64) -> Result<(), AllocError>
    ensures { OnOk result (text.new.items ≡ text.old.items ++ json_text (why_value reason place)) }
{
    let mut words = Vec::new(*text.allocator());
    put_reason(&mut words, reason, place)?;
    put_sentence(text, words.as_slice())
}

/// Puts the members that tell how often a report of these windows has which answer, behind four other members.
///
/// It looks at all that is told of any property for each property.
pub(crate) fn put_counts(
    text: &mut Vec<u8>,
    properties: &[Property],
    windows: &[WindowRecord],
) -> Result<(), AllocError>
    ensures { OnOk result (text.new.items ≡ text.old.items ++ members_text 4 (members_of (count_members properties.now windows.now))) }
{
    put_name(text, 4, b"properties")?;
    text.extend_from_slice(b"[")?;
    put_properties(text, properties, windows)?;
    text.extend_from_slice(b"]")?;
    put_name(text, 5, b"all")?;
    put_each_count(text, total_of(windows)?)
}

fn put_properties(
    text: &mut Vec<u8>,
    properties: &[Property],
    windows: &[WindowRecord],
) -> Result<(), AllocError>
    ensures { OnOk result (text.new.items ≡ text.old.items ++ elements_text 0 (elements_of (map (property_value windows.now) properties.now))) }
{
    for (before, property) in properties.iter().enumerate() {
        put_comma(text, before)?;
        put_property(text, property, windows)?;
    }
    Ok(())
}

fn put_property(
    text: &mut Vec<u8>,
    property: &Property,
    windows: &[WindowRecord],
) -> Result<(), AllocError>
    ensures { OnOk result (text.new.items ≡ text.old.items ++ json_text (property_value windows.now property.now)) }
{
    let counts = counts_of(windows, property.name())?;
    put_counted(text, property.name().as_bytes(), counts)
}

#[tactic(auto, unfolding(crate::specs::Overview::counted_value))]
fn put_counted(text: &mut Vec<u8>, name: &[u8], counts: Counts) -> Result<(), AllocError>
    ensures { OnOk result (text.new.items ≡ text.old.items ++ json_text (counted_value name.now counts)) }
{
    put_piece(text, b"{")?;
    put_named_string(text, 0, b"name", name)?;
    put_name(text, 1, b"counts")?;
    put_each_count(text, counts)?;
    put_piece(text, b"}")?;
    Ok(())
}

#[tactic(auto, unfolding(crate::specs::Overview::counts_value))]
fn put_each_count(text: &mut Vec<u8>, counts: Counts) -> Result<(), AllocError>
    ensures { OnOk result (text.new.items ≡ text.old.items ++ json_text (counts_value counts)) }
{
    text.extend_from_slice(b"{")?;
    put_named_number(text, 0, b"found", counts.found)?;
    put_named_number(text, 1, b"impossible", counts.impossible)?;
    put_named_number(text, 2, b"undecided", counts.undecided)?;
    put_named_number(text, 3, b"too_many", counts.too_many)?;
    put_named_number(text, 4, b"too_large", counts.too_large)?;
    text.extend_from_slice(b"}")?;
    Ok(())
}
