ghost use Rattle.std.specs.Prelude.{◌≡◌, ◌++◌, ◌∷◌, [], OnOk, map};
ghost use Rattle.gp_json.specs.Json.{elements_of, elements_text, json_text, members_of, members_text};
ghost use Rattle.gp_values.specs.Overview.{count_members, verdict_members};
ghost use Rattle.gp_values.specs.Report.{PiecesAreTheValue, counted_members, fault_value, instances_begun, instances_ended, left_out_member, overview_begun, report_ended, uncounted_members};

use crate::overview::{put_counts, put_verdict};
use gp_beside::{NoteFault, put_fault};
use gp_checker::Checked;
use gp_json::{put_comma, put_name, put_named_number, put_named_string, put_string};
use gp_property::Property;
use gp_report::WindowRecord;
use std::alloc::AllocError;

/// Puts the head of a report: the verdict, and how often each property has which answer.
#[tactic(auto, unfolding(crate::specs::Report::overview_begun))]
pub fn put_overview(
    text: &mut Vec<u8>,
    properties: &[Property],
    windows: &[WindowRecord],
    checked: Checked,
) -> Result<(), AllocError>
    ensures { OnOk result (text.new.items ≡ text.old.items ++ overview_begun properties.now windows.now checked) }
{
    text.extend_from_slice(b"{")?;
    put_named_string(text, 0, b"format", b"gpshow 1")?;
    put_told(text, properties, windows, checked)
}

/// Puts the verdict, and how often each property has which answer, behind the format.
#[tactic(auto, using(crate::proofs::Parts::behind_verdict))]
fn put_told(
    text: &mut Vec<u8>,
    properties: &[Property],
    windows: &[WindowRecord],
    checked: Checked,
) -> Result<(), AllocError>
    ensures { OnOk result (text.new.items ≡ text.old.items ++ members_text 1 (members_of (verdict_members windows.now checked ++ count_members properties.now windows.now))) }
{
    put_verdict(text, windows, checked)?;
    put_counts(text, properties, windows)
}

/// Puts which files beside a report are left out, and then the bracket that opens its instances.
#[tactic(auto, unfolding(crate::specs::Report::instances_begun))]
pub fn put_left_out(text: &mut Vec<u8>, faults: &[NoteFault]) -> Result<(), AllocError>
    ensures { OnOk result (text.new.items ≡ text.old.items ++ instances_begun faults.now) }
{
    put_faults(text, faults)?;
    put_name(text, 7, b"instances")?;
    text.extend_from_slice(b"[")
}

fn put_faults(text: &mut Vec<u8>, faults: &[NoteFault]) -> Result<(), AllocError>
    ensures { OnOk result (text.new.items ≡ text.old.items ++ members_text 6 (members_of (left_out_member faults.now ∷ []))) }
{
    put_name(text, 6, b"left_out")?;
    text.extend_from_slice(b"[")?;
    put_each_fault(text, faults)?;
    text.extend_from_slice(b"]")
}

fn put_each_fault(text: &mut Vec<u8>, faults: &[NoteFault]) -> Result<(), AllocError>
    ensures { OnOk result (text.new.items ≡ text.old.items ++ elements_text 0 (elements_of (map fault_value faults.now))) }
{
    for (before, fault) in faults.iter().enumerate() {
        put_comma(text, before)?;
        put_fault_string(text, *fault)?;
    }
    Ok(())
}

fn put_fault_string(text: &mut Vec<u8>, fault: NoteFault) -> Result<(), AllocError>
    ensures { OnOk result (text.new.items ≡ text.old.items ++ json_text (fault_value fault)) }
{
    let mut words = Vec::new(*text.allocator());
    put_fault(&mut words, fault)?;
    put_string(text, words.as_slice())
}

/// Puts the bracket that closes the instances, and how many of how many they are.
#[tactic(auto, unfolding(crate::specs::Report::instances_ended))]
pub fn put_counted(text: &mut Vec<u8>, shown: u64, asked: u64) -> Result<(), AllocError>
    ensures { OnOk result (text.new.items ≡ text.old.items ++ instances_ended (counted_members shown asked)) }
{
    text.extend_from_slice(b"]")?;
    put_named_number(text, 8, b"shown", shown)?;
    put_named_number(text, 9, b"asked", asked)
}

/// Puts the bracket that closes the instances, of which none is shown.
#[tactic(auto, unfolding(crate::specs::Report::instances_ended))]
pub fn put_uncounted(text: &mut Vec<u8>) -> Result<(), AllocError>
    ensures { OnOk result (text.new.items ≡ text.old.items ++ instances_ended uncounted_members) }
{
    text.extend_from_slice(b"]")?;
    put_name(text, 8, b"shown")?;
    text.extend_from_slice(b"null")?;
    put_name(text, 9, b"asked")?;
    text.extend_from_slice(b"null")
}

/// Puts the end of a report.
pub fn put_end(text: &mut Vec<u8>) -> Result<(), AllocError>
    ensures { OnOk result (text.new.items ≡ text.old.items ++ report_ended) }
{
    text.extend_from_slice(b"}\n")
}

/// The pieces of a report, one after another, are the text of one value.
pub fn pieces_are_the_value()
    ensures { PiecesAreTheValue }
{}
