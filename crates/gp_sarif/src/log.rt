ghost use Rattle.std.specs.Prelude.{◌≡◌, ◌++◌, ◌∷◌, [], OnOk, codes, map};
ghost use Rattle.gp_json.specs.Json.{elements_of, elements_text, flag_text, json_text, members_of, members_text, named};
ghost use Rattle.gp_sarif.specs.Log.{PiecesAreTheLog, count_value, counted_members, format_begun, invocation_begun, is_accepted, log_begun, log_ended, results_begun, results_ended, rule_value, tool_value};

use crate::message::put_piece;
use crate::notification::{is_accepted, put_faults, put_verdict};
use gp_beside::NoteFault;
use gp_checker::Checked;
use gp_json::{put_comma, put_flag, put_name, put_named_number, put_named_string};
use gp_property::Property;
use gp_report::WindowRecord;
use std::alloc::AllocError;

/// Puts the head of a log: the format, a rule for each property, and the verdict.
#[tactic(auto, unfolding(crate::specs::Log::log_begun))]
pub fn put_log_head(
    text: &mut Vec<u8>,
    properties: &[Property],
    windows: &[WindowRecord],
    checked: Checked,
) -> Result<(), AllocError>
    ensures { OnOk result (text.new.items ≡ text.old.items ++ log_begun properties.now windows.now checked) }
{
    put_format(text)?;
    put_name(text, 0, b"tool")?;
    put_tool(text, properties)?;
    put_invocation(text, checked)?;
    put_verdict(text, windows, checked)
}

#[tactic(auto, unfolding(crate::specs::Log::format_begun))]
fn put_format(text: &mut Vec<u8>) -> Result<(), AllocError>
    ensures { OnOk result (text.new.items ≡ text.old.items ++ format_begun) }
{
    put_piece(text, b"{")?;
    put_named_string(
        text,
        0,
        b"$schema",
        b"https://json.schemastore.org/sarif-2.1.0.json",
    )?;
    put_named_string(text, 1, b"version", b"2.1.0")?;
    put_name(text, 2, b"runs")?;
    put_piece(text, b"[{")?;
    Ok(())
}

#[tactic(auto, unfolding(crate::specs::Log::tool_value))]
fn put_tool(text: &mut Vec<u8>, properties: &[Property]) -> Result<(), AllocError>
    ensures { OnOk result (text.new.items ≡ text.old.items ++ json_text (tool_value properties.now)) }
{
    put_piece(text, b"{")?;
    put_name(text, 0, b"driver")?;
    put_piece(text, b"{")?;
    put_named_string(text, 0, b"name", b"gpshow")?;
    put_name(text, 1, b"rules")?;
    put_piece(text, b"[")?;
    put_rules(text, properties)?;
    put_piece(text, b"]}}")?;
    Ok(())
}

fn put_rules(text: &mut Vec<u8>, properties: &[Property]) -> Result<(), AllocError>
    ensures { OnOk result (text.new.items ≡ text.old.items ++ elements_text 0 (elements_of (map rule_value properties.now))) }
{
    for (before, property) in properties.iter().enumerate() {
        put_comma(text, before)?;
        put_rule(text, property)?;
    }
    Ok(())
}

#[tactic(auto, unfolding(crate::specs::Log::rule_value))]
fn put_rule(text: &mut Vec<u8>, property: &Property) -> Result<(), AllocError>
    ensures { OnOk result (text.new.items ≡ text.old.items ++ json_text (rule_value property.now)) }
{
    text.extend_from_slice(b"{")?;
    put_named_string(text, 0, b"id", property.name().as_bytes())?;
    text.extend_from_slice(b"}")
}

/// Puts how a run went, up to its notifications.
#[tactic(auto, unfolding(crate::specs::Log::invocation_begun))]
fn put_invocation(text: &mut Vec<u8>, checked: Checked) -> Result<(), AllocError>
    ensures { OnOk result (text.new.items ≡ text.old.items ++ invocation_begun checked) }
{
    put_name(text, 1, b"invocations")?;
    put_piece(text, b"[{")?;
    put_name(text, 0, b"executionSuccessful")?;
    put_success(text, checked)?;
    put_name(text, 1, b"toolExecutionNotifications")?;
    put_piece(text, b"[")?;
    Ok(())
}

/// Puts whether a report is accepted.
fn put_success(text: &mut Vec<u8>, checked: Checked) -> Result<(), AllocError>
    ensures { OnOk result (text.new.items ≡ text.old.items ++ flag_text (is_accepted checked)) }
{
    put_flag(text, is_accepted(checked))
}

/// Puts which files beside a report are left out, and then the bracket that opens its results.
#[tactic(auto, unfolding(crate::specs::Log::results_begun))]
pub fn put_left_out(text: &mut Vec<u8>, faults: &[NoteFault]) -> Result<(), AllocError>
    ensures { OnOk result (text.new.items ≡ text.old.items ++ results_begun faults.now) }
{
    put_faults(text, faults)?;
    text.extend_from_slice(b"]}]")?;
    put_name(text, 2, b"results")?;
    text.extend_from_slice(b"[")
}

/// Puts the bracket that closes the results, and how many of how many they are.
#[tactic(auto, unfolding(crate::specs::Log::results_ended))]
pub fn put_counted(text: &mut Vec<u8>, shown: u64, asked: u64) -> Result<(), AllocError>
    ensures { OnOk result (text.new.items ≡ text.old.items ++ results_ended (counted_members shown asked)) }
{
    text.extend_from_slice(b"]")?;
    put_name(text, 3, b"properties")?;
    put_count(text, shown, asked)
}

#[tactic(auto, unfolding(crate::specs::Log::count_value))]
fn put_count(text: &mut Vec<u8>, shown: u64, asked: u64) -> Result<(), AllocError>
    ensures { OnOk result (text.new.items ≡ text.old.items ++ json_text (count_value shown asked)) }
{
    text.extend_from_slice(b"{")?;
    put_named_number(text, 0, b"shown", shown)?;
    put_named_number(text, 1, b"asked", asked)?;
    text.extend_from_slice(b"}")
}

/// Puts the bracket that closes the results, of which none is shown.
#[tactic(auto, unfolding(crate::specs::Log::results_ended))]
pub fn put_uncounted(text: &mut Vec<u8>) -> Result<(), AllocError>
    ensures { OnOk result (text.new.items ≡ text.old.items ++ results_ended []) }
{
    text.extend_from_slice(b"]")
}

/// Puts the end of a log.
pub fn put_end(text: &mut Vec<u8>) -> Result<(), AllocError>
    ensures { OnOk result (text.new.items ≡ text.old.items ++ log_ended) }
{
    text.extend_from_slice(b"}]}\n")
}

/// The pieces of a log, one after another, are the text of one value.
pub fn pieces_are_the_log()
    ensures { PiecesAreTheLog }
{}
