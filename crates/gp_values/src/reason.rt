ghost use Rattle.std.specs.Prelude.{◌≡◌, ◌∷◌, ◌++◌, [], OnOk, map};
ghost use Rattle.gp_json.specs.Json.{array, elements_of, elements_text, json_text};
ghost use Rattle.gp_place.specs.Places.{named};
ghost use Rattle.gp_tell.specs.Naming.{name_by};
ghost use Rattle.gp_values.specs.Reasons.{cycle_value, cycle_values, fact_value, ground_value, reason_value, says_value, step_value};

use crate::sentence::{put_piece, put_sentence};
use gp_json::{put_comma, put_name, put_string};
use gp_place::Places;
use gp_reason::{Fact, Ground, Reason, ReasonStep};
use gp_tell::{Naming, put_any, put_cycle_words, put_fact, put_ground_words};
use gp_window::EventId;
use std::alloc::AllocError;

/// Puts a reason of the window of this number. An event has its place in parentheses behind its id.
#[tactic(auto, unfolding(gp_tell::specs::Naming::name_by))]
pub(crate) fn put_reason(
    text: &mut Vec<u8>,
    places: &Places,
    window: u32,
    reason: &Reason,
) -> Result<(), AllocError>
    ensures { OnOk result (text.new.items ≡ text.old.items ++ json_text (reason_value (named places.now window) reason.now)) }
{
    put_named_reason(text, &Naming { places, window }, reason)
}

#[tactic(auto, unfolding(crate::specs::Reasons::reason_value))]
fn put_named_reason(
    text: &mut Vec<u8>,
    naming: &Naming<'_>,
    reason: &Reason,
) -> Result<(), AllocError>
    ensures { OnOk result (text.new.items ≡ text.old.items ++ json_text (reason_value (name_by naming.now) reason.now)) }
{
    put_piece(text, b"{")?;
    put_name(text, 0, b"assumed")?;
    put_assumed(text, naming, reason)?;
    put_name(text, 1, b"steps")?;
    put_steps(text, naming, reason)?;
    put_piece(text, b"}")?;
    Ok(())
}

fn put_assumed(text: &mut Vec<u8>, naming: &Naming<'_>, reason: &Reason) -> Result<(), AllocError>
    ensures { OnOk result (text.new.items ≡ text.old.items ++ json_text (array (map (fact_value (name_by naming.now)) reason.now.assumed))) }
{
    text.extend_from_slice(b"[")?;
    put_facts(text, naming, reason.assumed.as_slice())?;
    text.extend_from_slice(b"]")
}

fn put_steps(text: &mut Vec<u8>, naming: &Naming<'_>, reason: &Reason) -> Result<(), AllocError>
    ensures { OnOk result (text.new.items ≡ text.old.items ++ json_text (array (map (step_value (name_by naming.now)) reason.now.steps))) }
{
    text.extend_from_slice(b"[")?;
    put_each_step(text, naming, reason.steps.as_slice())?;
    text.extend_from_slice(b"]")
}

fn put_facts(text: &mut Vec<u8>, naming: &Naming<'_>, facts: &[Fact]) -> Result<(), AllocError>
    ensures { OnOk result (text.new.items ≡ text.old.items ++ elements_text 0 (elements_of (map (fact_value (name_by naming.now)) facts.now))) }
{
    for (before, fact) in facts.iter().enumerate() {
        put_comma(text, before)?;
        put_fact_string(text, naming, fact)?;
    }
    Ok(())
}

fn put_fact_string(text: &mut Vec<u8>, naming: &Naming<'_>, fact: &Fact) -> Result<(), AllocError>
    ensures { OnOk result (text.new.items ≡ text.old.items ++ json_text (fact_value (name_by naming.now) fact.now)) }
{
    let mut words = Vec::new(*text.allocator());
    put_fact(&mut words, naming, fact)?;
    put_string(text, words.as_slice())
}

fn put_each_step(
    text: &mut Vec<u8>,
    naming: &Naming<'_>,
    steps: &[ReasonStep],
) -> Result<(), AllocError>
    ensures { OnOk result (text.new.items ≡ text.old.items ++ elements_text 0 (elements_of (map (step_value (name_by naming.now)) steps.now))) }
{
    for (before, step) in steps.iter().enumerate() {
        put_comma(text, before)?;
        put_step(text, naming, step)?;
    }
    Ok(())
}

#[tactic(auto, unfolding(crate::specs::Reasons::step_value))]
fn put_step(text: &mut Vec<u8>, naming: &Naming<'_>, step: &ReasonStep) -> Result<(), AllocError>
    ensures { OnOk result (text.new.items ≡ text.old.items ++ json_text (step_value (name_by naming.now) step.now)) }
{
    text.extend_from_slice(b"{")?;
    put_name(text, 0, b"says")?;
    put_says(text, naming, step.says.as_slice())?;
    put_name(text, 1, b"since")?;
    text.extend_from_slice(b"[")?;
    put_basis(text, naming, step)?;
    text.extend_from_slice(b"]}")
}

fn put_says(text: &mut Vec<u8>, naming: &Naming<'_>, facts: &[Fact]) -> Result<(), AllocError>
    ensures { OnOk result (text.new.items ≡ text.old.items ++ json_text (says_value (name_by naming.now) facts.now)) }
{
    let mut words = Vec::new(*text.allocator());
    put_any(&mut words, naming, facts)?;
    put_string(text, words.as_slice())
}

/// Puts what a step rests on, and then the events of its cycle.
#[tactic(auto, using(crate::proofs::Parts::two_lists))]
fn put_basis(text: &mut Vec<u8>, naming: &Naming<'_>, step: &ReasonStep) -> Result<(), AllocError>
    ensures { OnOk result (text.new.items ≡ text.old.items ++ elements_text 0 (elements_of (map (ground_value (name_by naming.now)) step.now.grounds ++ cycle_values (name_by naming.now) step.now.cycle))) }
{
    put_grounds(text, naming, step.grounds.as_slice())?;
    put_cycle(text, naming, step.grounds.len(), step.cycle.as_slice())
}

fn put_grounds(
    text: &mut Vec<u8>,
    naming: &Naming<'_>,
    grounds: &[Ground],
) -> Result<(), AllocError>
    ensures { OnOk result (text.new.items ≡ text.old.items ++ elements_text 0 (elements_of (map (ground_value (name_by naming.now)) grounds.now))) }
{
    for (before, basis) in grounds.iter().enumerate() {
        put_comma(text, before)?;
        put_ground(text, naming, basis)?;
    }
    Ok(())
}

#[tactic(auto, using(crate::proofs::Sentences::ground_words_first))]
fn put_ground(text: &mut Vec<u8>, naming: &Naming<'_>, basis: &Ground) -> Result<(), AllocError>
    ensures { OnOk result (text.new.items ≡ text.old.items ++ json_text (ground_value (name_by naming.now) basis.now)) }
{
    let mut words = Vec::new(*text.allocator());
    put_ground_words(&mut words, naming, basis)?;
    put_sentence(text, words.as_slice())
}

/// Puts the events of a cycle, where there are any, behind so many others.
fn put_cycle(
    text: &mut Vec<u8>,
    naming: &Naming<'_>,
    before: usize,
    events: &[EventId],
) -> Result<(), AllocError>
    ensures { OnOk result (text.new.items ≡ text.old.items ++ elements_text before (elements_of (cycle_values (name_by naming.now) events.now))) }
{
    let Some((first, others)) = events.split_first() else {
        return Ok(());
    };
    put_cycle_after(text, naming, before, *first, others)
}

fn put_cycle_after(
    text: &mut Vec<u8>,
    naming: &Naming<'_>,
    before: usize,
    first: EventId,
    others: &[EventId],
) -> Result<(), AllocError>
    ensures { OnOk result (text.new.items ≡ text.old.items ++ elements_text before (elements_of (cycle_value (name_by naming.now) first others.now ∷ []))) }
{
    put_comma(text, before)?;
    put_cycle_string(text, naming, first, others)
}

#[tactic(auto, using(crate::proofs::Sentences::cycle_words_first))]
fn put_cycle_string(
    text: &mut Vec<u8>,
    naming: &Naming<'_>,
    first: EventId,
    others: &[EventId],
) -> Result<(), AllocError>
    ensures { OnOk result (text.new.items ≡ text.old.items ++ json_text (cycle_value (name_by naming.now) first others.now)) }
{
    let mut words = Vec::new(*text.allocator());
    put_cycle_words(&mut words, naming, first, others)?;
    put_sentence(text, words.as_slice())
}
