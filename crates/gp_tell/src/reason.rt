ghost use Rattle.std.specs.Prelude.{◌≡◌, ◌+◌, ◌++◌, ◌∷◌, [], OnOk, codes, decimal, map};
ghost use Rattle.std.specs.List.{flat_map};
ghost use Rattle.gp_text.specs.Spelling.{after_words, spelling};
ghost use Rattle.gp_place.specs.Places.{named};
ghost use Rattle.gp_tell.specs.FactText.{any_text};
ghost use Rattle.gp_tell.specs.Naming.{name_by};
ghost use Rattle.gp_tell.specs.ReasonText.{assumed_line, before_words, cycle_line, cycle_lines, cycle_words, family_text, ground_line, ground_words, reason_lines, says_line, step_lines, steps_lines};

use crate::fact::{put_any, put_fact};
use crate::line::{end_line, put_number};
use crate::naming::{Naming, put_name};
use gp_constraint::BaseFamily;
use gp_place::Places;
use gp_reason::{Fact, Ground, Reason, ReasonStep};
use gp_text::print_u64;
use gp_window::EventId;
use gp_writer::put_word;
use std::alloc::AllocError;

/// Puts a reason of the window of this number: what is assumed, and then each step with its grounds and its cycle. An event has its
/// place in parentheses behind its id.
pub fn put_reason(
    text: &mut Vec<u8>,
    places: &Places,
    window: u32,
    reason: &Reason,
) -> Result<(), AllocError>
    ensures { OnOk result (text.new.items ≡ text.old.items ++ spelling (reason_lines (named places.now window) reason.now)) }
{
    text.extend_from_slice(b"this cannot all hold:\n")?;
    put_body(text, &Naming { places, window }, reason)
}

#[tactic(auto, using(gp_writer::specs::LinesLaws::lines_put))]
fn put_body(text: &mut Vec<u8>, naming: &Naming<'_>, reason: &Reason) -> Result<(), AllocError>
    ensures { OnOk result (text.new.items ≡ text.old.items ++ spelling (map (assumed_line (name_by naming.now)) reason.now.assumed ++ steps_lines (name_by naming.now) 1 reason.now.steps)) }
{
    put_assumed(text, naming, reason.assumed.as_slice())?;
    put_steps(text, naming, reason.steps.as_slice())
}

fn put_assumed(text: &mut Vec<u8>, naming: &Naming<'_>, facts: &[Fact]) -> Result<(), AllocError>
    ensures { OnOk result (text.new.items ≡ text.old.items ++ spelling (map (assumed_line (name_by naming.now)) facts.now)) }
{
    for fact in facts {
        put_assumption(text, naming, fact)?;
    }
    Ok(())
}

fn put_assumption(text: &mut Vec<u8>, naming: &Naming<'_>, fact: &Fact) -> Result<(), AllocError>
    ensures { OnOk result (text.new.items ≡ text.old.items ++ spelling (assumed_line (name_by naming.now) fact.now ∷ [])) }
{
    text.extend_from_slice(b"- ")?;
    put_fact(text, naming, fact)?;
    end_line(text)
}

fn put_steps(
    text: &mut Vec<u8>,
    naming: &Naming<'_>,
    steps: &[ReasonStep],
) -> Result<(), AllocError>
    ensures { OnOk result (text.new.items ≡ text.old.items ++ spelling (steps_lines (name_by naming.now) 1 steps.now)) }
{
    for (place, step) in steps.iter().enumerate() {
        put_step(text, naming, place as u64 + 1, step)?;
    }
    Ok(())
}

fn put_step(
    text: &mut Vec<u8>,
    naming: &Naming<'_>,
    number: u64,
    step: &ReasonStep,
) -> Result<(), AllocError>
    ensures { OnOk result (text.new.items ≡ text.old.items ++ spelling (step_lines (name_by naming.now) number step.now)) }
{
    put_says(text, naming, number, step.says.as_slice())?;
    put_basis(text, naming, step)
}

#[tactic(auto, using(gp_writer::specs::LinesLaws::lines_put))]
fn put_basis(text: &mut Vec<u8>, naming: &Naming<'_>, step: &ReasonStep) -> Result<(), AllocError>
    ensures { OnOk result (text.new.items ≡ text.old.items ++ spelling (map (ground_line (name_by naming.now)) step.now.grounds ++ cycle_lines (name_by naming.now) step.now.cycle)) }
{
    put_grounds(text, naming, step.grounds.as_slice())?;
    put_cycle(text, naming, step.cycle.as_slice())
}

/// Puts the events of a cycle, where there are any.
fn put_cycle(text: &mut Vec<u8>, naming: &Naming<'_>, events: &[EventId]) -> Result<(), AllocError>
    ensures { OnOk result (text.new.items ≡ text.old.items ++ spelling (cycle_lines (name_by naming.now) events.now)) }
{
    let Some((first, others)) = events.split_first() else {
        return Ok(());
    };
    put_cycle_line(text, naming, *first, others)
}

fn put_cycle_line(
    text: &mut Vec<u8>,
    naming: &Naming<'_>,
    first: EventId,
    others: &[EventId],
) -> Result<(), AllocError>
    ensures { OnOk result (text.new.items ≡ text.old.items ++ spelling (cycle_line (name_by naming.now) first others.now ∷ [])) }
{
    text.extend_from_slice(b"-")?;
    put_cycle_words(text, naming, first, others)?;
    end_line(text)
}

/// Puts the events of a cycle, as phrases behind what stands in the line.
pub fn put_cycle_words(
    text: &mut Vec<u8>,
    naming: &Naming<'_>,
    first: EventId,
    others: &[EventId],
) -> Result<(), AllocError>
    ensures { OnOk result (text.new.items ≡ text.old.items ++ after_words (cycle_words (name_by naming.now) first others.now)) }
{
    put_reference(text, naming, b"a cycle:", first)?;
    put_others(text, naming, others)?;
    put_before(text, naming, first)
}

#[tactic(auto, using(gp_text::specs::SpellingLaws::after_append))]
fn put_others(text: &mut Vec<u8>, naming: &Naming<'_>, events: &[EventId]) -> Result<(), AllocError>
    ensures { OnOk result (text.new.items ≡ text.old.items ++ after_words (flat_map (before_words (name_by naming.now)) events.now)) }
{
    for event in events {
        put_before(text, naming, *event)?;
    }
    Ok(())
}

fn put_before(text: &mut Vec<u8>, naming: &Naming<'_>, event: EventId) -> Result<(), AllocError>
    ensures { OnOk result (text.new.items ≡ text.old.items ++ after_words (before_words (name_by naming.now) event)) }
{
    put_reference(text, naming, b"before", event)
}

/// Puts a phrase and the event that it speaks of.
fn put_reference(
    text: &mut Vec<u8>,
    naming: &Naming<'_>,
    says: &[u8],
    event: EventId,
) -> Result<(), AllocError>
    ensures { OnOk result (text.new.items ≡ text.old.items ++ after_words (says.now ∷ name_by naming.now event ∷ [])) }
{
    put_word(text, says)?;
    text.push(b' ')?;
    put_name(text, naming, event)
}

fn put_says(
    text: &mut Vec<u8>,
    naming: &Naming<'_>,
    number: u64,
    facts: &[Fact],
) -> Result<(), AllocError>
    ensures { OnOk result (text.new.items ≡ text.old.items ++ spelling (says_line (name_by naming.now) number facts.now ∷ [])) }
{
    print_u64(text, number)?;
    text.extend_from_slice(b". ")?;
    put_any(text, naming, facts)?;
    text.extend_from_slice(b", since\n")
}

fn put_grounds(
    text: &mut Vec<u8>,
    naming: &Naming<'_>,
    grounds: &[Ground],
) -> Result<(), AllocError>
    ensures { OnOk result (text.new.items ≡ text.old.items ++ spelling (map (ground_line (name_by naming.now)) grounds.now)) }
{
    for basis in grounds {
        put_ground(text, naming, basis)?;
    }
    Ok(())
}

fn put_ground(text: &mut Vec<u8>, naming: &Naming<'_>, basis: &Ground) -> Result<(), AllocError>
    ensures { OnOk result (text.new.items ≡ text.old.items ++ spelling (ground_line (name_by naming.now) basis.now ∷ [])) }
{
    text.extend_from_slice(b"-")?;
    put_ground_words(text, naming, basis)?;
    end_line(text)
}

/// Puts what a step rests on, as phrases behind what stands in the line.
pub fn put_ground_words(
    text: &mut Vec<u8>,
    naming: &Naming<'_>,
    basis: &Ground,
) -> Result<(), AllocError>
    ensures { OnOk result (text.new.items ≡ text.old.items ++ after_words (ground_words (name_by naming.now) basis.now)) }
{
    match basis {
        Ground::Base(family, facts) => put_clause(text, naming, *family, facts.as_slice()),
        Ground::Earlier(place) => put_earlier(text, *place),
        Ground::Everything => put_word(text, b"all of the above and of the window"),
        Ground::ThreadOrder => put_word(text, b"the order within threads alone"),
    }
}

fn put_clause(
    text: &mut Vec<u8>,
    naming: &Naming<'_>,
    family: BaseFamily,
    facts: &[Fact],
) -> Result<(), AllocError>
    ensures { OnOk result (text.new.items ≡ text.old.items ++ after_words (family_text family ∷ any_text (name_by naming.now) facts.now ∷ [])) }
{
    put_family(text, family)?;
    text.push(b' ')?;
    put_any(text, naming, facts)
}

fn put_family(text: &mut Vec<u8>, family: BaseFamily) -> Result<(), AllocError>
    ensures { OnOk result (text.new.items ≡ text.old.items ++ after_words (family_text family ∷ [])) }
{
    match family {
        BaseFamily::ProgramOrder => put_word(text, b"program order:"),
        BaseFamily::Start => put_word(text, b"start:"),
        BaseFamily::Join => put_word(text, b"join:"),
        BaseFamily::Read => put_word(text, b"value of a read:"),
        BaseFamily::Choice => put_word(text, b"what a read sees:"),
        BaseFamily::StartChoice => put_word(text, b"the beginning is seen:"),
        BaseFamily::Section => put_word(text, b"sections of a lock:"),
        BaseFamily::HeldLock => put_word(text, b"lock held from before:"),
    }
}

fn put_earlier(text: &mut Vec<u8>, place: u64) -> Result<(), AllocError>
    ensures { OnOk result (text.new.items ≡ text.old.items ++ after_words (codes "step" ∷ decimal (place + 1) ∷ [])) }
{
    text.extend_from_slice(b" step ")?;
    put_number(text, place)
}
