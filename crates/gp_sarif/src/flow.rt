ghost use Rattle.std.specs.Prelude.{◌≡◌, ◌+◌, ◌++◌, ◌∷◌, [], IfOk, OnOk, decimal, filter, length, map};
ghost use Rattle.gp_json.specs.Json.{array, elements_of, elements_text, json_text};
ghost use Rattle.gp_json.specs.Strings.{string_text};
ghost use Rattle.gp_sarif.specs.Flows.{acts, code_flow_value, flow_value, flow_values, is_step_of, step_value, steps_of};

use crate::location::put_location;
use crate::message::put_piece;
use gp_json::{put_comma, put_name, put_named_number, put_string};
use gp_place::Places;
use gp_text::print_u64;
use gp_window::{EventId, Window};
use std::alloc::AllocError;

/// Puts a schedule of a window as the only code flow of an array.
pub(crate) fn put_code_flows(
    text: &mut Vec<u8>,
    window: &Window,
    places: &Places,
    schedule: &[EventId],
) -> Result<(), AllocError>
    ensures { OnOk result (text.new.items ≡ text.old.items ++ json_text (array (code_flow_value places.now window.now schedule.now ∷ []))) }
{
    text.extend_from_slice(b"[")?;
    put_code_flow(text, window, places, schedule)?;
    text.extend_from_slice(b"]")
}

#[tactic(auto, unfolding(crate::specs::Flows::code_flow_value))]
fn put_code_flow(
    text: &mut Vec<u8>,
    window: &Window,
    places: &Places,
    schedule: &[EventId],
) -> Result<(), AllocError>
    ensures { OnOk result (text.new.items ≡ text.old.items ++ json_text (code_flow_value places.now window.now schedule.now)) }
{
    put_piece(text, b"{")?;
    put_name(text, 0, b"threadFlows")?;
    put_thread_flows(text, window, places, schedule)?;
    put_piece(text, b"}")?;
    Ok(())
}

fn put_thread_flows(
    text: &mut Vec<u8>,
    window: &Window,
    places: &Places,
    schedule: &[EventId],
) -> Result<(), AllocError>
    ensures { OnOk result (text.new.items ≡ text.old.items ++ json_text (array (flow_values places.now window.now schedule.now))) }
{
    text.extend_from_slice(b"[")?;
    put_flows(text, window, places, schedule)?;
    text.extend_from_slice(b"]")
}

/// Puts what each thread does in a schedule. It looks at the schedule once for each thread of the window.
fn put_flows(
    text: &mut Vec<u8>,
    window: &Window,
    places: &Places,
    schedule: &[EventId],
) -> Result<(), AllocError>
    ensures { OnOk result (text.new.items ≡ text.old.items ++ elements_text 0 (elements_of (flow_values places.now window.now schedule.now))) }
{
    let mut before = 0usize;
    for behind in 0..window.segments().len() {
        before = put_if_acts(text, window, places, schedule, behind + 1, before)?;
    }
    Ok(())
}

/// Puts what a thread does in a schedule, where it has an event in it, behind so many others, and gives how many stand there then.
fn put_if_acts(
    text: &mut Vec<u8>,
    window: &Window,
    places: &Places,
    schedule: &[EventId],
    thread: usize,
    before: usize,
) -> Result<usize, AllocError>
    ensures count { IfOk result (λ count. count ≡ before + length (filter (acts schedule.now) (thread ∷ []))) }
    ensures put { OnOk result (text.new.items ≡ text.old.items ++ elements_text before (elements_of (map (flow_value places.now window.now schedule.now) (filter (acts schedule.now) (thread ∷ []))))) }
{
    if !acts(schedule, thread) {
        return Ok(before);
    }
    put_comma(text, before)?;
    put_flow(text, window, places, schedule, thread)?;
    before.checked_add(1).ok_or(AllocError)
}

fn acts(schedule: &[EventId], thread: usize) -> bool
    ensures { result ≡ acts schedule.now thread }
{
    schedule.iter().any(|id| id.thread as usize == thread)
}

#[tactic(auto, unfolding(crate::specs::Flows::flow_value))]
fn put_flow(
    text: &mut Vec<u8>,
    window: &Window,
    places: &Places,
    schedule: &[EventId],
    thread: usize,
) -> Result<(), AllocError>
    ensures { OnOk result (text.new.items ≡ text.old.items ++ json_text (flow_value places.now window.now schedule.now thread)) }
{
    put_piece(text, b"{")?;
    put_name(text, 0, b"id")?;
    put_thread(text, thread as u64)?;
    put_name(text, 1, b"locations")?;
    put_steps_array(text, window, places, schedule, thread)?;
    put_piece(text, b"}")
}

/// Puts the number of a thread as a string.
fn put_thread(text: &mut Vec<u8>, thread: u64) -> Result<(), AllocError>
    ensures { OnOk result (text.new.items ≡ text.old.items ++ string_text (decimal thread)) }
{
    let mut word = Vec::new(*text.allocator());
    print_u64(&mut word, thread)?;
    put_string(text, word.as_slice())
}

fn put_steps_array(
    text: &mut Vec<u8>,
    window: &Window,
    places: &Places,
    schedule: &[EventId],
    thread: usize,
) -> Result<(), AllocError>
    ensures { OnOk result (text.new.items ≡ text.old.items ++ json_text (array (map (step_value places.now window.now) (steps_of thread schedule.now)))) }
{
    text.extend_from_slice(b"[")?;
    put_steps(text, window, places, schedule, thread)?;
    text.extend_from_slice(b"]")
}

fn put_steps(
    text: &mut Vec<u8>,
    window: &Window,
    places: &Places,
    schedule: &[EventId],
    thread: usize,
) -> Result<(), AllocError>
    ensures { OnOk result (text.new.items ≡ text.old.items ++ elements_text 0 (elements_of (map (step_value places.now window.now) (steps_of thread schedule.now)))) }
{
    let mut before = 0usize;
    for (behind, id) in schedule.iter().enumerate() {
        before = put_if_of(text, window, places, *id, behind + 1, thread, before)?;
    }
    Ok(())
}

/// Puts an event at this place of a schedule, where it is of a thread, behind so many others, and gives how many stand there then.
fn put_if_of(
    text: &mut Vec<u8>,
    window: &Window,
    places: &Places,
    id: EventId,
    order: usize,
    thread: usize,
    before: usize,
) -> Result<usize, AllocError>
    ensures count { IfOk result (λ count. count ≡ before + length (filter (is_step_of thread) ((order, id) ∷ []))) }
    ensures put { OnOk result (text.new.items ≡ text.old.items ++ elements_text before (elements_of (map (step_value places.now window.now) (filter (is_step_of thread) ((order, id) ∷ []))))) }
{
    if id.thread as usize != thread {
        return Ok(before);
    }
    put_comma(text, before)?;
    put_step(text, window, places, id, order as u64)?;
    before.checked_add(1).ok_or(AllocError)
}

#[tactic(auto, unfolding(crate::specs::Flows::step_value))]
fn put_step(
    text: &mut Vec<u8>,
    window: &Window,
    places: &Places,
    id: EventId,
    order: u64,
) -> Result<(), AllocError>
    ensures { OnOk result (text.new.items ≡ text.old.items ++ json_text (step_value places.now window.now (order, id))) }
{
    put_piece(text, b"{")?;
    put_name(text, 0, b"location")?;
    put_location(text, window, places, id)?;
    put_named_number(text, 1, b"executionOrder", order)?;
    put_piece(text, b"}")?;
    Ok(())
}
