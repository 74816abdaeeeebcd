// How the replay of a schedule in a window of a recording ends.
ghost use Rattle.std.specs.Prelude.{◌-◌, ◌<◌, ◌^◌, length};

use crate::layers::telling::{tell, tell_last};
use crate::layers::windows::window_numbered;
use gp_replay::{ReplayFault, State, WindowSchedule, read_schedule, replay};
use gp_text::Name;
use gp_window::{Recording, Schedule, Window};
use gp_writer::{put_line, put_word, put_words};
use std::alloc::{AllocError, Global};

/// Tells how the replay of the schedule that a text is ends.
pub fn tell_end(
    alloc: Global,
    out: &mut Vec<u8>,
    recording: &Recording,
    text: &[u8],
) -> Result<(), AllocError>
    requires { length text.now < 2 ^ 32 - 1 }
{
    match read_schedule(alloc, recording.manifest().epochs(), text) {
        Ok(read) => {
            let told = tell_end_of(alloc, out, recording, &read);
            drop(read);
            told
        }
        Err(fault) => tell(out, format!(in alloc; "{fault:?}")?.as_str()),
    }
}

fn tell_end_of(
    alloc: Global,
    out: &mut Vec<u8>,
    recording: &Recording,
    read: &WindowSchedule,
) -> Result<(), AllocError> {
    match window_numbered(alloc, recording, read.window)? {
        Some(window) => {
            let told = tell_end_in(alloc, out, &window, &read.schedule);
            drop(window);
            told
        }
        None => tell(out, "no window"),
    }
}

fn tell_end_in(
    alloc: Global,
    out: &mut Vec<u8>,
    window: &Window,
    schedule: &Schedule,
) -> Result<(), AllocError> {
    match replay(alloc, window, schedule) {
        Ok(state) => {
            let told = tell_state(alloc, out, &state);
            drop(state);
            told
        }
        Err(ReplayFault::Stuck { place, rule }) => put_line(out, b"stuck", &[place, rule.number()]),
        Err(ReplayFault::Memory) => Err(AllocError),
    }
}

fn tell_state(alloc: Global, out: &mut Vec<u8>, state: &State) -> Result<(), AllocError> {
    put_line(out, b"done", state.counts.as_slice())?;
    put_line(out, b"started", state.started.as_slice())?;
    tell_values(out, state)?;
    tell_holders(out, state)?;
    tell_readers(alloc, out, state)
}

fn tell_values(out: &mut Vec<u8>, state: &State) -> Result<(), AllocError> {
    for (variable, value) in state.values.iter() {
        out.extend_from_slice(b"value")?;
        put_word(out, variable.as_bytes())?;
        tell_last(out, *value)?;
    }
    Ok(())
}

fn tell_holders(out: &mut Vec<u8>, state: &State) -> Result<(), AllocError> {
    for (lock, thread) in state.holders.iter() {
        out.extend_from_slice(b"holds")?;
        put_word(out, lock.as_bytes())?;
        put_words(out, &[*thread])?;
        tell(out, "")?;
    }
    Ok(())
}

fn tell_readers(alloc: Global, out: &mut Vec<u8>, state: &State) -> Result<(), AllocError> {
    let readers = state.readers.to_row(alloc)?;
    let told = tell_each_reader(out, readers.as_slice());
    drop(readers);
    told
}

fn tell_each_reader(out: &mut Vec<u8>, readers: &[(Name, u32)]) -> Result<(), AllocError> {
    for (lock, thread) in readers {
        out.extend_from_slice(b"reads")?;
        put_word(out, lock.as_bytes())?;
        put_words(out, &[*thread])?;
        tell(out, "")?;
    }
    Ok(())
}
