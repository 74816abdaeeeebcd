// What the windows of a recording begin with, and what a recording is refused for.
ghost use Rattle.std.specs.Prelude.{◌≤◌};

use crate::layers::telling::{tell, tell_last};
use gp_text::Name;
use gp_trace::LockMode;
use gp_window::{Recording, RecordingFault, Window, Windows, cut};
use gp_writer::{put_line, put_word, put_words};
use std::alloc::{AllocError, Global};

/// Tells what a recording is refused for.
pub fn tell_fault(
    alloc: Global,
    out: &mut Vec<u8>,
    fault: &RecordingFault,
) -> Result<(), AllocError> {
    match fault {
        RecordingFault::TwoHolders(lock, window) => tell_two_holders(out, lock, *window),
        other => tell(out, format!(in alloc; "{other:?}")?.as_str()),
    }
}

fn tell_two_holders(out: &mut Vec<u8>, lock: &Name, window: u32) -> Result<(), AllocError> {
    out.extend_from_slice(b"TwoHolders")?;
    put_word(out, lock.as_bytes())?;
    put_words(out, &[window])?;
    tell(out, "")
}

/// The window of a number, where the recording has one.
pub fn window_numbered(
    alloc: Global,
    recording: &Recording,
    number: u32,
) -> Result<Option<Window>, AllocError> {
    if number == 0 || number > recording.manifest().epochs() {
        return Ok(None);
    }
    Ok(Some(cut(alloc, recording, number)?))
}

/// The last window of a recording.
pub fn last_window(alloc: Global, recording: &Recording) -> Result<Window, AllocError> {
    cut(alloc, recording, recording.manifest().epochs())
}

/// Tells the window of a number, cut alone.
pub fn tell_cut(
    alloc: Global,
    out: &mut Vec<u8>,
    recording: &Recording,
    number: u32,
) -> Result<(), AllocError> {
    let window = window_numbered(alloc, recording, number)?;
    let told = tell_where_some(out, &window);
    drop(window);
    told
}

fn tell_where_some(out: &mut Vec<u8>, window: &Option<Window>) -> Result<(), AllocError> {
    match window {
        Some(window) => tell_window(out, window),
        None => tell(out, "no window"),
    }
}

/// Tells the first window of a walk over all of them, and after so many that are passed over the next two.
pub fn tell_walk(
    alloc: Global,
    out: &mut Vec<u8>,
    recording: &Recording,
    passed: u32,
) -> Result<(), AllocError> {
    let mut windows = Windows::new(alloc, recording)?;
    let told = tell_walked(alloc, out, &mut windows, passed);
    drop(windows);
    told
}

fn tell_walked(
    alloc: Global,
    out: &mut Vec<u8>,
    windows: &mut Windows,
    passed: u32,
) -> Result<(), AllocError> {
    tell_next(alloc, out, windows)?;
    windows.skip(passed)?;
    tell_next(alloc, out, windows)?;
    tell_next(alloc, out, windows)
}

fn tell_next(alloc: Global, out: &mut Vec<u8>, windows: &mut Windows) -> Result<(), AllocError> {
    let window = windows.next(alloc)?;
    let told = tell_where_some(out, &window);
    drop(window);
    told
}

fn tell_window(out: &mut Vec<u8>, window: &Window) -> Result<(), AllocError> {
    put_line(out, b"window", &[window.number()])?;
    tell_sizes(out, window)?;
    tell_values(out, window)?;
    tell_held(out, window)?;
    put_line(out, b"started", window.started())?;
    put_line(out, b"exited", window.exited())
}

fn tell_sizes(out: &mut Vec<u8>, window: &Window) -> Result<(), AllocError> {
    out.extend_from_slice(b"events")?;
    for segment in window.segments() {
        put_words(out, &[segment.len() as u64])?;
    }
    tell(out, "")
}

fn tell_values(out: &mut Vec<u8>, window: &Window) -> Result<(), AllocError> {
    for (variable, value) in window.start_values().iter() {
        out.extend_from_slice(b"value")?;
        put_word(out, variable.as_bytes())?;
        tell_last(out, *value)?;
    }
    Ok(())
}

fn tell_held(out: &mut Vec<u8>, window: &Window) -> Result<(), AllocError> {
    for ((lock, thread), mode) in window.held().iter() {
        out.extend_from_slice(mode_word(*mode))?;
        put_word(out, lock.as_bytes())?;
        put_words(out, &[*thread])?;
        tell(out, "")?;
    }
    Ok(())
}

fn mode_word(mode: LockMode) -> &'static [u8] {
    match mode {
        LockMode::Exclusive => b"holds",
        LockMode::Shared => b"reads",
    }
}
