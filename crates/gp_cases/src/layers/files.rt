// What manifests, traces, properties and schedules are read as: each is told again, or what it is refused for.
ghost use Rattle.std.specs.Prelude.{◌-◌, ◌<◌, ◌^◌, length};

use crate::layers::telling::{tell, tell_last};
use gp_property::{Property, print_property, read_properties};
use gp_replay::{WindowSchedule, read_schedule};
use gp_trace::{LocalTrace, print_trace, read_trace};
use gp_window::{Manifest, StartValue, read_manifest};
use gp_writer::{put_line, put_list, put_word, put_words};
use std::alloc::{AllocError, Global};

/// Tells the manifest that a text is.
pub fn tell_manifest(alloc: Global, out: &mut Vec<u8>, text: &[u8]) -> Result<(), AllocError>
    requires { length text.now < 2 ^ 32 - 1 }
{
    match read_manifest(alloc, text) {
        Ok(manifest) => {
            let told = tell_manifest_lines(out, &manifest);
            drop(manifest);
            told
        }
        Err(fault) => tell(out, format!(in alloc; "{fault:?}")?.as_str()),
    }
}

fn tell_manifest_lines(out: &mut Vec<u8>, manifest: &Manifest) -> Result<(), AllocError> {
    put_line(out, b"gptrace", &[manifest.format()])?;
    put_line(out, b"threads", &[manifest.threads()])?;
    put_line(out, b"epochs", &[manifest.epochs()])?;
    put_line(out, b"roots", manifest.roots())?;
    for value in manifest.values() {
        tell_value(out, value)?;
    }
    Ok(())
}

fn tell_value(out: &mut Vec<u8>, value: &StartValue) -> Result<(), AllocError> {
    out.extend_from_slice(b"value")?;
    put_words(out, &[value.window])?;
    put_word(out, value.variable.as_bytes())?;
    tell_last(out, value.value)
}

/// Tells the trace of thread 1 that a text is, and the window in which the thread ends.
pub fn tell_trace(
    alloc: Global,
    out: &mut Vec<u8>,
    format: u32,
    marks: u32,
    text: &[u8],
) -> Result<(), AllocError>
    requires { length text.now < 2 ^ 32 - 1 }
{
    match read_trace(alloc, format, 1, marks, text) {
        Ok(trace) => {
            let told = tell_trace_lines(alloc, out, &trace);
            drop(trace);
            told
        }
        Err(fault) => tell(out, format!(in alloc; "{fault:?}")?.as_str()),
    }
}

fn tell_trace_lines(
    alloc: Global,
    out: &mut Vec<u8>,
    trace: &LocalTrace,
) -> Result<(), AllocError> {
    let lines = print_trace(alloc, trace)?;
    let told = out.extend_from_slice(lines.as_slice());
    drop(lines);
    told?;
    match trace.exit_in() {
        Some(window) => put_line(out, b"exits", &[window]),
        None => tell(out, "runs on"),
    }
}

/// Tells the properties that a text is.
pub fn tell_properties(alloc: Global, out: &mut Vec<u8>, text: &[u8]) -> Result<(), AllocError>
    requires { length text.now < 2 ^ 32 - 1 }
{
    match read_properties(alloc, text) {
        Ok(properties) => {
            let told = tell_each_property(alloc, out, properties.as_slice());
            drop(properties);
            told
        }
        Err(fault) => tell(out, format!(in alloc; "{fault:?}")?.as_str()),
    }
}

fn tell_each_property(
    alloc: Global,
    out: &mut Vec<u8>,
    properties: &[Property],
) -> Result<(), AllocError> {
    for property in properties {
        tell_property(alloc, out, property)?;
    }
    Ok(())
}

fn tell_property(alloc: Global, out: &mut Vec<u8>, property: &Property) -> Result<(), AllocError> {
    let lines = print_property(alloc, property)?;
    let told = out.extend_from_slice(lines.as_slice());
    drop(lines);
    Ok(told?)
}

/// Tells how many properties a text is.
pub fn tell_property_count(alloc: Global, out: &mut Vec<u8>, text: &[u8]) -> Result<(), AllocError>
    requires { length text.now < 2 ^ 32 - 1 }
{
    match read_properties(alloc, text) {
        Ok(properties) => {
            let count = properties.len() as u64;
            drop(properties);
            put_line(out, b"properties", &[count])
        }
        Err(fault) => tell(out, format!(in alloc; "{fault:?}")?.as_str()),
    }
}

/// Tells the schedule for one of so many windows that a text is.
pub fn tell_schedule(
    alloc: Global,
    out: &mut Vec<u8>,
    epochs: u32,
    text: &[u8],
) -> Result<(), AllocError>
    requires { length text.now < 2 ^ 32 - 1 }
{
    match read_schedule(alloc, epochs, text) {
        Ok(read) => {
            let told = tell_schedule_lines(out, &read);
            drop(read);
            told
        }
        Err(fault) => tell(out, format!(in alloc; "{fault:?}")?.as_str()),
    }
}

fn tell_schedule_lines(out: &mut Vec<u8>, read: &WindowSchedule) -> Result<(), AllocError> {
    put_line(out, b"window", &[read.window])?;
    put_list(out, read.schedule.events.as_slice())
}
