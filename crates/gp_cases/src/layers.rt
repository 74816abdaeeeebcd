// What the layers below a whole run give, told as text: what texts, numbers, names and command lines are read as, the files of a
// recording, its windows, replays and instances. A PATH names the file that is read.
//
//     number TEXT                   what a word is as a number
//     name TEXT                     whether a word is a name
//     order A B                     how two names stand to each other
//     command                       the command that the words are
//     lines PATH                    the lines of a text, with their numbers
//     walk PATH                     the same by a walk over the text, and the number of the line in which it ends
//     manifest PATH                 a manifest, told again
//     trace PATH F M                the trace of thread 1 in format F with M marks
//     properties PATH               properties; with the word `counted` behind the path, how many they are
//     schedule PATH E               a schedule for one of E windows
//     match PATH T.X .. in T.X ..   whether a schedule matches an instance of the one property of a file
//     recording                     what the files are refused for as a recording
//     window K                      what window K begins with, and how many events each thread has in it
//     windows N                     the first window of a walk, and after N that are passed over the next two
//     ends PATH                     how the replay of a schedule ends
//     deadlocks PATH                what the check of a report of deadlocks says
//     instances PATH                the instances of properties in the last window; with `counted`, how many they are
mod deadlocks;
mod files;
mod instances;
mod replays;
pub mod telling;
mod texts;
pub mod windows;

ghost use Rattle.std.specs.Prelude.{◌≤◌, length};

use crate::case::Case;
use crate::escape::unescaped;
use deadlocks::tell_check;
use files::{tell_manifest, tell_properties, tell_property_count, tell_schedule, tell_trace};
use gp_outside::MemoryFolder;
use gp_window::{Recording, RecordingFault, read_recording};
use instances::{Listing, tell_instances, tell_match};
use replays::tell_end;
use std::alloc::{AllocError, Global};
use std::io;
use std::thread::Threads;
use telling::tell;
use texts::{tell_command, tell_lines, tell_name, tell_number, tell_order};
use windows::{tell_cut, tell_fault};

/// The most bytes of a file that the verbs read.
pub const MOST: usize = 100_000;

/// Does what a verb of the layers says, and tells whether it is one.
pub fn obeys<R: AllocGlobal + Print + Threads + Sync>(
    rt: &R,
    case: &Case,
    verb: &str,
    rest: &str,
) -> io::Result<bool> {
    let mut out = Vec::new(rt.alloc());
    let is_verb = tell_verb(rt, &mut out, case, verb, rest)?;
    rt.write_all(out.as_slice())?;
    Ok(is_verb)
}

fn tell_verb<R: AllocGlobal + Threads + Sync>(
    rt: &R,
    out: &mut Vec<u8>,
    case: &Case,
    verb: &str,
    rest: &str,
) -> Result<bool, AllocError> {
    let alloc = rt.alloc();
    match verb {
        "number" | "name" | "order" | "command" => tell_word(alloc, out, case, verb, rest)?,
        "lines" | "walk" | "manifest" | "trace" | "properties" | "schedule" | "match" => {
            tell_file(alloc, out, case, verb, rest)?
        }
        "recording" | "window" | "windows" | "ends" | "deadlocks" | "instances" => {
            tell_files(rt, out, case, verb, rest)?
        }
        _ => return Ok(false),
    }
    Ok(true)
}

fn tell_word(
    alloc: Global,
    out: &mut Vec<u8>,
    case: &Case,
    verb: &str,
    rest: &str,
) -> Result<(), AllocError> {
    let word = unescaped(alloc, rest)?;
    match verb {
        "number" => tell_number(out, word.as_slice()),
        "name" => tell_name(out, word.as_slice()),
        "order" => tell_names(out, rest),
        _ => tell_command(alloc, out, case.words()),
    }
}

fn tell_names(out: &mut Vec<u8>, names: &str) -> Result<(), AllocError> {
    let (one, other) = first_word(names);
    tell_order(out, one.as_bytes(), other.as_bytes())
}

/// The first word, and what follows it.
fn first_word(words: &str) -> (&str, &str) {
    words.split_once(' ').unwrap_or((words, ""))
}

fn number_in(word: &str) -> u32 {
    word.parse().unwrap_or(0)
}

fn tell_file(
    alloc: Global,
    out: &mut Vec<u8>,
    case: &Case,
    verb: &str,
    rest: &str,
) -> Result<(), AllocError> {
    let (path, rest) = first_word(rest);
    let text = case.bytes(alloc, path)?;
    let told = tell_text(alloc, out, text.as_slice(), verb, rest);
    drop(text);
    told
}

fn tell_text(
    alloc: Global,
    out: &mut Vec<u8>,
    text: &[u8],
    verb: &str,
    rest: &str,
) -> Result<(), AllocError> {
    if text.len() > MOST {
        return tell(out, "too long");
    }
    match verb {
        "lines" => tell_lines(alloc, out, text),
        "walk" => texts::tell_walk(out, text),
        "manifest" => tell_manifest(alloc, out, text),
        "trace" => tell_trace_in(alloc, out, text, rest),
        "properties" if rest == "counted" => tell_property_count(alloc, out, text),
        "properties" => tell_properties(alloc, out, text),
        "schedule" => tell_schedule(alloc, out, number_in(rest), text),
        _ => tell_match_with(alloc, out, text, rest),
    }
}

fn tell_trace_in(
    alloc: Global,
    out: &mut Vec<u8>,
    text: &[u8],
    rest: &str,
) -> Result<(), AllocError>
    requires { length text.now ≤ MOST }
{
    let (format, marks) = first_word(rest);
    tell_trace(alloc, out, number_in(format), number_in(marks), text)
}

fn tell_match_with(
    alloc: Global,
    out: &mut Vec<u8>,
    text: &[u8],
    rest: &str,
) -> Result<(), AllocError>
    requires { length text.now ≤ MOST }
{
    let (events, schedule) = rest.split_once(" in ").unwrap_or((rest, ""));
    tell_match(alloc, out, text, events, schedule)
}

fn tell_files<R: AllocGlobal + Threads + Sync>(
    rt: &R,
    out: &mut Vec<u8>,
    case: &Case,
    verb: &str,
    rest: &str,
) -> Result<(), AllocError> {
    let alloc = rt.alloc();
    match recording_of(rt, case)? {
        Ok(recording) => {
            let told = tell_recording(alloc, out, case, &recording, verb, rest);
            drop(recording);
            told
        }
        Err(fault) => tell_fault(alloc, out, &fault),
    }
}

/// The recording in folder `d` of the files of a case.
pub fn recording_of<R: AllocGlobal + Threads + Sync>(
    rt: &R,
    case: &Case,
) -> Result<Result<Recording, RecordingFault>, AllocError> {
    let alloc = rt.alloc();
    let files = case.files(alloc)?;
    let mut folder = MemoryFolder::new(files, Vec::new(alloc));
    let read = read_recording(rt, alloc, &mut folder, "d");
    drop(folder);
    Ok(read)
}

fn tell_recording(
    alloc: Global,
    out: &mut Vec<u8>,
    case: &Case,
    recording: &Recording,
    verb: &str,
    rest: &str,
) -> Result<(), AllocError> {
    match verb {
        "recording" => tell(out, "a recording"),
        "window" => tell_cut(alloc, out, recording, number_in(rest)),
        "windows" => windows::tell_walk(alloc, out, recording, number_in(rest)),
        _ => tell_file_in(alloc, out, case, recording, verb, rest),
    }
}

fn tell_file_in(
    alloc: Global,
    out: &mut Vec<u8>,
    case: &Case,
    recording: &Recording,
    verb: &str,
    rest: &str,
) -> Result<(), AllocError> {
    let (path, rest) = first_word(rest);
    let text = case.bytes(alloc, path)?;
    let told = tell_text_in(alloc, out, recording, text.as_slice(), verb, rest);
    drop(text);
    told
}

fn tell_text_in(
    alloc: Global,
    out: &mut Vec<u8>,
    recording: &Recording,
    text: &[u8],
    verb: &str,
    rest: &str,
) -> Result<(), AllocError> {
    if text.len() > MOST {
        return tell(out, "too long");
    }
    match verb {
        "ends" => tell_end(alloc, out, recording, text),
        "deadlocks" => tell_check(alloc, out, recording, text),
        _ => tell_instances(alloc, out, recording, text, listing_of(rest)),
    }
}

fn listing_of(word: &str) -> Listing {
    match word {
        "counted" => Listing::Count,
        _ => Listing::Whole,
    }
}
