// A case run again and again, where each call of the folder and each put of the sink fails in turn.
use crate::case::Case;
use crate::ended::{Ended, kept, ran_where};
use std::sync::Wait;
use std::thread::Threads;
use std::{io, str};

/// The most calls, and the most puts, that fail in turn.
const MOST: u64 = 200;

/// Lets each call fail, up to one that is not made, and tells each run in a line.
pub fn sweep_calls<R: AllocGlobal + Print + Threads + Wait + Sync>(
    rt: &R,
    case: &Case,
) -> io::Result<()> {
    for call in 1..MOST {
        if !tell_call(rt, case, call)? {
            return Ok(());
        }
    }
    Ok(())
}

/// Tells the run in which a call fails, and whether it failed.
fn tell_call<R: AllocGlobal + Print + Threads + Wait + Sync>(
    rt: &R,
    case: &Case,
    call: u64,
) -> io::Result<bool> {
    let ended = ran_where(rt, case, &[call], &[])?;
    let told = tell_failed_call(rt, case, call, &ended);
    drop(ended);
    told
}

fn tell_failed_call(rt: &impl Print, case: &Case, call: u64, ended: &Ended) -> io::Result<bool> {
    print!(rt; "call {call}")?;
    tell_short(rt, case, ended)?;
    Ok(ended.status() == 4)
}

/// Lets each put fail, when none, one or all of its bytes are out, up to one that is not made, and tells each run in a line.
pub fn sweep_puts<R: AllocGlobal + Print + Threads + Wait + Sync>(
    rt: &R,
    case: &Case,
) -> io::Result<()> {
    for put in 1..MOST {
        if !tell_put(rt, case, put, "none", 0)? {
            return Ok(());
        }
        let _one = tell_put(rt, case, put, "one", 1)?;
        let _all = tell_put(rt, case, put, "all", u64::MAX)?;
    }
    Ok(())
}

/// Tells the run in which a put fails when so many bytes are out, and whether it failed.
fn tell_put<R: AllocGlobal + Print + Threads + Wait + Sync>(
    rt: &R,
    case: &Case,
    put: u64,
    name: &str,
    bytes: u64,
) -> io::Result<bool> {
    let ended = ran_where(rt, case, &[], &[(put, bytes)])?;
    let told = tell_failed_put(rt, case, put, name, &ended);
    drop(ended);
    told
}

fn tell_failed_put(
    rt: &impl Print,
    case: &Case,
    put: u64,
    name: &str,
    ended: &Ended,
) -> io::Result<bool> {
    print!(rt; "put {put} {name}")?;
    tell_short(rt, case, ended)?;
    Ok(ended.status() == 5)
}

/// Tells the status, how many bytes the text has, its last line, and the names of the files that were written or changed.
fn tell_short(rt: &impl Print, case: &Case, ended: &Ended) -> io::Result<()> {
    let status = ended.status();
    let length = ended.text().len();
    print!(rt; ": status {status}{}, {length} bytes", kept(ended))?;
    tell_changed(rt, case, ended)?;
    match last_line(ended.text()) {
        "" => println!(rt; ""),
        last => println!(rt; ": {last}"),
    }
}

fn tell_changed(rt: &impl Print, case: &Case, ended: &Ended) -> io::Result<()> {
    for (path, bytes) in ended.files() {
        if !case.gives(path.as_str(), bytes.as_slice()) {
            print!(rt; ", {path}")?;
        }
    }
    Ok(())
}

/// The last line of a text, whether it ends or not.
fn last_line(text: &[u8]) -> &str {
    let lines = text.split_inclusive(|byte| *byte == b'\n');
    let last = lines.last().unwrap_or(b"");
    str::from_utf8(last).unwrap_or("no text").trim_end()
}
