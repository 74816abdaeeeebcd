// Whole runs: words, files and faults in; status, text and files out.
use crate::book::Book;
use crate::ended::{ran, tell};
use crate::evidence::tell_refuted;
use crate::kept::{tell_kept, tell_replayed};
use crate::notified::tell_signals;
use crate::reading::tell_read;
use crate::sweep::{sweep_calls, sweep_puts};
use std::io;
use std::sync::Wait;
use std::thread::Threads;

/// What a verb of whole runs asks for.
#[derive(Clone, Copy)]
enum Verb {
    Run,
    Again,
    Keep,
    Sweep,
    Refute,
    Kept,
    Replay,
    Signals,
    Read,
}

fn verb_of(word: &str) -> Option<Verb> {
    match word {
        "run" => Some(Verb::Run),
        "again" => Some(Verb::Again),
        "keep" => Some(Verb::Keep),
        "sweep" => Some(Verb::Sweep),
        "refute" => Some(Verb::Refute),
        "kept" => Some(Verb::Kept),
        "replay" => Some(Verb::Replay),
        "signals" => Some(Verb::Signals),
        "read" => Some(Verb::Read),
        _ => None,
    }
}

/// Does what a verb of whole runs says, and tells whether it is one.
pub fn obeys<R: AllocGlobal + Print + Threads + Wait + Sync>(
    rt: &R,
    book: &mut Book,
    verb: &str,
    rest: &str,
) -> io::Result<bool> {
    let Some(verb) = verb_of(verb) else {
        return Ok(false);
    };
    obey(rt, book, verb, rest)?;
    Ok(true)
}

fn obey<R: AllocGlobal + Print + Threads + Wait + Sync>(
    rt: &R,
    book: &mut Book,
    verb: Verb,
    rest: &str,
) -> io::Result<()> {
    match verb {
        Verb::Run => run_case(rt, book),
        Verb::Again => run_again(rt, book, rest),
        Verb::Keep => Ok(book.go_on(rt.alloc(), rest)?),
        Verb::Sweep => sweep(rt, book, rest),
        Verb::Refute => tell_refuted(rt, book),
        Verb::Kept => tell_kept(rt, book),
        Verb::Replay => tell_replayed(rt, book),
        Verb::Signals => tell_signals(rt, book),
        Verb::Read => tell_read(rt, book.case(), rest),
    }
}

fn run_case<R: AllocGlobal + Print + Threads + Wait + Sync>(
    rt: &R,
    book: &mut Book,
) -> io::Result<()> {
    let ended = ran(rt, book.case())?;
    match tell(rt, book.case(), &ended) {
        Ok(()) => {
            book.end(ended);
            Ok(())
        }
        Err(error) => {
            drop(ended);
            Err(error)
        }
    }
}

/// Runs these words on the files that the last run left, with what it wrote as a report.
fn run_again<R: AllocGlobal + Print + Threads + Wait + Sync>(
    rt: &R,
    book: &mut Book,
    words: &str,
) -> io::Result<()> {
    book.go_on(rt.alloc(), "d/report")?;
    book.case_mut().say(rt.alloc(), words)?;
    run_case(rt, book)
}

fn sweep<R: AllocGlobal + Print + Threads + Wait + Sync>(
    rt: &R,
    book: &Book,
    what: &str,
) -> io::Result<()> {
    match what {
        "calls" => sweep_calls(rt, book.case()),
        "puts" => sweep_puts(rt, book.case()),
        _ => println!(rt; "no sweep"),
    }
}
