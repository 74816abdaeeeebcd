// Whole runs as data: reads the case files that its words name, does what each line says, and prints what came of it. What has to
// come is written beside each case, from what the formats and the meaning of the answers say, and this program passes over it.
//
//     group NAME           what follows, up to the next `case`, is said of each case of the group
//     case NAME            begins a case: what was said of the one before is forgotten. The line is printed
//     words A B C          the words of the command, parted by spaces, in place of those before; those of another program than gpredict
//                          have its name before them
//     word TEXT            one word more, with all its bytes
//     stretch N            lengthens the last word to N bytes
//     file PATH            begins a file, in place of the one with this path
//     | TEXT               a line of the file that was begun last
//     > TEXT               the same without a newline
//     long N TEXT          a line that spaces lengthen up to N bytes
//     repeat N TEXT        so many lines, each with its number from 1 in place of `%`
//     fill N               comments up to this length
//     replace N PATH       takes line N of a file away, or `N-M` the lines from N to M; what follows stands in its place
//     absent PATH          takes a file away
//     fail N               call N of the folder fails
//     cut N B              put N of the sink fails when B bytes are out
//     free WHAT            `certificates`, `schedules` or `pairs` that are not told, since several are right
//     only TEXT            of a text only the lines that begin so are told
//     = TEXT               a line that has to come, passed over here
//
// and what is done:
//
//     run                  runs the command: tells its status, what is kept (a report, links, deadlocks or a report with signals), its
//                          text, the files that it wrote
//     again A B C          the same with these words, on the files that the run before left, with its text as `d/report`
//     keep PATH            what follows has the files that the run before left, with its text as this file; with no PATH the files alone
//     sweep calls, puts    runs it with each call, or each put, that fails in turn
//     kept                 prints the report that the last run kept
//     replay               replays each schedule of that report
//     signals              says of each of them whether its pairs serve its wakes
//     refute               checks the one certificate of that report over constraints made anew; of links that of the first window that
//                          is unlinkable
//     read PATH            reads a file as a report, and prints it
//
// The verbs of the layers below a run stand in `layers.rt`, those of what a window gives the solver in `encodings.rt`.
//
// In a TEXT that is given, `\xHH` is the byte of that number. A text is told by `| ` and each line; what stands behind its last
// newline by `> `. Empty lines, and lines that begin with `#`, are passed over.
#![tactic(auto)]

mod book;
mod case;
mod encodings;
mod ended;
mod escape;
mod evidence;
mod file;
mod kept;
mod layers;
mod notified;
mod reading;
mod style;
mod sweep;
mod whole;

use book::Book;
use std::rt::Files;
use std::sync::Wait;
use std::thread::Threads;
use std::{env, fs, io};

fn main(rt: HostRuntime) -> io::Result<()> {
    let words: Vec<String> = env::args(&rt)?.skip(1).collect(rt.alloc())?;
    let obeyed = obey_files(&rt, words.as_slice());
    drop(words);
    obeyed
}

fn obey_files<R: AllocGlobal + Files + Print + Threads + Wait + Sync>(
    rt: &R,
    paths: &[String],
) -> io::Result<()> {
    for path in paths {
        obey_file(rt, path.as_str())?;
    }
    Ok(())
}

/// Does what the lines of a case file say.
fn obey_file<R: AllocGlobal + Files + Print + Threads + Wait + Sync>(
    rt: &R,
    path: &str,
) -> io::Result<()> {
    let text = fs::read_to_string(rt, path)?;
    let mut book = Book::new(rt.alloc());
    let obeyed = obey_lines(rt, &mut book, text.as_str());
    drop((text, book));
    obeyed
}

fn obey_lines<R: AllocGlobal + Print + Threads + Wait + Sync>(
    rt: &R,
    book: &mut Book,
    text: &str,
) -> io::Result<()> {
    for line in text.lines() {
        obey(rt, book, line)?;
    }
    Ok(())
}

/// Whether a line is passed over.
fn is_remark(line: &str) -> bool {
    line.is_empty() || line.starts_with('#') || line.starts_with('=')
}

fn obey<R: AllocGlobal + Print + Threads + Wait + Sync>(
    rt: &R,
    book: &mut Book,
    line: &str,
) -> io::Result<()> {
    if is_remark(line) {
        return Ok(());
    }
    let (verb, rest) = line.split_once(' ').unwrap_or((line, ""));
    if verb == "case" {
        book.begin_case()?;
        return println!(rt; "case {rest}");
    }
    obey_verb(rt, book, verb, rest)
}

/// Does what a verb says. Each module that has verbs is asked whether it is one of its own.
fn obey_verb<R: AllocGlobal + Print + Threads + Wait + Sync>(
    rt: &R,
    book: &mut Book,
    verb: &str,
    rest: &str,
) -> io::Result<()> {
    if book.change(rt.alloc(), verb, rest)? || whole::obeys(rt, book, verb, rest)? {
        return Ok(());
    }
    if layers::obeys(rt, book.case(), verb, rest)?
        || encodings::obeys(rt, book.case(), verb, rest)?
    {
        return Ok(());
    }
    println!(rt; "no verb {verb}")
}
