// Runs over files in memory, for the tests of whole runs.
use gp_outside::{Folder, FreeGate, Gate, MemoryFolder, MemorySink};
use gp_predict::{Outcome, run};
use std::alloc::Global;
use std::process::Abort;
use std::sync::Wait;
use std::thread::Threads;

fn file_of(rt: &impl Abort, alloc: Global, path: &str, text: &str) -> (String, Vec<u8>) {
    let path = String::from_str(alloc, path).expect(rt, "memory");
    let bytes = Vec::from_slice(alloc, text.as_bytes()).expect(rt, "memory");
    (path, bytes)
}

/// A folder with these texts, each at its path.
pub fn folder_of(rt: &impl Abort, alloc: Global, texts: &[(&str, &str)]) -> MemoryFolder {
    let mut files = Vec::new(alloc);
    for (path, text) in texts {
        files
            .push(file_of(rt, alloc, path, text))
            .expect(rt, "memory");
    }
    MemoryFolder::new(files, Vec::new(alloc))
}

fn words_of(rt: &impl Abort, alloc: Global, words: &[&str]) -> Vec<String> {
    let mut given = Vec::new(alloc);
    for word in words {
        let word = String::from_str(alloc, word).expect(rt, "memory");
        given.push(word).expect(rt, "memory");
    }
    given
}

/// What a run with these words on a folder ends with, and its sink.
pub fn run_in<R: AllocGlobal + Threads + Wait + Sync + Abort, F: Folder, G: Gate + Sync>(
    rt: &R,
    words: &[&str],
    folder: &mut F,
    gate: &G,
) -> (Outcome, MemorySink) {
    let alloc = rt.alloc();
    let words = words_of(rt, alloc, words);
    let mut sink = MemorySink::new(alloc, Vec::new(alloc));
    let outcome = run(rt, words.as_slice(), folder, &mut sink, gate);
    drop(words);
    (outcome, sink)
}

/// What a run with these words on these files ends with, and its sink.
pub fn run_on<R: AllocGlobal + Threads + Wait + Sync + Abort>(
    rt: &R,
    words: &[&str],
    texts: &[(&str, &str)],
) -> (Outcome, MemorySink) {
    let mut folder = folder_of(rt, rt.alloc(), texts);
    let ended = run_in(rt, words, &mut folder, &FreeGate);
    drop(folder);
    ended
}

/// The status that a run with these words on a folder ends with, and what it writes.
pub fn written<R: AllocGlobal + Threads + Wait + Sync + Abort, G: Gate + Sync>(
    rt: &R,
    words: &[&str],
    folder: &mut MemoryFolder,
    gate: &G,
) -> (u8, Vec<u8>) {
    let (outcome, sink) = run_in(rt, words, folder, gate);
    let status = outcome.status;
    drop(outcome);
    let text = Vec::from_slice(rt.alloc(), sink.bytes()).expect(rt, "memory");
    drop(sink);
    (status, text)
}
