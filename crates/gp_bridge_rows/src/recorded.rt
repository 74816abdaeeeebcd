// Recordings from texts.
use gp_outside::MemoryFolder;
use gp_window::{Recording, read_recording};
use std::alloc::Global;
use std::process::Abort;
use std::thread::Threads;

fn file_of(rt: &impl Abort, alloc: Global, name: &str, text: &str) -> (String, Vec<u8>) {
    let name = format!(in alloc; "d/{name}").expect(rt, "memory");
    let bytes = Vec::from_slice(alloc, text.as_bytes()).expect(rt, "memory");
    (name, bytes)
}

fn folder_of(rt: &impl Abort, alloc: Global, texts: &[(&str, &str)]) -> MemoryFolder {
    let mut files = Vec::new(alloc);
    for (name, text) in texts {
        files
            .push(file_of(rt, alloc, name, text))
            .expect(rt, "memory");
    }
    MemoryFolder::new(files, Vec::new(alloc))
}

/// The recording of these files.
pub fn recording_of<R: AllocGlobal + Threads + Sync + Abort>(
    rt: &R,
    texts: &[(&str, &str)],
) -> Recording {
    let mut folder = folder_of(rt, rt.alloc(), texts);
    let recording = read_recording(rt, rt.alloc(), &mut folder, "d").expect(rt, "a recording");
    drop(folder);
    recording
}
