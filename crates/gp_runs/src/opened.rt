// Which files each task opens, in which order, and that none is opened behind a refusal.
use crate::fixture::{folder_of, run_in};
use crate::tasks::FILES;
use gp_outside::{Folder, FreeGate, MemoryFolder, ReadFault, WriteFault};
use std::alloc::{AllocError, Global};
use std::process::Abort;
use std::sync::Wait;
use std::thread::Threads;

/// A folder that notes which files are read.
#[derive(Drop)]
struct NotingFolder {
    files: MemoryFolder,
    /// Their names, with a space behind each.
    opened: Vec<u8>,
}

impl Folder for NotingFolder {
    ghost use Rattle.std.specs.Prelude.{Some};

    ghost files = { λ folder. Some folder.files.files };

    ghost faults = { λ folder. folder.files.faults };

    fn read(&mut self, name: &str, limit: u64, out: &mut Vec<u8>) -> Result<(), ReadFault> {
        note(&mut self.opened, name)?;
        self.files.read(name, limit, out)
    }

    /// No file is written: there is no room for it.
    fn write(&mut self, _name: &str, _bytes: &[u8]) -> Result<(), WriteFault> {
        Err(WriteFault::Memory)
    }
}

fn note(opened: &mut Vec<u8>, name: &str) -> Result<(), AllocError> {
    opened.extend_from_slice(name.as_bytes())?;
    opened.push(b' ')?;
    Ok(())
}

/// The word of a task, and the files that it opens.
type Row<'a> = (&'a str, &'a str);

const RECORDING: &str = "d/manifest d/t1.trace d/t2.trace ";

const ASKED: &str = "d/manifest d/t1.trace d/t2.trace d/props ";

const SUBMITTED: &str = "d/manifest d/t1.trace d/t2.trace d/props d/report ";

const TASKS: [Row; 10] = [
    (
        "--task=replay",
        "d/manifest d/t1.trace d/t2.trace d/schedule ",
    ),
    ("--task=list", ASKED),
    ("--task=analyse", ASKED),
    ("--task=notify", ASKED),
    ("--task=check", SUBMITTED),
    ("--task=compact", SUBMITTED),
    ("--task=resume", SUBMITTED),
    ("--task=stuck", RECORDING),
    ("--task=link", RECORDING),
    ("--task=make", ""),
];

/// A file that breaks a rule, the word of a task, and the files that it opens then.
type Broken<'a> = (&'a str, &'a str, &'a str);

const REFUSED: [Broken; 8] = [
    ("d/manifest", "--task=check", "d/manifest "),
    ("d/manifest", "--task=link", "d/manifest "),
    ("d/t2.trace", "--task=resume", RECORDING),
    ("d/t2.trace", "--task=replay", RECORDING),
    ("d/props", "--task=analyse", ASKED),
    ("d/props", "--task=compact", ASKED),
    ("d/props", "--task=stuck", RECORDING),
    ("d/report", "--task=resume", SUBMITTED),
];

/// The files of all tasks, of which this one breaks a rule, if one is named.
fn files_with(rt: &impl Abort, alloc: Global, broken: &str) -> MemoryFolder {
    let mut texts = Vec::new(alloc);
    for (path, text) in FILES.as_slice() {
        let text = if *path == broken {
            "none of the forms\n"
        } else {
            *text
        };
        texts.push((*path, text)).expect(rt, "memory");
    }
    let files = folder_of(rt, alloc, texts.as_slice());
    drop(texts);
    files
}

/// Whether a task opens these files.
fn opens<R: AllocGlobal + Threads + Wait + Sync + Abort>(
    rt: &R,
    task: &str,
    broken: &str,
    names: &str,
) -> bool {
    let alloc = rt.alloc();
    let mut folder = NotingFolder {
        files: files_with(rt, alloc, broken),
        opened: Vec::new(alloc),
    };
    let ended = run_in(rt, &[task, "d"], &mut folder, &FreeGate);
    drop(ended);
    let opens = folder.opened.as_slice() == names.as_bytes();
    drop(folder);
    opens
}

#[test]
fn each_task_opens_its_files(rt: HostRuntime) {
    for (task, names) in TASKS.as_slice() {
        assert!(rt; opens(&rt, task, "", names));
    }
}

#[test]
fn no_file_is_opened_behind_a_refusal(rt: HostRuntime) {
    for (broken, task, names) in REFUSED.as_slice() {
        assert!(rt; opens(&rt, task, broken, names));
    }
}
