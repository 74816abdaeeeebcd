// What folders write, and how a read ends that fails in its middle.
use gp_outside::{DirFolder, Folder, MemoryFolder, ReadFault, WriteFault, read_within};
use std::alloc::Global;
use std::io::{Error, ErrorKind, Read};
use std::process::Abort;
use std::rt::Files;
use std::{fs, io};

// A name, the bytes that are written under it, and the answer.
type Write<'a> = (&'a str, &'a [u8], Result<(), WriteFault>);

// Whether each write has its answer.
fn writes_answer(folder: &mut MemoryFolder, rows: &[Write]) -> bool {
    let mut hold = true;
    for (name, bytes, answer) in rows {
        hold &= folder.write(name, bytes) == *answer;
    }
    hold
}

fn has_file(alloc: Global, folder: &mut MemoryFolder, name: &str, bytes: &[u8]) -> bool {
    let mut out = Vec::new(alloc);
    folder.read(name, 9, &mut out) == Ok(()) && out.as_slice() == bytes
}

// A folder without files that fails at its third call.
fn failing_once(rt: &impl Abort, alloc: Global) -> MemoryFolder {
    let failing = vec![in alloc; 3u64].expect(rt, "memory");
    MemoryFolder::new(Vec::new(alloc), failing)
}

// Writes a file, writes it again, fails once, and writes a second file.
fn writes_hold(rt: &impl Abort, alloc: Global) -> bool {
    const ROWS: [Write; 4] = [
        ("one", b"first", Ok(())),
        ("one", b"again", Ok(())),
        ("two", b"lost", Err(WriteFault::Failed)),
        ("two", b"kept", Ok(())),
    ];
    let mut folder = failing_once(rt, alloc);
    let answer = writes_answer(&mut folder, &ROWS);
    let one = has_file(alloc, &mut folder, "one", b"again");
    let two = has_file(alloc, &mut folder, "two", b"kept");
    let files = folder.files().len();
    drop(folder);
    answer && one && two && files == 2
}

#[test]
fn a_file_is_written_in_place_or_at_the_end(rt: HostRuntime) {
    assert!(rt; writes_hold(&rt, rt.alloc()));
}

// Gives the number of the read twice at each read, and fails at the third.
#[derive(Drop)]
struct Broken {
    reads: u8,
}

impl Read for Broken {
    fn read(&mut self, buf: &mut [u8]) -> io::Result<usize> {
        self.reads = self.reads.saturating_add(1);
        if self.reads == 3 {
            return Err(Error::from(ErrorKind::UnexpectedEof));
        }
        let count = buf.len().min(2);
        buf[..count].fill(self.reads);
        Ok(count)
    }
}

// A limit, how a read within it ends, and the bytes that it gives.
type Limited<'a> = (u64, Result<(), ReadFault>, &'a [u8]);

fn ends_so(alloc: Global, row: &Limited) -> bool {
    let (limit, answer, bytes) = *row;
    let mut out = Vec::new(alloc);
    let given = read_within(&mut Broken { reads: 0 }, limit, &mut out);
    given == answer && out.as_slice() == bytes
}

#[test]
fn a_read_that_fails_is_no_end(rt: HostRuntime) {
    const ROWS: [Limited; 4] = [
        (9, Err(ReadFault::Failed), &[1, 1, 2, 2]),
        (4, Err(ReadFault::Failed), &[1, 1, 2, 2]),
        (3, Err(ReadFault::TooLong), &[1, 1, 2, 2]),
        (0, Err(ReadFault::TooLong), &[1]),
    ];
    for row in &ROWS {
        assert!(rt; ends_so(rt.alloc(), row), "{}", row.0);
    }
}

fn holds<R: Files + AllocGlobal + Abort>(rt: &R, path: &str, bytes: &[u8]) -> bool {
    let held = fs::read(rt, path).expect(rt, "a file");
    held.as_slice() == bytes
}

// Whether a file that is written with these bytes holds them.
fn keeps<R: Files + AllocGlobal + Abort, F: Folder>(
    rt: &R,
    folder: &mut F,
    path: &str,
    bytes: &[u8],
) -> bool {
    folder.write(path, bytes) == Ok(()) && holds(rt, path, bytes)
}

#[test]
fn a_file_that_was_written_holds_the_bytes(rt: HostRuntime) {
    let path = "dir_folder_test";
    let mut long = [7u8; 5000];
    long[4999] = 8;
    let mut folder = DirFolder::new(rt.clone().expect(&rt, "a runtime"));
    for bytes in [long.as_slice(), b"short\n", b""] {
        assert!(rt; keeps(&rt, &mut folder, path, bytes));
    }
    assert!(rt; folder.write("dir_folder_test/inner", b"x") == Err(WriteFault::Failed));
    fs::remove_file(&rt, path).expect(&rt, "a file");
}
