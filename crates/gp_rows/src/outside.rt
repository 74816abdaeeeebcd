// What folders and sinks answer, over memory and at the edges.
use gp_outside::{
    DirFolder, Folder, FreeGate, Gate, MemoryFolder, MemorySink, PutFault, ReadFault, Sink, StdSink,
};
use std::alloc::{AllocError, Global};
use std::cell::{Cell, RefCell};
use std::fmt::Display;
use std::io::{Error, ErrorKind};
use std::process::Abort;
use std::rt::Files;
use std::{fs, io};

fn passes<G: Gate + Sync>(gate: &G) {
    gate.pass(1, 0);
}

/// A buffer that has bytes already, and these behind them.
fn buffer_with(rt: &impl Abort, alloc: Global, bytes: &[u8]) -> Vec<u8> {
    let mut buffer = Vec::from_slice(alloc, b"old").expect(rt, "memory");
    buffer.extend_from_slice(bytes).expect(rt, "memory");
    buffer
}

/// The name and the limit of a read, its answer, and the bytes that it gives.
type Read<'a> = (&'a str, u64, Result<(), ReadFault>, &'a [u8]);

/// Whether the read has that answer, and puts those bytes and no others behind what the buffer had.
fn reads<F: Folder>(rt: &impl Abort, alloc: Global, folder: &mut F, row: &Read) -> bool {
    let (name, limit, answer, bytes) = *row;
    let mut out = buffer_with(rt, alloc, b"");
    let due = buffer_with(rt, alloc, bytes);
    folder.read(name, limit, &mut out) == answer && out == due
}

fn all_read<F: Folder>(rt: &impl Abort, alloc: Global, folder: &mut F, rows: &[Read]) -> bool {
    let mut hold = true;
    for row in rows {
        hold &= reads(rt, alloc, folder, row);
    }
    hold
}

fn file_of(rt: &impl Abort, alloc: Global, name: &str, text: &str) -> (String, Vec<u8>) {
    let name = String::from_str(alloc, name).expect(rt, "memory");
    let bytes = Vec::from_slice(alloc, text.as_bytes()).expect(rt, "memory");
    (name, bytes)
}

/// Four files, of which two have one name, and a fault at the fourth call.
fn scripted(rt: &impl Abort, alloc: Global) -> MemoryFolder {
    const FILES: [(&str, &str); 4] = [
        ("one", "first"),
        ("two", "xyz"),
        ("one", "second"),
        ("none", ""),
    ];
    let mut files = Vec::new(alloc);
    for (name, text) in &FILES {
        files
            .push(file_of(rt, alloc, name, text))
            .expect(rt, "memory");
    }
    let failing = vec![in alloc; 4u64].expect(rt, "memory");
    MemoryFolder::new(files, failing)
}

fn scripted_reads_hold(rt: &impl Abort, alloc: Global) -> bool {
    const ROWS: [Read; 8] = [
        ("one", 5, Ok(()), b"first"),
        ("two", 2, Err(ReadFault::TooLong), b"xyz"),
        ("three", 9, Err(ReadFault::Absent), b""),
        ("one", 9, Err(ReadFault::Failed), b""),
        ("one", 3, Err(ReadFault::TooLong), b"firs"),
        ("none", 0, Ok(()), b""),
        ("two", 0, Err(ReadFault::TooLong), b"x"),
        ("two", u64::MAX, Ok(()), b"xyz"),
    ];
    let mut folder = scripted(rt, alloc);
    let hold = all_read(rt, alloc, &mut folder, &ROWS);
    drop(folder);
    hold
}

#[test]
fn memory_folder_answers_by_name_limit_and_script(rt: HostRuntime) {
    assert!(rt; scripted_reads_hold(&rt, rt.alloc()));
}

fn path_of(alloc: Global, name: &str) -> Result<String, AllocError> {
    format!(in alloc; "outside_test/{name}")
}

fn dir_folder<R: Clone + Abort>(rt: &R) -> DirFolder<R> {
    DirFolder::new(rt.clone().expect(rt, "a runtime"))
}

/// Whether a file of the system is read so.
fn file_reads<R: Files + AllocGlobal + Abort + Clone>(rt: &R, row: &Read) -> bool {
    let (name, limit, answer, bytes) = *row;
    let path = path_of(rt.alloc(), name).expect(rt, "memory");
    let mut folder = dir_folder(rt);
    let row = (path.as_str(), limit, answer, bytes);
    let hold = reads(rt, rt.alloc(), &mut folder, &row);
    drop(folder);
    hold
}

fn files_are_read<R: Files + AllocGlobal + Abort + Clone>(rt: &R, long: &[u8; 5000]) -> bool {
    let rows: [Read; 7] = [
        ("text", 10, Ok(()), b"some text\n"),
        ("text", 3, Err(ReadFault::TooLong), b"some"),
        ("long", 5000, Ok(()), long),
        ("long", 4999, Err(ReadFault::TooLong), long),
        ("long", 4095, Err(ReadFault::TooLong), &long[..4096]),
        ("other", 99, Err(ReadFault::Absent), b""),
        ("text/other", 99, Err(ReadFault::Failed), b""),
    ];
    let mut hold = true;
    for row in &rows {
        hold &= file_reads(rt, row);
    }
    hold
}

fn write_files<R: Files + AllocGlobal + Abort>(rt: &R, long: &[u8; 5000]) {
    let _ = fs::remove_dir_all(rt, "outside_test");
    fs::create_dir(rt, "outside_test").expect(rt, "a folder");
    fs::write(rt, "outside_test/text", "some text\n").expect(rt, "a file");
    fs::write(rt, "outside_test/long", long).expect(rt, "a file");
}

#[test]
fn dir_folder_reads_files_of_the_system(rt: HostRuntime) {
    let mut long = [7u8; 5000];
    long[4096] = 8;
    write_files(&rt, &long);
    assert!(rt; files_are_read(&rt, &long));
    fs::remove_dir_all(&rt, "outside_test").expect(&rt, "a folder");
}

/// A piece that is put, the answer, and what the output has then.
type Put<'a> = (&'a [u8], Result<(), PutFault>, &'a [u8]);

fn all_put(sink: &mut MemorySink, rows: &[Put]) -> bool {
    let mut hold = true;
    for (piece, answer, text) in rows {
        hold &= sink.put(piece) == *answer && sink.bytes() == *text;
    }
    hold
}

fn scripted_puts_hold(rt: &impl Abort, alloc: Global) -> bool {
    const ROWS: [Put; 5] = [
        (b"hello", Err(PutFault::Failed), b"hel"),
        (b"ab", Ok(()), b"helab"),
        (b"cd", Err(PutFault::Failed), b"helab"),
        (b"ef", Err(PutFault::Failed), b"helabef"),
        (b"", Ok(()), b"helabef"),
    ];
    let failing = vec![in alloc; (1u64, 3u64), (3, 0), (4, 99)].expect(rt, "memory");
    let mut sink = MemorySink::new(alloc, failing);
    let hold = all_put(&mut sink, &ROWS);
    drop(sink);
    hold
}

#[test]
fn memory_sink_writes_what_its_script_lets_it(rt: HostRuntime) {
    assert!(rt; scripted_puts_hold(&rt, rt.alloc()));
}

/// An output that keeps two bytes of a write at most, fails at its second and takes nothing at its fifth.
#[derive(Drop)]
struct Narrow {
    written: RefCell<Vec<u8>>,
    writes: Cell<u32>,
}

impl Narrow {
    fn has(&self, text: &str) -> bool {
        match self.written.try_borrow() {
            Ok(written) => written.as_slice() == text.as_bytes(),
            Err(_) => false,
        }
    }

    fn keep(&self, bytes: &[u8]) -> io::Result<()> {
        match self.written.try_borrow_mut() {
            Ok(mut written) => Ok(written.extend_from_slice(bytes)?),
            Err(_) => Err(Error::from(ErrorKind::Other)),
        }
    }
}

impl Print for Narrow {
    fn print<D: Display + Drop>(&self, _value: D) -> io::Result<()> {
        Err(Error::from(ErrorKind::Unsupported))
    }

    fn println<D: Display + Drop>(&self, _value: D) -> io::Result<()> {
        Err(Error::from(ErrorKind::Unsupported))
    }

    fn write_all(&self, _bytes: &[u8]) -> io::Result<()> {
        Err(Error::from(ErrorKind::Unsupported))
    }

    fn write_some(&self, bytes: &[u8]) -> io::Result<usize> {
        self.writes.set(self.writes.get().saturating_add(1));
        match self.writes.get() {
            2 => Err(Error::from(ErrorKind::BrokenPipe)),
            5 => Ok(0),
            _ => {
                let part = &bytes[..bytes.len().min(2)];
                self.keep(part)?;
                Ok(part.len())
            }
        }
    }
}

fn narrow_puts_hold(alloc: Global) -> bool {
    const ROWS: [(&str, Result<(), PutFault>, &str); 5] = [
        ("three", Err(PutFault::Failed), "th"),
        ("seven", Err(PutFault::Failed), "thseve"),
        ("five", Ok(()), "thsevefive"),
        ("odd", Ok(()), "thsevefiveodd"),
        ("", Ok(()), "thsevefiveodd"),
    ];
    let narrow = Narrow {
        written: RefCell::new(Vec::new(alloc)),
        writes: Cell::new(0),
    };
    let mut sink = StdSink::new(&narrow);
    let mut hold = true;
    for row in &ROWS {
        let (piece, answer, text) = *row;
        hold &= sink.put(piece.as_bytes()) == answer && narrow.has(text);
    }
    hold
}

#[test]
fn std_sink_writes_each_byte_of_a_piece(rt: HostRuntime) {
    assert!(rt; narrow_puts_hold(rt.alloc()));
    passes(&FreeGate);
}

#[test]
fn std_sink_writes_to_the_standard_output(rt: HostRuntime) {
    let mut sink = StdSink::new(rt.clone().expect(&rt, "a runtime"));
    assert!(rt; sink.put(b"a line\n") == Ok(()));
}
