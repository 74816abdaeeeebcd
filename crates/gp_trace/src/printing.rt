ghost use Rattle.std.specs.Prelude.{◌≡◌, ℕ, ◌+◌, ◌-◌, ◌<◌, ◌++◌, ◌∷◌, [], length, decimal, codes, Ok, IfOk, OnOk};
ghost use Rattle.std.specs.Fmt.{signed_decimal};
ghost use Rattle.std.specs.List.{flat_map};
ghost use Rattle.gp_text.specs.Spelling.{spelling};
ghost use Rattle.gp_trace.specs.Printed.{TraceReadsAgain, ends_in, event_lines, event_words, exit_lines, later_lines, segment_lines, trace_text};
ghost use Rattle.gp_trace.specs.Trace.{in_order};
ghost use Rattle.gp_trace.specs.LockUse.{AreOfFormat};
ghost use Rattle.gp_trace.specs.Walk.{trace_of};

use crate::event::Event;
use crate::trace::LocalTrace;
use gp_base::Row;
use gp_text::{Name, one_spelling, plain_words, print_i64, print_u64, reads_again};
use std::alloc::{AllocError, Global};

/// The canonical text of the trace: one space between words, and a newline after each line.
pub fn print_trace(alloc: Global, trace: &LocalTrace) -> Result<Row<u8>, AllocError>
    ensures text { IfOk result (λ bytes. bytes ≡ trace_text trace.now) }
    ensures again { (format : ℕ) → AreOfFormat format (in_order trace.now.segments) → IfOk result (λ bytes. trace_of format trace.now.thread (length trace.now.segments - 1) bytes ≡ Ok trace.now) }
{
    trace_reads_again();
    let mut out = Vec::new(alloc);
    let segments = trace.segments();
    put_segments(&mut out, trace.exit_in(), segments)?;
    Ok(Row::from_vec(out))
}

/// The text of a trace is read as the trace.
pub fn trace_reads_again()
    ensures { TraceReadsAgain }
{
    one_spelling();
    plain_words();
    reads_again();
}

fn put_segments(
    out: &mut Vec<u8>,
    exit_in: Option<u32>,
    segments: &[Row<Event>],
) -> Result<(), AllocError>
    ensures { OnOk result (out.new.items ≡ out.old.items ++ spelling (segment_lines exit_in segments.now)) }
{
    let Some((first, later)) = segments.split_first() else {
        return Ok(());
    };
    put_events(out, first.as_slice())?;
    put_exit(out, exit_in, 1)?;
    put_later(out, exit_in, later)
}

fn put_later(
    out: &mut Vec<u8>,
    exit_in: Option<u32>,
    segments: &[Row<Event>],
) -> Result<(), AllocError>
    ensures { OnOk result (out.new.items ≡ out.old.items ++ spelling (later_lines exit_in 2 segments.now)) }
{
    for (index, segment) in segments.iter().enumerate() {
        put_keyword(out, b"mark")?;
        put_events(out, segment.as_slice())?;
        put_exit(out, exit_in, index + 2)?;
    }
    Ok(())
}

fn put_exit(out: &mut Vec<u8>, exit_in: Option<u32>, number: usize) -> Result<(), AllocError>
    ensures { OnOk result (out.new.items ≡ out.old.items ++ spelling (exit_lines exit_in number)) }
{
    if ends_in(exit_in, number) {
        return put_keyword(out, b"exit");
    }
    Ok(())
}

fn ends_in(exit_in: Option<u32>, number: usize) -> bool
    ensures { result ≡ ends_in exit_in number }
{
    match exit_in {
        Some(last) => last as usize == number,
        None => false,
    }
}

fn put_events(out: &mut Vec<u8>, events: &[Event]) -> Result<(), AllocError>
    ensures { OnOk result (out.new.items ≡ out.old.items ++ spelling (event_lines events.now)) }
{
    for event in events {
        put_event(out, event)?;
    }
    Ok(())
}

fn put_event(out: &mut Vec<u8>, event: &Event) -> Result<(), AllocError>
    ensures { OnOk result (out.new.items ≡ out.old.items ++ spelling (event_words event.now ∷ [])) }
{
    match event {
        Event::Read(name, value) => put_valued(out, b"read", name, *value),
        Event::Write(name, value) => put_valued(out, b"write", name, *value),
        Event::Acquire(lock) => put_named(out, b"acquire", lock),
        Event::Release(lock) => put_named(out, b"release", lock),
        Event::RAcquire(lock) => put_named(out, b"racquire", lock),
        Event::RRelease(lock) => put_named(out, b"rrelease", lock),
        Event::Start(thread) => put_numbered(out, b"start", *thread),
        Event::Join(thread) => put_numbered(out, b"join", *thread),
        Event::Op(operation) => put_op(out, operation.name(), operation.objects()),
        Event::Begin(region) => put_named(out, b"begin", region),
        Event::End(region) => put_named(out, b"end", region),
    }
}

fn put_keyword(out: &mut Vec<u8>, keyword: &[u8]) -> Result<(), AllocError>
    ensures { OnOk result (out.new.items ≡ out.old.items ++ spelling ((keyword.now ∷ []) ∷ [])) }
{
    out.extend_from_slice(keyword)?;
    out.extend_from_slice(b"\n")
}

fn put_named(out: &mut Vec<u8>, keyword: &[u8], name: &Name) -> Result<(), AllocError>
    ensures { OnOk result (out.new.items ≡ out.old.items ++ spelling ((keyword.now ∷ name.now ∷ []) ∷ [])) }
{
    put_words(out, keyword, name)?;
    out.extend_from_slice(b"\n")
}

fn put_numbered(out: &mut Vec<u8>, keyword: &[u8], number: u32) -> Result<(), AllocError>
    ensures { OnOk result (out.new.items ≡ out.old.items ++ spelling ((keyword.now ∷ decimal number ∷ []) ∷ [])) }
{
    out.extend_from_slice(keyword)?;
    out.extend_from_slice(b" ")?;
    print_u64(out, u64::from(number))?;
    out.extend_from_slice(b"\n")
}

fn put_valued(out: &mut Vec<u8>, keyword: &[u8], name: &Name, value: i64) -> Result<(), AllocError>
    ensures { OnOk result (out.new.items ≡ out.old.items ++ spelling ((keyword.now ∷ name.now ∷ signed_decimal value ∷ []) ∷ [])) }
{
    put_words(out, keyword, name)?;
    out.extend_from_slice(b" ")?;
    print_i64(out, value)?;
    out.extend_from_slice(b"\n")
}

// The keyword and the name of a line that goes on.
fn put_words(out: &mut Vec<u8>, keyword: &[u8], name: &Name) -> Result<(), AllocError>
    ensures { OnOk result (out.new.items ≡ out.old.items ++ keyword.now ++ 32 ∷ name.now) }
{
    out.extend_from_slice(keyword)?;
    out.extend_from_slice(b" ")?;
    out.extend_from_slice(name.as_bytes())
}

fn put_op(out: &mut Vec<u8>, name: &Name, objects: &[Name]) -> Result<(), AllocError>
    ensures { OnOk result (out.new.items ≡ out.old.items ++ spelling ((codes "op" ∷ name.now ∷ objects.now) ∷ [])) }
{
    out.extend_from_slice(b"op ")?;
    out.extend_from_slice(name.as_bytes())?;
    put_objects(out, objects)?;
    out.extend_from_slice(b"\n")
}

fn put_objects(out: &mut Vec<u8>, objects: &[Name]) -> Result<(), AllocError>
    ensures { OnOk result (out.new.items ≡ out.old.items ++ flat_map (λ object. 32 ∷ object) objects.now) }
{
    for object in objects {
        out.extend_from_slice(b" ")?;
        out.extend_from_slice(object.as_bytes())?;
    }
    Ok(())
}
