ghost use Rattle.std.specs.Prelude.{◌≡◌, ◌==◌, IfOk, length};
ghost use Rattle.gp_beside.specs.Numbers.{finished, no_numbers, numbers_of, size_due, with_lines, with_mark, with_number, with_number_of, with_words};

use crate::fault::Cause;
use gp_base::Row;
use gp_text::{Line, Word, read_u32};
use gp_trace::Event;
use std::alloc::{AllocError, Global};

/// The numbers of the places of a thread's events, while they are read.
#[derive(Drop)]
pub struct Numbers {
    /// Those of the segments that have ended.
    pub whole: Row<Row<u32>>,
    /// Those of the segment that has begun.
    pub begun: Row<u32>,
}

/// The numbers, each of one of so many places, that lines tell of the events of these segments. The text ends at line `last`.
pub(crate) fn numbers_of(
    alloc: Global,
    places: usize,
    segments: &[Row<Event>],
    last: u32,
    lines: &[Line],
) -> Result<Result<Row<Row<u32>>, Cause>, AllocError>
    ensures { IfOk result (λ numbers. numbers ≡ numbers_of places segments.now last lines.now) }
{
    match with_lines(alloc, places, segments, no_numbers(alloc), lines)? {
        Ok(told) => finished(segments, last, told),
        Err(cause) => Ok(Err(cause)),
    }
}

fn no_numbers(alloc: Global) -> Numbers
    ensures { result ≡ no_numbers }
{
    Numbers {
        whole: Row::new(alloc),
        begun: Row::new(alloc),
    }
}

fn with_lines(
    alloc: Global,
    places: usize,
    segments: &[Row<Event>],
    told: Numbers,
    lines: &[Line],
) -> Result<Result<Numbers, Cause>, AllocError>
    ensures { IfOk result (λ more. more ≡ with_lines places segments.now told lines.now) }
{
    let mut told = told;
    for line in lines {
        match with_words(
            alloc,
            places,
            segments,
            told,
            line.number,
            line.words.as_slice(),
        )? {
            Ok(more) => told = more,
            Err(cause) => return Ok(Err(cause)),
        }
    }
    Ok(Ok(told))
}

fn with_words(
    alloc: Global,
    places: usize,
    segments: &[Row<Event>],
    told: Numbers,
    line: u32,
    words: &[Word],
) -> Result<Result<Numbers, Cause>, AllocError>
    ensures { IfOk result (λ more. more ≡ with_words places segments.now told line words.now) }
{
    match words {
        [word] if word.as_bytes() == b"mark".as_slice() => with_mark(alloc, segments, told, line),
        [word] => with_number_of(places, segments, told, line, read_u32(word.as_bytes())),
        _ => Ok(Err(Cause::BadLine(line))),
    }
}

fn with_number_of(
    places: usize,
    segments: &[Row<Event>],
    told: Numbers,
    line: u32,
    number: Option<u32>,
) -> Result<Result<Numbers, Cause>, AllocError>
    ensures { IfOk result (λ more. more ≡ with_number_of places segments.now told line number) }
{
    match number {
        Some(number) => with_number(places, segments, told, line, number),
        None => Ok(Err(Cause::BadLine(line))),
    }
}

fn with_number(
    places: usize,
    segments: &[Row<Event>],
    told: Numbers,
    line: u32,
    number: u32,
) -> Result<Result<Numbers, Cause>, AllocError>
    ensures { IfOk result (λ more. more ≡ with_number places segments.now told line number) }
{
    if number as usize > places {
        return Ok(Err(Cause::UnknownPlace(line)));
    }
    if told.begun.len() >= size_due(segments, &told) {
        return Ok(Err(Cause::EventCount(line)));
    }
    let mut told = told;
    told.begun.push(number)?;
    Ok(Ok(told))
}

fn with_mark(
    alloc: Global,
    segments: &[Row<Event>],
    told: Numbers,
    line: u32,
) -> Result<Result<Numbers, Cause>, AllocError>
    ensures { IfOk result (λ more. more ≡ with_mark segments.now told line) }
{
    if told.whole.as_slice().len() + 1 >= segments.len() || !is_complete(segments, &told) {
        return Ok(Err(Cause::EventCount(line)));
    }
    let Numbers { mut whole, begun } = told;
    whole.push(begun)?;
    Ok(Ok(Numbers {
        whole,
        begun: Row::new(alloc),
    }))
}

/// Whether the segment that is being told has a number for each of its events.
fn is_complete(segments: &[Row<Event>], told: &Numbers) -> bool
    ensures { result ≡ (length told.now.begun == size_due segments.now told.now) }
{
    told.begun.len() == size_due(segments, told)
}

/// How many events the segment has that is being told; behind the last one, none.
fn size_due(segments: &[Row<Event>], told: &Numbers) -> usize
    ensures { result ≡ size_due segments.now told.now }
{
    match segments.get(told.whole.len()) {
        Some(segment) => segment.len(),
        None => 0,
    }
}

fn finished(
    segments: &[Row<Event>],
    last: u32,
    told: Numbers,
) -> Result<Result<Row<Row<u32>>, Cause>, AllocError>
    ensures { IfOk result (λ numbers. numbers ≡ finished segments.now last told) }
{
    if told.whole.as_slice().len() + 1 != segments.len() || !is_complete(segments, &told) {
        return Ok(Err(Cause::EventCount(last)));
    }
    let Numbers { mut whole, begun } = told;
    whole.push(begun)?;
    Ok(Ok(whole))
}
