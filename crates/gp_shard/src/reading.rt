ghost use Rattle.std.specs.Prelude.{◌≡◌, ◌≢◌, ◌-◌, ◌^◌, ◌<◌, length, slice_get, Err, Some, IfOk, option_copied};
ghost use Rattle.gp_shard.specs.Reading.{are_windows, field_of, head_of, is_head, is_part, no_line, part_of, part_with, shard_of, shard_of_text, windows_of, windows_with};
ghost use Rattle.gp_shard.specs.Shard.{IsShard};

use crate::laws::read_is_shard;
use crate::shard::Shard;
use gp_text::{Line, TextFault, Word, end_line, read_lines, read_u32};
use std::alloc::{AllocError, Global};
use thiserror::Error;

/// The most parts of a recording.
const MOST_PARTS: u32 = 4096;

/// The most windows of a recording.
const MOST_WINDOWS: u32 = 4096;

/// Why a text says no part.
#[derive(Clone, Copy, Debug, PartialEq, Eq, Error)]
pub enum ShardFault {
    /// The text has no lines.
    #[error("{0}")]
    Text(TextFault),
    /// The first bad line; where the text ends before its third line, the number of its end.
    #[error("line {0} is not one of a part")]
    Line(u32),
    /// Want of memory.
    #[error("out of memory")]
    Memory,
}

impl From<AllocError> for ShardFault {
    ghost use Rattle.std.specs.Prelude.{◌≡◌};
    ghost use Rattle.gp_shard.specs.declared.reading.ShardFault.TheVariants.{Memory};

    ghost from_gives = { λ _ e. e ≡ Memory };

    fn from(_error: AllocError) -> ShardFault {
        ShardFault::Memory
    }
}

impl From<TextFault> for ShardFault {
    ghost use Rattle.std.specs.Prelude.{◌≡◌};
    ghost use Rattle.gp_shard.specs.Reading.{from_text};

    ghost from_gives = { λ f e. e ≡ from_text f };

    fn from(fault: TextFault) -> ShardFault {
        match fault {
            TextFault::Memory => ShardFault::Memory,
            other => ShardFault::Text(other),
        }
    }
}

/// Which of how many parts.
#[derive(Clone, Copy)]
struct PartNumber {
    part: u32,
    parts: u32,
}

/// Which of how many windows.
#[derive(Clone, Copy)]
struct PartWindows {
    before: u32,
    count: u32,
    epochs: u32,
}

/// Reads the file of a part: the lines `gpshard 1`, `part I N` and `windows A COUNT E`, and no other.
pub fn read_shard(alloc: Global, bytes: &[u8]) -> Result<Shard, ShardFault>
    requires { length bytes.now < 2 ^ 32 - 1 }
    ensures due { result ≢ Err ShardFault.Memory → result ≡ shard_of_text bytes.now }
    ensures rules { IfOk result IsShard }
{
    read_is_shard();
    let lines = read_lines(alloc, bytes)?;
    shard_of(end_line(bytes), lines.as_slice())
}

fn shard_of(last: u32, lines: &[Line]) -> Result<Shard, ShardFault>
    ensures { result ≡ shard_of last lines.now }
{
    head_of(last, line_at(lines, 0))?;
    let number = part_of(last, line_at(lines, 1))?;
    let windows = windows_of(last, line_at(lines, 2))?;
    no_line(line_at(lines, 3))?;
    Ok(Shard {
        part: number.part,
        parts: number.parts,
        before: windows.before,
        count: windows.count,
        epochs: windows.epochs,
    })
}

fn line_at(lines: &[Line], place: usize) -> Option<&Line>
    ensures { option_copied result ≡ slice_get lines.now place }
{
    lines.get(place)
}

/// The first line is the head.
fn head_of(last: u32, line: Option<&Line>) -> Result<(), ShardFault>
    ensures { result ≡ head_of last (option_copied line.entry) }
{
    match line {
        None => Err(ShardFault::Line(last)),
        Some(line) if is_head(line.words.as_slice()) => Ok(()),
        Some(line) => Err(ShardFault::Line(line.number)),
    }
}

fn is_head(words: &[Word]) -> bool
    ensures { result ≡ is_head words.now }
{
    match words {
        [keyword, format] => {
            keyword.as_bytes() == b"gpshard".as_slice() && format.as_bytes() == b"1".as_slice()
        }
        _ => false,
    }
}

fn part_of(last: u32, line: Option<&Line>) -> Result<PartNumber, ShardFault>
    ensures { result ≡ field_of last part_of (option_copied line.entry) }
{
    let line = line.ok_or(ShardFault::Line(last))?;
    part_in(line.words.as_slice()).ok_or(ShardFault::Line(line.number))
}

fn part_in(words: &[Word]) -> Option<PartNumber>
    ensures { result ≡ part_of words.now }
{
    match words {
        [keyword, part, parts] if keyword.as_bytes() == b"part".as_slice() => {
            part_with(read_u32(part.as_bytes())?, read_u32(parts.as_bytes())?)
        }
        _ => None,
    }
}

fn part_with(part: u32, parts: u32) -> Option<PartNumber>
    ensures { result ≡ part_with (Some part) (Some parts) }
{
    is_part(part, parts).then_some(PartNumber { part, parts })
}

fn is_part(part: u32, parts: u32) -> bool
    ensures { result ≡ is_part part parts }
{
    1 <= part && part <= parts && parts <= MOST_PARTS
}

fn windows_of(last: u32, line: Option<&Line>) -> Result<PartWindows, ShardFault>
    ensures { result ≡ field_of last windows_of (option_copied line.entry) }
{
    let line = line.ok_or(ShardFault::Line(last))?;
    windows_in(line.words.as_slice()).ok_or(ShardFault::Line(line.number))
}

fn windows_in(words: &[Word]) -> Option<PartWindows>
    ensures { result ≡ windows_of words.now }
{
    match words {
        [keyword, first, count, epochs] if keyword.as_bytes() == b"windows".as_slice() => {
            windows_with(
                read_u32(first.as_bytes())?,
                read_u32(count.as_bytes())?,
                read_u32(epochs.as_bytes())?,
            )
        }
        _ => None,
    }
}

fn windows_with(first: u32, count: u32, epochs: u32) -> Option<PartWindows>
    ensures { result ≡ windows_with (Some first) (Some count) (Some epochs) }
{
    if !are_windows(first, count, epochs) {
        return None;
    }
    Some(PartWindows {
        before: first - 1,
        count,
        epochs,
    })
}

fn are_windows(first: u32, count: u32, epochs: u32) -> bool
    ensures { result ≡ are_windows first count epochs }
{
    1 <= epochs
        && epochs <= MOST_WINDOWS
        && 1 <= first
        && u64::from(first) + u64::from(count) <= u64::from(epochs) + 1
}

fn no_line(line: Option<&Line>) -> Result<(), ShardFault>
    ensures { result ≡ no_line (option_copied line.entry) }
{
    match line {
        Some(line) => Err(ShardFault::Line(line.number)),
        None => Ok(()),
    }
}
