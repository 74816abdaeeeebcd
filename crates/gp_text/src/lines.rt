ghost use Rattle.std.specs.Prelude.{◌≡◌, ◌≢◌, ◌-◌, ◌^◌, ◌<◌, length};
ghost use Rattle.std.specs.List.{list_any};
ghost use Rattle.gp_text.specs.Lines.{check_of, check_of_text, end_line_of, is_strange, lines_of};

use crate::cursor::Lines;
use crate::line::{Line, collect_words};
use crate::parts::cut;
use gp_base::Row;
use std::alloc::{AllocError, Global};
use thiserror::Error;

/// The most bytes that a line has.
pub const LONGEST_LINE: usize = 4096;

/// Why a text is refused, with the number of the line; the earliest line is told.
#[derive(Debug, Clone, Copy, PartialEq, Eq, Error)]
pub enum TextFault {
    /// The first line with a byte outside 0x20..0x7E.
    #[error("line {0} has a byte outside the printable ASCII characters")]
    NotAscii(u32),
    /// The first line of over 4,096 bytes.
    #[error("line {0} is longer than 4,096 bytes")]
    LongLine(u32),
    /// The text is not empty and does not end with a newline; the number of its last line.
    #[error("line {0}, the last one, does not end with a newline")]
    NoLastNewline(u32),
    #[error("out of memory")]
    Memory,
}

impl From<AllocError> for TextFault {
    ghost use Rattle.std.specs.Prelude.{◌≡◌};
    ghost use Rattle.gp_text.specs.declared.lines.TextFault.TheVariants.{Memory};

    ghost from_gives = { λ _ e. e ≡ Memory };

    fn from(_error: AllocError) -> TextFault {
        TextFault::Memory
    }
}

/// Tells the first fault of a text. It takes no memory, and its answer is never `Memory`.
pub fn check_text(bytes: &[u8]) -> Result<(), TextFault>
    requires { length bytes.now < 2 ^ 32 - 1 }
    ensures { result ≡ check_of_text bytes.now }
{
    let mut rest = bytes;
    let mut number = 1u32;
    while let Some((line, after)) = cut(rest, b'\n') {
        check(number, line)?;
        rest = after;
        number += 1;
    }
    check(number, rest)?;
    if !rest.is_empty() {
        return Err(TextFault::NoLastNewline(number));
    }
    Ok(())
}

fn check(number: u32, line: &[u8]) -> Result<(), TextFault>
    ensures { result ≡ check_of number line.now }
{
    if has_strange(line) {
        return Err(TextFault::NotAscii(number));
    }
    if line.len() > LONGEST_LINE {
        return Err(TextFault::LongLine(number));
    }
    Ok(())
}

fn has_strange(line: &[u8]) -> bool
    ensures { result ≡ list_any is_strange line.now }
{
    line.iter().any(|byte| *byte < b' ' || *byte > b'~')
}

/// The number of the line at which a text ends: one more than its newlines.
pub fn end_line(bytes: &[u8]) -> u32
    requires { length bytes.now < 2 ^ 32 - 1 }
    ensures { result ≡ end_line_of bytes.now }
{
    let mut line = 1;
    for byte in bytes {
        if *byte == b'\n' {
            line += 1;
        }
    }
    line
}

/// Reads a text as its lines of words. Lines that are passed over are counted.
pub fn read_lines(alloc: Global, bytes: &[u8]) -> Result<Row<Line>, TextFault>
    requires { length bytes.now < 2 ^ 32 - 1 }
    ensures { result ≢ Err TextFault.Memory → result ≡ lines_of bytes.now }
{
    check_text(bytes)?;
    let mut lines = Row::new(alloc);
    let mut rest = Lines::of(bytes);
    while let Some(line) = rest.next() {
        let words = collect_words(alloc, line.words)?;
        lines.push(Line {
            number: line.number,
            words,
        })?;
    }
    Ok(lines)
}
