ghost use Rattle.std.specs.Prelude.{◌≡◌, ◌∷◌, ◌++◌, OnOk};
ghost use Rattle.gp_text.specs.Spelling.{after_words, joined};
ghost use Rattle.gp_beside.specs.Files.{name_of};
ghost use Rattle.gp_beside.specs.Refusal.{at_line, cause_words, fault_words};

use gp_text::{TextFault, print_u64};
use std::alloc::AllocError;

/// A file that may stand beside a report.
#[derive(Clone, Copy, PartialEq, Eq)]
pub enum NoteFile {
    /// The places, by number.
    Places,
    /// The numbers of the places of the events of this thread.
    ThreadPlaces(u32),
    /// What was seen to happen.
    Confirmed,
}

/// Which rule a file breaks, and in which line; at a text's end that is the line behind its last one.
#[derive(Clone, Copy, PartialEq, Eq)]
pub enum Cause {
    /// The file has more bytes than its limit.
    TooLong,
    /// The text has no lines.
    Text(TextFault),
    /// The line is none of the forms that may stand there.
    BadLine(u32),
    /// A place is in a file that was not named.
    UnknownFile(u32),
    /// A number is that of no place.
    UnknownPlace(u32),
    /// A segment has not as many numbers as the trace has events there, or there are not as many segments.
    EventCount(u32),
    /// There are more files, or more places, than there may be.
    TooMany(u32),
}

/// That a file breaks a rule.
#[derive(Clone, Copy, PartialEq, Eq)]
pub struct NoteFault {
    pub file: NoteFile,
    pub cause: Cause,
}

/// Why nothing was read.
#[derive(Clone, Copy, PartialEq, Eq)]
pub enum NoteStop {
    /// The folder failed.
    FolderFailed,
    /// Want of memory.
    Memory,
}

impl From<AllocError> for NoteStop {
    ghost use Rattle.std.specs.Prelude.{◌≡◌};
    ghost use Rattle.gp_beside.specs.declared.fault.NoteStop.TheVariants.{Memory};

    ghost from_gives = { λ _ e. e ≡ Memory };

    fn from(_error: AllocError) -> NoteStop {
        NoteStop::Memory
    }
}

/// Puts that a file is left out, since it breaks a rule, as a line that is not ended.
#[tactic(auto, using(crate::proofs::Put::first_put))]
pub fn put_fault(text: &mut Vec<u8>, fault: NoteFault) -> Result<(), AllocError>
    ensures { OnOk result (text.new.items ≡ text.old.items ++ joined (fault_words fault)) }
{
    text.extend_from_slice(b"left out: refused")?;
    put_told(text, fault)
}

fn put_told(text: &mut Vec<u8>, fault: NoteFault) -> Result<(), AllocError>
    ensures { OnOk result (text.new.items ≡ text.old.items ++ after_words (name_of fault.file ∷ cause_words fault.cause)) }
{
    text.push(b' ')?;
    put_name(text, fault.file)?;
    put_cause(text, fault.cause)
}

fn put_name(text: &mut Vec<u8>, file: NoteFile) -> Result<(), AllocError>
    ensures { OnOk result (text.new.items ≡ text.old.items ++ name_of file) }
{
    match file {
        NoteFile::Places => text.extend_from_slice(b"places"),
        NoteFile::ThreadPlaces(thread) => {
            text.push(b't')?;
            print_u64(text, u64::from(thread))?;
            text.extend_from_slice(b".places")
        }
        NoteFile::Confirmed => text.extend_from_slice(b"confirmed"),
    }
}

fn put_cause(text: &mut Vec<u8>, cause: Cause) -> Result<(), AllocError>
    ensures { OnOk result (text.new.items ≡ text.old.items ++ after_words (cause_words cause)) }
{
    match cause {
        Cause::TooLong => text.extend_from_slice(b" toolong"),
        Cause::Text(TextFault::NotAscii(line)) => put_rule(text, line, b"notascii"),
        Cause::Text(TextFault::LongLine(line)) => put_rule(text, line, b"longline"),
        Cause::Text(TextFault::NoLastNewline(line)) => put_rule(text, line, b"nolastnewline"),
        Cause::Text(TextFault::Memory) => Ok(()),
        Cause::BadLine(line) => put_rule(text, line, b"badline"),
        Cause::UnknownFile(line) => put_rule(text, line, b"unknownfile"),
        Cause::UnknownPlace(line) => put_rule(text, line, b"unknownplace"),
        Cause::EventCount(line) => put_rule(text, line, b"eventcount"),
        Cause::TooMany(line) => put_rule(text, line, b"toomany"),
    }
}

fn put_rule(text: &mut Vec<u8>, line: u32, rule: &[u8]) -> Result<(), AllocError>
    ensures { OnOk result (text.new.items ≡ text.old.items ++ after_words (at_line line rule.now)) }
{
    text.push(b' ')?;
    print_u64(text, u64::from(line))?;
    text.push(b' ')?;
    text.extend_from_slice(rule)
}
