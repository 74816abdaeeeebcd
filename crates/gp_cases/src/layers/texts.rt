// What texts, numbers, names and command lines are read as.
ghost use Rattle.std.specs.Prelude.{◌-◌, ◌<◌, ◌^◌, length};

use crate::case::words_behind;
use crate::layers::telling::{tell, tell_last};
use gp_text::{
    Line, Lines, Name, TextLine, Words, end_line, print_u64, read_i64, read_lines, read_u32,
    read_u64,
};
use gp_words::{
    Command, CutCommand, MergeCommand, ShardCommand, ShowCommand, command_of, shard_command_of,
    show_command_of,
};
use gp_writer::{put_line, put_word};
use std::alloc::{AllocError, Global};
use std::cmp::Ordering;

/// Tells each line of a text with its number, or what the text is refused for.
pub fn tell_lines(alloc: Global, out: &mut Vec<u8>, text: &[u8]) -> Result<(), AllocError>
    requires { length text.now < 2 ^ 32 - 1 }
{
    match read_lines(alloc, text) {
        Ok(lines) => {
            let told = tell_each_line(out, lines.as_slice());
            drop(lines);
            told
        }
        Err(fault) => tell(out, format!(in alloc; "{fault:?}")?.as_str()),
    }
}

fn tell_each_line(out: &mut Vec<u8>, lines: &[Line]) -> Result<(), AllocError> {
    for line in lines {
        tell_line(out, line)?;
    }
    Ok(())
}

fn tell_line(out: &mut Vec<u8>, line: &Line) -> Result<(), AllocError> {
    print_u64(out, u64::from(line.number))?;
    for word in line.words.as_slice() {
        put_word(out, word.as_bytes())?;
    }
    tell(out, "")
}

/// Tells each line of a text as a walk over it gives the line, and the number of the line in which the text ends.
pub fn tell_walk(out: &mut Vec<u8>, text: &[u8]) -> Result<(), AllocError>
    requires { length text.now < 2 ^ 32 - 1 }
{
    let mut lines = Lines::of(text);
    while let Some(line) = lines.next() {
        tell_walked(out, line)?;
    }
    put_line(out, b"end", &[end_line(text)])
}

fn tell_walked(out: &mut Vec<u8>, line: TextLine) -> Result<(), AllocError> {
    print_u64(out, u64::from(line.number))?;
    tell_words(out, line.words)?;
    tell(out, "")
}

fn tell_words(out: &mut Vec<u8>, words: Words) -> Result<(), AllocError> {
    let mut words = words;
    while let Some(word) = words.next() {
        put_word(out, word)?;
    }
    Ok(())
}

/// Tells what a word is as an unsigned number, as a signed one, and as one of 32 bits.
pub fn tell_number(out: &mut Vec<u8>, word: &[u8]) -> Result<(), AllocError> {
    tell_unsigned(out, read_u64(word))?;
    tell_signed(out, read_i64(word))?;
    tell_small(out, read_u32(word))
}

fn tell_unsigned(out: &mut Vec<u8>, number: Option<u64>) -> Result<(), AllocError> {
    match number {
        Some(number) => put_line(out, b"unsigned", &[number]),
        None => tell(out, "not unsigned"),
    }
}

fn tell_signed(out: &mut Vec<u8>, number: Option<i64>) -> Result<(), AllocError> {
    let Some(number) = number else {
        return tell(out, "not signed");
    };
    out.extend_from_slice(b"signed")?;
    tell_last(out, number)
}

fn tell_small(out: &mut Vec<u8>, number: Option<u32>) -> Result<(), AllocError> {
    match number {
        Some(number) => put_line(out, b"small", &[number]),
        None => tell(out, "not small"),
    }
}

/// Tells whether a word is a name.
pub fn tell_name(out: &mut Vec<u8>, word: &[u8]) -> Result<(), AllocError> {
    match Name::of(word) {
        Some(name) => put_line(out, b"name", &[name.as_bytes()]),
        None => tell(out, "no name"),
    }
}

/// Tells how two names stand to each other.
pub fn tell_order(out: &mut Vec<u8>, one: &[u8], other: &[u8]) -> Result<(), AllocError> {
    let (Some(one), Some(other)) = (Name::of(one), Name::of(other)) else {
        return tell(out, "no name");
    };
    tell(out, order_word(one.cmp(&other)))
}

fn order_word(order: Ordering) -> &'static str {
    match order {
        Ordering::Less => "before",
        Ordering::Equal => "same",
        Ordering::Greater => "after",
    }
}

/// Tells the command that words are.
pub fn tell_command(alloc: Global, out: &mut Vec<u8>, words: &[String]) -> Result<(), AllocError> {
    if let Some(words) = words_behind("gpshow", words) {
        return tell_command_of_gpshow(alloc, out, words);
    }
    if let Some(words) = words_behind("gpshards", words) {
        return tell_command_of_gpshards(alloc, out, words);
    }
    tell_command_of_gpredict(alloc, out, words)
}

fn tell_command_of_gpredict(
    alloc: Global,
    out: &mut Vec<u8>,
    words: &[String],
) -> Result<(), AllocError> {
    match command_of(words) {
        Some(command) => tell(out, command_text(alloc, &command)?.as_str()),
        None => tell(out, "no command"),
    }
}

fn tell_command_of_gpshow(
    alloc: Global,
    out: &mut Vec<u8>,
    words: &[String],
) -> Result<(), AllocError> {
    match show_command_of(words) {
        Some(command) => tell(out, show_command_text(alloc, &command)?.as_str()),
        None => tell(out, "no command"),
    }
}

fn tell_command_of_gpshards(
    alloc: Global,
    out: &mut Vec<u8>,
    words: &[String],
) -> Result<(), AllocError> {
    match shard_command_of(alloc, words)? {
        Some(ShardCommand::Cut(cut)) => tell(out, cut_text(alloc, &cut)?.as_str()),
        Some(ShardCommand::Merge(merge)) => tell_merge(out, &merge),
        None => tell(out, "no command"),
    }
}

fn command_text(alloc: Global, command: &Command) -> Result<String, AllocError> {
    let Command {
        task,
        folder,
        workers,
        budget,
        format,
        seed,
        threads,
        events,
    } = *command;
    format!(in alloc; "{task:?} {folder} {workers} {budget} {format} {seed} {threads} {events}")
}

fn show_command_text(alloc: Global, command: &ShowCommand) -> Result<String, AllocError> {
    let ShowCommand {
        style,
        folder,
        source,
        window,
        property,
        instance,
        answer,
        most,
    } = *command;
    format!(in alloc;
        "{style:?} {folder} {source:?} {window:?} {property:?} {instance:?} {answer:?} {most}"
    )
}

fn cut_text(alloc: Global, command: &CutCommand) -> Result<String, AllocError> {
    let CutCommand {
        part,
        parts,
        folder,
        out,
    } = *command;
    format!(in alloc; "Cut {part} {parts} {folder} {out}")
}

fn tell_merge(out: &mut Vec<u8>, command: &MergeCommand) -> Result<(), AllocError> {
    out.extend_from_slice(b"Merge")?;
    put_word(out, command.folder.as_bytes())?;
    for part in command.outs.as_slice() {
        put_word(out, part.as_bytes())?;
    }
    tell(out, "")
}
