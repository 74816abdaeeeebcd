ghost use Rattle.std.specs.Prelude.{◌≡◌, ◌≤◌, ◌++◌, ◌==◌, [], if◌then◌else◌, IfOk, List, None, OnOk, Some, codes, map, option_map, slice_get, take, unwrap_or};
ghost use Rattle.std.specs.List.{list_any, slice_split};
ghost use Rattle.std.specs.Str.{bytes_eq, is_utf8};
ghost use Rattle.gp_outside.specs.Faults.{Rose};
ghost use Rattle.gp_outside.specs.Folders.{File};
ghost use Rattle.gp_beside.specs.Sources.{begins_at_root, inside, line_at, line_of, place_of, places_of, shown_byte, shown_of, source_at, source_lines, trimmed};

use crate::fault::NoteStop;
use crate::files::{Content, content_at, path_to};
use crate::place_list::{PlaceLine, PlaceList};
use gp_base::Row;
use gp_outside::Folder;
use gp_place::Place;
use gp_text::cut;
use std::alloc::{AllocError, Global};

/// The most bytes of a line that are shown.
const LONGEST_SHOWN: usize = 200;

/// The places, where the sources may lie in a directory. Each source that is named is read once, in order.
pub(crate) fn places_of<F: Folder>(
    alloc: Global,
    folder: &mut F,
    directory: Option<&str>,
    told: &PlaceList,
) -> Result<Row<Place>, NoteStop>
    ensures later { F.faults folder.old ≤ F.faults folder.new }
    ensures kept { F.files folder.new ≡ F.files folder.old }
    ensures told { (files : List File) → F.files folder.old ≡ Some files
        → IfOk result (λ places. places ≡ places_of files (option_map (λ at. at.now) directory.entry) told.now) }
    ensures fault { result ≡ Err NoteStop.FolderFailed → Rose (F.faults folder.old) (F.faults folder.new) }
{
    let names = told.files.as_slice();
    let sources = sources_at(alloc, folder, directory, names)?;
    let places = places_among(alloc, names, sources.as_slice(), told.places.as_slice())?;
    Ok(places)
}

fn sources_at<F: Folder>(
    alloc: Global,
    folder: &mut F,
    directory: Option<&str>,
    names: &[Row<u8>],
) -> Result<Row<Row<Row<u8>>>, NoteStop>
    ensures later { F.faults folder.old ≤ F.faults folder.new }
    ensures kept { F.files folder.new ≡ F.files folder.old }
    ensures told { (files : List File) → F.files folder.old ≡ Some files
        → IfOk result (λ sources. sources ≡ map (source_at files (option_map (λ at. at.now) directory.entry)) names.now) }
    ensures fault { result ≡ Err NoteStop.FolderFailed → Rose (F.faults folder.old) (F.faults folder.new) }
{
    let mut sources = Row::new(alloc);
    for name in names {
        let lines = source_at(alloc, folder, directory, name.as_slice())?;
        sources.push(lines)?;
    }
    Ok(sources)
}

/// The lines of the source of this name, where it leads into the directory.
fn source_at<F: Folder>(
    alloc: Global,
    folder: &mut F,
    directory: Option<&str>,
    name: &[u8],
) -> Result<Row<Row<u8>>, NoteStop>
    ensures later { F.faults folder.old ≤ F.faults folder.new }
    ensures kept { F.files folder.new ≡ F.files folder.old }
    ensures told { (files : List File) → F.files folder.old ≡ Some files
        → IfOk result (λ lines. lines ≡ source_at files (option_map (λ at. at.now) directory.entry) name.now) }
    ensures fault { result ≡ Err NoteStop.FolderFailed → Rose (F.faults folder.old) (F.faults folder.new) }
{
    let (Some(directory), Some(name)) = (directory, inside(name)) else {
        return Ok(Row::new(alloc));
    };
    let path = path_to(alloc, directory, name)?;
    let content = content_at(alloc, folder, path.as_str())?;
    Ok(source_lines(alloc, content)?)
}

/// The name as text, where it leads nowhere but into the directory that it is looked up in.
fn inside(name: &[u8]) -> Option<&str>
    ensures { option_map (λ text. text.now) result ≡ inside name.now }
{
    if begins_at_root(name) || has_percent(name) || has_parent(name) {
        return None;
    }
    text_of_name(name)
}

fn text_of_name(name: &[u8]) -> Option<&str>
    ensures { option_map (λ text. text.now) result ≡ if is_utf8 name.now then Some name.now else None }
{
    match str::from_utf8(name) {
        Ok(text) => Some(text),
        Err(_) => None,
    }
}

fn begins_at_root(name: &[u8]) -> bool
    ensures { result ≡ begins_at_root name.now }
{
    match name {
        [first, ..] => *first == b'/',
        [] => false,
    }
}

fn has_percent(name: &[u8]) -> bool
    ensures { result ≡ list_any (λ b. b == 37) name.now }
{
    name.iter().any(|byte| *byte == b'%')
}

/// Whether a part of the name is the directory above.
fn has_parent(name: &[u8]) -> bool
    ensures { result ≡ list_any (λ part. bytes_eq part (codes "..")) (slice_split (λ b. b == 47) name.now) }
{
    let mut rest = name;
    while let Some((part, after)) = cut(rest, b'/') {
        if part == b"..".as_slice() {
            return true;
        }
        rest = after;
    }
    rest == b"..".as_slice()
}

fn source_lines(alloc: Global, content: Content) -> Result<Row<Row<u8>>, AllocError>
    ensures { IfOk result (λ lines. lines ≡ source_lines content) }
{
    match content {
        Content::Absent | Content::TooLong => Ok(Row::new(alloc)),
        Content::Held(bytes) => lines_in(alloc, bytes.as_slice()),
    }
}

fn lines_in(alloc: Global, bytes: &[u8]) -> Result<Row<Row<u8>>, AllocError>
    ensures { IfOk result (λ lines. lines ≡ slice_split (λ b. b == 10) bytes.now) }
{
    let mut lines = Row::new(alloc);
    let mut rest = bytes;
    while let Some((line, after)) = cut(rest, b'\n') {
        lines.push(Row::from_vec(Vec::from_slice(alloc, line)?))?;
        rest = after;
    }
    lines.push(Row::from_vec(Vec::from_slice(alloc, rest)?))?;
    Ok(lines)
}

fn places_among(
    alloc: Global,
    names: &[Row<u8>],
    sources: &[Row<Row<u8>>],
    lines: &[PlaceLine],
) -> Result<Row<Place>, AllocError>
    ensures { IfOk result (λ places. places ≡ map (place_of names.now sources.now) lines.now) }
{
    let mut places = Row::new(alloc);
    for line in lines {
        places.push(place_of(alloc, names, sources, line)?)?;
    }
    Ok(places)
}

fn place_of(
    alloc: Global,
    names: &[Row<u8>],
    sources: &[Row<Row<u8>>],
    line: &PlaceLine,
) -> Result<Place, AllocError>
    ensures { IfOk result (λ place. place ≡ place_of names.now sources.now line.now) }
{
    let name = row_at(names, line.file.saturating_sub(1) as usize);
    let file = Row::from_vec(Vec::from_slice(alloc, name)?);
    let function = Row::from_vec(Vec::from_slice(alloc, line.function.as_slice())?);
    let source = line_of(alloc, sources, line)?;
    Ok(Place {
        file,
        line: line.line,
        function,
        source,
    })
}

fn line_of(
    alloc: Global,
    sources: &[Row<Row<u8>>],
    place: &PlaceLine,
) -> Result<Row<u8>, AllocError>
    ensures { IfOk result (λ line. line ≡ line_of sources.now place.now) }
{
    let source = row_at(sources, place.file.saturating_sub(1) as usize);
    let mut text = Vec::new(alloc);
    put_line(&mut text, line_at(source, place.line))?;
    Ok(Row::from_vec(text))
}

/// The elements of the row that stands there, none where no row does.
fn row_at<T>(rows: &[Row<T>], place: usize) -> &[T]
    ensures { result.now ≡ unwrap_or (slice_get rows.now place) [] }
{
    match rows.get(place) {
        Some(row) => row.as_slice(),
        None => &[],
    }
}

fn line_at(lines: &[Row<u8>], number: u32) -> Option<&[u8]>
    ensures { option_map (λ line. line.now) result ≡ line_at lines.now number }
{
    let place = number.checked_sub(1)?;
    Some(lines.get(place as usize)?.as_slice())
}

fn put_line(text: &mut Vec<u8>, line: Option<&[u8]>) -> Result<(), AllocError>
    ensures { OnOk result (text.new.items ≡ text.old.items ++ shown_of (option_map (λ line. line.now) line.entry)) }
{
    match line {
        Some(line) => put_shown(text, shown_part(line)),
        None => Ok(()),
    }
}

/// What is shown of a line.
fn shown_part(line: &[u8]) -> &[u8]
    ensures { result.now ≡ take 200 (trimmed line.now) }
{
    front(trimmed(line), LONGEST_SHOWN)
}

/// At most so many bytes of a line.
fn front(line: &[u8], most: usize) -> &[u8]
    ensures { result.now ≡ take most line.now }
{
    if line.len() > most {
        &line[..most]
    } else {
        line
    }
}

fn trimmed(line: &[u8]) -> &[u8]
    ensures { result.now ≡ trimmed line.now }
{
    let mut rest = line;
    while let Some((first, more)) = rest.split_first() {
        if *first > b' ' {
            return rest;
        }
        rest = more;
    }
    rest
}

fn put_shown(text: &mut Vec<u8>, part: &[u8]) -> Result<(), AllocError>
    ensures { OnOk result (text.new.items ≡ text.old.items ++ map shown_byte part.now) }
{
    for byte in part {
        text.push(shown_byte(*byte))?;
    }
    Ok(())
}

fn shown_byte(byte: u8) -> u8
    ensures { result ≡ shown_byte byte }
{
    if byte < b' ' || byte == 127 {
        b' '
    } else {
        byte
    }
}
