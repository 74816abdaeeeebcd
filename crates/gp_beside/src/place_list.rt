ghost use Rattle.std.specs.Prelude.{◌≡◌, IfOk};
ghost use Rattle.gp_beside.specs.PlaceList.{is_head, list_of, place_with, with_file, with_four, with_lines, with_place, with_place_of, with_two, with_words};

use crate::fault::Cause;
use gp_base::Row;
use gp_text::{Line, Word, read_u32};
use std::alloc::{AllocError, Global};

/// The most source files that are named.
const MOST_FILES: usize = 1024;

/// The most places.
const MOST_PLACES: usize = 65536;

/// A place in the program, as a line of the file tells it.
#[derive(Drop)]
pub struct PlaceLine {
    /// The number of its file, from 1.
    pub file: u32,
    /// The number of its line, from 1; 0 where none is known.
    pub line: u32,
    /// The name of its function.
    pub function: Row<u8>,
}

/// What the file `places` tells.
#[derive(Drop)]
pub struct PlaceList {
    /// The names of the source files.
    pub files: Row<Row<u8>>,
    pub places: Row<PlaceLine>,
}

/// What the lines of the file `places` tell, whose text ends at line `last`.
pub(crate) fn list_of(
    alloc: Global,
    last: u32,
    lines: &[Line],
) -> Result<Result<PlaceList, Cause>, AllocError>
    ensures { IfOk result (λ told. told ≡ list_of last lines.now) }
{
    let Some((head, lines)) = lines.split_first() else {
        return Ok(Err(Cause::BadLine(last)));
    };
    if !is_head(head.words.as_slice()) {
        return Ok(Err(Cause::BadLine(head.number)));
    }
    let none = PlaceList {
        files: Row::new(alloc),
        places: Row::new(alloc),
    };
    with_lines(alloc, none, lines)
}

fn is_head(words: &[Word]) -> bool
    ensures { result ≡ is_head words.now }
{
    match words {
        [keyword, format] => {
            keyword.as_bytes() == b"gpplaces".as_slice() && format.as_bytes() == b"1".as_slice()
        }
        _ => false,
    }
}

fn with_lines(
    alloc: Global,
    told: PlaceList,
    lines: &[Line],
) -> Result<Result<PlaceList, Cause>, AllocError>
    ensures { IfOk result (λ more. more ≡ with_lines told lines.now) }
{
    let mut told = told;
    for line in lines {
        match with_words(alloc, told, line.number, line.words.as_slice())? {
            Ok(more) => told = more,
            Err(cause) => return Ok(Err(cause)),
        }
    }
    Ok(Ok(told))
}

fn with_words(
    alloc: Global,
    told: PlaceList,
    number: u32,
    words: &[Word],
) -> Result<Result<PlaceList, Cause>, AllocError>
    ensures { IfOk result (λ more. more ≡ with_words told number words.now) }
{
    match words {
        [keyword, name] => with_two(alloc, told, number, keyword.as_bytes(), name.as_bytes()),
        [keyword, file, line, function] => with_four(
            alloc,
            told,
            number,
            keyword.as_bytes(),
            file.as_bytes(),
            line.as_bytes(),
            function.as_bytes(),
        ),
        _ => Ok(Err(Cause::BadLine(number))),
    }
}

fn with_two(
    alloc: Global,
    told: PlaceList,
    number: u32,
    keyword: &[u8],
    name: &[u8],
) -> Result<Result<PlaceList, Cause>, AllocError>
    ensures { IfOk result (λ more. more ≡ with_two told number keyword.now name.now) }
{
    if keyword == b"file".as_slice() {
        with_file(alloc, told, number, name)
    } else {
        Ok(Err(Cause::BadLine(number)))
    }
}

fn with_file(
    alloc: Global,
    told: PlaceList,
    number: u32,
    name: &[u8],
) -> Result<Result<PlaceList, Cause>, AllocError>
    ensures { IfOk result (λ more. more ≡ with_file told number name.now) }
{
    if !told.places.is_empty() {
        return Ok(Err(Cause::BadLine(number)));
    }
    if told.files.len() >= MOST_FILES {
        return Ok(Err(Cause::TooMany(number)));
    }
    let mut told = told;
    told.files
        .push(Row::from_vec(Vec::from_slice(alloc, name)?))?;
    Ok(Ok(told))
}

fn with_four(
    alloc: Global,
    told: PlaceList,
    number: u32,
    keyword: &[u8],
    file: &[u8],
    line: &[u8],
    function: &[u8],
) -> Result<Result<PlaceList, Cause>, AllocError>
    ensures { IfOk result (λ more. more ≡ with_four told number keyword.now file.now line.now function.now) }
{
    if keyword != b"place".as_slice() {
        return Ok(Err(Cause::BadLine(number)));
    }
    let place = place_with(alloc, read_u32(file), read_u32(line), function)?;
    with_place_of(told, number, place)
}

fn place_with(
    alloc: Global,
    file: Option<u32>,
    line: Option<u32>,
    function: &[u8],
) -> Result<Option<PlaceLine>, AllocError>
    ensures { IfOk result (λ place. place ≡ place_with file line function.now) }
{
    let (Some(file), Some(line)) = (file, line) else {
        return Ok(None);
    };
    let function = Row::from_vec(Vec::from_slice(alloc, function)?);
    Ok(Some(PlaceLine {
        file,
        line,
        function,
    }))
}

fn with_place_of(
    told: PlaceList,
    number: u32,
    place: Option<PlaceLine>,
) -> Result<Result<PlaceList, Cause>, AllocError>
    ensures { IfOk result (λ more. more ≡ with_place_of told number place) }
{
    match place {
        Some(place) => with_place(told, number, place),
        None => Ok(Err(Cause::BadLine(number))),
    }
}

fn with_place(
    told: PlaceList,
    number: u32,
    place: PlaceLine,
) -> Result<Result<PlaceList, Cause>, AllocError>
    ensures { IfOk result (λ more. more ≡ with_place told number place) }
{
    if place.file == 0 || place.file as usize > told.files.len() {
        return Ok(Err(Cause::UnknownFile(number)));
    }
    if told.places.len() >= MOST_PLACES {
        return Ok(Err(Cause::TooMany(number)));
    }
    let mut told = told;
    told.places.push(place)?;
    Ok(Ok(told))
}
