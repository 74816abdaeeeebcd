ghost use Rattle.std.specs.Prelude.{◌≡◌, ◌≤◌, ◌++◌, [], List, Err, IfOk, None, OnOk, Some, option_map};
ghost use Rattle.gp_base.specs.Results.{or_refused};
ghost use Rattle.gp_outside.specs.Faults.{Rose};
ghost use Rattle.gp_outside.specs.Folders.{File};
ghost use Rattle.gp_place.specs.Places.{nowhere};
ghost use Rattle.gp_beside.specs.Beside.{all_numbers, fault_in, fault_of, list_at, noted_at, noted_by, or_else, placed, places_at, places_by, sightings_at, some_list_of, thread_numbers};
ghost use Rattle.gp_beside.specs.Files.{told_by};
ghost use Rattle.gp_beside.specs.Numbers.{numbers_of};
ghost use Rattle.gp_beside.specs.Sightings.{sightings_of};

use crate::fault::{Cause, NoteFault, NoteFile, NoteStop};
use crate::files::{FileLines, lines_at};
use crate::numbers::numbers_of;
use crate::place_list::{PlaceList, list_of};
use crate::sightings::sightings_of;
use crate::sources::places_of;
use gp_base::Row;
use gp_outside::Folder;
use gp_place::{Beside, Places, Sighting};
use gp_text::Line;
use gp_trace::{Event, LocalTrace};
use std::alloc::{AllocError, Global};

/// What stands beside a report, and which files are left out of it.
#[derive(Drop)]
pub struct Noted {
    pub beside: Beside,
    pub left_out: Row<NoteFault>,
}

/// Reads what stands beside the report in a directory, on a recording of these traces. Where the sources of the program are said to lie in a
/// directory, each place has its line of them.
///
/// It opens `places`, and where that is there `t1.places` and so on, then each source file that `places` names, and at last `confirmed`.
pub fn noted_at<F: Folder>(
    alloc: Global,
    folder: &mut F,
    directory: &str,
    source: Option<&str>,
    traces: &[LocalTrace],
) -> Result<Noted, NoteStop>
    ensures later { F.faults folder.old ≤ F.faults folder.new }
    ensures kept { F.files folder.new ≡ F.files folder.old }
    ensures told { (files : List File) → F.files folder.old ≡ Some files
        → IfOk result (λ noted. noted ≡ noted_at files directory.now (option_map (λ at. at.now) source.entry) traces.now) }
    ensures fault { result ≡ Err NoteStop.FolderFailed → Rose (F.faults folder.old) (F.faults folder.new) }
{
    let places = places_at(alloc, folder, directory, source, traces)?;
    let sightings = sightings_at(alloc, folder, directory)?;
    Ok(noted_by(alloc, places, sightings)?)
}

fn noted_by(
    alloc: Global,
    places: Result<Places, NoteFault>,
    sightings: Result<Row<Sighting>, NoteFault>,
) -> Result<Noted, AllocError>
    ensures { IfOk result (λ noted. noted ≡ noted_by places sightings) }
{
    let mut left_out = Row::new(alloc);
    let places = or_else(nowhere(alloc), places, &mut left_out)?;
    let sightings = or_else(Row::new(alloc), sightings, &mut left_out)?;
    Ok(Noted {
        beside: Beside { places, sightings },
        left_out,
    })
}

fn nowhere(alloc: Global) -> Places
    ensures { result ≡ nowhere }
{
    Places {
        places: Row::new(alloc),
        numbers: Row::new(alloc),
    }
}

/// What was read, or this in place of what breaks a rule, whose fault is added.
fn or_else<A: Drop>(
    none: A,
    read: Result<A, NoteFault>,
    left_out: &mut Row<NoteFault>,
) -> Result<A, AllocError>
    ensures told { IfOk result (λ told. told ≡ or_else none read) }
    ensures left_out { OnOk result (left_out.new ≡ left_out.old ++ fault_in read) }
{
    match read {
        Ok(told) => Ok(told),
        Err(fault) => {
            left_out.push(fault)?;
            Ok(none)
        }
    }
}

fn places_at<F: Folder>(
    alloc: Global,
    folder: &mut F,
    directory: &str,
    source: Option<&str>,
    traces: &[LocalTrace],
) -> Result<Result<Places, NoteFault>, NoteStop>
    ensures later { F.faults folder.old ≤ F.faults folder.new }
    ensures kept { F.files folder.new ≡ F.files folder.old }
    ensures told { (files : List File) → F.files folder.old ≡ Some files
        → IfOk result (λ places. places ≡ places_at files directory.now (option_map (λ at. at.now) source.entry) traces.now) }
    ensures fault { result ≡ Err NoteStop.FolderFailed → Rose (F.faults folder.old) (F.faults folder.new) }
{
    match list_at(alloc, folder, directory)? {
        Ok(Some(told)) => places_by(alloc, folder, directory, source, traces, &told),
        Ok(None) => Ok(Ok(nowhere(alloc))),
        Err(fault) => Ok(Err(fault)),
    }
}

/// The places that this list tells, with the numbers of all threads.
fn places_by<F: Folder>(
    alloc: Global,
    folder: &mut F,
    directory: &str,
    source: Option<&str>,
    traces: &[LocalTrace],
    told: &PlaceList,
) -> Result<Result<Places, NoteFault>, NoteStop>
    ensures later { F.faults folder.old ≤ F.faults folder.new }
    ensures kept { F.files folder.new ≡ F.files folder.old }
    ensures told { (files : List File) → F.files folder.old ≡ Some files
        → IfOk result (λ places. places ≡ places_by files directory.now (option_map (λ at. at.now) source.entry) traces.now (Some told.now)) }
    ensures fault { result ≡ Err NoteStop.FolderFailed → Rose (F.faults folder.old) (F.faults folder.new) }
{
    match all_numbers(alloc, folder, directory, told.places.len(), traces)? {
        Ok(numbers) => placed(alloc, folder, source, told, numbers),
        Err(fault) => Ok(Err(fault)),
    }
}

fn placed<F: Folder>(
    alloc: Global,
    folder: &mut F,
    source: Option<&str>,
    told: &PlaceList,
    numbers: Row<Row<Row<u32>>>,
) -> Result<Result<Places, NoteFault>, NoteStop>
    ensures later { F.faults folder.old ≤ F.faults folder.new }
    ensures kept { F.files folder.new ≡ F.files folder.old }
    ensures told { (files : List File) → F.files folder.old ≡ Some files
        → IfOk result (λ places. places ≡ placed files (option_map (λ at. at.now) source.entry) told.now numbers) }
    ensures fault { result ≡ Err NoteStop.FolderFailed → Rose (F.faults folder.old) (F.faults folder.new) }
{
    let places = places_of(alloc, folder, source, told)?;
    Ok(Ok(Places { places, numbers }))
}

fn list_at<F: Folder>(
    alloc: Global,
    folder: &mut F,
    directory: &str,
) -> Result<Result<Option<PlaceList>, NoteFault>, NoteStop>
    ensures later { F.faults folder.old ≤ F.faults folder.new }
    ensures kept { F.files folder.new ≡ F.files folder.old }
    ensures told { (files : List File) → F.files folder.old ≡ Some files
        → IfOk result (λ told. told ≡ list_at files directory.now) }
    ensures fault { result ≡ Err NoteStop.FolderFailed → Rose (F.faults folder.old) (F.faults folder.new) }
{
    let found = lines_at(alloc, folder, directory, NoteFile::Places)?;
    let told = list_told(alloc, found)?;
    Ok(named(NoteFile::Places, told))
}

fn list_told(
    alloc: Global,
    found: Result<Option<FileLines>, Cause>,
) -> Result<Result<Option<PlaceList>, Cause>, AllocError>
    ensures { IfOk result (λ told. told ≡ told_by None some_list_of found) }
{
    match found {
        Ok(Some(found)) => some_list_of(alloc, found.last, found.lines.as_slice()),
        Ok(None) => Ok(Ok(None)),
        Err(cause) => Ok(Err(cause)),
    }
}

fn some_list_of(
    alloc: Global,
    last: u32,
    lines: &[Line],
) -> Result<Result<Option<PlaceList>, Cause>, AllocError>
    ensures { IfOk result (λ told. told ≡ some_list_of last lines.now) }
{
    match list_of(alloc, last, lines)? {
        Ok(told) => Ok(Ok(Some(told))),
        Err(cause) => Ok(Err(cause)),
    }
}

fn all_numbers<F: Folder>(
    alloc: Global,
    folder: &mut F,
    directory: &str,
    places: usize,
    traces: &[LocalTrace],
) -> Result<Result<Row<Row<Row<u32>>>, NoteFault>, NoteStop>
    ensures later { F.faults folder.old ≤ F.faults folder.new }
    ensures kept { F.files folder.new ≡ F.files folder.old }
    ensures told { (files : List File) → F.files folder.old ≡ Some files
        → IfOk result (λ numbers. numbers ≡ all_numbers files directory.now places traces.now) }
    ensures fault { result ≡ Err NoteStop.FolderFailed → Rose (F.faults folder.old) (F.faults folder.new) }
{
    let mut numbers = Row::new(alloc);
    for trace in traces {
        match thread_numbers(alloc, folder, directory, places, trace)? {
            Ok(told) => numbers.push(told)?,
            Err(fault) => return Ok(Err(fault)),
        }
    }
    Ok(Ok(numbers))
}

fn thread_numbers<F: Folder>(
    alloc: Global,
    folder: &mut F,
    directory: &str,
    places: usize,
    trace: &LocalTrace,
) -> Result<Result<Row<Row<u32>>, NoteFault>, NoteStop>
    ensures later { F.faults folder.old ≤ F.faults folder.new }
    ensures kept { F.files folder.new ≡ F.files folder.old }
    ensures told { (files : List File) → F.files folder.old ≡ Some files
        → IfOk result (λ numbers. numbers ≡ thread_numbers files directory.now places trace.now) }
    ensures fault { result ≡ Err NoteStop.FolderFailed → Rose (F.faults folder.old) (F.faults folder.new) }
{
    let file = NoteFile::ThreadPlaces(trace.thread());
    let found = lines_at(alloc, folder, directory, file)?;
    let told = numbers_told(alloc, places, trace.segments(), found)?;
    Ok(named(file, told))
}

fn numbers_told(
    alloc: Global,
    places: usize,
    segments: &[Row<Event>],
    found: Result<Option<FileLines>, Cause>,
) -> Result<Result<Row<Row<u32>>, Cause>, AllocError>
    ensures { IfOk result (λ told. told ≡ told_by [] (numbers_of places segments.now) found) }
{
    match found {
        Ok(Some(found)) => {
            numbers_of(alloc, places, segments, found.last, found.lines.as_slice())
        }
        Ok(None) => Ok(Ok(Row::new(alloc))),
        Err(cause) => Ok(Err(cause)),
    }
}

fn sightings_at<F: Folder>(
    alloc: Global,
    folder: &mut F,
    directory: &str,
) -> Result<Result<Row<Sighting>, NoteFault>, NoteStop>
    ensures later { F.faults folder.old ≤ F.faults folder.new }
    ensures kept { F.files folder.new ≡ F.files folder.old }
    ensures told { (files : List File) → F.files folder.old ≡ Some files
        → IfOk result (λ sightings. sightings ≡ sightings_at files directory.now) }
    ensures fault { result ≡ Err NoteStop.FolderFailed → Rose (F.faults folder.old) (F.faults folder.new) }
{
    let found = lines_at(alloc, folder, directory, NoteFile::Confirmed)?;
    let told = sightings_told(alloc, found)?;
    Ok(named(NoteFile::Confirmed, told))
}

fn sightings_told(
    alloc: Global,
    found: Result<Option<FileLines>, Cause>,
) -> Result<Result<Row<Sighting>, Cause>, AllocError>
    ensures { IfOk result (λ told. told ≡ told_by [] (λ last lines. sightings_of lines) found) }
{
    match found {
        Ok(Some(found)) => sightings_of(alloc, found.lines.as_slice()),
        Ok(None) => Ok(Ok(Row::new(alloc))),
        Err(cause) => Ok(Err(cause)),
    }
}

/// What this file tells, or its fault.
fn named<A>(file: NoteFile, told: Result<A, Cause>) -> Result<A, NoteFault>
    ensures { result ≡ or_refused (fault_of file) told }
{
    match told {
        Ok(told) => Ok(told),
        Err(cause) => Err(NoteFault { file, cause }),
    }
}
