ghost use Rattle.std.specs.Prelude.{◌≡◌, ◌≢◌, ◌≤◌, ◌<◌, ◌-◌, ◌^◌, ◌++◌, ◌∷◌, [], Err, IfOk, OnOk, false, length};
ghost use Rattle.std.specs.List.{AllByRecursion};
ghost use Rattle.gp_instance.specs.Instances.{due_instances};
ghost use Rattle.gp_property.specs.Property.{IsProperty};
ghost use Rattle.gp_property.specs.Reading.{properties_of};
ghost use Rattle.gp_patterns.specs.Tickets.{listed_count, properties_count};
ghost use Rattle.gp_predict.specs.Listing.{instance_lines, list_at, listing_at, of_to_list, properties_at, properties_lines, property_lines, window_count, window_lines};
ghost use Rattle.gp_predict.specs.Tasks.{as_text, either_expected};
ghost use Rattle.gp_predict.specs.Finished.{CameTo, told_by};
ghost use Rattle.gp_predict.specs.Refusal.{properties_refusal};
ghost use Rattle.gp_predict.specs.Refused.{stops_absent, stops_at_limit};
ghost use Rattle.gp_base.specs.Results.{or_refused};
ghost use Rattle.gp_predict.specs.Stage.{IsStage, refusal_of};
ghost use Rattle.gp_window.specs.Gives.{Gives};

use crate::content::{content_at, recording_at};
use crate::lines::{instance_line, property_line, window_line};
use crate::refusal::Refusal;
use crate::stop::Stop;
use crate::to_list::ToList;
use gp_base::Row;
use gp_instance::{Instance, InstancesFault, instances};
use gp_outside::Folder;
use gp_property::{Property, PropertyFault, read_properties, reads_exactly};
use gp_text::Name;
use gp_window::{FileName, Recording, Window};
use std::alloc::{AllocError, Global};
use std::thread::Threads;

/// A recording with its properties, each of which has instances in each window: what task list lists, and what a report answers.
#[derive(Drop)]
pub struct Listing {
    pub recording: Recording,
    pub properties: Row<Property>,
}

/// Task list: what is to be listed.
pub fn listed<R: AllocGlobal + Threads + Sync, F: Folder>(
    rt: &R,
    folder: &mut F,
    directory: &str,
) -> Result<ToList, Stop>
    ensures { IsStage result (λ files. CameTo (told_by of_to_list result) (either_expected (as_text (list_at files directory.now)))) (F.files folder.old) (F.files folder.new) (F.faults folder.old) (F.faults folder.new) }
{
    let listing = listing_at(rt, folder, directory)?;
    Ok(ToList { listing })
}

/// Reads the recording and the properties in a folder.
pub fn listing_at<R: AllocGlobal + Threads + Sync, F: Folder>(
    rt: &R,
    folder: &mut F,
    directory: &str,
) -> Result<Listing, Stop>
    ensures stage { IsStage result (λ files. Gives refusal_of result (listing_at files directory.now)) (F.files folder.old) (F.files folder.new) (F.faults folder.old) (F.faults folder.new) }
    ensures few { IfOk result (λ listing. length listing.properties ≤ 64) }
    ensures valid { IfOk result (λ listing. AllByRecursion IsProperty listing.properties) }
    ensures limit { stops_at_limit result ≡ false }
{
    let recording = recording_at(rt, folder, directory)?;
    match properties_at(rt.alloc(), folder, directory) {
        Ok(properties) => Ok(Listing {
            recording,
            properties,
        }),
        Err(stop) => {
            drop(recording);
            Err(stop)
        }
    }
}

fn properties_at<F: Folder>(
    alloc: Global,
    folder: &mut F,
    directory: &str,
) -> Result<Row<Property>, Stop>
    ensures stage { IsStage result (λ files. Gives refusal_of result (properties_at files directory.now)) (F.files folder.old) (F.files folder.new) (F.faults folder.old) (F.faults folder.new) }
    ensures few { IfOk result (λ properties. length properties ≤ 64) }
    ensures valid { IfOk result (λ properties. AllByRecursion IsProperty properties) }
    ensures limit { stops_at_limit result ≡ false }
{
    let bytes = content_at(alloc, folder, directory, FileName::Properties)?;
    properties_from(alloc, bytes.as_slice())
}

/// The properties that a text spells.
pub fn properties_from(alloc: Global, bytes: &[u8]) -> Result<Row<Property>, Stop>
    requires { length bytes.now < 2 ^ 32 - 1 }
    ensures due { Gives refusal_of result (or_refused properties_refusal (properties_of bytes.now)) }
    ensures few { IfOk result (λ properties. length properties ≤ 64) }
    ensures valid { IfOk result (λ properties. AllByRecursion IsProperty properties) }
    ensures no_fault { result ≢ Err Stop.FolderFailed }
    ensures present { stops_absent result ≡ false }
    ensures limit { stops_at_limit result ≡ false }
{
    reads_exactly();
    match read_properties(alloc, bytes) {
        Ok(properties) => Ok(properties),
        Err(PropertyFault::Memory) => Err(Stop::Memory),
        Err(fault) => Err(Stop::Refused(Refusal::Properties(fault))),
    }
}

/// What is told of a window: its lines, and how many instances they tell.
#[derive(Drop)]
pub struct WindowLines {
    pub lines: Row<Row<u8>>,
    pub count: u64,
}

/// What is told of a window.
pub fn window_lines_of(
    alloc: Global,
    window: &Window,
    properties: &[Property],
) -> Result<WindowLines, AllocError>
    requires { length properties.now ≤ 64 }
    ensures lines { IfOk result (λ told. told.lines ≡ window_lines properties.now window.now) }
    ensures count { IfOk result (λ told. told.count ≡ window_count properties.now window.now) }
    ensures most { IfOk result (λ told. told.count ≤ 640000) }
{
    let mut lines = Row::new(alloc);
    lines.push(window_line(alloc, window.number())?)?;
    let count = add_properties(alloc, &mut lines, window, properties)?;
    Ok(WindowLines { lines, count })
}

/// Adds what is told of the properties in a window, and gives how many instances that are.
fn add_properties(
    alloc: Global,
    lines: &mut Row<Row<u8>>,
    window: &Window,
    properties: &[Property],
) -> Result<u64, AllocError>
    requires { length properties.now ≤ 64 }
    ensures lines { OnOk result (lines.new ≡ lines.old ++ properties_lines window.now 0 properties.now) }
    ensures count { IfOk result (λ count. count ≡ properties_count window.now 0 properties.now) }
    ensures most { IfOk result (λ count. count ≤ 640000) }
{
    let mut count = 0;
    for (number, property) in properties.iter().enumerate() {
        count += add_property(alloc, lines, window, property, number as u32)?;
    }
    Ok(count)
}

/// Adds what is told of a property in a window, and gives how many instances that are.
fn add_property(
    alloc: Global,
    lines: &mut Row<Row<u8>>,
    window: &Window,
    property: &Property,
    number: u32,
) -> Result<u64, AllocError>
    ensures lines { OnOk result (lines.new ≡ lines.old
        ++ property_lines property.now.name (due_instances window.now property.now number)) }
    ensures count { IfOk result (λ count. count ≡ listed_count (due_instances window.now property.now number)) }
    ensures most { IfOk result (λ count. count ≤ 10000) }
{
    match instances(alloc, window, property, number) {
        Ok(found) => {
            let count = found.len() as u64;
            let added = add_listed(alloc, lines, property.name(), found.as_slice());
            drop(found);
            added?;
            Ok(count)
        }
        Err(InstancesFault::TooMany) => {
            add_too_many(alloc, lines, property.name())?;
            Ok(0)
        }
        Err(InstancesFault::Memory) => Err(AllocError),
    }
}

fn add_too_many(alloc: Global, lines: &mut Row<Row<u8>>, name: &Name) -> Result<(), AllocError>
    ensures { OnOk result (lines.new ≡ lines.old ++ property_lines name.now (Err InstancesFault.TooMany)) }
{
    let line = property_line(alloc, name, "toomany")?;
    lines.push(line)
}

fn add_listed(
    alloc: Global,
    lines: &mut Row<Row<u8>>,
    name: &Name,
    found: &[Instance],
) -> Result<(), AllocError>
    ensures { OnOk result (lines.new ≡ lines.old ++ property_lines name.now (Ok found.now)) }
{
    let count = found.len();
    let many = format!(in alloc; "{count}")?;
    lines.push(property_line(alloc, name, many.as_str())?)?;
    add_instances(alloc, lines, found)
}

fn add_instances(
    alloc: Global,
    lines: &mut Row<Row<u8>>,
    found: &[Instance],
) -> Result<(), AllocError>
    ensures { OnOk result (lines.new ≡ lines.old ++ instance_lines 0 found.now) }
{
    for (number, instance) in found.iter().enumerate() {
        lines.push(instance_line(alloc, number, instance)?)?;
    }
    Ok(())
}
