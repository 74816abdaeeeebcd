ghost use Rattle.std.specs.Prelude.{◌≡◌, ◌≤◌, IfOk, OnOk, OnErr, Err, flat_map, length};
ghost use Rattle.gp_outside.specs.Faults.{Rose};
ghost use Rattle.gp_window.specs.Windows.{all_windows};
ghost use Rattle.gp_outside.specs.Sinks.{Appends, AppendsFront};
ghost use Rattle.gp_predict.specs.Listing.{all_lines, answer_of_listing, total_count, window_count, window_lines};
ghost use Rattle.gp_predict.specs.Telling.{text_of};
ghost use Rattle.gp_predict.specs.Lines.{total_line};

use crate::lines::total_line;
use crate::listing::{Listing, WindowLines, window_lines_of};
use gp_base::Row;
use gp_outside::{PutFault, Sink};
use gp_property::Property;
use gp_window::{Recording, Window, Windows};
use std::alloc::Global;

/// Writes a listing. The lines of one window at a time are in memory.
pub fn put_listing<S: Sink>(alloc: Global, sink: &mut S, listing: &Listing) -> Result<(), PutFault>
    requires few { length listing.now.properties ≤ 64 }
    ensures later { S.faults sink.old ≤ S.faults sink.new }
    ensures ok { OnOk result (Appends (S.written sink.old) (S.written sink.new) (text_of (answer_of_listing listing.now))) }
    ensures err { OnErr result (AppendsFront (S.written sink.old) (S.written sink.new) (text_of (answer_of_listing listing.now))) }
    ensures failed { result ≡ Err PutFault.Failed → Rose (S.faults sink.old) (S.faults sink.new) }
{
    let total = put_windows(
        alloc,
        sink,
        &listing.recording,
        listing.properties.as_slice(),
    )?;
    let line = total_line(alloc, total)?;
    sink.put(line.as_slice())
}

/// Writes what is told of all windows, and gives how many instances that are.
fn put_windows<S: Sink>(
    alloc: Global,
    sink: &mut S,
    recording: &Recording,
    properties: &[Property],
) -> Result<u64, PutFault>
    requires few { length properties.now ≤ 64 }
    ensures later { S.faults sink.old ≤ S.faults sink.new }
    ensures total { IfOk result (λ total. total ≡ total_count recording.now properties.now) }
    ensures ok { OnOk result (Appends (S.written sink.old) (S.written sink.new) (flat_map (λ line. line) (all_lines recording.now properties.now))) }
    ensures err { OnErr result (AppendsFront (S.written sink.old) (S.written sink.new) (flat_map (λ line. line) (all_lines recording.now properties.now))) }
    ensures failed { result ≡ Err PutFault.Failed → Rose (S.faults sink.old) (S.faults sink.new) }
{
    let mut windows = Windows::new(alloc, recording)?;
    let total = put_each_window(alloc, sink, recording, properties, &mut windows);
    drop(windows);
    total
}

/// The same by a walk over all windows.
fn put_each_window<S: Sink>(
    alloc: Global,
    sink: &mut S,
    recording: &Recording,
    properties: &[Property],
    windows: &mut Windows,
) -> Result<u64, PutFault>
    requires few { length properties.now ≤ 64 }
    requires all { windows.old ≡ all_windows recording.now }
    ensures later { S.faults sink.old ≤ S.faults sink.new }
    ensures total { IfOk result (λ total. total ≡ total_count recording.now properties.now) }
    ensures ok { OnOk result (Appends (S.written sink.old) (S.written sink.new) (flat_map (λ line. line) (all_lines recording.now properties.now))) }
    ensures err { OnErr result (AppendsFront (S.written sink.old) (S.written sink.new) (flat_map (λ line. line) (all_lines recording.now properties.now))) }
    ensures failed { result ≡ Err PutFault.Failed → Rose (S.faults sink.old) (S.faults sink.new) }
{
    recording.keeps_rules();
    let mut total = 0u64;
    while let Some(window) = windows.next(alloc)? {
        let put = put_window(alloc, sink, &window, properties);
        drop(window);
        total += put?;
    }
    Ok(total)
}

/// Writes what is told of a window, and gives how many instances that are.
fn put_window<S: Sink>(
    alloc: Global,
    sink: &mut S,
    window: &Window,
    properties: &[Property],
) -> Result<u64, PutFault>
    requires few { length properties.now ≤ 64 }
    ensures later { S.faults sink.old ≤ S.faults sink.new }
    ensures count { IfOk result (λ count. count ≡ window_count properties.now window.now) }
    ensures most { IfOk result (λ count. count ≤ 640000) }
    ensures ok { OnOk result (Appends (S.written sink.old) (S.written sink.new) (flat_map (λ line. line) (window_lines properties.now window.now))) }
    ensures err { OnErr result (AppendsFront (S.written sink.old) (S.written sink.new) (flat_map (λ line. line) (window_lines properties.now window.now))) }
    ensures failed { result ≡ Err PutFault.Failed → Rose (S.faults sink.old) (S.faults sink.new) }
{
    let WindowLines { lines, count } = window_lines_of(alloc, window, properties)?;
    put_lines(sink, lines.as_slice())?;
    Ok(count)
}

/// Writes these lines.
pub fn put_lines<S: Sink>(sink: &mut S, lines: &[Row<u8>]) -> Result<(), PutFault>
    ensures later { S.faults sink.old ≤ S.faults sink.new }
    ensures ok { OnOk result (Appends (S.written sink.old) (S.written sink.new) (flat_map (λ line. line) lines.now)) }
    ensures err { OnErr result (AppendsFront (S.written sink.old) (S.written sink.new) (flat_map (λ line. line) lines.now)) }
    ensures failed { result ≡ Err PutFault.Failed → Rose (S.faults sink.old) (S.faults sink.new) }
{
    for line in lines {
        sink.put(line.as_slice())?;
    }
    Ok(())
}
