ghost use Rattle.std.specs.Prelude.{◌≡◌, ◌≢◌, ◌≤◌, ◌<◌, ◌-◌, ◌^◌, Err, IfOk, length};
ghost use Rattle.std.specs.List.{AllByRecursion};
ghost use Rattle.gp_text.specs.Lines.{lines_of};
ghost use Rattle.gp_trace.specs.Walk.{trace_of};
ghost use Rattle.gp_window.specs.Manifest.{manifest_of_text};
ghost use Rattle.gp_replay.specs.Schedule.{schedule_of_text};
ghost use Rattle.gp_property.specs.Property.{IsProperty};
ghost use Rattle.gp_property.specs.Reading.{properties_of};

use gp_base::Row;
use gp_property::{Property, PropertyFault};
use gp_replay::{ScheduleFault, WindowSchedule};
use gp_text::{Line, TextFault};
use gp_trace::{LocalTrace, TraceFault};
use gp_window::{Manifest, ManifestFault};
use std::alloc::Global;

/// As `gp_text::read_lines`.
pub fn read_lines(alloc: Global, bytes: &[u8]) -> Result<Row<Line>, TextFault>
    requires { length bytes.now < 2 ^ 32 - 1 }
    ensures { result ≢ Err TextFault.Memory → result ≡ lines_of bytes.now }
{
    gp_text::read_lines(alloc, bytes)
}

/// As `gp_trace::read_trace`.
pub fn read_trace(
    alloc: Global,
    format: u32,
    thread: u32,
    marks: u32,
    bytes: &[u8],
) -> Result<LocalTrace, TraceFault>
    requires { length bytes.now < 2 ^ 32 - 1 }
    ensures { result ≢ Err TraceFault.Memory → result ≡ trace_of format thread marks bytes.now }
{
    gp_trace::read_trace(alloc, format, thread, marks, bytes)
}

/// As `gp_window::read_manifest`.
pub fn read_manifest(alloc: Global, bytes: &[u8]) -> Result<Manifest, ManifestFault>
    requires { length bytes.now < 2 ^ 32 - 1 }
    ensures { result ≢ Err ManifestFault.Memory → result ≡ manifest_of_text bytes.now }
{
    gp_window::read_manifest(alloc, bytes)
}

/// As `gp_replay::read_schedule`.
pub fn read_schedule(
    alloc: Global,
    epochs: u32,
    bytes: &[u8],
) -> Result<WindowSchedule, ScheduleFault>
    requires { length bytes.now < 2 ^ 32 - 1 }
    ensures due { result ≢ Err ScheduleFault.Memory → result ≡ schedule_of_text epochs bytes.now }
    ensures window { IfOk result (λ read. (1 ≤ read.window) × (read.window ≤ epochs)) }
{
    gp_replay::read_schedule(alloc, epochs, bytes)
}

/// As `gp_property::read_properties`.
pub fn read_properties(alloc: Global, bytes: &[u8]) -> Result<Row<Property>, PropertyFault>
    requires { length bytes.now < 2 ^ 32 - 1 }
    ensures exact { result ≢ Err PropertyFault.Memory → result ≡ properties_of bytes.now }
    ensures valid { IfOk result (λ properties. AllByRecursion IsProperty properties) }
{
    gp_property::read_properties(alloc, bytes)
}
