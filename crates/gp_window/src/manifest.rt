ghost use Rattle.std.specs.Prelude.{◌≡◌, ◌≢◌, ◌<◌, ◌≤◌, ◌-◌, ◌^◌, true, [], All, drop, length, map, slice_get, Some, Ok, Err, IfSome, IfOk, IfErr, OnOk, option_copied};
ghost use Rattle.std.specs.List.Sorted.{IsStrictlySortedBy};
ghost use Rattle.gp_window.specs.Manifest.{epochs_of, field_of, format_of, manifest_of, manifest_of_text, roots_of, start_value, threads_of, value_of, value_with, values_after, values_from, values_of, with_roots, with_threads, with_value};
ghost use Rattle.gp_window.specs.ManifestFaults.{IsDueFault, PutGives};
ghost use Rattle.gp_window.specs.ManifestForm.{IsInside, IsManifest, place_cmp, place_of};
ghost use Rattle.gp_text.specs.Numbers.{number_after};
ghost use Rattle.gp_window.specs.Number.{is_rising};

use crate::numbers::{is_rising, numbers_of};
use gp_base::{Row, Table};
use gp_text::{
    Line, Name, TextFault, Word, between, end_line, number_after, read_i64, read_lines, read_u32,
};
use std::alloc::{AllocError, Global};
use std::marker::Model;
use thiserror::Error;

/// The greatest number of a format.
pub const MOST_FORMAT: u32 = 2;

/// The most threads of a recording.
pub const MOST_THREADS: u32 = 64;

/// The most epochs of a recording.
pub const MOST_EPOCHS: u32 = 4096;

/// The value that a variable has when a window begins.
#[derive(Clone, Copy)]
pub struct StartValue {
    pub window: u32,
    pub variable: Name,
    pub value: i64,
}

/// What a recording is made of: the format of its traces, 1 to 64 threads, 1 to 4,096 epochs, the threads that nobody has to
/// start, and values of variables at the beginning of windows.
#[derive(Drop)]
pub struct Manifest {
    format: u32,
    threads: u32,
    epochs: u32,
    roots: Row<u32>,
    values: Row<StartValue>,
}

impl Model for Manifest {
    ghost use Rattle.gp_window.specs.ManifestForm.{ManifestForm, IsManifest};

    ghost Value = { ManifestForm };

    ghost view = { λ m. record { format = m.format; threads = m.threads; epochs = m.epochs; roots = m.roots; values = m.values } };

    ghost invariant = { λ m. IsManifest (record { format = m.format; threads = m.threads; epochs = m.epochs; roots = m.roots; values = m.values }) };
}

impl Manifest {
    /// The format of the traces: 1, or 2 where they may have lines of shared locks.
    pub fn format(&self) -> u32
        ensures value { result ≡ self.now.format }
        ensures rules { IsManifest self.now }
    {
        self.format
    }

    /// The number of threads; they are numbered from 1.
    pub fn threads(&self) -> u32
        ensures value { result ≡ self.now.threads }
        ensures rules { IsManifest self.now }
    {
        self.threads
    }

    /// The number of epochs, and so of windows; they are numbered from 1.
    pub fn epochs(&self) -> u32
        ensures value { result ≡ self.now.epochs }
        ensures rules { IsManifest self.now }
    {
        self.epochs
    }

    /// The threads that nobody has to start, rising.
    pub fn roots(&self) -> &[u32]
        ensures value { result.now ≡ self.now.roots }
        ensures rules { IsManifest self.now }
    {
        self.roots.as_slice()
    }

    /// The values that the manifest gives, by window and variable.
    pub fn values(&self) -> &[StartValue]
        ensures value { result.now ≡ self.now.values }
        ensures rules { IsManifest self.now }
    {
        self.values.as_slice()
    }
}

/// Why a text is no manifest.
#[derive(Clone, Copy, Debug, PartialEq, Eq, Error)]
pub enum ManifestFault {
    /// The text has no lines.
    #[error("{0}")]
    Text(TextFault),
    /// The first bad line; where the text ends before its fourth line, the number of its end.
    #[error("line {0} is not one of a manifest")]
    Line(u32),
    /// Want of memory.
    #[error("out of memory")]
    Memory,
}

impl From<AllocError> for ManifestFault {
    ghost use Rattle.std.specs.Prelude.{◌≡◌};
    ghost use Rattle.gp_window.specs.declared.manifest.ManifestFault.TheVariants.{Memory};

    ghost from_gives = { λ _ e. e ≡ Memory };

    fn from(_error: AllocError) -> ManifestFault {
        ManifestFault::Memory
    }
}

impl From<TextFault> for ManifestFault {
    ghost use Rattle.std.specs.Prelude.{◌≡◌};
    ghost use Rattle.gp_window.specs.ManifestFaults.{from_text};

    ghost from_gives = { λ f e. e ≡ from_text f };

    fn from(fault: TextFault) -> ManifestFault {
        match fault {
            TextFault::Memory => ManifestFault::Memory,
            other => ManifestFault::Text(other),
        }
    }
}

/// Reads a manifest: the lines `gptrace F`, `threads T`, `epochs E` and `roots U U ..` in this order,
/// and then lines `value K name V` in any order, no two of them for one window and one variable.
pub fn read_manifest(alloc: Global, bytes: &[u8]) -> Result<Manifest, ManifestFault>
    requires { length bytes.now < 2 ^ 32 - 1 }
    ensures { result ≢ Err ManifestFault.Memory → result ≡ manifest_of_text bytes.now }
{
    let lines = read_lines(alloc, bytes)?;
    manifest_of(alloc, end_line(bytes), lines.as_slice())
}

fn manifest_of(alloc: Global, last: u32, lines: &[Line]) -> Result<Manifest, ManifestFault>
    ensures { result ≢ Err ManifestFault.Memory → result ≡ manifest_of last lines.now }
{
    let format = format_of(last, line_at(lines, 0))?;
    let threads = threads_of(last, line_at(lines, 1))?;
    with_threads(alloc, last, format, threads, lines)
}

fn with_threads(
    alloc: Global,
    last: u32,
    format: u32,
    threads: u32,
    lines: &[Line],
) -> Result<Manifest, ManifestFault>
    requires format { (1 ≤ format) × (format ≤ 2) }
    requires threads { (1 ≤ threads) × (threads ≤ 64) }
    ensures { result ≢ Err ManifestFault.Memory → result ≡ with_threads last format threads lines.now }
{
    let epochs = epochs_of(last, line_at(lines, 2))?;
    let roots = roots_of(alloc, last, threads, line_at(lines, 3))?;
    with_roots(alloc, format, threads, epochs, roots, after_head(lines))
}

fn line_at(lines: &[Line], place: usize) -> Option<&Line>
    ensures { option_copied result ≡ slice_get lines.now place }
{
    lines.get(place)
}

/// The lines after the first four.
fn after_head(lines: &[Line]) -> &[Line]
    ensures { result.now ≡ drop 4 lines.now }
{
    match lines {
        [_, _, _, _, rest @ ..] => rest,
        _ => &[],
    }
}

fn with_roots(
    alloc: Global,
    format: u32,
    threads: u32,
    epochs: u32,
    roots: Row<u32>,
    lines: &[Line],
) -> Result<Manifest, ManifestFault>
    requires format { (1 ≤ format) × (format ≤ 2) }
    requires threads { (1 ≤ threads) × (threads ≤ 64) }
    requires epochs { (1 ≤ epochs) × (epochs ≤ 4096) }
    requires roots { (0 < length roots) × (is_rising 1 threads roots ≡ true) }
    ensures { result ≢ Err ManifestFault.Memory → result ≡ with_roots format threads epochs roots lines.now }
{
    let values = values_of(alloc, epochs, lines)?;
    Ok(Manifest {
        format,
        threads,
        epochs,
        roots,
        values,
    })
}

fn format_of(last: u32, line: Option<&Line>) -> Result<u32, ManifestFault>
    ensures due { result ≡ field_of last format_of (option_copied line.entry) }
    ensures range { IfOk result (λ format. (1 ≤ format) × (format ≤ 2)) }
{
    let line = line.ok_or(ManifestFault::Line(last))?;
    let format = number_after(b"gptrace", line.words.as_slice());
    between(1, MOST_FORMAT, format).ok_or(ManifestFault::Line(line.number))
}

fn threads_of(last: u32, line: Option<&Line>) -> Result<u32, ManifestFault>
    ensures due { result ≡ field_of last threads_of (option_copied line.entry) }
    ensures range { IfOk result (λ threads. (1 ≤ threads) × (threads ≤ 64)) }
{
    let line = line.ok_or(ManifestFault::Line(last))?;
    let threads = number_after(b"threads", line.words.as_slice());
    between(1, MOST_THREADS, threads).ok_or(ManifestFault::Line(line.number))
}

fn epochs_of(last: u32, line: Option<&Line>) -> Result<u32, ManifestFault>
    ensures due { result ≡ field_of last epochs_of (option_copied line.entry) }
    ensures range { IfOk result (λ epochs. (1 ≤ epochs) × (epochs ≤ 4096)) }
{
    let line = line.ok_or(ManifestFault::Line(last))?;
    let epochs = number_after(b"epochs", line.words.as_slice());
    between(1, MOST_EPOCHS, epochs).ok_or(ManifestFault::Line(line.number))
}

fn roots_of(
    alloc: Global,
    last: u32,
    threads: u32,
    line: Option<&Line>,
) -> Result<Row<u32>, ManifestFault>
    ensures due { result ≢ Err ManifestFault.Memory
        → result ≡ field_of last (roots_of threads) (option_copied line.entry) }
    ensures rising { IfOk result (λ roots. (0 < length roots) × (is_rising 1 threads roots ≡ true)) }
{
    let line = line.ok_or(ManifestFault::Line(last))?;
    let roots = rising_roots(alloc, threads, line.words.as_slice())?;
    roots.ok_or(ManifestFault::Line(line.number))
}

fn rising_roots(alloc: Global, threads: u32, words: &[Word]) -> Result<Option<Row<u32>>, AllocError>
    ensures due { IfOk result (λ roots. roots ≡ roots_of threads words.now) }
    ensures rising { IfOk result (λ found. IfSome found
        (λ roots. (0 < length roots) × (is_rising 1 threads roots ≡ true))) }
{
    let [keyword, roots @ ..] = words else {
        return Ok(None);
    };
    if roots.is_empty() || keyword.as_bytes() != b"roots".as_slice() {
        return Ok(None);
    }
    let roots = numbers_of(alloc, roots)?;
    Ok(roots.filter(|roots| is_rising(1, threads, roots.as_slice())))
}

#[tactic(auto, using(crate::proofs::Places::places_kept))]
fn values_of(alloc: Global, epochs: u32, lines: &[Line]) -> Result<Row<StartValue>, ManifestFault>
    ensures due { result ≢ Err ManifestFault.Memory → result ≡ values_of epochs lines.now }
    ensures inside { IfOk result (λ values. All (IsInside epochs) (map place_of values)) }
    ensures ordered { IfOk result (λ values. IsStrictlySortedBy place_cmp (map place_of values)) }
{
    let values = values_by_place(alloc, epochs, lines)?;
    let entries = values.into_row(alloc)?;
    Ok(start_values(alloc, entries.as_slice())?)
}

fn start_values(
    alloc: Global,
    entries: &[((u32, Name), i64)],
) -> Result<Row<StartValue>, AllocError>
    ensures { IfOk result (λ values. values ≡ map start_value entries.now) }
{
    let mut values = Row::new(alloc);
    for entry in entries {
        let ((window, variable), value) = entry;
        values.push(StartValue {
            window: *window,
            variable: *variable,
            value: *value,
        })?;
    }
    Ok(values)
}

fn values_by_place(
    alloc: Global,
    epochs: u32,
    lines: &[Line],
) -> Result<Table<(u32, Name), i64>, ManifestFault>
    ensures { result ≢ Err ManifestFault.Memory → result ≡ values_from epochs [] lines.now }
{
    let mut values = Table::new(alloc);
    for line in lines {
        add_value(epochs, &mut values, line)?;
    }
    Ok(values)
}

fn add_value(
    epochs: u32,
    values: &mut Table<(u32, Name), i64>,
    line: &Line,
) -> Result<(), ManifestFault>
    ensures ok { OnOk result (values_after epochs values.old line.now ≡ Ok values.new) }
    ensures err { IfErr result (IsDueFault (values_after epochs values.old line.now)) }
{
    let bad = ManifestFault::Line(line.number);
    let given = value_of(epochs, line.words.as_slice()).ok_or(bad)?;
    if put_new(values, &given)? {
        Ok(())
    } else {
        Err(bad)
    }
}

fn put_new(values: &mut Table<(u32, Name), i64>, given: &StartValue) -> Result<bool, AllocError>
    ensures put { IfOk result (PutGives (with_value values.old (Some given.now)) values.new) }
{
    if values.get(&(given.window, given.variable)).is_some() {
        return Ok(false);
    }
    values.put((given.window, given.variable), given.value)?;
    Ok(true)
}

fn value_of(epochs: u32, words: &[Word]) -> Option<StartValue>
    ensures { result ≡ value_of epochs words.now }
{
    match words {
        [keyword, window, name, value] if keyword.as_bytes() == b"value".as_slice() => {
            value_with(
                between(1, epochs, read_u32(window.as_bytes())),
                Name::of(name.as_bytes()),
                read_i64(value.as_bytes()),
            )
        }
        _ => None,
    }
}

// The value of a variable at the beginning of a window, where all three are there.
fn value_with(window: Option<u32>, variable: Option<Name>, value: Option<i64>) -> Option<StartValue>
    ensures { result ≡ value_with window variable value }
{
    match (window, variable, value) {
        (Some(window), Some(variable), Some(value)) => Some(StartValue {
            window,
            variable,
            value,
        }),
        _ => None,
    }
}
