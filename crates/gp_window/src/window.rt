ghost use Rattle.std.specs.Prelude.{ℕ, ◌≡◌, ◌<◌, ◌-◌, ◌^◌, ◌++◌, ◌∷◌, ◌||◌, [], map, filter, if◌then◌else◌, IfOk, OnOk, option_copied};
ghost use Rattle.std.specs.Cmp.Lexicographic.{slice_cmp};
ghost use Rattle.std.specs.Ordering.{nat_cmp};
ghost use Rattle.gp_base.specs.Table.{with_entries};
ghost use Rattle.gp_window.specs.Events.{event_at, has_thread, segment_of};
ghost use Rattle.gp_window.specs.Holders.{holders_among, readers_among, segment_after};
ghost use Rattle.gp_window.specs.Starts.{is_among};
ghost use Rattle.gp_window.specs.WindowForm.{IsWindow, chosen, exited_of, has_exited, held_at_start, is_kept, numbers_from, start_value};

use crate::holders::segment_after;
use crate::manifest::Manifest;
use crate::schedule::EventId;
use crate::starts::is_among;
use gp_base::{Row, Table};
use gp_text::Name;
use gp_trace::{Event, LocalTrace, LockMode};
use std::alloc::{AllocError, Global};
use std::marker::Model;

/// The part of a recording between two moments at which all threads stood still, and what holds when
/// it begins.
#[derive(Drop)]
pub struct Window {
    pub(crate) number: u32,
    pub(crate) segments: Row<Row<Event>>,
    pub(crate) start_values: Table<Name, i64>,
    pub(crate) held: Table<(Name, u32), LockMode>,
    pub(crate) started: Row<u32>,
    pub(crate) exited: Row<u32>,
}

impl Model for Window {
    ghost use Rattle.gp_window.specs.Holders.{AreOrdered, holders_among, readers_among};
    ghost use Rattle.gp_window.specs.WindowForm.{IsWindow, WindowForm};

    ghost Value = { WindowForm };

    ghost view = { λ w. record { number = w.number; segments = w.segments; start_values = w.start_values; holders = holders_among w.held; readers = readers_among w.held; started = w.started; exited = w.exited } };

    ghost invariant = { λ w. IsWindow (record { number = w.number; segments = w.segments; start_values = w.start_values; holders = holders_among w.held; readers = readers_among w.held; started = w.started; exited = w.exited }) × AreOrdered w.held };
}

impl Window {
    /// The number of the window, from 1.
    pub fn number(&self) -> u32
        ensures value { result ≡ self.now.number }
        ensures window { IsWindow self.now }
    {
        self.number
    }

    /// A law: a window is one of the windows of a recording.
    pub fn comes_from_recording(&self)
        ensures { IsWindow self.now }
    {
        let _ = &self.number;
    }

    /// The events of each thread in this window, in order of thread.
    pub fn segments(&self) -> &[Row<Event>]
        ensures value { result.now ≡ self.now.segments }
        ensures window { IsWindow self.now }
    {
        self.segments.as_slice()
    }

    /// Whether there is a thread of this number in the window.
    pub fn has_thread(&self, thread: u32) -> bool
        ensures { result ≡ has_thread self.now thread }
    {
        1 <= thread && thread as usize <= self.segments.len()
    }

    /// The events of a thread in this window; none where there is no such thread.
    pub fn segment(&self, thread: u32) -> &[Event]
        ensures { result.now ≡ segment_of self.now thread }
    {
        let Some(place) = thread.checked_sub(1) else {
            return &[];
        };
        match self.segments.as_slice().get(place as usize) {
            Some(segment) => segment.as_slice(),
            None => &[],
        }
    }

    /// The event that an id names, where there is one.
    pub fn event(&self, id: EventId) -> Option<&Event>
        ensures { option_copied result ≡ event_at self.now id }
    {
        self.segment(id.thread).get(id.index as usize)
    }

    /// The variables whose value is not 0 when the window begins, by name.
    pub fn start_values(&self) -> &Table<Name, i64>
        ensures value { result.now ≡ self.now.start_values }
        ensures window { IsWindow self.now }
    {
        &self.start_values
    }

    /// The value of a variable when the window begins.
    pub fn start_value(&self, variable: &Name) -> i64
        ensures { result ≡ start_value self.now variable.now }
    {
        self.start_values.get(variable).copied().unwrap_or(0)
    }

    /// Who holds which lock when the window begins, and how, by the names of the locks and then by
    /// thread.
    pub fn held(&self) -> &Table<(Name, u32), LockMode>
        ensures value { result.now ≡ held_at_start self.now }
        ensures holders { holders_among result.now ≡ self.now.holders }
        ensures readers { readers_among result.now ≡ self.now.readers }
        ensures window { IsWindow self.now }
    {
        &self.held
    }

    /// The threads that were started before the window begins, rising.
    pub fn started(&self) -> &[u32]
        ensures value { result.now ≡ self.now.started }
        ensures window { IsWindow self.now }
    {
        self.started.as_slice()
    }

    /// The threads that end in this window or an earlier one, rising.
    pub fn exited(&self) -> &[u32]
        ensures value { result.now ≡ self.now.exited }
        ensures window { IsWindow self.now }
    {
        self.exited.as_slice()
    }
}

/// The segment of each trace that has so many before it.
pub fn segments_of(
    alloc: Global,
    traces: &[LocalTrace],
    before: usize,
) -> Result<Row<Row<Event>>, AllocError>
    ensures { IfOk result (λ segments. segments ≡ map (segment_after before) traces.now) }
{
    let mut segments = Row::new(alloc);
    for trace in traces {
        segments.push(copied_events(alloc, segment_after(before, trace))?)?;
    }
    Ok(segments)
}

fn copied_events(alloc: Global, events: &[Event]) -> Result<Row<Event>, AllocError>
    ensures { IfOk result (λ copy. copy ≡ events.now) }
{
    Ok(Row::from_vec(Vec::from_clones(alloc, events)?))
}

/// The values of a window without those that are 0.
pub fn start_values_of(
    alloc: Global,
    values: &Table<Name, i64>,
) -> Result<Table<Name, i64>, AllocError>
    ensures { IfOk result (λ kept. kept ≡ filter is_kept values.now) }
{
    let mut kept = Table::new(alloc);
    for (variable, value) in values.iter() {
        keep_value(&mut kept, *variable, *value)?;
    }
    Ok(kept)
}

fn keep_value(kept: &mut Table<Name, i64>, variable: Name, value: i64) -> Result<(), AllocError>
    ensures { OnOk result (kept.new ≡ with_entries (slice_cmp nat_cmp) kept.old (filter is_kept ((variable, value) ∷ []))) }
{
    if value == 0 {
        return Ok(());
    }
    kept.put(variable, value)
}

/// The roots and those that were started, rising.
pub fn started_of(
    alloc: Global,
    manifest: &Manifest,
    started: &[u32],
) -> Result<Row<u32>, AllocError>
    ensures { IfOk result (λ row. row ≡ chosen manifest.now.roots started.now (numbers_from 1 manifest.now.threads)) }
{
    among(alloc, manifest.threads(), manifest.roots(), started)
}

/// The threads that are among the first numbers or among the second, rising.
fn among(
    alloc: Global,
    threads: u32,
    roots: &[u32],
    started: &[u32],
) -> Result<Row<u32>, AllocError>
    requires { threads < 2 ^ 32 - 1 }
    ensures { IfOk result (λ row. row ≡ chosen roots.now started.now (numbers_from 1 threads)) }
{
    let mut row = Row::new(alloc);
    for thread in 1..threads + 1 {
        keep_thread(&mut row, thread, is_chosen(roots, started, thread))?;
    }
    Ok(row)
}

fn is_chosen(roots: &[u32], started: &[u32], thread: u32) -> bool
    ensures { result ≡ (is_among roots.now thread || is_among started.now thread) }
{
    is_among(roots, thread) || is_among(started, thread)
}

fn keep_thread(row: &mut Row<u32>, thread: u32, keep: bool) -> Result<(), AllocError>
    ensures { OnOk result (row.new ≡ row.old ++ (if keep then thread ∷ [] else [])) }
{
    if !keep {
        return Ok(());
    }
    row.push(thread)
}

/// The threads that end in window `k` or in an earlier one.
pub fn exited_of(alloc: Global, traces: &[LocalTrace], k: u32) -> Result<Row<u32>, AllocError>
    ensures { IfOk result (λ exited. exited ≡ exited_of k traces.now) }
{
    let mut exited = Row::new(alloc);
    for trace in traces {
        keep_thread(&mut exited, trace.thread(), has_exited(k, trace.exit_in()))?;
    }
    Ok(exited)
}

fn has_exited(k: u32, exit_in: Option<u32>) -> bool
    ensures { result ≡ has_exited k exit_in }
{
    match exit_in {
        Some(segment) => segment <= k,
        None => false,
    }
}
