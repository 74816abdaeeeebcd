ghost use Rattle.std.specs.Prelude.{◌≡◌, ◌≤◌, ◌<◌, ◌+◌, ◌-◌, ◌++◌, [], flat_map, IfOk, OnOk};
ghost use Rattle.gp_window.specs.Walk.{GoesOn, after_given, past_given};
ghost use Rattle.gp_window.specs.WindowForm.{started_by, started_in, window_of};

use crate::holders::{Holders, segment_after};
use crate::manifest::StartValue;
use crate::recording::Recording;
use crate::window::{Window, exited_of, segments_of, start_values_of, started_of};
use gp_base::{Row, Table};
use gp_text::Name;
use gp_trace::{Event, LocalTrace};
use std::alloc::{AllocError, Global};
use std::marker::Model;

/// A walk that stands at a window of a recording. It carries from window to window what holds when one
/// begins, so that all windows together cost what the recording's size is.
#[derive(Drop)]
pub struct WindowWalk<'a> {
    recording: &'a Recording,
    number: u32,
    values: Table<Name, i64>,
    later: &'a [StartValue],
    holders: Holders,
    started: Row<u32>,
}

impl<'a> Model for WindowWalk<'a> {
    ghost use Rattle.gp_window.specs.Walk.{IsCarried, WalkForm};

    ghost Value = { WalkForm };

    ghost view = { λ w. record { recording = w.recording.now; number = w.number } };

    ghost invariant = { λ w. IsCarried w.recording.now w.number w.values w.later.now w.holders w.started };
}

impl<'a> WindowWalk<'a> {
    /// The walk that stands at window 1 of the recording.
    pub fn new(alloc: Global, recording: &'a Recording) -> Result<WindowWalk<'a>, AllocError>
        ensures { IfOk result (λ walk. (walk.recording ≡ recording.now) × (walk.number ≡ 1)) }
    {
        let mut values = Table::new(alloc);
        let later = take_values(&mut values, recording.manifest().values(), 1)?;
        Ok(WindowWalk {
            recording,
            number: 1,
            values,
            later,
            holders: Holders::new(alloc),
            started: Row::new(alloc),
        })
    }

    /// The walk that stands at window `k` of the recording. It goes past all windows before.
    pub(crate) fn at(
        alloc: Global,
        recording: &'a Recording,
        k: u32,
    ) -> Result<WindowWalk<'a>, AllocError>
        requires first { 1 ≤ k }
        requires last { k ≤ recording.now.manifest.epochs }
        ensures { IfOk result (λ walk. (walk.recording ≡ recording.now) × (walk.number ≡ k)) }
    {
        let mut walk = WindowWalk::new(alloc, recording)?;
        for number in 1..k {
            walk = walk.next()?;
        }
        Ok(walk)
    }

    /// The number of the window at which the walk stands.
    pub fn number(&self) -> u32
        ensures number { result ≡ self.now.number }
        ensures within { (1 ≤ result) × (result ≤ self.now.recording.manifest.epochs) }
    {
        self.number
    }

    /// The window at which the walk stands.
    pub fn window(&self, alloc: Global) -> Result<Window, AllocError>
        ensures { IfOk result (λ window. window ≡ window_of self.now.recording self.now.number) }
    {
        let traces = self.recording.traces();
        let manifest = self.recording.manifest();
        Ok(Window {
            number: self.number,
            segments: segments_of(alloc, traces, self.number as usize - 1)?,
            start_values: start_values_of(alloc, &self.values)?,
            held: self.holders.held().copy(alloc)?,
            started: started_of(alloc, manifest, self.started.as_slice())?,
            exited: exited_of(alloc, traces, self.number)?,
        })
    }

    /// Goes on to the next window; `None` at the last one. Want of memory ends the walk.
    pub fn advance(self) -> Result<Option<WindowWalk<'a>>, AllocError>
        ensures { IfOk result (GoesOn self.entry) }
    {
        if self.number == self.recording.manifest().epochs() {
            drop(self);
            return Ok(None);
        }
        Ok(Some(self.next()?))
    }

    fn next(self) -> Result<WindowWalk<'a>, AllocError>
        requires { self.number < self.recording.manifest.epochs }
        ensures { IfOk result (λ next. (next.recording ≡ self.entry.recording) × (next.number ≡ self.entry.number + 1)) }
    {
        let WindowWalk {
            recording,
            number,
            mut values,
            later,
            holders,
            mut started,
        } = self;
        let before = number as usize - 1;
        let later = take_values(&mut values, later, number + 1)?;
        let holders = holders.pass(before, recording.traces())?;
        add_started(&mut started, before, recording.traces())?;
        Ok(WindowWalk {
            recording,
            number: number + 1,
            values,
            later,
            holders,
            started,
        })
    }
}

/// Window `k` of a recording.
pub fn cut(alloc: Global, recording: &Recording, k: u32) -> Result<Window, AllocError>
    requires first { 1 ≤ k }
    requires last { k ≤ recording.now.manifest.epochs }
    ensures { IfOk result (λ window. window ≡ window_of recording.now k) }
{
    let walk = WindowWalk::at(alloc, recording, k)?;
    let window = walk.window(alloc);
    drop(walk);
    window
}

/// Gives the values at the front that are for window `k`, and answers what follows them.
fn take_values<'a>(
    values: &mut Table<Name, i64>,
    later: &'a [StartValue],
    k: u32,
) -> Result<&'a [StartValue], AllocError>
    ensures values { OnOk result (values.new ≡ after_given k values.old later.now) }
    ensures later { IfOk result (λ rest. rest.now ≡ past_given k later.now) }
{
    let mut rest = later;
    while let [given, more @ ..] = rest {
        if given.window != k {
            return Ok(rest);
        }
        values.put(given.variable, given.value)?;
        rest = more;
    }
    Ok(rest)
}

/// Adds the threads that are started in the segment of each trace that has so many before it.
fn add_started(
    started: &mut Row<u32>,
    before: usize,
    traces: &[LocalTrace],
) -> Result<(), AllocError>
    ensures { OnOk result (started.new ≡ started.old ++ started_in before traces.now) }
{
    for trace in traces {
        add_starts(started, segment_after(before, trace))?;
    }
    Ok(())
}

fn add_starts(started: &mut Row<u32>, events: &[Event]) -> Result<(), AllocError>
    ensures { OnOk result (started.new ≡ started.old ++ flat_map started_by events.now) }
{
    for event in events {
        if let Event::Start(thread) = event {
            started.push(*thread)?;
        }
    }
    Ok(())
}
