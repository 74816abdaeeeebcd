ghost use Rattle.std.specs.Prelude.{◌≡◌, ◌+◌, ◌-◌, ◌<◌, ◌^◌, [], ◌∷◌, ◌++◌, length, Some, IfOk, OnOk};
ghost use Rattle.std.specs.List.{flat_map};
ghost use Rattle.std.specs.Option.{option_eq};
ghost use Rattle.std.specs.Str.{bytes_eq};
ghost use Rattle.gp_trace.specs.LockUse.{lock_use_of};
ghost use Rattle.gp_window.specs.WindowForm.{held_at_start};
ghost use Rattle.gp_replay.specs.LockUses.{use_at};
ghost use Rattle.gp_story.specs.Deeds.{frees, lock_freed};
ghost use Rattle.gp_drawing.specs.Bars.{bars_from, bars_of, bars_of_use, bar_to, bars_with, gives_back, placed_at, placed_from, placed_in, row_given_back, start_bar};

use crate::drawing::Bar;
use gp_base::Row;
use gp_story::{Part, StoryLine};
use gp_text::Name;
use gp_trace::{Event, LockMode, LockUse};
use gp_window::{EventId, Window};
use std::alloc::{AllocError, Global};

/// An event, and the row that tells it.
#[derive(Clone, Copy)]
pub struct Placed {
    pub row: u32,
    pub event: EventId,
}

/// The bars of parts.
pub fn bars_of(alloc: Global, window: &Window, parts: &[Part]) -> Result<Row<Bar>, AllocError>
    requires { length parts.now < 2 ^ 32 }
    ensures { IfOk result (λ bars. bars ≡ bars_of window.now parts.now) }
{
    let placed = placed_events(alloc, parts)?;
    bars_with(alloc, window, placed.as_slice())
}

fn bars_with(alloc: Global, window: &Window, placed: &[Placed]) -> Result<Row<Bar>, AllocError>
    ensures { IfOk result (λ bars. bars ≡ bars_with window.now placed.now) }
{
    let mut bars = Row::new(alloc);
    put_start_bars(&mut bars, window, placed)?;
    put_bars(&mut bars, window, placed)?;
    Ok(bars)
}

/// The events of parts, each with the row that tells it.
fn placed_events(alloc: Global, parts: &[Part]) -> Result<Row<Placed>, AllocError>
    requires { length parts.now < 2 ^ 32 }
    ensures { IfOk result (λ placed. placed ≡ placed_from 0 parts.now) }
{
    let mut placed = Row::new(alloc);
    for (row, part) in parts.iter().enumerate() {
        place_part(&mut placed, row as u32, part)?;
    }
    Ok(placed)
}

fn place_part(placed: &mut Row<Placed>, row: u32, part: &Part) -> Result<(), AllocError>
    ensures { OnOk result (placed.new ≡ placed.old ++ placed_in row part.now) }
{
    match part {
        Part::Single(line) => place_line(placed, row, line),
        Part::Run(lines) => place_lines(placed, row, lines.as_slice()),
    }
}

fn place_lines(placed: &mut Row<Placed>, row: u32, lines: &[StoryLine]) -> Result<(), AllocError>
    ensures { OnOk result (placed.new ≡ placed.old ++ placed_in row (Part.Run lines.now)) }
{
    for line in lines {
        place_line(placed, row, line)?;
    }
    Ok(())
}

fn place_line(placed: &mut Row<Placed>, row: u32, line: &StoryLine) -> Result<(), AllocError>
    ensures { OnOk result (placed.new ≡ placed.old ++ placed_at row line.now ∷ []) }
{
    placed.push(Placed {
        row,
        event: line.event,
    })
}

/// Puts the bars of the locks that are held when the window begins.
fn put_start_bars(bars: &mut Row<Bar>, window: &Window, placed: &[Placed]) -> Result<(), AllocError>
    ensures { OnOk result (bars.new ≡ bars.old ++ flat_map (start_bar window.now placed.now) (held_at_start window.now)) }
{
    for (place, mode) in window.held().iter() {
        put_start_bar(bars, window, placed, place.0, place.1, *mode)?;
    }
    Ok(())
}

fn put_start_bar(
    bars: &mut Row<Bar>,
    window: &Window,
    placed: &[Placed],
    lock: Name,
    thread: u32,
    mode: LockMode,
) -> Result<(), AllocError>
    ensures { OnOk result (bars.new ≡ bars.old ++ start_bar window.now placed.now ((lock, thread), mode)) }
{
    let Some(row) = row_given_back(window, thread, &lock, placed) else {
        return Ok(());
    };
    bars.push(Bar {
        thread,
        lock,
        mode,
        from: None,
        to: Some(row),
    })
}

/// Puts the bars of the events that take locks. It looks from each of them to where the lock is given back.
fn put_bars(bars: &mut Row<Bar>, window: &Window, placed: &[Placed]) -> Result<(), AllocError>
    ensures { OnOk result (bars.new ≡ bars.old ++ bars_from window.now placed.now) }
{
    for (index, one) in placed.iter().enumerate() {
        put_bar(bars, window, *one, &placed[index + 1..])?;
    }
    Ok(())
}

fn put_bar(
    bars: &mut Row<Bar>,
    window: &Window,
    placed: Placed,
    after: &[Placed],
) -> Result<(), AllocError>
    ensures { OnOk result (bars.new ≡ bars.old ++ bars_of_use window.now placed after.now (use_at window.now placed.event)) }
{
    match window.event(placed.event) {
        Some(event) => put_bar_of_event(bars, window, placed, after, event),
        None => Ok(()),
    }
}

fn put_bar_of_event(
    bars: &mut Row<Bar>,
    window: &Window,
    placed: Placed,
    after: &[Placed],
    event: &Event,
) -> Result<(), AllocError>
    ensures { OnOk result (bars.new ≡ bars.old ++ bars_of_use window.now placed after.now (lock_use_of event.now)) }
{
    match event.lock_use() {
        Some(lock_use) => put_bar_of_use(bars, window, placed, after, &lock_use),
        None => Ok(()),
    }
}

fn put_bar_of_use(
    bars: &mut Row<Bar>,
    window: &Window,
    placed: Placed,
    after: &[Placed],
    lock_use: &LockUse,
) -> Result<(), AllocError>
    ensures { OnOk result (bars.new ≡ bars.old ++ bars_of_use window.now placed after.now (Some lock_use.now)) }
{
    match lock_use {
        LockUse::Take(mode, lock) => bars.push(Bar {
            thread: placed.event.thread,
            lock: *lock,
            mode: *mode,
            from: Some(placed.row),
            to: row_given_back(window, placed.event.thread, lock, after),
        }),
        LockUse::GiveBack(_, _) => Ok(()),
    }
}

/// The row of the first of these events at which the thread gives the lock back.
fn row_given_back(window: &Window, thread: u32, lock: &Name, placed: &[Placed]) -> Option<u32>
    ensures { result ≡ row_given_back window.now thread lock.now placed.now }
{
    for one in placed {
        if gives_back(window, thread, lock, one.event) {
            return Some(one.row);
        }
    }
    None
}

fn gives_back(window: &Window, thread: u32, lock: &Name, event: EventId) -> bool
    ensures { result ≡ gives_back window.now thread lock.now event }
{
    event.thread == thread && frees(window, lock, event)
}

fn frees(window: &Window, lock: &Name, event: EventId) -> bool
    ensures { result ≡ frees window.now LockMode.Exclusive lock.now event }
{
    match window.event(event) {
        Some(event) => event_frees(event, lock),
        None => false,
    }
}

fn event_frees(event: &Event, lock: &Name) -> bool
    ensures { result ≡ option_eq bytes_eq (lock_freed LockMode.Exclusive (lock_use_of event.now)) (Some lock.now) }
{
    match event.lock_use() {
        Some(lock_use) => use_frees(&lock_use, lock),
        None => false,
    }
}

fn use_frees(lock_use: &LockUse, lock: &Name) -> bool
    ensures { result ≡ option_eq bytes_eq (lock_freed LockMode.Exclusive (Some lock_use.now)) (Some lock.now) }
{
    match lock_use {
        LockUse::GiveBack(_, other) => other.as_bytes() == lock.as_bytes(),
        LockUse::Take(_, _) => false,
    }
}
