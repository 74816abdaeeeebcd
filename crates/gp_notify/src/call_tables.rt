ghost use Rattle.std.specs.Prelude.{◌≡◌, ℕ, List, false, IfOk, MatchOption, filter, is_some};
ghost use Rattle.std.specs.Str.{bytes_eq};
ghost use Rattle.gp_constraint.specs.Points.{points_of};
ghost use Rattle.gp_constraint.specs.Tables.{entry_at};
ghost use Rattle.gp_notify.specs.Calls.{call_at, is_notify, is_wake, signals_on, wakes_from};
ghost use Rattle.gp_notify.specs.CallTables.{AreCallTables, signals_in, wakes_on};

use crate::call::Call;
use crate::calling::call_at;
use gp_base::Row;
use gp_constraint::{Groups, Point};
use gp_text::Name;
use gp_window::Window;
use std::alloc::{AllocError, Global};

/// The points of a window whose events do something to a condition.
#[derive(Drop)]
pub struct CallTables {
    pub wakes: Row<Point>,
    /// The signals to one.
    pub notifies: Row<Point>,
    /// The wakes, by condition.
    pub wakers: Groups<Point>,
    /// The signals to one and to all, by condition.
    pub signals: Groups<Point>,
}

impl CallTables {
    /// The tables of a window, by one walk over its points and a few over those of them that have calls.
    pub fn of(alloc: Global, window: &Window, points: &[Point]) -> Result<CallTables, AllocError>
        requires { points.now ≡ points_of window.now }
        ensures { IfOk result (λ tables. AreCallTables window.now tables.wakes tables.notifies tables.wakers tables.signals) }
    {
        let calls = calls_of(alloc, window, points)?;
        let tables = tables_of(alloc, window, calls.as_slice());
        drop(calls);
        tables
    }
}

/// The tables of a window, of whose points these have calls.
fn tables_of(alloc: Global, window: &Window, called: &[Point]) -> Result<CallTables, AllocError>
    requires { called.now ≡ filter (λ p. is_some (call_at window.now p.id)) (points_of window.now) }
    ensures { IfOk result (λ tables. AreCallTables window.now tables.wakes tables.notifies tables.wakers tables.signals) }
{
    let (wakes, notifies) = rows_of(alloc, window, called)?;
    match groups_of(alloc, window, called) {
        Ok((wakers, signals)) => Ok(CallTables {
            wakes,
            notifies,
            wakers,
            signals,
        }),
        Err(error) => {
            drop((wakes, notifies));
            Err(error)
        }
    }
}

/// The wakes, and the signals to one.
fn rows_of(
    alloc: Global,
    window: &Window,
    points: &[Point],
) -> Result<(Row<Point>, Row<Point>), AllocError>
    ensures wakes { IfOk result (λ rows. rows.0 ≡ filter (λ p. is_wake (call_at window.now p.id)) points.now) }
    ensures notifies { IfOk result (λ rows. rows.1 ≡ filter (λ p. is_notify (call_at window.now p.id)) points.now) }
{
    let wakes = wakes_of(alloc, window, points)?;
    match notifies_of(alloc, window, points) {
        Ok(notifies) => Ok((wakes, notifies)),
        Err(error) => {
            drop(wakes);
            Err(error)
        }
    }
}

/// The wakes and the signals, by condition.
fn groups_of(
    alloc: Global,
    window: &Window,
    points: &[Point],
) -> Result<(Groups<Point>, Groups<Point>), AllocError>
    ensures wakers { IfOk result (λ groups. (condition : List ℕ) → entry_at groups.0 condition ≡ wakes_on window.now points.now condition) }
    ensures signals { IfOk result (λ groups. (condition : List ℕ) → entry_at groups.1 condition ≡ signals_in window.now points.now condition) }
{
    let wakers = wakers_of(alloc, window, points)?;
    match signals_of(alloc, window, points) {
        Ok(signals) => Ok((wakers, signals)),
        Err(error) => {
            drop(wakers);
            Err(error)
        }
    }
}

/// The points whose events do something to a condition.
fn calls_of(alloc: Global, window: &Window, points: &[Point]) -> Result<Row<Point>, AllocError>
    ensures { IfOk result (λ calls. calls ≡ filter (λ p. is_some (call_at window.now p.id)) points.now) }
{
    let mut calls = Row::new(alloc);
    for p in points {
        if call_at(window, p.id).is_some() {
            calls.push(*p)?;
        }
    }
    Ok(calls)
}

fn wakes_of(alloc: Global, window: &Window, points: &[Point]) -> Result<Row<Point>, AllocError>
    ensures { IfOk result (λ wakes. wakes ≡ filter (λ p. is_wake (call_at window.now p.id)) points.now) }
{
    let mut wakes = Row::new(alloc);
    for p in points {
        if let Some(Call::Wake(_)) = call_at(window, p.id) {
            wakes.push(*p)?;
        }
    }
    Ok(wakes)
}

fn notifies_of(alloc: Global, window: &Window, points: &[Point]) -> Result<Row<Point>, AllocError>
    ensures { IfOk result (λ notifies. notifies ≡ filter (λ p. is_notify (call_at window.now p.id)) points.now) }
{
    let mut notifies = Row::new(alloc);
    for p in points {
        if let Some(Call::Notify(_)) = call_at(window, p.id) {
            notifies.push(*p)?;
        }
    }
    Ok(notifies)
}

fn wakers_of(alloc: Global, window: &Window, points: &[Point]) -> Result<Groups<Point>, AllocError>
    ensures { IfOk result (λ wakers. (condition : List ℕ) → entry_at wakers condition ≡ wakes_on window.now points.now condition) }
{
    let mut wakers = Groups::new(alloc);
    for p in points {
        if let Some(condition) = woken_from(window, p) {
            wakers.push(condition, *p)?;
        }
    }
    Ok(wakers)
}

fn signals_of(alloc: Global, window: &Window, points: &[Point]) -> Result<Groups<Point>, AllocError>
    ensures { IfOk result (λ signals. (condition : List ℕ) → entry_at signals condition ≡ signals_in window.now points.now condition) }
{
    let mut signals = Groups::new(alloc);
    for p in points {
        if let Some(condition) = signalled_by(window, p) {
            signals.push(condition, *p)?;
        }
    }
    Ok(signals)
}

/// The condition from which an event wakes.
pub fn woken_from(window: &Window, p: &Point) -> Option<Name>
    ensures { MatchOption result ((other : List ℕ) → wakes_from other (call_at window.now p.now.id) ≡ false) (λ condition. (other : List ℕ) → wakes_from other (call_at window.now p.now.id) ≡ bytes_eq condition other) }
{
    match call_at(window, p.id)? {
        Call::Wake(condition) => Some(condition),
        _ => None,
    }
}

/// The condition that an event signals, to one or to all.
pub fn signalled_by(window: &Window, p: &Point) -> Option<Name>
    ensures { MatchOption result ((other : List ℕ) → signals_on other (call_at window.now p.now.id) ≡ false) (λ condition. (other : List ℕ) → signals_on other (call_at window.now p.now.id) ≡ bytes_eq condition other) }
{
    match call_at(window, p.id)? {
        Call::Notify(condition) | Call::NotifyAll(condition) => Some(condition),
        _ => None,
    }
}
