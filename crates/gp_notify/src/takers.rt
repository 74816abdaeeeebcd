ghost use Rattle.std.specs.Prelude.{◌≡◌, ◌==◌, [], not, IfOk, OnOk, filter};
ghost use Rattle.gp_notify.specs.CallTables.{AreCallTables};
ghost use Rattle.gp_notify.specs.Signals.{signals_to, takers_of};

use crate::call_tables::{CallTables, signalled_by, woken_from};
use gp_base::Row;
use gp_constraint::Point;
use gp_window::Window;
use std::alloc::{AllocError, Global};

/// The signals that a wake may take: those of its condition, by other threads.
pub fn signals_to(
    alloc: Global,
    window: &Window,
    tables: &CallTables,
    w: &Point,
) -> Result<Row<Point>, AllocError>
    requires { AreCallTables window.now tables.now.wakes tables.now.notifies tables.now.wakers tables.now.signals }
    ensures { IfOk result (λ signals. signals ≡ signals_to window.now w.now) }
{
    match woken_from(window, w) {
        Some(condition) => others(alloc, tables.signals.at(&condition), w),
        None => Ok(Row::new(alloc)),
    }
}

/// The wakes that may take a signal: those from its condition, in other threads.
pub fn takers_of(
    alloc: Global,
    window: &Window,
    tables: &CallTables,
    g: &Point,
) -> Result<Row<Point>, AllocError>
    requires { AreCallTables window.now tables.now.wakes tables.now.notifies tables.now.wakers tables.now.signals }
    ensures { IfOk result (λ takers. takers ≡ takers_of window.now g.now) }
{
    match signalled_by(window, g) {
        Some(condition) => others(alloc, tables.wakers.at(&condition), g),
        None => Ok(Row::new(alloc)),
    }
}

/// The points of other threads.
fn others(alloc: Global, points: &[Point], p: &Point) -> Result<Row<Point>, AllocError>
    ensures { IfOk result (λ others. others ≡ filter (λ other. not (other.id.thread == p.now.id.thread)) points.now) }
{
    let mut others = Row::new(alloc);
    add_others(points, p, &mut others)?;
    Ok(others)
}

/// Adds the points of other threads to none.
fn add_others(points: &[Point], p: &Point, others: &mut Row<Point>) -> Result<(), AllocError>
    requires { others.old ≡ [] }
    ensures { OnOk result (others.new ≡ filter (λ other. not (other.id.thread == p.now.id.thread)) points.now) }
{
    for other in points {
        if other.id.thread != p.id.thread {
            others.push(*other)?;
        }
    }
    Ok(())
}
