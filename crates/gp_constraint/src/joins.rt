ghost use Rattle.std.specs.Prelude.{◌≡◌, IfOk, find};
ghost use Rattle.gp_constraint.specs.Limited.{IsAdded};
ghost use Rattle.gp_constraint.specs.Joins.{ended, is_last_of, join_of, joined, joins};
ghost use Rattle.gp_constraint.specs.Lasts.{is_last, lasts_of};

use crate::action::Action;
use crate::adding::needs;
use crate::fault::Full;
use crate::limited::LimitedClauses;
use crate::point::Point;
use crate::points::Points;
use crate::term::executed;
use gp_base::Row;
use gp_window::{Window, is_among};
use std::alloc::{AllocError, Global};

/// A join of a thread is executed only where the thread has ended.
pub fn joins(
    alloc: Global,
    clauses: &mut LimitedClauses,
    window: &Window,
    points: &Points,
) -> Result<(), Full>
    ensures { IsAdded result clauses.old clauses.new (joins window.now points.now) }
{
    let lasts = lasts_of(alloc, window, points.as_slice())?;
    for j in points.as_slice() {
        join_of(clauses, window, points, lasts.as_slice(), j)?;
    }
    Ok(())
}

fn join_of(
    clauses: &mut LimitedClauses,
    window: &Window,
    points: &Points,
    lasts: &[Point],
    j: &Point,
) -> Result<(), Full>
    requires { lasts.now ≡ lasts_of window.now points.now }
    ensures { IsAdded result clauses.old clauses.new (join_of window.now points.now j.now) }
{
    match j.action {
        Action::Join(thread) => joined(clauses, window, points, lasts, j, thread),
        _ => Ok(()),
    }
}

fn joined(
    clauses: &mut LimitedClauses,
    window: &Window,
    points: &Points,
    lasts: &[Point],
    j: &Point,
    thread: u32,
) -> Result<(), Full>
    requires { lasts.now ≡ lasts_of window.now points.now }
    ensures { IsAdded result clauses.old clauses.new (joined window.now points.now j.now thread) }
{
    if is_among(window.exited(), thread) {
        return ended(clauses, window, points, lasts, j, thread);
    }
    clauses.add(&[executed(j, false)])
}

fn ended(
    clauses: &mut LimitedClauses,
    window: &Window,
    points: &Points,
    lasts: &[Point],
    j: &Point,
    thread: u32,
) -> Result<(), Full>
    requires { lasts.now ≡ lasts_of window.now points.now }
    ensures { IsAdded result clauses.old clauses.new (ended window.now points.now j.now thread) }
{
    if !window.segment(thread).is_empty() {
        return needs(clauses, j, last_of(window, points, lasts, thread));
    }
    if is_among(window.started(), thread) {
        return Ok(());
    }
    needs(clauses, j, points.start_of(thread))
}

/// The last points of the threads.
fn lasts_of(alloc: Global, window: &Window, points: &[Point]) -> Result<Row<Point>, AllocError>
    ensures { IfOk result (λ lasts. lasts ≡ lasts_of window.now points.now) }
{
    let mut lasts = Row::new(alloc);
    for p in points {
        if is_last(window, p) {
            lasts.push(*p)?;
        }
    }
    Ok(lasts)
}

fn is_last(window: &Window, p: &Point) -> bool
    ensures { result ≡ is_last window.now p.now }
{
    p.id.index as usize + 1 == window.segment(p.id.thread).len()
}

/// The last point of a thread, which is found among those of all threads.
fn last_of(window: &Window, points: &Points, lasts: &[Point], thread: u32) -> Option<Point>
    requires { lasts.now ≡ lasts_of window.now points.now }
    ensures { result ≡ find (is_last_of window.now thread) points.now }
{
    let _all = points.as_slice();
    first_last(window, lasts, thread)
}

fn first_last(window: &Window, points: &[Point], thread: u32) -> Option<Point>
    ensures { result ≡ find (is_last_of window.now thread) points.now }
{
    for p in points {
        if is_last_of(window, thread, p) {
            return Some(*p);
        }
    }
    None
}

fn is_last_of(window: &Window, thread: u32, p: &Point) -> bool
    ensures { result ≡ is_last_of window.now thread p.now }
{
    p.id.thread == thread && p.id.index as usize + 1 == window.segment(thread).len()
}
