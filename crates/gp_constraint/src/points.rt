ghost use Rattle.std.specs.Prelude.{◌≡◌, ℕ, ◌+◌, ◌≤◌, ◌++◌, List, length, filter, find, IfOk, OnOk};
ghost use Rattle.gp_constraint.specs.Points.{points_in, points_of};
ghost use Rattle.gp_constraint.specs.Starts.{is_start_of};
ghost use Rattle.gp_constraint.specs.Tables.{entry_at, is_start, lock_of, uses_of, writes_for, writes_to};

use crate::action::Action;
use crate::fault::MOST_POINTS;
use crate::groups::Groups;
use crate::point::Point;
use gp_base::Row;
use gp_text::Name;
use gp_trace::{Event, LockUse};
use gp_window::{EventId, Window};
use std::alloc::{AllocError, Global};
use std::marker::Model;

/// The points of a window, with tables of those that write a variable, use a lock or start a thread.
#[derive(Drop)]
pub struct Points {
    all: Row<Point>,
    writes: Groups<Point>,
    uses: Groups<Point>,
    starts: Row<Point>,
}

impl Model for Points {
    ghost use Rattle.std.specs.Prelude.{List};
    ghost use Rattle.gp_constraint.specs.declared.point.Point.{Point};
    ghost use Rattle.gp_constraint.specs.Tables.{AreTables};

    ghost Value = { List Point };

    ghost view = { λ points. points.all };

    ghost invariant = { λ points. AreTables points.all points.writes points.uses points.starts };
}

impl Points {
    /// The points of a window, in the time of a sort of its events.
    pub fn of(alloc: Global, window: &Window) -> Result<Points, AllocError>
        requires { length (points_of window.now) ≤ MOST_POINTS }
        ensures { IfOk result (λ points. points ≡ points_of window.now) }
    {
        let all = points_of(alloc, window)?;
        let writes = writes_of(alloc, all.as_slice())?;
        let uses = uses_of(alloc, all.as_slice())?;
        let starts = starts_of(alloc, all.as_slice())?;
        Ok(Points {
            all,
            writes,
            uses,
            starts,
        })
    }

    pub fn as_slice(&self) -> &[Point]
        ensures { result.now ≡ self.now }
    {
        self.all.as_slice()
    }

    /// The points alone.
    pub fn into_row(self) -> Row<Point>
        ensures { result ≡ self }
    {
        let Points {
            all,
            writes: _,
            uses: _,
            starts: _,
        } = self;
        all
    }

    /// The points that write the variable of a read.
    pub fn writes_for(&self, r: &Point) -> &[Point]
        ensures { result.now ≡ writes_for self.now r.now }
    {
        match &r.action {
            Action::Read(variable, _) => self.writes.at(variable),
            _ => &[],
        }
    }

    /// The points that use a lock.
    pub fn uses_of(&self, lock: &Name) -> &[Point]
        ensures { result.now ≡ uses_of self.now lock.now }
    {
        self.uses.at(lock)
    }

    /// The first point that starts a thread.
    pub fn start_of(&self, thread: u32) -> Option<Point>
        ensures { result ≡ find (is_start_of thread) self.now }
    {
        first_start(self.starts.as_slice(), thread)
    }
}

fn first_start(points: &[Point], thread: u32) -> Option<Point>
    ensures { result ≡ find (is_start_of thread) points.now }
{
    for p in points {
        if is_start_of(thread, p) {
            return Some(*p);
        }
    }
    None
}

fn is_start_of(thread: u32, p: &Point) -> bool
    ensures { result ≡ is_start_of thread p.now }
{
    match p.action {
        Action::Start(other) => other == thread,
        _ => false,
    }
}

/// The points of a window alone.
fn points_of(alloc: Global, window: &Window) -> Result<Row<Point>, AllocError>
    requires { length (points_of window.now) ≤ MOST_POINTS }
    ensures { IfOk result (λ points. points ≡ points_of window.now) }
{
    gp_window::windows_are_formed();
    let mut points = Row::new(alloc);
    let mut thread = 1;
    for segment in window.segments() {
        add_segment(&mut points, thread, segment.as_slice())?;
        thread += 1;
    }
    Ok(points)
}

fn add_segment(points: &mut Row<Point>, thread: u32, events: &[Event]) -> Result<(), AllocError>
    requires { length points.old + length events.now ≤ MOST_POINTS }
    ensures { OnOk result (points.new ≡ points.old ++ points_in thread 0 (length points.old) events.now) }
{
    for (index, event) in events.iter().enumerate() {
        let id = EventId {
            thread,
            index: index as u32,
        };
        points.push(Point {
            number: points.as_slice().len() as u32,
            id,
            action: Action::of(event),
        })?;
    }
    Ok(())
}

fn writes_of(alloc: Global, points: &[Point]) -> Result<Groups<Point>, AllocError>
    ensures { IfOk result (λ writes. (variable : List ℕ) → entry_at writes variable ≡ filter (λ p. writes_to variable p.action) points.now) }
{
    let mut writes = Groups::new(alloc);
    for p in points {
        if let Action::Write(variable, _) = p.action {
            writes.push(variable, *p)?;
        }
    }
    Ok(writes)
}

fn uses_of(alloc: Global, points: &[Point]) -> Result<Groups<Point>, AllocError>
    ensures { IfOk result (λ uses. (lock : List ℕ) → entry_at uses lock ≡ uses_of points.now lock) }
{
    let mut uses = Groups::new(alloc);
    for p in points {
        if let Action::Lock(lock_use) = p.action {
            uses.push(lock_of(lock_use), *p)?;
        }
    }
    Ok(uses)
}

/// The lock that is taken or given back.
fn lock_of(lock_use: LockUse) -> Name
    ensures { result ≡ lock_of lock_use }
{
    match lock_use {
        LockUse::Take(_, lock) => lock,
        LockUse::GiveBack(_, lock) => lock,
    }
}

fn starts_of(alloc: Global, points: &[Point]) -> Result<Row<Point>, AllocError>
    ensures { IfOk result (λ starts. starts ≡ filter (λ p. is_start p.action) points.now) }
{
    let mut starts = Row::new(alloc);
    for p in points {
        if matches!(p.action, Action::Start(_)) {
            starts.push(*p)?;
        }
    }
    Ok(starts)
}
