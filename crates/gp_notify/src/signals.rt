ghost use Rattle.std.specs.Prelude.{◌≡◌, [], ◌∷◌, ◌++◌, Contains, IfOk, Some, false, flat_map, map, true};
ghost use Rattle.gp_constraint.specs.Limited.{IsAdded};
ghost use Rattle.gp_constraint.specs.Points.{points_of};
ghost use Rattle.gp_constraint.specs.Signed.{AreSigned};
ghost use Rattle.gp_constraint.specs.Terms.{before, executed, simplified};
ghost use Rattle.gp_notify.specs.CallTables.{AreCallTables};
ghost use Rattle.gp_notify.specs.Signals.{between, not_both, notified, notifies_of, signals_of, taken_once, takes, takes_one, wakes_of, woken, woken_by};

use crate::call_tables::CallTables;
use crate::takers::{signals_to, takers_of};
use crate::wake_sleeps::sleep_of;
use gp_base::Row;
use gp_constraint::{
    Family, Full, LimitedClauses, Point, Points, Symbol, Term, before, executed, literal,
};
use gp_window::Window;
use std::alloc::{AllocError, Global};

/// An executed wake takes a signal, and no signal to one is taken by two wakes.
#[derive(Clone, Copy, Drop)]
pub struct Signals {
    pub alloc: Global,
}

impl Family for Signals {
    ghost use Rattle.gp_notify.specs.Signals.{signals_of};

    ghost clauses = { λ _ window. signals_of window };

    fn add(&self, window: &Window, points: &Points, into: &mut LimitedClauses) -> Result<(), Full> {
        add_signals(self.alloc, window, points.as_slice(), into)
    }
}

fn add_signals(
    alloc: Global,
    window: &Window,
    points: &[Point],
    into: &mut LimitedClauses,
) -> Result<(), Full>
    requires { points.now ≡ points_of window.now }
    ensures adds { IsAdded result into.old into.new (signals_of window.now) }
    ensures signed { AreSigned (signals_of window.now) }
{
    let tables = CallTables::of(alloc, window, points)?;
    let added = add_by(alloc, window, points, &tables, into);
    drop(tables);
    added
}

/// The same by the tables of the window.
fn add_by(
    alloc: Global,
    window: &Window,
    points: &[Point],
    tables: &CallTables,
    into: &mut LimitedClauses,
) -> Result<(), Full>
    requires points { points.now ≡ points_of window.now }
    requires tables { AreCallTables window.now tables.now.wakes tables.now.notifies tables.now.wakers tables.now.signals }
    ensures { IsAdded result into.old into.new (signals_of window.now) }
{
    add_woken(alloc, into, window, points, tables)?;
    add_notified(alloc, into, window, tables)
}

fn add_woken(
    alloc: Global,
    into: &mut LimitedClauses,
    window: &Window,
    points: &[Point],
    tables: &CallTables,
) -> Result<(), Full>
    requires points { points.now ≡ points_of window.now }
    requires tables { AreCallTables window.now tables.now.wakes tables.now.notifies tables.now.wakers tables.now.signals }
    ensures { IsAdded result into.old into.new (flat_map (woken window.now) (wakes_of window.now)) }
{
    for w in tables.wakes.as_slice() {
        woken(alloc, into, window, points, tables, w)?;
    }
    Ok(())
}

/// A wake, where it is executed, takes one of the signals that it may take.
fn woken(
    alloc: Global,
    into: &mut LimitedClauses,
    window: &Window,
    points: &[Point],
    tables: &CallTables,
    w: &Point,
) -> Result<(), Full>
    requires points { points.now ≡ points_of window.now }
    requires tables { AreCallTables window.now tables.now.wakes tables.now.notifies tables.now.wakers tables.now.signals }
    requires wake { Contains (points_of window.now) w.now }
    ensures { IsAdded result into.old into.new (woken window.now w.now) }
{
    let signals = signals_to(alloc, window, tables, w)?;
    let sleep = sleep_of(window, points, w);
    woken_by(alloc, into, signals.as_slice(), w, &sleep)
}

fn woken_by(
    alloc: Global,
    into: &mut LimitedClauses,
    signals: &[Point],
    w: &Point,
    sleep: &Option<Point>,
) -> Result<(), Full>
    ensures { IsAdded result into.old into.new (woken_by signals.now w.now sleep.now) }
{
    match sleep {
        Some(s) => slept(alloc, into, signals, w, s),
        None => into.add(&[executed(w, false)]),
    }
}

fn slept(
    alloc: Global,
    into: &mut LimitedClauses,
    signals: &[Point],
    w: &Point,
    s: &Point,
) -> Result<(), Full>
    ensures { IsAdded result into.old into.new (woken_by signals.now w.now (Some s.now)) }
{
    takes_one(alloc, into, signals, w)?;
    for g in signals {
        between(into, w, s, g)?;
    }
    Ok(())
}

fn takes_one(
    alloc: Global,
    into: &mut LimitedClauses,
    signals: &[Point],
    w: &Point,
) -> Result<(), Full>
    ensures { IsAdded result into.old into.new (takes_one signals.now w.now) }
{
    let terms = taken_terms(alloc, signals, w)?;
    into.add(terms.as_slice())
}

fn taken_terms(alloc: Global, signals: &[Point], w: &Point) -> Result<Row<Term>, AllocError>
    ensures { IfOk result (λ terms. terms ≡ executed w.now false ∷ map (λ g. takes w.now g true) signals.now) }
{
    let mut terms = Row::new(alloc);
    terms.push(executed(w, false))?;
    for g in signals {
        terms.push(takes(w, g, true))?;
    }
    Ok(terms)
}

/// A signal that is taken is executed, after the sleep and before the wake.
fn between(into: &mut LimitedClauses, w: &Point, s: &Point, g: &Point) -> Result<(), Full>
    ensures { IsAdded result into.old into.new (between w.now s.now g.now) }
{
    into.add(&[takes(w, g, false), executed(g, true)])?;
    around(into, w, s, g)
}

fn around(into: &mut LimitedClauses, w: &Point, s: &Point, g: &Point) -> Result<(), Full>
    ensures { IsAdded result into.old into.new (simplified (takes w.now g.now false ∷ before s.now g.now ∷ []) ++ simplified (takes w.now g.now false ∷ before g.now w.now ∷ [])) }
{
    into.add(&[takes(w, g, false), before(s, g)])?;
    into.add(&[takes(w, g, false), before(g, w)])
}

fn add_notified(
    alloc: Global,
    into: &mut LimitedClauses,
    window: &Window,
    tables: &CallTables,
) -> Result<(), Full>
    requires { AreCallTables window.now tables.now.wakes tables.now.notifies tables.now.wakers tables.now.signals }
    ensures { IsAdded result into.old into.new (flat_map (notified window.now) (notifies_of window.now)) }
{
    for g in tables.notifies.as_slice() {
        notified(alloc, into, window, tables, g)?;
    }
    Ok(())
}

fn notified(
    alloc: Global,
    into: &mut LimitedClauses,
    window: &Window,
    tables: &CallTables,
    g: &Point,
) -> Result<(), Full>
    requires { AreCallTables window.now tables.now.wakes tables.now.notifies tables.now.wakers tables.now.signals }
    ensures { IsAdded result into.old into.new (notified window.now g.now) }
{
    let takers = takers_of(alloc, window, tables, g)?;
    taken_once(into, takers.as_slice(), g)
}

/// Of each two wakes at most one takes the signal.
fn taken_once(into: &mut LimitedClauses, takers: &[Point], g: &Point) -> Result<(), Full>
    ensures { IsAdded result into.old into.new (taken_once takers.now g.now) }
{
    for w in takers {
        taken_alone(into, takers, g, w)?;
    }
    Ok(())
}

fn taken_alone(
    into: &mut LimitedClauses,
    takers: &[Point],
    g: &Point,
    w: &Point,
) -> Result<(), Full>
    ensures { IsAdded result into.old into.new (flat_map (not_both g.now w.now) takers.now) }
{
    for v in takers {
        not_both(into, g, w, v)?;
    }
    Ok(())
}

fn not_both(into: &mut LimitedClauses, g: &Point, w: &Point, v: &Point) -> Result<(), Full>
    ensures { IsAdded result into.old into.new (not_both g.now w.now v.now) }
{
    if w.number >= v.number {
        return Ok(());
    }
    into.add(&[takes(w, g, false), takes(v, g, false)])
}

fn takes(w: &Point, g: &Point, positive: bool) -> Term
    ensures { result ≡ takes w.now g.now positive }
{
    literal(Symbol::Signal(w.number, g.number), positive)
}
