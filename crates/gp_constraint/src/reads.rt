ghost use Rattle.std.specs.Prelude.{◌≡◌, ◌++◌, ◌∷◌, [], ℤ, IfOk, OnOk, false, filter, flat_map};
ghost use Rattle.gp_constraint.specs.Limited.{IsAdded};
ghost use Rattle.gp_constraint.specs.Reads.{choice, choices, choices_of, finds_at_start, is_choice, is_read, is_rival, kept_apart, kept_later, reads, seen_from, sees, start_choice, start_choices};
ghost use Rattle.gp_constraint.specs.Listed.{choices_in, kept_from, rivals_in, seen};
ghost use Rattle.gp_constraint.specs.Terms.{chosen, executed, simplified};

use crate::action::Action;
use crate::adding::preceded;
use crate::fault::Full;
use crate::limited::LimitedClauses;
use crate::point::Point;
use crate::points::Points;
use crate::term::{Term, before, chosen, executed, start_chosen};
use gp_base::Row;
use gp_window::Window;
use std::alloc::{AllocError, Global};

fn is_read(action: &Action) -> bool
    ensures { result ≡ is_read action.now }
{
    matches!(action, Action::Read(_, _))
}

fn sees(read: &Action, write: &Action) -> bool
    ensures { result ≡ sees read.now write.now }
{
    match (read, write) {
        (Action::Read(variable, value), Action::Write(other, written)) => {
            variable == other && value == written
        }
        _ => false,
    }
}

fn is_rival(read: &Action, write: &Action) -> bool
    ensures { result ≡ is_rival read.now write.now }
{
    match (read, write) {
        (Action::Read(variable, value), Action::Write(other, written)) => {
            variable == other && value != written
        }
        _ => false,
    }
}

fn finds_at_start(window: &Window, action: &Action) -> bool
    ensures { result ≡ finds_at_start window.now action.now }
{
    match action {
        Action::Read(variable, value) => window.start_value(variable) == *value,
        _ => false,
    }
}

fn is_choice(r: &Point, w: &Point) -> bool
    ensures { result ≡ is_choice r.now w.now }
{
    sees(&r.action, &w.action) && !(w.id.thread == r.id.thread && r.id.index < w.id.index)
}

/// For each read: that it sees a value.
pub fn reads(
    alloc: Global,
    clauses: &mut LimitedClauses,
    window: &Window,
    points: &Points,
) -> Result<(), Full>
    ensures { IsAdded result clauses.old clauses.new (reads window.now points.now) }
{
    for r in points.as_slice() {
        choices_of(alloc, clauses, window, points, r)?;
    }
    Ok(())
}

fn choices_of(
    alloc: Global,
    clauses: &mut LimitedClauses,
    window: &Window,
    points: &Points,
    r: &Point,
) -> Result<(), Full>
    ensures { IsAdded result clauses.old clauses.new (choices_of window.now points.now r.now) }
{
    if !is_read(&r.action) {
        return Ok(());
    }
    choice_clause(alloc, clauses, window, points, r)
}

/// The read is not executed, or it sees one of its choices or the start value.
fn choice_clause(
    alloc: Global,
    clauses: &mut LimitedClauses,
    window: &Window,
    points: &Points,
    r: &Point,
) -> Result<(), Full>
    ensures { IsAdded result clauses.old clauses.new (simplified (executed r.now false ∷ (flat_map (choice r.now) points.now ++ start_choice window.now r.now))) }
{
    let terms = choice_terms(alloc, window, points.writes_for(r), r)?;
    clauses.add(terms.as_slice())
}

fn choice_terms(
    alloc: Global,
    window: &Window,
    writes: &[Point],
    r: &Point,
) -> Result<Row<Term>, AllocError>
    ensures { IfOk result (λ terms. terms ≡ executed r.now false ∷ (flat_map (choice r.now) writes.now ++ start_choice window.now r.now)) }
{
    let mut terms = Row::new(alloc);
    terms.push(executed(r, false))?;
    for w in writes {
        push_choice(&mut terms, r, w)?;
    }
    push_start_choice(&mut terms, window, r)?;
    Ok(terms)
}

fn push_choice(terms: &mut Row<Term>, r: &Point, w: &Point) -> Result<(), AllocError>
    ensures { OnOk result (terms.new ≡ terms.old ++ choice r.now w.now) }
{
    if !is_choice(r, w) {
        return Ok(());
    }
    terms.push(chosen(r, w, true))
}

fn push_start_choice(terms: &mut Row<Term>, window: &Window, r: &Point) -> Result<(), AllocError>
    ensures { OnOk result (terms.new ≡ terms.old ++ start_choice window.now r.now) }
{
    if !finds_at_start(window, &r.action) {
        return Ok(());
    }
    terms.push(start_chosen(r, true))
}

/// For each read and each choice of it: the write comes before the read, and none of another value between.
pub fn choices(alloc: Global, clauses: &mut LimitedClauses, points: &Points) -> Result<(), Full>
    ensures { IsAdded result clauses.old clauses.new (choices points.now) }
{
    for r in points.as_slice() {
        seen_by(alloc, clauses, points, r)?;
    }
    Ok(())
}

fn seen_by(
    alloc: Global,
    clauses: &mut LimitedClauses,
    points: &Points,
    r: &Point,
) -> Result<(), Full>
    ensures { IsAdded result clauses.old clauses.new (flat_map (seen_from points.now r.now) points.now) }
{
    let writes = points.writes_for(r);
    let choices = choices_in(alloc, writes, r)?;
    let rivals = rivals_in(alloc, writes, r)?;
    seen_each(clauses, choices.as_slice(), rivals.as_slice(), r)
}

fn choices_in(alloc: Global, writes: &[Point], r: &Point) -> Result<Row<Point>, AllocError>
    ensures { IfOk result (λ kept. kept ≡ choices_in writes.now r.now) }
{
    let mut kept = Row::new(alloc);
    for w in writes {
        if is_choice(r, w) {
            kept.push(*w)?;
        }
    }
    Ok(kept)
}

fn rivals_in(alloc: Global, writes: &[Point], r: &Point) -> Result<Row<Point>, AllocError>
    ensures { IfOk result (λ kept. kept ≡ rivals_in writes.now r.now) }
{
    let mut kept = Row::new(alloc);
    for w in writes {
        if is_rival(&r.action, &w.action) {
            kept.push(*w)?;
        }
    }
    Ok(kept)
}

fn seen_each(
    clauses: &mut LimitedClauses,
    choices: &[Point],
    rivals: &[Point],
    r: &Point,
) -> Result<(), Full>
    ensures { IsAdded result clauses.old clauses.new (flat_map (seen rivals.now r.now) choices.now) }
{
    for w in choices {
        seen(clauses, rivals, r, w)?;
    }
    Ok(())
}

/// The write that is seen comes before the read, and each of the rivals before it or after the read.
fn seen(clauses: &mut LimitedClauses, rivals: &[Point], r: &Point, w: &Point) -> Result<(), Full>
    ensures { IsAdded result clauses.old clauses.new (seen rivals.now r.now w.now) }
{
    preceded(clauses, &[chosen(r, w, false)], Some(*w), r)?;
    keep_apart_all(clauses, rivals, r, w)
}

fn keep_apart_all(
    clauses: &mut LimitedClauses,
    rivals: &[Point],
    r: &Point,
    w: &Point,
) -> Result<(), Full>
    ensures { IsAdded result clauses.old clauses.new (flat_map (kept_apart r.now w.now) rivals.now) }
{
    for other in rivals {
        keep_apart(clauses, r, w, other)?;
    }
    Ok(())
}

fn keep_apart(clauses: &mut LimitedClauses, r: &Point, w: &Point, other: &Point) -> Result<(), Full>
    ensures { IsAdded result clauses.old clauses.new (kept_apart r.now w.now other.now) }
{
    if !is_rival(&r.action, &other.action) {
        return Ok(());
    }
    let terms = [
        chosen(r, w, false),
        executed(other, false),
        before(other, w),
        before(r, other),
    ];
    clauses.add(&terms)
}

/// For each read that may see the start value: no write of another value comes before it.
pub fn start_choices(
    clauses: &mut LimitedClauses,
    window: &Window,
    points: &Points,
) -> Result<(), Full>
    ensures { IsAdded result clauses.old clauses.new (start_choices window.now points.now) }
{
    for r in points.as_slice() {
        seen_at_start(clauses, window, points, r)?;
    }
    Ok(())
}

fn seen_at_start(
    clauses: &mut LimitedClauses,
    window: &Window,
    points: &Points,
    r: &Point,
) -> Result<(), Full>
    ensures { IsAdded result clauses.old clauses.new (flat_map (kept_later window.now r.now) points.now) }
{
    if !finds_at_start(window, &r.action) {
        return Ok(());
    }
    keep_later_all(clauses, points.writes_for(r), r)
}

fn keep_later_all(clauses: &mut LimitedClauses, writes: &[Point], r: &Point) -> Result<(), Full>
    ensures { IsAdded result clauses.old clauses.new (flat_map (kept_from r.now) writes.now) }
{
    for other in writes {
        keep_later(clauses, r, other)?;
    }
    Ok(())
}

fn keep_later(clauses: &mut LimitedClauses, r: &Point, other: &Point) -> Result<(), Full>
    ensures { IsAdded result clauses.old clauses.new (kept_from r.now other.now) }
{
    if !is_rival(&r.action, &other.action) {
        return Ok(());
    }
    let terms = [
        start_chosen(r, false),
        executed(other, false),
        before(r, other),
    ];
    clauses.add(&terms)
}
