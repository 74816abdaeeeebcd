ghost use Rattle.std.specs.Prelude.{◌≡◌, IfOk, filter, flat_map, map, true};
ghost use Rattle.gp_window.specs.WindowForm.{start_value};
ghost use Rattle.gp_constraint.specs.Limited.{IsAdded};
ghost use Rattle.gp_constraint.specs.Tables.{writes_to};
ghost use Rattle.gp_link.specs.LinkClauses.{are_rivals, choices_in, comes_last, ends_at, ends_with, kept_before, last, linked_at, stays, writes_value};

use gp_base::Row;
use gp_constraint::{Action, Full, LimitedClauses, Point, Points, Symbol, Term, before, literal};
use gp_text::Name;
use gp_window::{EventId, Window};
use std::alloc::{AllocError, Global};

/// Each variable has the next window's start value in the end.
pub fn last_writes(
    alloc: Global,
    clauses: &mut LimitedClauses,
    window: &Window,
    next: &Window,
    points: &Points,
    variables: &[Name],
) -> Result<(), Full>
    ensures { IsAdded result clauses.old clauses.new (flat_map (linked_at window.now next.now points.now) variables.now) }
{
    for variable in variables {
        linked_at(alloc, clauses, window, next, points, variable)?;
    }
    Ok(())
}

fn linked_at(
    alloc: Global,
    clauses: &mut LimitedClauses,
    window: &Window,
    next: &Window,
    points: &Points,
    variable: &Name,
) -> Result<(), Full>
    ensures { IsAdded result clauses.old clauses.new (linked_at window.now next.now points.now variable.now) }
{
    let writes = writes_to(points, variable);
    if writes.is_empty() {
        return stays(clauses, window, next, variable);
    }
    ends_as(alloc, clauses, next, writes, variable)
}

/// A variable that is written has the next window's start value in the end.
fn ends_as(
    alloc: Global,
    clauses: &mut LimitedClauses,
    next: &Window,
    writes: &[Point],
    variable: &Name,
) -> Result<(), Full>
    ensures { IsAdded result clauses.old clauses.new (ends_at writes.now variable.now (start_value next.now variable.now)) }
{
    ends_at(alloc, clauses, writes, variable, next.start_value(variable))
}

/// The points that write a variable, which are those that a read of it looks up.
fn writes_to<'a>(points: &'a Points, variable: &Name) -> &'a [Point]
    ensures { result.now ≡ filter (λ p. writes_to variable.now p.action) points.now }
{
    points.writes_for(&Point {
        number: 0,
        id: EventId {
            thread: 0,
            index: 0,
        },
        action: Action::Read(*variable, 0),
    })
}

fn stays(
    clauses: &mut LimitedClauses,
    window: &Window,
    next: &Window,
    variable: &Name,
) -> Result<(), Full>
    ensures { IsAdded result clauses.old clauses.new (stays window.now next.now variable.now) }
{
    if window.start_value(variable) == next.start_value(variable) {
        return Ok(());
    }
    clauses.add(&[])
}

/// Some write of the value is the last, after each write of another value.
fn ends_at(
    alloc: Global,
    clauses: &mut LimitedClauses,
    writes: &[Point],
    variable: &Name,
    value: i64,
) -> Result<(), Full>
    ensures { IsAdded result clauses.old clauses.new (ends_at writes.now variable.now value) }
{
    let choices = choices_in(alloc, writes, variable, value)?;
    ends_with(alloc, clauses, writes, choices.as_slice())
}

fn choices_in(
    alloc: Global,
    writes: &[Point],
    variable: &Name,
    value: i64,
) -> Result<Row<Point>, AllocError>
    ensures { IfOk result (λ choices. choices ≡ choices_in writes.now variable.now value) }
{
    let mut choices = Row::new(alloc);
    for w in writes {
        if writes_value(variable, value, &w.action) {
            choices.push(*w)?;
        }
    }
    Ok(choices)
}

fn ends_with(
    alloc: Global,
    clauses: &mut LimitedClauses,
    writes: &[Point],
    choices: &[Point],
) -> Result<(), Full>
    ensures { IsAdded result clauses.old clauses.new (ends_with writes.now choices.now) }
{
    let terms = last_terms(alloc, choices)?;
    clauses.add(terms.as_slice())?;
    come_last(clauses, writes, choices)
}

fn last_terms(alloc: Global, choices: &[Point]) -> Result<Row<Term>, AllocError>
    ensures { IfOk result (λ terms. terms ≡ map (λ w. last w true) choices.now) }
{
    let mut terms = Row::new(alloc);
    for w in choices {
        terms.push(last(w, true))?;
    }
    Ok(terms)
}

fn come_last(clauses: &mut LimitedClauses, writes: &[Point], choices: &[Point]) -> Result<(), Full>
    ensures { IsAdded result clauses.old clauses.new (flat_map (comes_last writes.now) choices.now) }
{
    for w in choices {
        comes_last(clauses, writes, w)?;
    }
    Ok(())
}

fn comes_last(clauses: &mut LimitedClauses, writes: &[Point], w: &Point) -> Result<(), Full>
    ensures { IsAdded result clauses.old clauses.new (comes_last writes.now w.now) }
{
    for other in writes {
        keep_before(clauses, w, other)?;
    }
    Ok(())
}

fn keep_before(clauses: &mut LimitedClauses, w: &Point, other: &Point) -> Result<(), Full>
    ensures { IsAdded result clauses.old clauses.new (kept_before w.now other.now) }
{
    if !are_rivals(&w.action, &other.action) {
        return Ok(());
    }
    clauses.add(&[last(w, false), before(other, w)])
}

fn last(w: &Point, positive: bool) -> Term
    ensures { result ≡ last w.now positive }
{
    literal(Symbol::Last(w.number), positive)
}

fn writes_value(variable: &Name, value: i64, action: &Action) -> bool
    ensures { result ≡ writes_value variable.now value action.now }
{
    match action {
        Action::Write(other, written) => other == variable && *written == value,
        _ => false,
    }
}

fn are_rivals(write: &Action, other: &Action) -> bool
    ensures { result ≡ are_rivals write.now other.now }
{
    match (write, other) {
        (Action::Write(variable, value), Action::Write(other, written)) => {
            other == variable && written != value
        }
        _ => false,
    }
}
