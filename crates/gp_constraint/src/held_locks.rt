ghost use Rattle.std.specs.Prelude.{◌≡◌, ◌==◌, ◌&&◌, not, flat_map};
ghost use Rattle.gp_constraint.specs.Limited.{IsAdded};
ghost use Rattle.gp_constraint.specs.HeldLocks.{held_apart, held_locks};
ghost use Rattle.gp_constraint.specs.HeldUses.{held_with};
ghost use Rattle.gp_constraint.specs.Sections.{ends_hold, takes_against};

use crate::action::Action;
use crate::adding::needs;
use crate::fault::Full;
use crate::limited::LimitedClauses;
use crate::point::Point;
use crate::points::Points;
use crate::sections::{exclude, first_end};
use gp_text::Name;
use gp_trace::{LockMode, LockUse};
use gp_window::Window;

/// A lock, a thread that holds it when the window begins, and how.
pub type Holding = ((Name, u32), LockMode);

fn takes_against(mode: LockMode, lock: &Name, action: &Action) -> bool
    ensures { result ≡ takes_against mode lock.now action.now }
{
    match action {
        Action::Lock(LockUse::Take(other, again)) => again == lock && exclude(mode, *other),
        _ => false,
    }
}

/// Who holds a lock when the window begins gives it back before another thread takes it against that.
pub fn held_locks(
    clauses: &mut LimitedClauses,
    window: &Window,
    points: &Points,
) -> Result<(), Full>
    ensures { IsAdded result clauses.old clauses.new (held_locks window.now points.now) }
{
    for (holder, mode) in window.held().iter() {
        held_by(clauses, points, &(*holder, *mode))?;
    }
    Ok(())
}

fn held_by(clauses: &mut LimitedClauses, points: &Points, hold: &Holding) -> Result<(), Full>
    ensures { IsAdded result clauses.old clauses.new (flat_map (held_apart points.now hold.now) points.now) }
{
    let uses = points.uses_of(&hold.0.0);
    let end = first_end(uses, hold.1, &hold.0.0, hold.0.1, 0);
    held_among(clauses, uses, &end, hold)
}

fn held_among(
    clauses: &mut LimitedClauses,
    uses: &[Point],
    end: &Option<Point>,
    hold: &Holding,
) -> Result<(), Full>
    ensures { IsAdded result clauses.old clauses.new (flat_map (held_with end.now hold.now) uses.now) }
{
    for c in uses {
        held_with(clauses, end, hold, c)?;
    }
    Ok(())
}

fn held_with(
    clauses: &mut LimitedClauses,
    end: &Option<Point>,
    hold: &Holding,
    c: &Point,
) -> Result<(), Full>
    ensures { IsAdded result clauses.old clauses.new (held_with end.now hold.now c.now) }
{
    if !is_against(hold, c) {
        return Ok(());
    }
    needs(clauses, c, *end)
}

fn is_against(hold: &Holding, c: &Point) -> bool
    ensures { result ≡ (takes_against hold.now.1 hold.now.0.0 c.now.action && not (c.now.id.thread == hold.now.0.1)) }
{
    takes_against(hold.1, &hold.0.0, &c.action) && c.id.thread != hold.0.1
}
