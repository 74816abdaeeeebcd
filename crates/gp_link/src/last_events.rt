ghost use Rattle.std.specs.Prelude.{◌≡◌, flat_map};
ghost use Rattle.gp_constraint.specs.Lasts.{is_last};
ghost use Rattle.gp_constraint.specs.Limited.{IsAdded};
ghost use Rattle.gp_link.specs.LinkClauses.{ended_of};

use gp_constraint::{Full, LimitedClauses, Point, executed};
use gp_window::Window;

/// The last event of each thread is executed.
pub fn last_events(
    clauses: &mut LimitedClauses,
    window: &Window,
    points: &[Point],
) -> Result<(), Full>
    ensures { IsAdded result clauses.old clauses.new (flat_map (ended_of window.now) points.now) }
{
    for p in points {
        ended_of(clauses, window, p)?;
    }
    Ok(())
}

fn ended_of(clauses: &mut LimitedClauses, window: &Window, p: &Point) -> Result<(), Full>
    ensures { IsAdded result clauses.old clauses.new (ended_of window.now p.now) }
{
    if !is_last(window, p) {
        return Ok(());
    }
    clauses.add(&[executed(p, true)])
}

fn is_last(window: &Window, p: &Point) -> bool
    ensures { result ≡ is_last window.now p.now }
{
    p.id.index as usize + 1 == window.segment(p.id.thread).len()
}
