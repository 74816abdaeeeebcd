ghost use Rattle.std.specs.Prelude.{◌≡◌, ◌==◌, ◌&&◌, not};
ghost use Rattle.gp_window.specs.Starts.{is_among};
ghost use Rattle.gp_constraint.specs.Limited.{IsAdded};
ghost use Rattle.gp_constraint.specs.Starts.{start_of, starts};

use crate::adding::needs;
use crate::fault::Full;
use crate::limited::LimitedClauses;
use crate::point::Point;
use crate::points::Points;
use gp_window::{Window, is_among};

/// A thread that is not started when the window begins has a first event only after its start.
pub fn starts(clauses: &mut LimitedClauses, window: &Window, points: &Points) -> Result<(), Full>
    ensures { IsAdded result clauses.old clauses.new (starts window.now points.now) }
{
    for f in points.as_slice() {
        start_of(clauses, window, points, f)?;
    }
    Ok(())
}

fn start_of(
    clauses: &mut LimitedClauses,
    window: &Window,
    points: &Points,
    f: &Point,
) -> Result<(), Full>
    ensures { IsAdded result clauses.old clauses.new (start_of window.now points.now f.now) }
{
    if !wants_start(window, f) {
        return Ok(());
    }
    needs(clauses, f, points.start_of(f.id.thread))
}

fn wants_start(window: &Window, f: &Point) -> bool
    ensures { result ≡ (f.now.id.index == 0 && not (is_among window.now.started f.now.id.thread)) }
{
    f.id.index == 0 && !is_among(window.started(), f.id.thread)
}
