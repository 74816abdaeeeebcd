ghost use Rattle.std.specs.Prelude.{◌≡◌, ◌-◌, Contains, slice_get};
ghost use Rattle.gp_constraint.specs.Points.{points_of};
ghost use Rattle.gp_notify.specs.Signals.{sleep_of, unpaired, wakes_of};

use crate::sleeping::sleep_index;
use gp_constraint::Point;
use gp_window::Window;

/// The first wake without a sleep, of all wakes of a window.
pub fn unpaired(window: &Window, points: &[Point], wakes: &[Point]) -> Option<Point>
    requires points { points.now ≡ points_of window.now }
    requires wakes { wakes.now ≡ wakes_of window.now }
    ensures { result ≡ unpaired window.now }
{
    for w in wakes {
        if sleep_of(window, points, w).is_none() {
            return Some(*w);
        }
    }
    None
}

/// The sleep of a wake, where it has one.
pub fn sleep_of(window: &Window, points: &[Point], w: &Point) -> Option<Point>
    requires points { points.now ≡ points_of window.now }
    requires wake { Contains (points_of window.now) w.now }
    ensures { result ≡ sleep_of window.now w.now }
{
    match sleep_index(window, w.id) {
        Some(index) => point_before(points, w, index),
        None => None,
    }
}

/// The point at an index before that of a wake, in its thread, whose events have numbers that count on.
fn point_before(points: &[Point], w: &Point, index: u32) -> Option<Point>
    ensures { result ≡ slice_get points.now (w.now.number - (w.now.id.index - index)) }
{
    let back = w.id.index.saturating_sub(index);
    points.get(w.number.saturating_sub(back) as usize).copied()
}
