ghost use Rattle.std.specs.Prelude.{◌≡◌};
ghost use Rattle.gp_constraint.specs.Limited.{IsAdded};
ghost use Rattle.gp_constraint.specs.Points.{points_of};
ghost use Rattle.gp_constraint.specs.Signed.{AreSigned};
ghost use Rattle.gp_link.specs.LinkClauses.{link_clauses};

use crate::last_events::last_events;
use crate::last_writes::last_writes;
use crate::variables::variables_of;
use gp_constraint::{Family, Full, LimitedClauses, Points};
use gp_window::Window;
use std::alloc::Global;

/// A window is to run wholly, and to end in the start values of the next.
#[derive(Clone, Copy, Drop)]
pub struct Link<'a> {
    pub alloc: Global,
    pub next: &'a Window,
}

impl Family for Link<'_> {
    ghost use Rattle.gp_link.specs.LinkClauses.{link_clauses};

    ghost clauses = { λ link window. link_clauses window link.next.now };

    fn add(&self, window: &Window, points: &Points, into: &mut LimitedClauses) -> Result<(), Full> {
        add_link(self.alloc, window, self.next, points, into)
    }
}

fn add_link(
    alloc: Global,
    window: &Window,
    next: &Window,
    points: &Points,
    into: &mut LimitedClauses,
) -> Result<(), Full>
    requires { points.now ≡ points_of window.now }
    ensures adds { IsAdded result into.old into.new (link_clauses window.now next.now) }
    ensures signed { AreSigned (link_clauses window.now next.now) }
{
    last_events(into, window, points.as_slice())?;
    let variables = variables_of(alloc, window, next, points.as_slice())?;
    last_writes(alloc, into, window, next, points, variables.as_slice())
}
