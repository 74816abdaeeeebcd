ghost use Rattle.std.specs.Prelude.{◌≡◌};
ghost use Rattle.gp_constraint.specs.Limited.{IsAdded};
ghost use Rattle.gp_constraint.specs.Signed.{AreSigned};
ghost use Rattle.gp_bridge_rows.specs.Happens.{happens, happens_at, is_event};

use gp_constraint::{Family, Full, LimitedClauses, Point, Points, Symbol, executed, literal};
use gp_window::{EventId, Window};

/// An event is to be executed. The clauses name a symbol of their own, which is free.
#[derive(Clone, Copy)]
pub struct Happens {
    pub event: EventId,
}

impl Family for Happens {
    ghost use Rattle.gp_bridge_rows.specs.Happens.{happens_in};

    ghost clauses = { λ family window. happens_in family.event window };

    fn add(
        &self,
        _window: &Window,
        points: &Points,
        into: &mut LimitedClauses,
    ) -> Result<(), Full> {
        add_all(self.event, points.as_slice(), into)
    }
}

fn add_all(event: EventId, points: &[Point], into: &mut LimitedClauses) -> Result<(), Full>
    ensures adds { IsAdded result into.old into.new (happens event points.now) }
    ensures signed { AreSigned (happens event points.now) }
{
    for p in points {
        add_at(event, p, into)?;
    }
    Ok(())
}

fn add_at(event: EventId, p: &Point, into: &mut LimitedClauses) -> Result<(), Full>
    ensures { IsAdded result into.old into.new (happens_at event p.now) }
{
    if !is_event(event, p) {
        return Ok(());
    }
    into.add(&[literal(Symbol::Last(p.number), true)])?;
    into.add(&[literal(Symbol::Last(p.number), false), executed(p, true)])
}

fn is_event(event: EventId, p: &Point) -> bool
    ensures { result ≡ is_event event p.now }
{
    p.id.thread == event.thread && p.id.index == event.index
}
