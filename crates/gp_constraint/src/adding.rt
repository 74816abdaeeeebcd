ghost use Rattle.gp_constraint.specs.Limited.{IsAdded};
ghost use Rattle.gp_constraint.specs.Terms.{needs, preceded};

use crate::fault::Full;
use crate::limited::LimitedClauses;
use crate::point::Point;
use crate::term::{Term, before, executed};

/// Unless one of the guards holds, there is such an event, executed and before `f`.
pub fn preceded(
    clauses: &mut LimitedClauses,
    guards: &[Term],
    found: Option<Point>,
    f: &Point,
) -> Result<(), Full>
    ensures { IsAdded result clauses.old clauses.new (preceded guards.now found f.now) }
{
    match found {
        Some(s) => {
            clauses.add_guarded(guards, executed(&s, true))?;
            clauses.add_guarded(guards, before(&s, f))
        }
        None => clauses.add(guards),
    }
}

/// Where `f` is executed, there is such an event, executed and before it.
pub fn needs(clauses: &mut LimitedClauses, f: &Point, found: Option<Point>) -> Result<(), Full>
    ensures { IsAdded result clauses.old clauses.new (needs f.now found) }
{
    preceded(clauses, &[executed(f, false)], found, f)
}
