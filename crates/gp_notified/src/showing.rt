ghost use Rattle.std.specs.Prelude.{IfOk};
ghost use Rattle.gp_clause.specs.Valuation.{Meets};
ghost use Rattle.gp_constraint.specs.Query.{query_of};
ghost use Rattle.gp_instance.specs.ListedLaws.{IsListed};
ghost use Rattle.gp_notify.specs.Extended.{extended_of, lift};
ghost use Rattle.gp_notified.specs.Shown.{IsShown};

use crate::laws::signals_are_answered;
use crate::paired::Paired;
use gp_clause::Valuation;
use gp_instance::Instance;
use gp_notify::NotifyProblem;
use gp_property::Property;
use gp_witness::schedule_of;
use std::alloc::{AllocError, Global};

/// A feasible schedule that matches an instance, and the signals of its wakes, from a valuation of its lifted query. The schedule
/// is read off the valuation without the variables of signals, the pairs off the valuation itself.
pub(crate) fn shown_by(
    alloc: Global,
    extended: &NotifyProblem,
    property: &Property,
    instance: &Instance,
    valuation: &Valuation,
) -> Result<Paired, AllocError>
    requires instance { IsListed extended.now property.now instance.now.events }
    requires meets { Meets (extended_of extended.now) (lift extended.now (query_of extended.now property.now instance.now.events)) valuation.now }
    ensures { IfOk result (IsShown extended.now property.now instance.now.events) }
{
    signals_are_answered();
    extended.window().comes_from_recording();
    let lowered = extended.lower(alloc, valuation)?;
    let schedule = schedule_of(alloc, extended.encoded(), property, instance, &lowered)?;
    let pairs = extended.pairs_of(alloc, &schedule, valuation)?;
    Ok(Paired { schedule, pairs })
}
