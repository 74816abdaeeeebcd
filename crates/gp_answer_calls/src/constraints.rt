ghost use Rattle.std.specs.Prelude.{◌≡◌, ◌≢◌, true, Err, IfOk};
ghost use Rattle.gp_constraint.specs.Encoded.{base_due};
ghost use Rattle.gp_constraint.specs.Extending.{extended_due};
ghost use Rattle.gp_constraint.specs.Query.{query_of};
ghost use Rattle.gp_instance.specs.Instance.{is_instance};
ghost use Rattle.gp_instance.specs.Matches.{matches_events};
ghost use Rattle.gp_replay.specs.Feasible.{IsFeasible};
ghost use Rattle.gp_witness.specs.Answered.{IsWitness, SolvesInstance, SolvesWindow};
ghost use Rattle.gp_witness.specs.Witness.{IsByPlace};

use gp_clause::{Query, Valuation};
use gp_constraint::{BaseFault, Encoded, ExtendedProblem, Family};
use gp_instance::Instance;
use gp_property::Property;
use gp_window::{Schedule, Window};
use std::alloc::{AllocError, Global};

/// As `gp_constraint::base`.
pub fn base(alloc: Global, window: Window) -> Result<Encoded, BaseFault>
    ensures { result ≢ Err BaseFault.Memory → result ≡ base_due window }
{
    gp_constraint::base(alloc, window)
}

/// As `gp_constraint::extended`.
pub fn extended<F: Family>(
    alloc: Global,
    encoded: Encoded,
    family: &F,
) -> Result<ExtendedProblem, BaseFault>
    ensures { result ≢ Err BaseFault.Memory → result ≡ extended_due encoded (F.clauses family.now encoded) }
{
    gp_constraint::extended(alloc, encoded, family)
}

/// As `gp_constraint::query`.
pub fn query(
    alloc: Global,
    encoded: &Encoded,
    property: &Property,
    instance: &Instance,
) -> Result<Query, AllocError>
    ensures { IfOk result (λ query. query ≡ query_of encoded.now property.now instance.now.events) }
{
    gp_constraint::query(alloc, encoded, property, instance)
}

/// As `gp_witness::executed_of`.
pub fn executed_of(
    alloc: Global,
    encoded: &Encoded,
    valuation: &Valuation,
) -> Result<Schedule, AllocError>
    requires { SolvesWindow encoded.now valuation.now }
    ensures order { IfOk result (λ schedule. IsByPlace encoded.now valuation.now schedule.events) }
    ensures feasible { IfOk result (λ schedule. IsFeasible encoded.now schedule.events) }
{
    gp_witness::executed_of(alloc, encoded, valuation)
}

/// As `gp_witness::schedule_of`.
pub fn schedule_of(
    alloc: Global,
    encoded: &Encoded,
    property: &Property,
    instance: &Instance,
    valuation: &Valuation,
) -> Result<Schedule, AllocError>
    requires instance { is_instance encoded.now property.now instance.now.events ≡ true }
    requires answer { SolvesInstance encoded.now property.now instance.now.events valuation.now }
    ensures order { IfOk result (λ schedule. IsWitness encoded.now valuation.now instance.now.events schedule.events) }
    ensures feasible { IfOk result (λ schedule. IsFeasible encoded.now schedule.events) }
    ensures matches { IfOk result (λ schedule. matches_events property.now instance.now.events schedule.events ≡ true) }
{
    gp_witness::schedule_of(alloc, encoded, property, instance, valuation)
}
