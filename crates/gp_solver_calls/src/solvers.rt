ghost use Rattle.std.specs.Prelude.{◌≡◌, ◌+◌, ◌<◌, ◌≤◌, ◌^◌, IfOk, OnErr, OnOk, length};
ghost use Rattle.gp_clause.specs.Clause.{NamesBelow};
ghost use Rattle.gp_sat.specs.Changes.{Backjumps, HasPresent, IsPropagated, MayAttach, Propagates};
ghost use Rattle.gp_sat.specs.Learning.{IsFirstPoint};
ghost use Rattle.gp_sat.specs.Sound.{IsSound};
ghost use Rattle.gp_sat.specs.Standing.{Each, IsFalse};
ghost use Rattle.gp_sat.specs.State.{assigned, with_clause};

use gp_clause::{Clause, Lit};
use gp_sat::{Learned, Propagated, Solver};
use std::alloc::AllocError;

/// As `Solver::attach`.
pub fn attach(solver: &mut Solver, clause: &Clause) -> Result<u32, AllocError>
    requires few { length solver.old.clauses + 1 < 2 ^ 32 }
    requires named { NamesBelow (length solver.old.values) clause.now }
    requires may { MayAttach solver.old clause.now }
    ensures number { IfOk result (λ number. number ≡ length solver.old.clauses) }
    ensures ok { OnOk result (solver.new ≡ with_clause solver.old clause.now) }
    ensures err { OnErr result (solver.new ≡ solver.old) }
    ensures sound { IsSound solver.new }
{
    solver.attach(clause)
}

/// As `Solver::propagate`.
pub fn propagate(solver: &mut Solver) -> Propagated
    ensures answer { IsPropagated solver.new result }
    ensures added { Propagates solver.old solver.new }
    ensures sound { IsSound solver.new }
{
    solver.propagate()
}

/// As `Solver::backjump`.
pub fn backjump(solver: &mut Solver, level: u32)
    requires { level ≤ solver.old.level }
    ensures back { Backjumps solver.old solver.new level }
    ensures sound { IsSound solver.new }
{
    solver.backjump(level);
}

/// As `Solver::analyse`.
pub fn analyse(solver: &mut Solver, conflict: &[Lit]) -> Result<Learned, AllocError>
    requires above { 0 < solver.old.level }
    requires conflict { Each (IsFalse (assigned solver.old)) conflict.now }
    requires present { HasPresent solver.old conflict.now }
    ensures learned { IfOk result (IsFirstPoint solver.old conflict.now) }
    ensures same { solver.new ≡ solver.old }
{
    solver.analyse(conflict)
}
