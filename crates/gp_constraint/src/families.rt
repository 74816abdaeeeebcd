ghost use Rattle.std.specs.Prelude.{◌≡◌, ◌≢◌, ◌≤◌, ◌++◌, Err, IfOk, length};
ghost use Rattle.gp_constraint.specs.Base.{all_families};
ghost use Rattle.gp_constraint.specs.HeldLocks.{held_locks};
ghost use Rattle.gp_constraint.specs.Limited.{IsAdded, limited};
ghost use Rattle.gp_constraint.specs.Reads.{choices, reads, start_choices};
ghost use Rattle.gp_constraint.specs.Sections.{sections};

use crate::fault::Full;
use crate::held_locks::held_locks;
use crate::joins::joins;
use crate::limited::LimitedClauses;
use crate::points::Points;
use crate::program_order::program_order;
use crate::reads::{choices, reads, start_choices};
use crate::sections::sections;
use crate::starts::starts;
use crate::symbol::SymbolicLit;
use gp_base::Row;
use gp_window::Window;
use std::alloc::Global;

/// All clauses of a window over symbols. The time is that of the clauses, of the events, and of a look at the writes of
/// its variable for each read and at the takes of its lock for each take.
pub fn all_families(
    alloc: Global,
    window: &Window,
    points: &Points,
) -> Result<Row<Row<SymbolicLit>>, Full>
    ensures due { result ≢ Err Full.Memory → result ≡ limited (all_families window.now points.now) }
    ensures few { IfOk result (λ clauses. length clauses ≤ 500000) }
{
    let mut clauses = LimitedClauses::new(alloc);
    match add_families(alloc, &mut clauses, window, points) {
        Ok(()) => Ok(clauses.into_row()),
        Err(error) => {
            drop(clauses);
            Err(error)
        }
    }
}

// The order of each thread, its start and its joins, and then all else.
fn add_families(
    alloc: Global,
    clauses: &mut LimitedClauses,
    window: &Window,
    points: &Points,
) -> Result<(), Full>
    ensures { IsAdded result clauses.old clauses.new (all_families window.now points.now) }
{
    program_order(clauses, points.as_slice())?;
    starts(clauses, window, points)?;
    joins(alloc, clauses, window, points)?;
    add_values_and_locks(alloc, clauses, window, points)
}

// What a read may see, and then the locks.
fn add_values_and_locks(
    alloc: Global,
    clauses: &mut LimitedClauses,
    window: &Window,
    points: &Points,
) -> Result<(), Full>
    ensures { IsAdded result clauses.old clauses.new (reads window.now points.now ++ (choices points.now ++ (start_choices window.now points.now ++ (sections points.now ++ held_locks window.now points.now)))) }
{
    reads(alloc, clauses, window, points)?;
    choices(alloc, clauses, points)?;
    start_choices(clauses, window, points)?;
    add_locks(alloc, clauses, window, points)
}

// The sections of each lock, and what is held before the window.
fn add_locks(
    alloc: Global,
    clauses: &mut LimitedClauses,
    window: &Window,
    points: &Points,
) -> Result<(), Full>
    ensures { IsAdded result clauses.old clauses.new (sections points.now ++ held_locks window.now points.now) }
{
    sections(alloc, clauses, points)?;
    held_locks(clauses, window, points)
}
