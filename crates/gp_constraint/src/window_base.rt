ghost use Rattle.std.specs.Prelude.{◌≡◌, ◌≢◌, ◌≤◌, Err, IfOk, IfSome, MatchResult, OnOk, flat_map, length, map};
ghost use Rattle.gp_constraint.specs.Base.{all_families, clauses_of};
ghost use Rattle.gp_constraint.specs.Encoded.{IsBase, base_due};
ghost use Rattle.gp_constraint.specs.Numbering.{names_of, numbered};
ghost use Rattle.gp_constraint.specs.Points.{points_of};
ghost use Rattle.gp_constraint.specs.ProgramOrder.{edge_to};
ghost use Rattle.gp_constraint.specs.Signed.{AreSigned};
ghost use Rattle.gp_constraint.specs.Symbols.{kind_of};

use crate::encoded::{Encoded, Parts};
use crate::families::all_families;
use crate::fault::{BaseFault, Full, MOST_CLAUSES, MOST_POINTS};
use crate::naming::{Names, kinds_of};
use crate::numbering::number_clauses;
use crate::numbers::sizes_of;
use crate::point::Point;
use crate::points::Points;
use crate::program_order::edges;
use crate::symbol::SymbolicLit;
use gp_base::Row;
use gp_clause::Problem;
use gp_window::Window;
use std::alloc::{AllocError, Global};

/// A window with its constraints.
pub fn base(alloc: Global, window: Window) -> Result<Encoded, BaseFault>
    ensures { result ≢ Err BaseFault.Memory → result ≡ base_due window }
{
    match parts(alloc, &window) {
        Ok(parts) => Ok(Encoded::new(window, parts)),
        Err(fault) => {
            drop(window);
            Err(fault)
        }
    }
}

fn parts(alloc: Global, window: &Window) -> Result<Parts, BaseFault>
    ensures { MatchResult result (λ parts. IsBase window.now parts.points parts.names parts.sizes parts.problem) (λ fault. fault ≢ BaseFault.Memory → Err fault ≡ base_due window.now) }
{
    let Some(events) = count_events(window) else {
        return Err(BaseFault::Memory);
    };
    if events > MOST_POINTS as u64 {
        return Err(BaseFault::TooLarge { events, clauses: 0 });
    }
    let points = Points::of(alloc, window)?;
    match all_families(alloc, window, &points) {
        Ok(clauses) => {
            let parts = encode(alloc, window, points.into_row(), clauses.as_slice());
            drop(clauses);
            Ok(parts?)
        }
        Err(full) => {
            drop(points);
            match full {
                Full::TooMany => Err(BaseFault::TooLarge {
                    events,
                    clauses: MOST_CLAUSES as u64 + 1,
                }),
                Full::Memory => Err(BaseFault::Memory),
            }
        }
    }
}

/// How many events a window has, where their number fits.
fn count_events(window: &Window) -> Option<u64>
    ensures { IfSome result (λ events. events ≡ length (points_of window.now)) }
{
    let mut events = 0u64;
    for segment in window.segments() {
        events = events.checked_add(segment.len() as u64)?;
    }
    Some(events)
}

/// The clauses of a window by their variables, with the edges between the events of its threads.
fn encode(
    alloc: Global,
    window: &Window,
    points: Row<Point>,
    clauses: &[Row<SymbolicLit>],
) -> Result<Parts, AllocError>
    requires points { points ≡ points_of window.now }
    requires few_points { length (points_of window.now) ≤ 2048 }
    requires clauses { clauses.now ≡ clauses_of window.now }
    requires few_clauses { length clauses.now ≤ 500000 }
    ensures { IfOk result (λ parts. IsBase window.now parts.points parts.names parts.sizes parts.problem) }
{
    gp_window::windows_are_formed();
    let sizes = sizes_of(alloc, window.segments())?;
    let events = points.as_slice();
    let mut names = Names::of_points(alloc, events.len() as u32)?;
    let problem = problem_of(alloc, events, &mut names, clauses)?;
    Ok(Parts {
        points,
        names,
        sizes,
        problem,
    })
}

/// The problem of points and clauses, whose symbols are numbered behind the names.
fn problem_of(
    alloc: Global,
    points: &[Point],
    names: &mut Names,
    clauses: &[Row<SymbolicLit>],
) -> Result<Problem, AllocError>
    requires few { length points.now ≤ 2048 }
    requires signed { AreSigned clauses.now }
    ensures problem { IfOk result (λ problem. problem ≡ record { points = length points.now; kinds = map kind_of (names_of names.old clauses.now); edges = flat_map edge_to points.now; clauses = numbered names.old clauses.now }) }
    ensures names { OnOk result (names.new ≡ names_of names.old clauses.now) }
{
    let clauses = number_clauses(alloc, names, clauses)?;
    let kinds = kinds_of(alloc, names.as_slice())?;
    let edges = edges(alloc, points)?;
    Ok(Problem {
        points: points.len() as u32,
        kinds,
        edges,
        clauses,
    })
}
