ghost use Rattle.std.specs.Prelude.{◌≡◌, ◌++◌, IfOk, OnOk, flat_map};
ghost use Rattle.gp_constraint.specs.Limited.{IsAdded};
ghost use Rattle.gp_constraint.specs.ProgramOrder.{edge_to, linked, program_order};

use crate::fault::Full;
use crate::limited::LimitedClauses;
use crate::point::Point;
use crate::symbol::Symbol;
use crate::term::{executed, literal};
use gp_base::Row;
use gp_clause::Edge;
use std::alloc::{AllocError, Global};

/// An event is executed only where the one before it in its thread is.
pub fn program_order(clauses: &mut LimitedClauses, points: &[Point]) -> Result<(), Full>
    ensures { IsAdded result clauses.old clauses.new (program_order points.now) }
{
    for f in points {
        linked(clauses, f)?;
    }
    Ok(())
}

fn linked(clauses: &mut LimitedClauses, f: &Point) -> Result<(), Full>
    ensures { IsAdded result clauses.old clauses.new (linked f.now) }
{
    if f.id.index == 0 {
        return Ok(());
    }
    let previous = literal(Symbol::Executed(f.number.saturating_sub(1)), true);
    clauses.add(&[executed(f, false), previous])
}

/// The edges to the events from those before them in their threads.
pub fn edges(alloc: Global, points: &[Point]) -> Result<Row<Edge>, AllocError>
    ensures { IfOk result (λ edges. edges ≡ flat_map edge_to points.now) }
{
    let mut edges = Row::new(alloc);
    for f in points {
        push_edge(&mut edges, f)?;
    }
    Ok(edges)
}

fn push_edge(edges: &mut Row<Edge>, f: &Point) -> Result<(), AllocError>
    ensures { OnOk result (edges.new ≡ edges.old ++ edge_to f.now) }
{
    if f.id.index == 0 {
        return Ok(());
    }
    edges.push(Edge {
        a: f.number.saturating_sub(1),
        b: f.number,
        c: -1,
    })
}
