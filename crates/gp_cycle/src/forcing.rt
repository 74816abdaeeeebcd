ghost use Rattle.std.specs.Prelude.{◌≡◌, ◌++◌, [], ◌∷◌, IfOk, OnOk, find, length};
ghost use Rattle.std.specs.List.{list_any};
ghost use Rattle.gp_cycle.specs.Forced.{forced, forced_by, forced_first, is_false, is_open, is_open_beside, sweep, sweeps, with_forced};

use crate::known::Known;
use gp_base::Row;
use gp_clause::Lit;
use std::alloc::{AllocError, Global};

/// The literals that clauses force from a start: the start, and each literal that is the one open literal of a clause, in the
/// order in which they are forced; nothing where a clause becomes false.
///
/// It goes over the clauses until none forces anything, which where each is forced by earlier ones is twice.
pub fn forced(
    alloc: Global,
    start: &[Lit],
    clauses: &[Row<Lit>],
) -> Result<Option<Row<Lit>>, AllocError>
    ensures { IfOk result (λ lits. lits ≡ forced start.now clauses.now) }
{
    let mut known = Known::new(alloc);
    add_all(&mut known, start)?;
    settle(&mut known, clauses)?;
    if has_false(&known, clauses) {
        return Ok(None);
    }
    Ok(Some(known.into_lits()))
}

fn add_all(known: &mut Known, lits: &[Lit]) -> Result<(), AllocError>
    ensures { OnOk result (known.new ≡ known.old ++ lits.now) }
{
    for lit in lits {
        known.add(*lit)?;
    }
    Ok(())
}

/// Goes over the clauses until none forces anything.
fn settle(known: &mut Known, clauses: &[Row<Lit>]) -> Result<(), AllocError>
    ensures { OnOk result (known.new ≡ sweeps (length clauses.now) known.old clauses.now) }
{
    for _round in 0..clauses.len() {
        let count = known.len();
        go_over(known, clauses)?;
        if known.len() == count {
            return Ok(());
        }
    }
    Ok(())
}

/// Adds what each clause forces, one after another.
fn go_over(known: &mut Known, clauses: &[Row<Lit>]) -> Result<(), AllocError>
    ensures { OnOk result (known.new ≡ sweep known.old clauses.now) }
{
    for clause in clauses {
        force(known, clause.as_slice())?;
    }
    Ok(())
}

/// Adds what a clause forces.
fn force(known: &mut Known, clause: &[Lit]) -> Result<(), AllocError>
    ensures { OnOk result (known.new ≡ with_forced known.old (forced_by known.old clause.now)) }
{
    match forced_by(known, clause) {
        Some(lit) => known.add(lit),
        None => Ok(()),
    }
}

/// What a clause forces: its one open literal, where that is not known.
fn forced_by(known: &Known, clause: &[Lit]) -> Option<Lit>
    ensures { result ≡ forced_by known.now clause.now }
{
    match first_open(known, clause) {
        Some(lit) => forced_first(known, clause, lit),
        None => None,
    }
}

fn first_open(known: &Known, clause: &[Lit]) -> Option<Lit>
    ensures { result ≡ find (is_open known.now) clause.now }
{
    clause.iter().copied().find(|lit| known.is_open(*lit))
}

/// The first open literal of a clause, where no other is open and it is not known.
fn forced_first(known: &Known, clause: &[Lit], lit: Lit) -> Option<Lit>
    ensures { result ≡ forced_first known.now clause.now (Some lit) }
{
    if known.has(lit) || has_open_beside(known, clause, lit) {
        return None;
    }
    Some(lit)
}

fn has_open_beside(known: &Known, clause: &[Lit], one: Lit) -> bool
    ensures { result ≡ list_any (is_open_beside known.now one) clause.now }
{
    clause.iter().any(|lit| known.is_open(*lit) && *lit != one)
}

/// Whether some clause is false.
fn has_false(known: &Known, clauses: &[Row<Lit>]) -> bool
    ensures { result ≡ list_any (is_false known.now) clauses.now }
{
    clauses
        .iter()
        .any(|clause| is_false(known, clause.as_slice()))
}

/// Whether no literal of a clause is open.
fn is_false(known: &Known, clause: &[Lit]) -> bool
    ensures { result ≡ is_false known.now clause.now }
{
    !has_open(known, clause)
}

fn has_open(known: &Known, clause: &[Lit]) -> bool
    ensures { result ≡ list_any (is_open known.now) clause.now }
{
    clause.iter().any(|lit| known.is_open(*lit))
}
