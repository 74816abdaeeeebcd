ghost use Rattle.std.specs.Prelude.{◌≡◌, ◌+◌, ◌++◌, IfOk, drop, map, take};
ghost use Rattle.gp_notify.specs.Extended.{lift, lower};
ghost use Rattle.gp_notify.specs.Lift.{lifted, lowered, raised, raised_lit};

use crate::notify_problem::NotifyProblem;
use gp_base::Row;
use gp_clause::{Lit, Query, Valuation};
use std::alloc::{AllocError, Global};

impl NotifyProblem {
    /// A query to the window's own problem, as one to the problem with signals: its locals are numbered after the variables
    /// that the signals add.
    pub fn lift(&self, alloc: Global, query: Query) -> Result<Query, AllocError>
        ensures { IfOk result (λ raised. raised ≡ lift self.now query) }
    {
        lifted(alloc, self.old_size(), self.new_size(), query)
    }

    /// An answer to the problem with signals, without the variables that these add.
    pub fn lower(&self, alloc: Global, valuation: &Valuation) -> Result<Valuation, AllocError>
        ensures { IfOk result (λ answer. answer ≡ lower self.now valuation.now) }
    {
        lowered(alloc, self.old_size(), self.new_size(), valuation)
    }
}

fn lifted(alloc: Global, old: usize, new: usize, query: Query) -> Result<Query, AllocError>
    ensures { IfOk result (λ raised. raised ≡ lifted old new query) }
{
    let Query { locals, assumed } = query;
    let assumed = raised_lits(alloc, old, new, assumed.as_slice())?;
    Ok(Query { locals, assumed })
}

fn raised_lits(alloc: Global, old: usize, new: usize, lits: &[Lit]) -> Result<Row<Lit>, AllocError>
    ensures { IfOk result (λ raised. raised ≡ map (raised_lit old new) lits.now) }
{
    let mut raised = Row::new(alloc);
    for lit in lits {
        raised.push(raised_lit(old, new, *lit)?)?;
    }
    Ok(raised)
}

fn raised_lit(old: usize, new: usize, lit: Lit) -> Result<Lit, AllocError>
    ensures { IfOk result (λ raised. raised ≡ raised_lit old new lit) }
{
    let variable = raised(old, new, lit.variable)?;
    Ok(Lit {
        variable,
        positive: lit.positive,
    })
}

/// A variable behind the new ones, if it is a local. A number that does not fit wants more memory than there is.
fn raised(old: usize, new: usize, variable: u32) -> Result<u32, AllocError>
    ensures { IfOk result (λ n. n ≡ raised old new variable) }
{
    if (variable as usize) < old {
        return Ok(variable);
    }
    match u32::try_from(new) {
        Ok(new) => variable.checked_add(new).ok_or(AllocError),
        Err(_) => Err(AllocError),
    }
}

fn lowered(
    alloc: Global,
    old: usize,
    new: usize,
    valuation: &Valuation,
) -> Result<Valuation, AllocError>
    ensures { IfOk result (λ answer. answer ≡ lowered old new valuation.now) }
{
    let truth = without_new(alloc, old, new, valuation.truth.as_slice())?;
    let places = copied(alloc, valuation.places.as_slice())?;
    Ok(Valuation { truth, places })
}

fn without_new(
    alloc: Global,
    old: usize,
    new: usize,
    truth: &[bool],
) -> Result<Row<bool>, AllocError>
    ensures { IfOk result (λ kept. kept ≡ take old truth.now ++ drop (old + new) truth.now) }
{
    let (front, rest) = parted(truth, old);
    let (_, back) = parted(rest, new);
    joined(alloc, front, back)
}

/// So many first values, and the others.
fn parted(truth: &[bool], count: usize) -> (&[bool], &[bool])
    ensures front { result.0.now ≡ take count truth.now }
    ensures back { result.1.now ≡ drop count truth.now }
{
    truth.split_at(count.min(truth.len()))
}

fn joined(alloc: Global, front: &[bool], back: &[bool]) -> Result<Row<bool>, AllocError>
    ensures { IfOk result (λ whole. whole ≡ front.now ++ back.now) }
{
    let mut whole = Vec::from_slice(alloc, front)?;
    whole.extend_from_slice(back)?;
    Ok(Row::from_vec(whole))
}

fn copied(alloc: Global, places: &[i64]) -> Result<Row<i64>, AllocError>
    ensures { IfOk result (λ copy. copy ≡ places.now) }
{
    Ok(Row::from_vec(Vec::from_slice(alloc, places)?))
}
