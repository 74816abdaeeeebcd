ghost use Rattle.std.specs.Prelude.{◌≡◌, Some, IfOk};
ghost use Rattle.gp_clause.specs.Lit.{negations};
ghost use Rattle.gp_reason.specs.Cycles.{adds_nothing, cycle_by, events_of, forced_in};

use crate::vocabulary::Vocabulary;
use gp_base::Row;
use gp_certificate::Step;
use gp_clause::Lit;
use gp_cycle::{Order, cycle_events, cycle_of, forced};
use gp_window::EventId;
use std::alloc::{AllocError, Global};

/// What unit clauses force from the negation of the clause of a step, by those that its hints number.
pub(crate) fn forced_in(
    alloc: Global,
    vocabulary: &Vocabulary,
    number: usize,
    step: &Step,
) -> Result<Option<Row<Lit>>, AllocError>
    ensures { IfOk result (λ lits. lits ≡ forced_in vocabulary.now.clauses number step.now) }
{
    let start = negations(alloc, step.clause.lits())?;
    let clauses = vocabulary.hinted(alloc, number, step.hints.as_slice())?;
    forced(alloc, start.as_slice(), clauses.as_slice())
}

/// Whether what is forced from the negation of the clause of a step is that negation alone, and no clause became false.
pub(crate) fn adds_nothing(step: &Step, lits: &Option<Row<Lit>>) -> bool
    ensures { result ≡ adds_nothing (negations step.now.clause) lits.now }
{
    match lits {
        Some(lits) => lits.len() == step.clause.len(),
        None => false,
    }
}

/// The events of a cycle by which a step follows, from whose denial these literals are forced.
pub(crate) fn cycle_told(
    alloc: Global,
    vocabulary: &Vocabulary,
    lits: Option<Row<Lit>>,
) -> Result<Row<EventId>, AllocError>
    ensures { IfOk result (λ events. events ≡ cycle_by vocabulary.now.window vocabulary.now.names lits) }
{
    match lits {
        Some(lits) => cycle_by(alloc, vocabulary, lits.as_slice()),
        None => Ok(Row::new(alloc)),
    }
}

fn negations(alloc: Global, lits: &[Lit]) -> Result<Row<Lit>, AllocError>
    ensures { IfOk result (λ negated. negated ≡ negations lits.now) }
{
    let mut negated = Row::new(alloc);
    for lit in lits {
        negated.push(lit.negated())?;
    }
    Ok(negated)
}

/// The events of a cycle of the orders that literals say.
fn cycle_by(
    alloc: Global,
    vocabulary: &Vocabulary,
    lits: &[Lit],
) -> Result<Row<EventId>, AllocError>
    ensures { IfOk result (λ events. events ≡ cycle_by vocabulary.now.window vocabulary.now.names (Some lits.now)) }
{
    let orders = vocabulary.orders(alloc, lits)?;
    match cycle_of(alloc, orders.as_slice())? {
        Some(cycle) => cycle_events(alloc, cycle.as_slice()),
        None => Ok(Row::new(alloc)),
    }
}
