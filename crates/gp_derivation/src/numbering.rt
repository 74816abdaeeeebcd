ghost use Rattle.std.specs.Prelude.{◌≡◌, ℕ, ◌+◌, ◌-◌, ◌<◌, ◌^◌, ◌↔◌, IsTrue, Some, IfOk, All, AllPairs, slice_get};
ghost use Rattle.std.specs.List.{sum_by};
ghost use Rattle.gp_derivation.specs.Numbering.{AllNameEarlier, CanBeNumbered, NamesEarlier, HasNumber, IsNumbered, number_beside, renumbered, moved, with_hints, size_of};
ghost use Rattle.gp_derivation.specs.declared.log.LogEntry.{LogEntry};
ghost use Rattle.gp_certificate.specs.declared.step.Step.{Step};

use crate::log::{LogEntry, Origin};
use gp_base::Row;
use gp_certificate::Step;
use std::alloc::{AllocError, Global};

/// Whether `cone` may be called: each hint names a base clause or what comes before, each taken certificate has a step,
/// and all numbers are below 2^32.
pub fn can_be_numbered(base_clauses: u32, log: &[LogEntry], last: &Step) -> bool
    ensures { IsTrue result ↔ CanBeNumbered base_clauses log.now last.now }
{
    is_few(base_clauses, log)
        && each_names_earlier(base_clauses, log)
        && all_before(base_clauses, log.len(), last.hints.as_slice())
}

// Whether base clauses, the steps that the entries stand for and one more are fewer than 2^32.
fn is_few(base_clauses: u32, log: &[LogEntry]) -> bool
    ensures { IsTrue result ↔ (base_clauses + sum_by size_of log.now + 1 < 2 ^ 32) }
{
    let mut room = (u32::MAX - base_clauses) as usize;
    for entry in log {
        let size = size(entry);
        if size >= room {
            return false;
        }
        room -= size;
    }
    room > 0
}

// How many steps an entry stands for.
fn size(entry: &LogEntry) -> usize
    ensures { result ≡ size_of entry.now }
{
    match &entry.origin {
        Origin::Learned => 1,
        Origin::Taken { certificate, .. } => certificate.steps.len(),
    }
}

// Whether each entry names base clauses and what comes before.
fn each_names_earlier(base_clauses: u32, log: &[LogEntry]) -> bool
    ensures { IsTrue result ↔ AllNameEarlier base_clauses log.now }
{
    for (place, entry) in log.iter().enumerate() {
        if !names_earlier(base_clauses, place, entry) {
            return false;
        }
    }
    true
}

// Whether an entry at a place names base clauses and what comes before.
fn names_earlier(base_clauses: u32, place: usize, entry: &LogEntry) -> bool
    ensures { IsTrue result ↔ NamesEarlier base_clauses place entry.now.step entry.now.origin }
{
    match &entry.origin {
        Origin::Learned => all_before(base_clauses, place, entry.step.hints.as_slice()),
        Origin::Taken { certificate, .. } => {
            !certificate.steps.is_empty() && each_after(base_clauses, certificate.steps.as_slice())
        }
    }
}

// Whether each step names base clauses and steps before it.
fn each_after(base_clauses: u32, steps: &[Step]) -> bool
    ensures { IsTrue result ↔ ((k : ℕ) (own : Step) → slice_get steps.now k ≡ Some own → All (λ hint. hint < base_clauses + k) own.hints) }
{
    for (place, step) in steps.iter().enumerate() {
        if !all_before(base_clauses, place, step.hints.as_slice()) {
            return false;
        }
    }
    true
}

// Whether each hint names a base clause or one of so many others.
fn all_before(base_clauses: u32, others: usize, hints: &[u32]) -> bool
    ensures { IsTrue result ↔ All (λ hint. hint < base_clauses + others) hints.now }
{
    hints
        .iter()
        .all(|hint| is_before(base_clauses, others, *hint))
}

fn is_before(base_clauses: u32, others: usize, hint: u32) -> bool
    ensures { IsTrue result ↔ (hint < base_clauses + others) }
{
    hint < base_clauses || ((hint - base_clauses) as usize) < others
}

// The step whose hints to entries name the numbers that stand beside their places.
pub(crate) fn renumber(
    alloc: Global,
    base_clauses: u32,
    places: &[u32],
    numbers: &[u32],
    step: &Step,
) -> Result<Step, AllocError>
    requires rising { AllPairs (λ a b. a < b) places.now }
    requires numbered { All (IsNumbered base_clauses places.now numbers.now) step.now.hints }
    ensures { IfOk result (λ copy. copy ≡ with_hints (renumbered base_clauses (number_beside places.now numbers.now)) step.now) }
{
    let mut hints = Vec::new(alloc);
    for hint in step.hints.as_slice() {
        hints.push(number(base_clauses, places, numbers, *hint))?;
    }
    Ok(Step {
        clause: step.clause.clone()?,
        hints: Row::from_vec(hints),
    })
}

// The hint to what has this number.
fn number(base_clauses: u32, places: &[u32], numbers: &[u32], hint: u32) -> u32
    requires rising { AllPairs (λ a b. a < b) places.now }
    requires numbered { IsNumbered base_clauses places.now numbers.now hint }
    ensures { result ≡ renumbered base_clauses (number_beside places.now numbers.now) hint }
{
    if hint < base_clauses {
        hint
    } else {
        number_of_place(places, numbers, hint - base_clauses)
    }
}

// The number beside a place.
fn number_of_place(places: &[u32], numbers: &[u32], place: u32) -> u32
    requires rising { AllPairs (λ a b. a < b) places.now }
    requires there { HasNumber places.now numbers.now place }
    ensures { result ≡ number_beside places.now numbers.now place }
{
    let at = places.binary_search(&place).unwrap();
    numbers[at]
}

// The step whose hints to steps name those that come so many later.
pub(crate) fn moved_step(
    alloc: Global,
    base_clauses: u32,
    by: u32,
    step: &Step,
) -> Result<Step, AllocError>
    requires { All (λ hint. hint + by < 2 ^ 32) step.now.hints }
    ensures { IfOk result (λ copy. copy ≡ with_hints (moved base_clauses by) step.now) }
{
    let mut hints = Vec::new(alloc);
    for hint in step.hints.as_slice() {
        hints.push(later(base_clauses, by, *hint))?;
    }
    Ok(Step {
        clause: step.clause.clone()?,
        hints: Row::from_vec(hints),
    })
}

// The hint to the step that comes so many later.
fn later(base_clauses: u32, by: u32, hint: u32) -> u32
    requires { hint + by < 2 ^ 32 }
    ensures { result ≡ moved base_clauses by hint }
{
    if hint < base_clauses { hint } else { hint + by }
}

// The number of the last of so many steps.
pub(crate) fn last_number(base_clauses: u32, steps: usize) -> u32
    requires { base_clauses + steps < 2 ^ 32 }
    ensures { result ≡ (base_clauses + steps) - 1 }
{
    (base_clauses + steps as u32).saturating_sub(1)
}
