ghost use Rattle.std.specs.Prelude.{◌≡◌, ℕ, ◌+◌, ◌-◌, ◌<◌, ◌^◌, [], ◌∷◌, ◌++◌, Some, length, map, IfOk, OnOk, All, AllPairs, slice_get};
ghost use Rattle.gp_derivation.specs.Cones.{IsCone, ConeChecks, ConeIsThere, ConeIsUnique, ConeOfStays, ConeStays, cone_step, steps_given};
ghost use Rattle.gp_derivation.specs.Numbering.{CanBeNumbered, IsNumberable, IsNumbered, number_beside, moved, with_hints, size_of};
ghost use Rattle.gp_derivation.specs.Reach.{AreReached};
ghost use Rattle.gp_certificate.specs.declared.step.Step.{Step};

use crate::log::{LogEntry, Origin};
use crate::numbering::{last_number, moved_step, renumber};
use crate::reach::reached;
use gp_base::Row;
use gp_certificate::{Certificate, Step};
use std::alloc::{AllocError, Global};

/// The steps on which `last` rests, each once and in the order of the log, and `last` itself at the end. The steps of a
/// taken entry's certificate stand for the entry, and a hint to it becomes one to the last of them. A learned step without
/// hints, and so `last`, gets the one hint 0 where there is a base clause: it passes with it as it does with none, and only
/// a certificate each of whose steps has a hint can be moved to a list that others share. Besides what these
/// steps hold it costs a logarithm for each of their hints, and nothing for the rest of the log.
pub fn cone(
    alloc: Global,
    base_clauses: u32,
    log: &[LogEntry],
    last: &Step,
) -> Result<Certificate, AllocError>
    requires { CanBeNumbered base_clauses log.now last.now }
    ensures { IfOk result (IsCone base_clauses log.now last.now) }
{
    let places = reached(alloc, base_clauses, log, last.hints.as_slice())?;
    cone_over(alloc, base_clauses, log, places.as_slice(), last)
}

// The same by the places of the entries on which the step rests.
pub(crate) fn cone_over(
    alloc: Global,
    base_clauses: u32,
    log: &[LogEntry],
    places: &[u32],
    last: &Step,
) -> Result<Certificate, AllocError>
    requires numbered { CanBeNumbered base_clauses log.now last.now }
    requires reached { AreReached base_clauses log.now last.now.hints places.now }
    ensures { IfOk result (IsCone base_clauses log.now last.now) }
{
    let mut draft = Draft {
        steps: Row::new(alloc),
        numbers: Row::new(alloc),
    };
    for place in places {
        draft.pass(alloc, base_clauses, places, &log[*place as usize])?;
    }
    let Draft { mut steps, numbers } = draft;
    let step = learned_step(alloc, base_clauses, places, numbers.as_slice(), last)?;
    steps.push(step)?;
    Ok(Certificate { steps })
}

/// A law: the cone of a step that passes at the end of a log whose entries pass is a certificate that checks.
pub fn cone_checks()
    ensures { ConeChecks }
{}

/// A law: a step that can be numbered has a cone.
pub fn cone_is_there()
    ensures { ConeIsThere }
{}

/// A law: a step has one cone at most.
pub fn cone_is_unique()
    ensures { ConeIsUnique }
{}

/// A law: the cone of a step stays the same when the log grows.
pub fn cone_stays()
    ensures { ConeStays }
{}

/// A law: the same of the cone as a function of the log.
pub fn cone_of_stays()
    ensures { ConeOfStays }
{}

// The steps of a cone so far, and the number of the last step of each entry that was passed.
#[derive(Drop)]
struct Draft {
    steps: Row<Step>,
    numbers: Row<u32>,
}

impl Draft {
    // Goes past the next entry of those at some places, and adds the steps that it stands for.
    fn pass(
        &mut self,
        alloc: Global,
        base_clauses: u32,
        places: &[u32],
        entry: &LogEntry,
    ) -> Result<(), AllocError>
        requires rising { AllPairs (λ a b. a < b) places.now }
        requires numbered { IsNumberable base_clauses places.now self.old.numbers entry.now.step entry.now.origin }
        requires few { base_clauses + length self.old.steps + size_of entry.now < 2 ^ 32 }
        ensures steps { OnOk result (self.new.steps ≡ self.old.steps ++ steps_given base_clauses (number_beside places.now self.old.numbers) (length self.old.steps) entry.now.step entry.now.origin) }
        ensures numbers { OnOk result (self.new.numbers ≡ self.old.numbers ++ ((base_clauses + length self.new.steps) - 1) ∷ []) }
    {
        let numbers = self.numbers.as_slice();
        add(alloc, base_clauses, &mut self.steps, places, numbers, entry)?;
        self.numbers
            .push(last_number(base_clauses, self.steps.len()))?;
        Ok(())
    }
}

// Adds the steps that an entry stands for.
fn add(
    alloc: Global,
    base_clauses: u32,
    steps: &mut Row<Step>,
    places: &[u32],
    numbers: &[u32],
    entry: &LogEntry,
) -> Result<(), AllocError>
    requires rising { AllPairs (λ a b. a < b) places.now }
    requires numbered { IsNumberable base_clauses places.now numbers.now entry.now.step entry.now.origin }
    requires few { base_clauses + length steps.old + size_of entry.now < 2 ^ 32 }
    ensures { OnOk result (steps.new ≡ steps.old ++ steps_given base_clauses (number_beside places.now numbers.now) (length steps.old) entry.now.step entry.now.origin) }
{
    match &entry.origin {
        Origin::Learned => {
            let step = learned_step(alloc, base_clauses, places, numbers, &entry.step)?;
            steps.push(step)
        }
        Origin::Taken { certificate, .. } => {
            add_moved(alloc, base_clauses, steps, certificate.steps.as_slice())
        }
    }
}

// What a learned step is in a cone.
fn learned_step(
    alloc: Global,
    base_clauses: u32,
    places: &[u32],
    numbers: &[u32],
    step: &Step,
) -> Result<Step, AllocError>
    requires rising { AllPairs (λ a b. a < b) places.now }
    requires numbered { All (IsNumbered base_clauses places.now numbers.now) step.now.hints }
    ensures { IfOk result (λ copy. copy ≡ cone_step base_clauses (number_beside places.now numbers.now) step.now) }
{
    if base_clauses > 0 && step.hints.is_empty() {
        return on_first_base(alloc, step);
    }
    renumber(alloc, base_clauses, places, numbers, step)
}

// The step with the first base clause as its one hint.
fn on_first_base(alloc: Global, step: &Step) -> Result<Step, AllocError>
    ensures { IfOk result (λ copy. copy ≡ record { clause = step.now.clause; hints = 0 ∷ [] }) }
{
    let mut hints = Row::new(alloc);
    hints.push(0)?;
    Ok(Step {
        clause: step.clause.clone()?,
        hints,
    })
}

// Adds steps whose hints name base clauses and earlier ones of them.
fn add_moved(
    alloc: Global,
    base_clauses: u32,
    steps: &mut Row<Step>,
    added: &[Step],
) -> Result<(), AllocError>
    requires named { (k : ℕ) (own : Step) → slice_get added.now k ≡ Some own → All (λ hint. hint < base_clauses + k) own.hints }
    requires few { base_clauses + length steps.old + length added.now < 2 ^ 32 }
    ensures { OnOk result (steps.new ≡ steps.old ++ map (with_hints (moved base_clauses (length steps.old))) added.now) }
{
    let by = steps.len() as u32;
    for step in added {
        steps.push(moved_step(alloc, base_clauses, by, step)?)?;
    }
    Ok(())
}
