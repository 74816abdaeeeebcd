ghost use Rattle.std.specs.Prelude.{◌≡◌, [], ◌∷◌, ◌++◌, ◌<◌, ◌^◌, IfOk, List, OnErr, OnOk, length, position, Some};
ghost use Rattle.gp_certificate.specs.declared.step.Step.{Step};
ghost use Rattle.gp_sharing.specs.Keys.{HasFirsts, IsKeyOf};
ghost use Rattle.gp_sharing.specs.Moving.{step_eq, with_step};

use gp_base::Row;
use gp_certificate::Step;
use gp_clause::Lit;
use std::alloc::{AllocError, Global};
use std::collections::HashMap;
use std::marker::Model;

// What a step says, by which it is found.
#[derive(PartialEq, Eq, Hash, Drop)]
struct StepKey {
    lits: Vec<Lit>,
    hints: Vec<u32>,
}

/// The shared steps of a window. The first place of a step is found by its hash.
#[derive(Drop)]
pub struct SharedList {
    steps: Vec<Step>,
    firsts: HashMap<StepKey, u32>,
}

impl Model for SharedList {
    ghost use Rattle.std.specs.Prelude.{List};
    ghost use Rattle.gp_certificate.specs.declared.step.Step.{Step};
    ghost use Rattle.gp_sharing.specs.Keys.{HasFirsts};

    ghost Value = { List Step };

    ghost view = { λ list. list.steps.items };

    ghost invariant = { λ list. HasFirsts list.firsts.entries list.steps.items };
}

impl SharedList {
    /// A list of the steps that are shared from the start, with all of them, whether or not some are equal.
    pub fn of(alloc: Global, steps: Row<Step>) -> Result<SharedList, AllocError>
        requires { length steps < 2 ^ 32 }
        ensures { IfOk result (λ list. list ≡ steps) }
    {
        let mut list = SharedList::new(alloc);
        for step in steps.into_vec() {
            list.push(alloc, step)?;
        }
        Ok(list)
    }

    fn new(alloc: Global) -> SharedList
        ensures { result ≡ [] }
    {
        SharedList {
            steps: Vec::new(alloc),
            firsts: HashMap::new(alloc),
        }
    }

    pub fn len(&self) -> usize
        ensures { result ≡ length self.now }
    {
        self.steps.len()
    }

    pub fn as_slice(&self) -> &[Step]
        ensures { result.now ≡ self.now }
    {
        self.steps.as_slice()
    }

    pub fn into_row(self) -> Row<Step>
        ensures { result ≡ self }
    {
        let SharedList { steps, .. } = self;
        Row::from_vec(steps)
    }

    // The first place of a step that is equal to this one.
    pub(crate) fn first_place(&self, alloc: Global, step: &Step) -> Result<Option<u32>, AllocError>
        ensures { IfOk result (λ place. place ≡ position (step_eq step.now) self.now) }
    {
        let key = key_of(alloc, step)?;
        Ok(self.firsts.get(&key).copied())
    }

    // Puts a step at the end, whether or not an equal one stands in the list.
    fn push(&mut self, alloc: Global, step: Step) -> Result<(), AllocError>
        requires { length self.old < 2 ^ 32 }
        ensures { OnOk result (self.new ≡ self.old ++ step ∷ []) }
    {
        let key = key_of(alloc, &step)?;
        self.steps.reserve(1)?;
        put_first(&mut self.firsts, key, self.steps.len() as u32)?;
        self.steps.push_reserved(step);
        Ok(())
    }

    // Puts a step at the end, unless an equal one stands in the list. Its first place.
    pub(crate) fn add(&mut self, alloc: Global, step: Step) -> Result<u32, AllocError>
        requires { length self.old < 2 ^ 32 }
        ensures list { OnOk result (self.new ≡ with_step self.old step) }
        ensures place { IfOk result (λ place. position (step_eq step) self.new ≡ Some place) }
    {
        match self.first_place(alloc, &step)? {
            Some(first) => Ok(first),
            None => {
                let place = self.steps.len() as u32;
                self.push(alloc, step)?;
                Ok(place)
            }
        }
    }
}

// Puts the place of a step at the end of a list into the table of the list, unless an equal one stands there.
fn put_first(firsts: &mut HashMap<StepKey, u32>, key: StepKey, place: u32) -> Result<(), AllocError>
    ensures ok { OnOk result ((step : Step) (steps : List Step) → IsKeyOf step key → length steps ≡ place → HasFirsts firsts.old.entries steps → HasFirsts firsts.new.entries (steps ++ step ∷ [])) }
    ensures err { OnErr result (firsts.new.entries ≡ firsts.old.entries) }
{
    match firsts.get(&key).copied() {
        Some(_first) => Ok(()),
        None => {
            firsts.insert(key, place)?;
            Ok(())
        }
    }
}

fn key_of(alloc: Global, step: &Step) -> Result<StepKey, AllocError>
    ensures { IfOk result (λ key. IsKeyOf step.now key) }
{
    Ok(StepKey {
        lits: Vec::from_slice(alloc, step.clause.lits())?,
        hints: Vec::from_slice(alloc, step.hints.as_slice())?,
    })
}
