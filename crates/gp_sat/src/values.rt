ghost use Rattle.std.specs.Prelude.{◌≡◌, ◌+◌, ◌<◌, ◌≤◌, ◌++◌, None, Some, length, option_map, replicate, slice_index_or, slice_set, take, vec_len, vec_capacity, IfOk, OnOk, OnErr};
ghost use Rattle.gp_sat.specs.Truths.{known, truth_if};
ghost use Rattle.gp_sat.specs.declared.values.Truth.TheVariants.{Unknown};

use crate::assigned::Assigned;
use std::alloc::{AllocError, Global};
use std::marker::Model;

/// The truth of a variable, if it is known. In one byte, since propagation waits for it.
#[derive(Clone, Copy, PartialEq, Eq, Drop)]
pub enum Truth {
    False,
    True,
    Unknown,
}

/// The assignment of each variable. The truth of a variable, which propagation reads at every literal, stands in a row of
/// bytes beside it.
#[derive(Drop)]
pub(crate) struct Values {
    assigned: Vec<Option<Assigned>>,
    truths: Vec<Truth>,
}

impl Model for Values {
    ghost use Rattle.std.specs.Prelude.{List, Option};
    ghost use Rattle.gp_sat.specs.declared.assigned.Assigned.{Assigned};
    ghost use Rattle.gp_sat.specs.Truths.{AreTruths};

    ghost Value = { List (Option Assigned) };

    ghost view = { λ v. v.assigned.items };

    ghost invariant = { λ v. AreTruths v.truths.items v.assigned.items };
}

impl Values {
    pub(crate) fn new(alloc: Global, count: usize) -> Result<Values, AllocError>
        ensures { IfOk result (λ values. values ≡ replicate count None) }
    {
        let mut values = Values {
            assigned: Vec::new(alloc),
            truths: Vec::new(alloc),
        };
        values.grow(count)?;
        Ok(values)
    }

    pub(crate) fn len(&self) -> usize
        ensures { result ≡ length self.now }
    {
        self.assigned.len()
    }

    /// Adds unassigned variables. After want of memory nothing changed.
    pub(crate) fn grow(&mut self, added: usize) -> Result<(), AllocError>
        ensures ok { OnOk result (self.new ≡ self.old ++ replicate added None) }
        ensures err { OnErr result (self.new ≡ self.old) }
    {
        self.assigned.reserve(added)?;
        self.truths.reserve(added)?;
        add_free(&mut self.assigned, &mut self.truths, added);
        Ok(())
    }

    /// Leaves the first variables.
    pub(crate) fn truncate(&mut self, count: usize)
        ensures { self.new ≡ take count self.old }
    {
        self.assigned.truncate(count);
        self.truths.truncate(count);
    }

    /// The assignment of a variable, None also where there is no such variable.
    pub(crate) fn get(&self, variable: u32) -> Option<Assigned>
        ensures { result ≡ slice_index_or self.now variable None }
    {
        match self.assigned.get(variable as usize) {
            Some(value) => *value,
            None => None,
        }
    }

    /// The truth of a variable, None also where there is no such variable.
    #[tactic(auto, using(crate::proofs::Truths::truth_read))]
    pub(crate) fn truth(&self, variable: u32) -> Option<bool>
        ensures { result ≡ option_map (λ a. a.positive) (slice_index_or self.now variable None) }
    {
        match self.truths.get(variable as usize) {
            Some(truth) => truth.known(),
            None => None,
        }
    }

    pub(crate) fn set(&mut self, variable: u32, assigned: Assigned)
        requires { variable < length self.old }
        ensures { self.new ≡ slice_set self.old variable (Some assigned) }
    {
        self.assigned[variable as usize] = Some(assigned);
        self.truths[variable as usize] = Truth::of(assigned.positive);
    }

    pub(crate) fn unset(&mut self, variable: u32)
        requires { variable < length self.old }
        ensures { self.new ≡ slice_set self.old variable None }
    {
        self.assigned[variable as usize] = None;
        self.truths[variable as usize] = Truth::Unknown;
    }
}

impl Truth {
    fn of(positive: bool) -> Truth
        ensures { result ≡ truth_if positive }
    {
        if positive { Truth::True } else { Truth::False }
    }

    fn known(self) -> Option<bool>
        ensures { result ≡ known self }
    {
        match self {
            Truth::False => Some(false),
            Truth::True => Some(true),
            Truth::Unknown => None,
        }
    }
}

// Adds unassigned variables, for which there is room.
fn add_free(assigned: &mut Vec<Option<Assigned>>, truths: &mut Vec<Truth>, count: usize)
    requires assigned { vec_len assigned.old + count ≤ vec_capacity assigned.old }
    requires truths { vec_len truths.old + count ≤ vec_capacity truths.old }
    ensures assigned { assigned.new.items ≡ assigned.old.items ++ replicate count None }
    ensures truths { truths.new.items ≡ truths.old.items ++ replicate count Unknown }
{
    for _ in 0..count {
        assigned.push_reserved(None);
        truths.push_reserved(Truth::Unknown);
    }
}
