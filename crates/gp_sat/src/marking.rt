ghost use Rattle.std.specs.Prelude.{◌≡◌, ◌+◌, ◌≤◌, ◌<◌, ℕ, false, length, IfOk, OnOk, slice_index, slice_index_or, vec_capacity, vec_len};
ghost use Rattle.std.specs.BinaryHeap.{heap_items};
ghost use Rattle.gp_sat.specs.Marking.{IsMarked};
ghost use Rattle.gp_sat.specs.Queueing.{AreClear, AreListed, IsAdded};

use std::alloc::{AllocError, Global};
use std::collections::BinaryHeap;

/// What an analysis marks. A solver keeps it from one analysis to the next, and between them no variable is marked.
#[derive(Drop)]
pub(crate) struct Marking {
    // Whether each variable is marked.
    pub(crate) marks: Vec<bool>,
    // The marked variables.
    pub(crate) marked: Vec<u32>,
    // The places of the marked literals that a walk has still to visit.
    pub(crate) places: BinaryHeap<u32>,
}

impl Marking {
    pub(crate) fn new(alloc: Global, variables: u32) -> Result<Marking, AllocError>
        ensures { IfOk result (AreClear variables) }
    {
        let count = variables as usize;
        let mut marks = Vec::with_capacity(alloc, count)?;
        add_unmarked(&mut marks, count);
        Ok(Marking {
            marks,
            marked: Vec::new(alloc),
            places: BinaryHeap::new(alloc),
        })
    }

    /// Room for the marks of so many variables.
    pub(crate) fn reserve(&mut self, variables: usize) -> Result<(), AllocError>
        requires { length self.old.marks.items ≤ variables }
        ensures clear { (count : ℕ) → AreClear count self.old → AreClear count self.new }
        ensures room { OnOk result (variables ≤ vec_capacity self.new.marks) }
    {
        self.marks.reserve(variables - self.marks.len())
    }

    /// The variables are then the numbers below `variables`.
    pub(crate) fn widen(&mut self, variables: usize)
        requires longer { length self.old.marks.items ≤ variables }
        requires room { variables ≤ vec_capacity self.old.marks }
        ensures { (count : ℕ) → AreClear count self.old → AreClear variables self.new }
    {
        let added = variables - self.marks.len();
        add_unmarked(&mut self.marks, added);
    }

    /// Marks a variable that was assigned at a place of the trail, unless it is marked.
    pub(crate) fn add(&mut self, variable: u32, place: u32) -> Result<(), AllocError>
        requires within { variable < length self.old.marks.items }
        requires listed { AreListed self.old.marks.items self.old.marked.items }
        ensures listed { AreListed self.new.marks.items self.new.marked.items }
        ensures size { length self.new.marks.items ≡ length self.old.marks.items }
        ensures added { OnOk result (IsAdded self.old.marks.items self.new.marks.items (heap_items self.old.places) (heap_items self.new.places) variable place) }
    {
        if is_marked(self.marks.as_slice(), variable) {
            return Ok(());
        }
        self.marked.push(variable)?;
        self.places.push(place)?;
        self.marks[variable as usize] = true;
        Ok(())
    }

    /// Takes back every mark.
    pub(crate) fn clear(&mut self)
        requires { AreListed self.old.marks.items self.old.marked.items }
        ensures { AreClear (length self.old.marks.items) self.new }
    {
        unmark_all(self.marks.as_mut_slice(), self.marked.as_slice());
        self.marked.clear();
        self.places.clear();
    }
}

// Whether a variable is marked.
fn is_marked(marks: &[bool], variable: u32) -> bool
    ensures { result ≡ slice_index_or marks.now variable false }
{
    match marks.get(variable as usize) {
        Some(mark) => *mark,
        None => false,
    }
}

// Takes back the marks of variables.
fn unmark_all(marks: &mut [bool], variables: &[u32])
    requires { (k : ℕ) → k < length variables.now → slice_index variables.now k < length marks.old }
    ensures size { length marks.new ≡ length marks.old }
    ensures gone { (k : ℕ) → k < length variables.now → IsMarked marks.new (slice_index variables.now k) → ⊥ }
    ensures kept { (variable : ℕ) → IsMarked marks.new variable → IsMarked marks.old variable }
{
    for variable in variables {
        marks[*variable as usize] = false;
    }
}

// Adds variables that are not marked, for which there is room.
fn add_unmarked(marks: &mut Vec<bool>, count: usize)
    requires { vec_len marks.old + count ≤ vec_capacity marks.old }
    ensures size { length marks.new.items ≡ length marks.old.items + count }
    ensures only { (variable : ℕ) → IsMarked marks.new.items variable → IsMarked marks.old.items variable }
{
    for _ in 0..count {
        let _ = marks.push(false);
    }
}
