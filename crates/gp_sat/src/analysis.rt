ghost use Rattle.std.specs.Prelude.{◌≡◌, ℕ, ◌+◌, ◌<◌, ◌≤◌, ◌↔◌, length, IsTrue, IfOk, OnOk, MatchOption, List, [], ◌∷◌};
ghost use Rattle.std.specs.BinaryHeap.{heap_items};
ghost use Rattle.gp_sat.specs.State.{assigned};
ghost use Rattle.gp_sat.specs.Standing.{IsFalse, Each};
ghost use Rattle.gp_sat.specs.Sound.{IsSound};
ghost use Rattle.gp_sat.specs.Changes.{HasPresent};
ghost use Rattle.gp_sat.specs.Learning.{IsFirstPoint, IsFinal, IsHighestBelow};
ghost use Rattle.gp_sat.specs.Queueing.{AreClear, AreListed, AreQueued, IsMarkedAt, IsAssigned, IsMarkedOrBefore};
ghost use Rattle.gp_sat.specs.Marking.{IsMarked, HasMarked, IsLower, IsLowestOf, IsLowest, Stops, FollowsReason, Marks};
ghost use Rattle.gp_sat.specs.Walking.{IsWalked, IsSearched, IsWalkedDown};

use crate::kernel::Kernel;
use crate::marking::Marking;
use gp_base::Row;
use gp_clause::{Clause, Lit};
use std::alloc::AllocError;

/// A clause that follows from a conflict and the clauses whose numbers are its hints, and the level to jump back to.
#[derive(Drop)]
pub struct Learned {
    pub clause: Clause,
    pub hints: Row<u32>,
    pub level: u32,
}

// Where an analysis stops at a literal and does not replace it by its reason: at each decision, or below the present level
// and at the first unique implication point.
#[derive(Clone, Copy, PartialEq, Eq)]
pub(crate) enum Stop {
    Decisions,
    FirstPoint,
}

// What a walk has found: the literals at which it stopped, and the clauses that it followed.
#[derive(Drop)]
pub(crate) struct Walk {
    pub(crate) lits: Vec<Lit>,
    pub(crate) hints: Vec<u32>,
    // The least place of a marked literal of the present level.
    pub(crate) lowest: usize,
}

impl Kernel {
    /// The first unique implication point: the clause has one literal of the present level, and `level` is the highest one
    /// of its others.
    pub fn analyse(&self, conflict: &[Lit], marking: &mut Marking) -> Result<Learned, AllocError>
        requires above { 0 < self.now.level }
        requires conflict { Each (IsFalse (assigned self.now)) conflict.now }
        requires present { HasPresent self.now conflict.now }
        requires clear { AreClear (length self.now.values) marking.old }
        ensures learned { IfOk result (IsFirstPoint self.now conflict.now) }
        ensures clear { AreClear (length self.now.values) marking.new }
    {
        let Walk { lits, hints, .. } = self.walk(conflict, Stop::FirstPoint, marking)?;
        let level = self.highest_below(lits.as_slice());
        Ok(Learned {
            clause: Clause::of(lits).unwrap(),
            hints: Row::from_vec(hints),
            level,
        })
    }

    /// The clause has negated decisions alone.
    pub fn analyse_final(
        &self,
        conflict: &[Lit],
        marking: &mut Marking,
    ) -> Result<Learned, AllocError>
        requires conflict { Each (IsFalse (assigned self.now)) conflict.now }
        requires clear { AreClear (length self.now.values) marking.old }
        ensures learned { IfOk result (IsFinal self.now conflict.now) }
        ensures clear { AreClear (length self.now.values) marking.new }
    {
        let Walk { lits, hints, .. } = self.walk(conflict, Stop::Decisions, marking)?;
        Ok(Learned {
            clause: Clause::of(lits).unwrap(),
            hints: Row::from_vec(hints),
            level: 0,
        })
    }

    // Walks down the trail from the literals of a conflict, and takes back the marks.
    fn walk(&self, conflict: &[Lit], stop: Stop, marking: &mut Marking) -> Result<Walk, AllocError>
        requires conflict { Each (IsFalse (assigned self.now)) conflict.now }
        requires present { stop ≡ Stop.FirstPoint → (0 < self.now.level) × HasPresent self.now conflict.now }
        requires clear { AreClear (length self.now.values) marking.old }
        ensures walked { IfOk result (λ walk. IsWalkedDown self.now conflict.now stop walk.lits.items walk.hints.items) }
        ensures sound { IsSound self.now }
        ensures clear { AreClear (length self.now.values) marking.new }
    {
        let found = self.walk_down(conflict, stop, marking);
        marking.clear();
        found
    }

    // Visits the marked literals of the trail, the last one first, and marks those that it comes to.
    fn walk_down(
        &self,
        conflict: &[Lit],
        stop: Stop,
        marking: &mut Marking,
    ) -> Result<Walk, AllocError>
        requires conflict { Each (IsFalse (assigned self.now)) conflict.now }
        requires present { stop ≡ Stop.FirstPoint → (0 < self.now.level) × HasPresent self.now conflict.now }
        requires clear { AreClear (length self.now.values) marking.old }
        ensures walked { IfOk result (λ walk. IsWalkedDown self.now conflict.now stop walk.lits.items walk.hints.items) }
        ensures sound { IsSound self.now }
        ensures listed { AreListed marking.new.marks.items marking.new.marked.items }
        ensures size { length marking.new.marks.items ≡ length self.now.values }
    {
        let alloc = *self.trail.allocator();
        self.mark_all(conflict, marking)?;
        let mut place = self.trail.len();
        let mut walk = Walk {
            lits: Vec::new(alloc),
            hints: Vec::new(alloc),
            lowest: self.lowest_of(conflict, place),
        };
        while let Some(next) = marking.places.pop() {
            place = next as usize;
            self.visit(place, stop, marking, &mut walk)?;
        }
        Ok(walk)
    }

    // Visits a marked literal of the trail: stops at it, or follows its reason.
    fn visit(
        &self,
        place: usize,
        stop: Stop,
        marking: &mut Marking,
        walk: &mut Walk,
    ) -> Result<(), AllocError>
        requires within { place < length self.now.trail }
        requires present { stop ≡ Stop.FirstPoint → 0 < self.now.level }
        requires marked { IsMarkedAt self.now marking.old.marks.items place }
        requires listed { AreListed marking.old.marks.items marking.old.marked.items }
        requires walked { IsWalked self.now stop (place + 1) marking.old.marks.items walk.old.lits.items walk.old.hints.items }
        requires lowest { IsLowest self.now marking.old.marks.items walk.old.lowest }
        requires queued { AreQueued self.now place marking.old.marks.items (heap_items marking.old.places) }
        ensures listed { AreListed marking.new.marks.items marking.new.marked.items }
        ensures size { length marking.new.marks.items ≡ length self.now.values }
        ensures walked { OnOk result (IsWalked self.now stop place marking.new.marks.items walk.new.lits.items walk.new.hints.items) }
        ensures lowest { OnOk result (IsLowest self.now marking.new.marks.items walk.new.lowest) }
        ensures queued { OnOk result (AreQueued self.now place marking.new.marks.items (heap_items marking.new.places)) }
        ensures searched { OnOk result (stop ≡ Stop.FirstPoint → (conflict : List Lit) → IsSearched self.now conflict (place + 1) marking.old.marks.items walk.old.lits.items → IsSearched self.now conflict place marking.new.marks.items walk.new.lits.items) }
        ensures kept { OnOk result ((variable : ℕ) → IsMarked marking.old.marks.items variable → IsMarked marking.new.marks.items variable) }
    {
        let lit = self.trail[place];
        match self.follow(marking.marks.as_slice(), walk.lowest, place, stop) {
            None => walk.lits.push(lit.negated())?,
            Some(number) => {
                walk.hints.push(number)?;
                let lits = self.clauses.lits(number as usize);
                self.mark_all(lits, marking)?;
                walk.lowest = self.lowest_of(lits, walk.lowest);
            }
        }
        Ok(())
    }

    // Marks the variables of literals, and queues their places.
    fn mark_all(&self, lits: &[Lit], marking: &mut Marking) -> Result<(), AllocError>
        requires assigned { Each (IsAssigned self.now) lits.now }
        requires listed { AreListed marking.old.marks.items marking.old.marked.items }
        requires size { length marking.old.marks.items ≡ length self.now.values }
        ensures listed { AreListed marking.new.marks.items marking.new.marked.items }
        ensures size { length marking.new.marks.items ≡ length self.now.values }
        ensures marked { OnOk result (Marks marking.old.marks.items marking.new.marks.items lits.now) }
        ensures queued { OnOk result ((bound : ℕ) → Each (IsMarkedOrBefore self.now bound marking.old.marks.items) lits.now
            → AreQueued self.now bound marking.old.marks.items (heap_items marking.old.places) → AreQueued self.now bound marking.new.marks.items (heap_items marking.new.places)) }
    {
        for lit in lits {
            self.mark(*lit, marking)?;
        }
        Ok(())
    }

    // Marks the variable of a literal, and queues its place.
    fn mark(&self, lit: Lit, marking: &mut Marking) -> Result<(), AllocError>
        requires assigned { IsAssigned self.now lit }
        requires listed { AreListed marking.old.marks.items marking.old.marked.items }
        requires size { length marking.old.marks.items ≡ length self.now.values }
        ensures listed { AreListed marking.new.marks.items marking.new.marked.items }
        ensures size { length marking.new.marks.items ≡ length self.now.values }
        ensures marked { OnOk result (Marks marking.old.marks.items marking.new.marks.items (lit ∷ [])) }
        ensures queued { OnOk result ((bound : ℕ) → IsMarkedOrBefore self.now bound marking.old.marks.items lit
            → AreQueued self.now bound marking.old.marks.items (heap_items marking.old.places) → AreQueued self.now bound marking.new.marks.items (heap_items marking.new.places)) }
    {
        match self.values.get(lit.variable) {
            Some(a) => marking.add(lit.variable, a.place),
            None => Ok(()),
        }
    }

    // The reason of a marked literal, unless the walk stops there.
    fn follow(&self, marks: &[bool], lowest: usize, place: usize, stop: Stop) -> Option<u32>
        requires within { place < length self.now.trail }
        requires lowest { IsLowest self.now marks.now lowest }
        ensures { MatchOption result (Stops self.now stop marks.now place) (FollowsReason self.now stop marks.now place) }
    {
        let lit = self.trail[place];
        let a = self.values.get(lit.variable)?;
        match stop {
            Stop::Decisions => a.reason,
            Stop::FirstPoint => {
                if a.level == 0 || a.level == self.level && self.has_marked(marks, lowest, place) {
                    a.reason
                } else {
                    None
                }
            }
        }
    }

    // Whether a marked literal of the present level stands before a place of the trail.
    fn has_marked(&self, marks: &[bool], lowest: usize, place: usize) -> bool
        requires within { place ≤ length self.now.trail }
        requires lowest { IsLowest self.now marks.now lowest }
        ensures { IsTrue result ↔ HasMarked self.now marks.now place }
    {
        lowest < place
    }

    // The lower one of a place and that of a literal, if this is of the present level.
    fn lower(&self, lit: Lit, lowest: usize) -> usize
        ensures { IsLower self.now lit lowest result }
    {
        match self.values.get(lit.variable) {
            Some(a) => {
                let place = a.place as usize;
                if a.level == self.level && place < lowest {
                    place
                } else {
                    lowest
                }
            }
            None => lowest,
        }
    }

    // The least one of a place and those of the literals of the present level.
    fn lowest_of(&self, lits: &[Lit], lowest: usize) -> usize
        ensures { IsLowestOf self.now lits.now lowest result }
    {
        let mut least = lowest;
        for lit in lits {
            least = self.lower(*lit, least);
        }
        least
    }

    // The highest level below the present one of the literals, or 0.
    fn highest_below(&self, lits: &[Lit]) -> u32
        ensures { IsHighestBelow self.now lits.now result }
    {
        let mut level = 0;
        for lit in lits {
            if let Some(a) = self.values.get(lit.variable) {
                if level < a.level && a.level < self.level {
                    level = a.level;
                }
            }
        }
        level
    }
}
