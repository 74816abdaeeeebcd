ghost use Rattle.std.specs.Prelude.{◌≡◌, ◌≢◌, ℕ, ◌+◌, ◌<◌, ◌≤◌, ◌^◌, None, Some, length, option_map, OnOk, OnErr, IfOk, IfSome, MatchBool, MatchOption, [], ◌∷◌, ◌++◌, replicate, slice_set, slice_index_or, vec_len, vec_capacity};
ghost use Rattle.gp_clause.specs.declared.lit.Lit.{Lit};
ghost use Rattle.gp_clause.specs.Clause.{IsRising, NamesBelow};
ghost use Rattle.gp_queue.specs.Order.{moved_to_front};
ghost use Rattle.gp_sat.specs.State.{assigned, blank, grown, with_clause, without_clause, cleared, with_literal, clause_at};
ghost use Rattle.gp_sat.specs.Standing.{IsClosed};
ghost use Rattle.gp_sat.specs.Sound.{IsSound};
ghost use Rattle.gp_sat.specs.Changes.{MayAttach, Backjumps};
ghost use Rattle.gp_sat.specs.Levels.{IsEndOf};
ghost use Rattle.gp_sat.specs.Deciding.{IsPlaced, IsPassed, IsNextFree, IsFull};

use crate::assigned::Assigned;
use crate::store::Store;
use crate::values::Values;
use gp_clause::{Clause, Lit};
use gp_queue::LinkQueue;
use std::alloc::{AllocError, Global};
use std::marker::Model;

/// A solver without its watches. Variables are the numbers below `variables`, and clauses have the numbers 0, 1, 2 and so
/// on in the order of `attach`.
#[derive(Drop)]
pub(crate) struct Kernel {
    pub(crate) values: Values,
    pub(crate) trail: Vec<Lit>,
    pub(crate) clauses: Store,
    pub(crate) level: u32,
    // Where each level above 0 begins on the trail.
    starts: Vec<usize>,
    // The variables in the order in which they are decided, and a place in it: each variable before it is assigned, or not
    // in use.
    queue: LinkQueue,
    place: Option<u32>,
    // The variables in use are the numbers below this one.
    used: u32,
}

impl Model for Kernel {
    ghost use Rattle.std.specs.Vec.{vec_capacity};
    ghost use Rattle.gp_sat.specs.State.{SolverForm};
    ghost use Rattle.gp_sat.specs.Consistent.{IsConsistent};

    ghost Value = { SolverForm };

    ghost view = { λ s. record { values = s.values; trail = s.trail.items; clauses = s.clauses; level = s.level; order = s.queue; used = s.used } };

    ghost invariant = { λ s. IsConsistent
        (record { values = s.values; trail = s.trail.items; clauses = s.clauses; level = s.level; order = s.queue; used = s.used })
        s.starts.items s.place (vec_capacity s.trail) (vec_capacity s.starts) };
}

impl Kernel {
    pub fn new(alloc: Global, variables: u32) -> Result<Kernel, AllocError>
        ensures { IfOk result (λ solver. solver ≡ blank variables) }
    {
        let count = variables as usize;
        let values = Values::new(alloc, count)?;
        let trail = Vec::with_capacity(alloc, count)?;
        let starts = Vec::with_capacity(alloc, count)?;
        let queue = LinkQueue::new(alloc, variables)?;
        let place = queue.first();
        Ok(Kernel {
            values,
            trail,
            clauses: Store::new(alloc),
            level: 0,
            starts,
            queue,
            place,
            used: variables,
        })
    }

    /// The variables are then the numbers below `variables`, and all of them are in use.
    pub fn grow(&mut self, variables: u32) -> Result<(), AllocError>
        requires { length self.old.values ≤ variables }
        ensures ok { OnOk result (self.new ≡ grown self.old variables) }
        ensures err { OnErr result (self.new ≡ self.old) }
    {
        let count = variables as usize;
        let size = self.values.len();
        self.trail.reserve(count - self.trail.len())?;
        self.starts.reserve(count - self.starts.len())?;
        self.values.grow(count - size)?;
        match self.queue.grow(variables) {
            Ok(()) => {
                self.used = variables;
                self.place = self.queue.first();
                Ok(())
            }
            Err(fault) => {
                self.values.truncate(size);
                Err(fault)
            }
        }
    }

    /// The variables in use are then the numbers below `count`.
    pub fn set_used(&mut self, count: u32)
        requires { count ≤ length self.old.values }
        ensures { self.new ≡ record self.old { used = count } }
    {
        self.used = count;
        self.place = self.queue.first();
    }

    /// Moves a variable to the front of the order of decisions.
    pub fn raise(&mut self, variable: u32)
        requires { variable < length self.old.values }
        ensures { self.new ≡ record self.old { order = moved_to_front variable self.old.order } }
    {
        self.queue.to_front(variable);
        self.place = self.queue.first();
    }

    pub fn variables(&self) -> u32
        ensures { result ≡ length self.now.values }
    {
        self.values.len() as u32
    }

    /// Gives the next clause number. After want of memory the solver is unchanged.
    pub fn attach(&mut self, clause: &Clause) -> Result<u32, AllocError>
        requires few { length self.old.clauses + 1 < 2 ^ 32 }
        requires named { NamesBelow (length self.old.values) clause.now }
        requires may { MayAttach self.old clause.now }
        ensures number { IfOk result (λ number. number ≡ length self.old.clauses) }
        ensures ok { OnOk result (self.new ≡ with_clause self.old clause.now) }
        ensures err { OnErr result (self.new ≡ self.old) }
    {
        let number = self.clauses.len() as u32;
        self.clauses.push(clause)?;
        Ok(number)
    }

    /// How many clause numbers were given.
    pub fn clause_count(&self) -> u32
        ensures { result ≡ length self.now.clauses }
    {
        self.clauses.len() as u32
    }

    /// The clause of a number, attached or not.
    pub fn clause(&self, number: u32) -> &[Lit]
        requires { number < length self.now.clauses }
        ensures lits { result.now ≡ clause_at self.now.clauses number }
        ensures rising { IsRising result.now }
    {
        self.clauses.lits(number as usize)
    }

    /// The clause keeps its number.
    pub fn retire(&mut self, number: u32)
        requires bottom { self.old.level ≡ 0 }
        requires given { number < length self.old.clauses }
        ensures { self.new ≡ without_clause self.old number }
    {
        self.clauses.detach(number as usize);
    }

    /// Takes back every assignment, those of level 0 too.
    pub fn clear(&mut self)
        ensures { self.new ≡ cleared self.old }
    {
        take_back(&mut self.values, self.trail.as_slice(), 0);
        self.trail.clear();
        self.starts.clear();
        self.level = 0;
        self.place = self.queue.first();
    }

    /// Begins a new level.
    pub fn decide(&mut self, lit: Lit)
        requires named { lit.variable < length self.old.values }
        requires free { assigned self.old lit.variable ≡ None }
        requires closed { IsClosed self.old self.old.level }
        ensures { self.new ≡ with_literal self.old lit (self.old.level + 1) None }
    {
        let level = self.level + 1;
        self.starts.push_reserved(self.trail.len());
        lay(&mut self.values, &mut self.trail, lit, level, None);
        self.level = level;
    }

    // Where a level ends on the trail.
    fn end_of(&self, level: u32) -> usize
        requires { level ≤ self.now.level }
        ensures { IsEndOf (assigned self.now) (length self.now.trail) level result }
    {
        match self.starts.get(level as usize) {
            Some(start) => *start,
            None => self.trail.len(),
        }
    }

    /// Takes back the levels above `level`.
    pub fn backjump(&mut self, level: u32)
        requires { level ≤ self.old.level }
        ensures back { Backjumps self.old self.new level }
        ensures sound { IsSound self.new }
    {
        let end = self.end_of(level);
        take_back(&mut self.values, self.trail.as_slice(), end);
        self.trail.truncate(end);
        self.starts.truncate(level as usize);
        self.level = level;
        self.place = self.queue.first();
    }

    /// The true literals, in the order in which they were assigned.
    pub fn trail(&self) -> &[Lit]
        ensures trail { result.now ≡ self.now.trail }
        ensures sound { IsSound self.now }
    {
        self.trail.as_slice()
    }

    /// The present level.
    pub fn level(&self) -> u32
        ensures { result ≡ self.now.level }
    {
        self.level
    }

    /// None exactly where the variable is unassigned.
    pub fn value(&self, variable: u32) -> Option<bool>
        requires { variable < length self.now.values }
        ensures { result ≡ option_map (λ a. a.positive) (assigned self.now variable) }
    {
        self.values.truth(variable)
    }

    /// The level at which the variable was assigned, None exactly where it is unassigned.
    pub fn level_of(&self, variable: u32) -> Option<u32>
        requires { variable < length self.now.values }
        ensures { result ≡ option_map (λ a. a.level) (assigned self.now variable) }
    {
        self.values.get(variable).map(|a| a.level)
    }

    /// The first unassigned variable in the order of decisions, of those in use. None exactly where all of these are
    /// assigned.
    pub fn next_free(&mut self) -> Option<u32>
        ensures same { self.new ≡ self.old }
        ensures free { MatchOption result (IsFull self.new) (IsNextFree self.new) }
    {
        let place = next_open(&self.queue, &self.values, self.used, self.place);
        self.place = place;
        place
    }
}

// The next place from one on at which a variable in use is unassigned, or the end.
fn next_open(queue: &LinkQueue, values: &Values, used: u32, from: Option<u32>) -> Option<u32>
    requires placed { IsPlaced (λ v. slice_index_or values.now v None) used queue.now from }
    requires order { length queue.now ≡ length values.now }
    ensures placed { IsPlaced (λ v. slice_index_or values.now v None) used queue.now result }
    ensures open { IfSome result (λ v. (v < used) × (slice_index_or values.now v None ≡ None)) }
    ensures full { result ≡ None → (v : ℕ) → v < length values.now → IsPassed (λ v. slice_index_or values.now v None) used v }
{
    let mut place = from;
    for _ in 0..queue.len() {
        match place {
            None => return None,
            Some(variable) => {
                if is_open(values, used, variable) {
                    return place;
                }
                place = queue.after(variable);
            }
        }
    }
    None
}

// Whether a variable is in use and unassigned.
fn is_open(values: &Values, used: u32, variable: u32) -> bool
    ensures { MatchBool result
        ((variable < used) × (slice_index_or values.now variable None ≡ None))
        (IsPassed (λ v. slice_index_or values.now v None) used variable) }
{
    match values.truth(variable) {
        Some(_) => false,
        None => variable < used,
    }
}

// Writes a true literal at the end of the trail, for which there is room.
pub(crate) fn lay(
    values: &mut Values,
    trail: &mut Vec<Lit>,
    lit: Lit,
    level: u32,
    reason: Option<u32>,
)
    requires within { lit.variable < length values.old }
    requires room { vec_len trail.old < vec_capacity trail.old }
    requires few { vec_len trail.old < 2 ^ 32 }
    ensures values { values.new ≡ slice_set values.old lit.variable (Some (record { positive = lit.positive; level = level; place = vec_len trail.old; reason = reason })) }
    ensures trail { trail.new.items ≡ trail.old.items ++ lit ∷ [] }
    ensures room { vec_capacity trail.new ≡ vec_capacity trail.old }
{
    let place = trail.len() as u32;
    let positive = lit.positive;
    values.set(
        lit.variable,
        Assigned {
            positive,
            level,
            place,
            reason,
        },
    );
    trail.push_reserved(lit);
}

// Takes back the assignments of the literals of the trail from a place on.
fn take_back(values: &mut Values, trail: &[Lit], end: usize)
    requires within { end ≤ length trail.now }
    requires named { (place : ℕ) (d : Lit) → place < length trail.now → (slice_index_or trail.now place d).variable < length values.old }
    ensures size { length values.new ≡ length values.old }
    ensures gone { (place : ℕ) (d : Lit) → end ≤ place → place < length trail.now → slice_index_or values.new (slice_index_or trail.now place d).variable None ≡ None }
    ensures kept { (v : ℕ) → ((place : ℕ) (d : Lit) → end ≤ place → place < length trail.now → (slice_index_or trail.now place d).variable ≢ v) → slice_index_or values.new v None ≡ slice_index_or values.old v None }
{
    for place in end..trail.len() {
        values.unset(trail[place].variable);
    }
}
