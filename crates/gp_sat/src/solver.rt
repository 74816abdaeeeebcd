ghost use Rattle.std.specs.Prelude.{◌≡◌, ◌+◌, ◌*◌, ◌<◌, ◌≤◌, ◌^◌, None, length, OnOk, OnErr, IfOk, MatchOption, option_map};
ghost use Rattle.gp_queue.specs.Order.{moved_to_front};
ghost use Rattle.gp_clause.specs.Clause.{IsRising, NamesBelow};
ghost use Rattle.gp_sat.specs.Sound.{IsSound};
ghost use Rattle.gp_sat.specs.Learning.{IsFirstPoint, IsFinal};
ghost use Rattle.gp_sat.specs.State.{assigned, blank, grown, with_clause, without_clause, cleared, with_literal, clause_at};
ghost use Rattle.gp_sat.specs.Standing.{IsClosed, IsFalse, Each};
ghost use Rattle.gp_sat.specs.Changes.{MayAttach, Backjumps, Propagates, IsPropagated, HasPresent};
ghost use Rattle.gp_sat.specs.Deciding.{IsNextFree, IsFull};
ghost use Rattle.gp_sat.specs.Stepping.{IsReady};
ghost use Rattle.gp_sat.specs.Linked.{IsBlank};
ghost use Rattle.gp_sat.specs.Queueing.{AreClear};

use crate::analysis::Learned;
use crate::kernel::Kernel;
use crate::marking::Marking;
use crate::propagation::{Propagated, run};
use crate::watches::Watches;
use gp_clause::{Clause, Lit};
use std::alloc::{AllocError, Global};
use std::marker::Model;

/// A solver that watches two literals of each clause. Variables are the numbers below `variables`, and clauses have the
/// numbers 0, 1, 2 and so on in the order of `attach`. Only `new`, `grow`, `attach` and the analyses take memory. An analysis
/// visits only the literals that lead to its conflict, and costs a logarithm for each of them.
#[derive(Drop)]
pub struct Solver {
    kernel: Kernel,
    watches: Watches,
    marking: Marking,
}

impl Model for Solver {
    ghost use Rattle.gp_sat.specs.State.{SolverForm};
    ghost use Rattle.gp_sat.specs.Whole.{IsWhole};

    ghost Value = { SolverForm };

    ghost view = { λ s. s.kernel };

    ghost invariant = { λ s. IsWhole s.kernel s.watches s.marking };
}

impl Solver {
    /// All variables are in use, in the order of their numbers.
    pub fn new(alloc: Global, variables: u32) -> Result<Solver, AllocError>
        ensures blank { IfOk result (λ solver. solver ≡ blank variables) }
        ensures sound { IfOk result IsSound }
    {
        let kernel = Kernel::new(alloc, variables)?;
        match watches_and_marking(alloc, variables) {
            Ok((watches, marking)) => Ok(Solver {
                kernel,
                watches,
                marking,
            }),
            Err(error) => {
                drop(kernel);
                Err(error)
            }
        }
    }

    /// The variables are then the numbers below `variables`, and all of them are in use. After want of memory the solver is
    /// unchanged.
    pub fn grow(&mut self, variables: u32) -> Result<(), AllocError>
        requires { length self.old.values ≤ variables }
        ensures ok { OnOk result (self.new ≡ grown self.old variables) }
        ensures err { OnErr result (self.new ≡ self.old) }
        ensures sound { IsSound self.new }
    {
        let lists = 2 * (variables as usize) + 2;
        self.watches.reserve_lists(lists)?;
        self.marking.reserve(variables as usize)?;
        self.kernel.grow(variables)?;
        self.watches.widen(lists);
        self.marking.widen(variables as usize);
        Ok(())
    }

    /// The variables in use are then the numbers below `count`: `next_free` passes the others by.
    pub fn set_used(&mut self, count: u32)
        requires { count ≤ length self.old.values }
        ensures used { self.new ≡ record self.old { used = count } }
        ensures sound { IsSound self.new }
    {
        self.kernel.set_used(count);
    }

    pub fn variables(&self) -> u32
        ensures { result ≡ length self.now.values }
    {
        self.kernel.variables()
    }

    /// Gives the next clause number. After want of memory the solver is unchanged.
    pub fn attach(&mut self, clause: &Clause) -> Result<u32, AllocError>
        requires few { length self.old.clauses + 1 < 2 ^ 32 }
        requires named { NamesBelow (length self.old.values) clause.now }
        requires may { MayAttach self.old clause.now }
        ensures number { IfOk result (λ number. number ≡ length self.old.clauses) }
        ensures ok { OnOk result (self.new ≡ with_clause self.old clause.now) }
        ensures err { OnErr result (self.new ≡ self.old) }
        ensures sound { IsSound self.new }
    {
        self.watches.reserve_clause()?;
        let number = self.kernel.attach(clause)?;
        self.watches.add_clause(number as usize, clause.len() < 2);
        Ok(number)
    }

    /// How many clause numbers were given.
    pub fn clause_count(&self) -> u32
        ensures { result ≡ length self.now.clauses }
    {
        self.kernel.clause_count()
    }

    /// The literals of the clause of a number, attached or not.
    pub fn clause(&self, number: u32) -> &[Lit]
        requires { number < length self.now.clauses }
        ensures lits { result.now ≡ clause_at self.now.clauses number }
        ensures rising { IsRising result.now }
    {
        self.kernel.clause(number)
    }

    /// The clause keeps its number.
    pub fn retire(&mut self, number: u32)
        requires bottom { self.old.level ≡ 0 }
        requires given { number < length self.old.clauses }
        ensures retired { self.new ≡ without_clause self.old number }
        ensures sound { IsSound self.new }
    {
        self.kernel.retire(number);
    }

    /// Takes back every assignment, those of level 0 too.
    pub fn clear(&mut self)
        ensures cleared { self.new ≡ cleared self.old }
        ensures sound { IsSound self.new }
    {
        self.kernel.clear();
        self.watches.restart();
    }

    /// Begins a new level.
    pub fn decide(&mut self, lit: Lit)
        requires named { lit.variable < length self.old.values }
        requires free { assigned self.old lit.variable ≡ None }
        requires closed { IsClosed self.old self.old.level }
        ensures decided { self.new ≡ with_literal self.old lit (self.old.level + 1) None }
        ensures sound { IsSound self.new }
    {
        make_ready(&mut self.kernel, &mut self.watches);
        self.kernel.decide(lit);
    }

    /// Assigns what unit clauses force, until no clause is unit, or one is false.
    pub fn propagate(&mut self) -> Propagated
        ensures answer { IsPropagated self.new result }
        ensures added { Propagates self.old self.new }
        ensures sound { IsSound self.new }
    {
        run(&mut self.kernel, &mut self.watches)
    }

    /// Takes back the levels above `level`.
    pub fn backjump(&mut self, level: u32)
        requires { level ≤ self.old.level }
        ensures back { Backjumps self.old self.new level }
        ensures sound { IsSound self.new }
    {
        self.kernel.backjump(level);
        let end = self.kernel.trail().len();
        self.watches.fall_back(end);
    }

    /// The true literals, in the order in which they were assigned.
    pub fn trail(&self) -> &[Lit]
        ensures trail { result.now ≡ self.now.trail }
        ensures sound { IsSound self.now }
    {
        self.kernel.trail()
    }

    /// The present level.
    pub fn level(&self) -> u32
        ensures { result ≡ self.now.level }
    {
        self.kernel.level()
    }

    /// None exactly where the variable is unassigned.
    pub fn value(&self, variable: u32) -> Option<bool>
        requires { variable < length self.now.values }
        ensures { result ≡ option_map (λ a. a.positive) (assigned self.now variable) }
    {
        self.kernel.value(variable)
    }

    /// The level at which the variable was assigned, None exactly where it is unassigned.
    pub fn level_of(&self, variable: u32) -> Option<u32>
        requires { variable < length self.now.values }
        ensures { result ≡ option_map (λ a. a.level) (assigned self.now variable) }
    {
        self.kernel.level_of(variable)
    }

    /// The first unassigned variable in the order of decisions, of those in use. None exactly where all of these are
    /// assigned.
    pub fn next_free(&mut self) -> Option<u32>
        ensures same { self.new ≡ self.old }
        ensures free { MatchOption result (IsFull self.new) (IsNextFree self.new) }
        ensures sound { IsSound self.new }
    {
        self.kernel.next_free()
    }

    /// Moves a variable to the front of the order of decisions.
    pub fn raise(&mut self, variable: u32)
        requires { variable < length self.old.values }
        ensures raised { self.new ≡ record self.old { order = moved_to_front variable self.old.order } }
        ensures sound { IsSound self.new }
    {
        self.kernel.raise(variable);
    }

    /// The first unique implication point: the clause has one literal of the present level, and `level` is the highest one
    /// of its others.
    pub fn analyse(&mut self, conflict: &[Lit]) -> Result<Learned, AllocError>
        requires above { 0 < self.old.level }
        requires conflict { Each (IsFalse (assigned self.old)) conflict.now }
        requires present { HasPresent self.old conflict.now }
        ensures learned { IfOk result (IsFirstPoint self.old conflict.now) }
        ensures same { self.new ≡ self.old }
    {
        self.kernel.analyse(conflict, &mut self.marking)
    }

    /// The clause has negated decisions alone.
    pub fn analyse_final(&mut self, conflict: &[Lit]) -> Result<Learned, AllocError>
        requires { Each (IsFalse (assigned self.old)) conflict.now }
        ensures learned { IfOk result (IsFinal self.old conflict.now) }
        ensures same { self.new ≡ self.old }
    {
        self.kernel.analyse_final(conflict, &mut self.marking)
    }
}

// The watches of no clause, and no mark.
fn watches_and_marking(alloc: Global, variables: u32) -> Result<(Watches, Marking), AllocError>
    ensures watches { IfOk result (λ both. IsBlank variables both.0) }
    ensures marking { IfOk result (λ both. AreClear variables both.1) }
{
    let marking = Marking::new(alloc, variables)?;
    match Watches::new(alloc, variables) {
        Ok(watches) => Ok((watches, marking)),
        Err(error) => {
            drop(marking);
            Err(error)
        }
    }
}

// Looks at what is left of a trail that is closed already.
fn make_ready(kernel: &mut Kernel, watches: &mut Watches)
    requires ready { IsReady kernel.old watches.old }
    requires closed { IsClosed kernel.old kernel.old.level }
    ensures same { kernel.new ≡ kernel.old }
    ensures ready { IsReady kernel.new watches.new }
    ensures end { length kernel.new.trail ≤ watches.new.cursor }
{
    let end = kernel.trail().len();
    if watches.cursor() < end {
        let _ = run(kernel, watches);
    }
}
