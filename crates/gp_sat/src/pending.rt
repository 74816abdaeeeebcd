ghost use Rattle.std.specs.Prelude.{◌≡◌, ◌≢◌, MatchBool, ◌+◌, ◌<◌, None, List, [], ◌∷◌, ◌++◌, length, slice_get, slice_index_or, MatchOption};
ghost use Rattle.gp_clause.specs.Clause.{IsRising};
ghost use Rattle.gp_sat.specs.State.{assigned, clause_at, IsAttached};
ghost use Rattle.gp_sat.specs.Standing.{IsFalse, Each, EachOther};
ghost use Rattle.gp_sat.specs.Changes.{Propagates, IsConflict};
ghost use Rattle.gp_sat.specs.Sound.{IsSound};
ghost use Rattle.gp_sat.specs.Stepping.{IsIdle, IsReady, IsBroken};
ghost use Rattle.gp_sat.specs.Choosing.{level_of, IsBest, IsOpen, ChosenAs, Holds, IsMore, IsShorter};

use crate::kernel::Kernel;
use crate::values::Values;
use crate::walk::{Stand, is_attached, look_up, look_up_at, pick};
use crate::watches::Watches;
use gp_clause::Lit;

// The literals that a clause watches first: none, where all are false, one alone, two that are not false, or one that is not
// and the one of the highest level of the others, which are.
#[derive(Clone, Copy, PartialEq, Eq)]
pub enum Chosen {
    False,
    Lone(Lit),
    Open(Lit, Lit),
    Unit(Lit, Lit),
}

fn is_false(values: &Values, lit: Lit) -> bool
    ensures { MatchBool result (IsFalse (λ variable. slice_index_or values.now variable None) lit) (IsFalse (λ variable. slice_index_or values.now variable None) lit → ⊥) }
{
    match look_up(values, lit) {
        Stand::True => false,
        Stand::Free => false,
        Stand::False => true,
    }
}

// The first literal that is not false.
fn first_open(values: &Values, lits: &[Lit]) -> Option<Lit>
    ensures { MatchOption result
        (Each (IsFalse (λ variable. slice_index_or values.now variable None)) lits.now)
        (IsOpen (λ variable. slice_index_or values.now variable None) lits.now) }
{
    for lit in lits {
        if !is_false(values, *lit) {
            return Some(*lit);
        }
    }
    None
}

// The level of a literal, 0 where it is unassigned.
fn level_at(values: &Values, lit: Lit) -> u32
    ensures { result ≡ level_of (slice_index_or values.now lit.variable None) }
{
    match values.get(lit.variable) {
        Some(a) => a.level,
        None => 0,
    }
}

fn is_same(lit: Lit, other: Lit) -> bool
    ensures { MatchBool result (lit ≡ other) (lit ≢ other) }
{
    lit == other
}

// The better one of the best so far and a literal.
fn better(values: &Values, one: Lit, best: Option<Lit>, lit: Lit) -> Option<Lit>
    ensures { (front : List Lit) → IsBest (λ variable. slice_index_or values.now variable None) front one best → IsBest (λ variable. slice_index_or values.now variable None) (front ++ lit ∷ []) one result }
{
    if is_same(lit, one) {
        return best;
    }
    match best {
        None => Some(lit),
        Some(two) => {
            if level_at(values, two) < level_at(values, lit) {
                Some(lit)
            } else {
                Some(two)
            }
        }
    }
}

// The literal of the highest level, but for one.
fn highest(values: &Values, lits: &[Lit], one: Lit) -> Option<Lit>
    ensures { IsBest (λ variable. slice_index_or values.now variable None) lits.now one result }
{
    let mut best = None;
    for lit in lits {
        best = better(values, one, best, *lit);
    }
    best
}

fn choose(values: &Values, lits: &[Lit]) -> Chosen
    requires { IsRising lits.now }
    ensures { ChosenAs (λ variable. slice_index_or values.now variable None) lits.now result }
{
    match first_open(values, lits) {
        None => Chosen::False,
        Some(one) => match pick(values, lits, one) {
            Some(two) => Chosen::Open(one, two),
            None => match highest(values, lits, one) {
                Some(two) => Chosen::Unit(one, two),
                None => Chosen::Lone(one),
            },
        },
    }
}

fn choose_at(kernel: &Kernel, number: usize) -> Chosen
    requires { number < length kernel.now.clauses }
    ensures { ChosenAs (assigned kernel.now) (clause_at kernel.now.clauses number) result }
{
    choose(&kernel.values, kernel.clauses.lits(number))
}

// Forces a literal that is not false, if it is unassigned.
fn force_free(kernel: &mut Kernel, lit: Lit, number: usize)
    requires within { number < length kernel.old.clauses }
    requires attached { IsAttached kernel.old.clauses number }
    requires open { IsOpen (assigned kernel.old) (clause_at kernel.old.clauses number) lit }
    requires others { EachOther (IsFalse (assigned kernel.old)) (clause_at kernel.old.clauses number) lit }
    requires sound { IsSound kernel.old }
    ensures holds { Holds kernel.old kernel.new lit number }
    ensures added { Propagates kernel.old kernel.new }
{
    match look_up_at(kernel, lit) {
        Stand::Free => kernel.force(lit, number as u32),
        Stand::True => {}
        Stand::False => {}
    }
}

// Links the next clause, and forces what it does. Where it is false, gives its number. A clause of fewer than two literals
// is passed by.
pub(crate) fn link_next(kernel: &mut Kernel, watches: &mut Watches) -> Option<u32>
    requires idle { IsIdle kernel.old watches.old }
    requires within { watches.old.linked < length kernel.old.clauses }
    ensures linked { MatchOption result (IsMore kernel.new watches.old watches.new) (IsBroken kernel.new watches.old watches.new) }
    ensures added { Propagates kernel.old kernel.new }
{
    let number = watches.linked();
    if !is_attached(kernel, number) {
        watches.pass();
        return None;
    }
    match choose_at(kernel, number) {
        Chosen::False => Some(number as u32),
        Chosen::Lone(_) => {
            watches.pass();
            None
        }
        Chosen::Open(one, two) => {
            watches.adopt(one, two);
            None
        }
        Chosen::Unit(one, two) => {
            force_free(kernel, one, number);
            watches.adopt(one, two);
            None
        }
    }
}

// The first literal of a clause.
fn first_lit(kernel: &Kernel, number: usize) -> Option<Lit>
    requires { number < length kernel.now.clauses }
    ensures { result ≡ slice_get (clause_at kernel.now.clauses number) 0 }
{
    kernel.clauses.lits(number).first().copied()
}

// Looks at the next clause of fewer than two literals, and forces its literal. Where it is false, gives its number.
pub(crate) fn look_at_short(kernel: &mut Kernel, watches: &mut Watches) -> Option<u32>
    requires ready { IsReady kernel.old watches.old }
    requires within { watches.old.looked < length watches.old.shorts }
    ensures looked { MatchOption result (IsShorter kernel.new watches.old watches.new) (IsConflict kernel.new) }
    ensures ready { IsReady kernel.new watches.new }
    ensures added { Propagates kernel.old kernel.new }
{
    let number = watches.next_short();
    if !is_attached(kernel, number) {
        watches.drop_short();
        return None;
    }
    match first_lit(kernel, number) {
        None => Some(number as u32),
        Some(lit) => match look_up_at(kernel, lit) {
            Stand::False => Some(number as u32),
            Stand::True => {
                watches.pass_short();
                None
            }
            Stand::Free => {
                kernel.force(lit, number as u32);
                watches.pass_short();
                None
            }
        },
    }
}
