ghost use Rattle.std.specs.Prelude.{◌≡◌, ◌≢◌, ◌⊎◌, MatchBool, ◌<◌, None, length, slice_index_or, MatchOption};
ghost use Rattle.gp_sat.specs.State.{assigned, clause_at, IsAttached};
ghost use Rattle.gp_sat.specs.Standing.{IsFalse, EachOther};
ghost use Rattle.gp_sat.specs.Changes.{Propagates};
ghost use Rattle.gp_sat.specs.Stepping.{StandsAs, IsPick, HasFallenBeside, JudgesAs, IsWalking, IsReturning, IsIdle, IsDone, IsBroken, KeepsShorts, GoesOn, Stops};
ghost use Rattle.gp_sat.specs.Watching.{link_at, no_slot};
ghost use Rattle.gp_clause.specs.Lit.{opposite};

use crate::kernel::Kernel;
use crate::values::Values;
use crate::watches::{Watches, clause_of, partner_of};
use gp_clause::Lit;

// How a literal stands.
#[derive(Clone, Copy, PartialEq, Eq)]
pub enum Stand {
    True,
    False,
    Free,
}

// What becomes of a slot whose literal fell: it is left out with its clause, it stays, it moves to another literal, or the
// other literal of the clause is forced, or false too.
#[derive(Clone, Copy, PartialEq, Eq)]
pub enum Judged {
    Off,
    Holds,
    Moves(Lit),
    Forces,
    Fails,
}

pub(crate) fn look_up(values: &Values, lit: Lit) -> Stand
    ensures { StandsAs (λ variable. slice_index_or values.now variable None) lit result }
{
    match values.truth(lit.variable) {
        Some(positive) => {
            if positive == lit.positive {
                Stand::True
            } else {
                Stand::False
            }
        }
        None => Stand::Free,
    }
}

// Whether a literal is not false, and another one than the one that is watched.
fn is_open(values: &Values, lit: Lit, other: Lit) -> bool
    ensures { MatchBool result
        ((lit ≢ other) × (IsFalse (λ variable. slice_index_or values.now variable None) lit → ⊥))
        ((lit ≡ other) ⊎ IsFalse (λ variable. slice_index_or values.now variable None) lit) }
{
    if lit == other {
        return false;
    }
    match look_up(values, lit) {
        Stand::True => true,
        Stand::Free => true,
        Stand::False => false,
    }
}

// The first such literal.
pub(crate) fn pick(values: &Values, lits: &[Lit], other: Lit) -> Option<Lit>
    ensures { MatchOption result
        (EachOther (IsFalse (λ variable. slice_index_or values.now variable None)) lits.now other)
        (IsPick (λ variable. slice_index_or values.now variable None) lits.now other) }
{
    for lit in lits {
        if is_open(values, *lit, other) {
            return Some(*lit);
        }
    }
    None
}

// The first such literal of the clause of a number, which has a literal that fell. Of two literals none is such, so that they are
// not looked at.
fn pick_at(kernel: &Kernel, number: usize, other: Lit) -> Option<Lit>
    requires within { number < length kernel.now.clauses }
    requires fell { HasFallenBeside (assigned kernel.now) (clause_at kernel.now.clauses number) other }
    ensures { MatchOption result
        (EachOther (IsFalse (assigned kernel.now)) (clause_at kernel.now.clauses number) other)
        (IsPick (assigned kernel.now) (clause_at kernel.now.clauses number) other) }
{
    if kernel.clauses.is_pair(number) {
        return None;
    }
    pick(&kernel.values, kernel.clauses.lits(number), other)
}

pub(crate) fn look_up_at(kernel: &Kernel, lit: Lit) -> Stand
    ensures { StandsAs (assigned kernel.now) lit result }
{
    look_up(&kernel.values, lit)
}

pub(crate) fn is_attached(kernel: &Kernel, number: usize) -> bool
    requires { number < length kernel.now.clauses }
    ensures { MatchBool result (IsAttached kernel.now.clauses number) (IsAttached kernel.now.clauses number → ⊥) }
{
    kernel.clauses.is_attached(number)
}

// What becomes of a slot whose literal fell, by the number of its clause and the other literal that this watches.
fn judge(kernel: &Kernel, number: usize, other: Lit) -> Judged
    requires within { number < length kernel.now.clauses }
    requires fell { IsAttached kernel.now.clauses number → HasFallenBeside (assigned kernel.now) (clause_at kernel.now.clauses number) other }
    ensures { JudgesAs kernel.now number other result }
{
    match look_up_at(kernel, other) {
        Stand::True => Judged::Holds,
        Stand::False => {
            if is_attached(kernel, number) {
                match pick_at(kernel, number, other) {
                    Some(lit) => Judged::Moves(lit),
                    None => Judged::Fails,
                }
            } else {
                Judged::Off
            }
        }
        Stand::Free => {
            if is_attached(kernel, number) {
                match pick_at(kernel, number, other) {
                    Some(lit) => Judged::Moves(lit),
                    None => Judged::Forces,
                }
            } else {
                Judged::Off
            }
        }
    }
}

// Looks at the first slot of the work list: its literal fell. Where the clause is false, gives its number.
fn step(kernel: &mut Kernel, watches: &mut Watches, fallen: Lit) -> Option<u32>
    requires walking { IsWalking kernel.old watches.old fallen }
    requires some { 0 < link_at watches.old.heads 0 }
    ensures step { MatchOption result (GoesOn kernel.new watches.old watches.new fallen) (Stops kernel.new watches.old watches.new fallen) }
    ensures added { Propagates kernel.old kernel.new }
{
    let slot = watches.take();
    let number = clause_of(slot);
    let other = watches.watched(partner_of(slot, number));
    match judge(kernel, number, other) {
        Judged::Off => None,
        Judged::Holds => {
            watches.link(slot, fallen);
            None
        }
        Judged::Moves(lit) => {
            watches.link(slot, lit);
            None
        }
        Judged::Forces => {
            kernel.force(other, number as u32);
            watches.link(slot, fallen);
            None
        }
        Judged::Fails => {
            watches.link(slot, fallen);
            watches.step_back();
            Some(number as u32)
        }
    }
}

// Gives the slots that are left on the work list back to the literal that fell.
fn give_back(kernel: &Kernel, watches: &mut Watches, fallen: Lit)
    requires { IsReturning kernel.now watches.old fallen }
    ensures idle { IsIdle kernel.now watches.new }
    ensures kept { KeepsShorts watches.old watches.new }
{
    while watches.has_work() {
        let slot = watches.take();
        watches.link(slot, fallen);
    }
}

// The literal that is false by the literal at a place of the trail.
fn next_fallen(kernel: &Kernel, place: usize) -> Lit
    requires { place < length kernel.now.trail }
    ensures { result ≡ opposite (slice_index_or kernel.now.trail place no_slot.lit) }
{
    kernel.trail()[place].negated()
}

// Walks the slots that watch the literal which fell at the cursor. Where a clause is false, gives its number.
pub(crate) fn walk(kernel: &mut Kernel, watches: &mut Watches) -> Option<u32>
    requires idle { IsIdle kernel.old watches.old }
    requires within { watches.old.cursor < length kernel.old.trail }
    ensures walked { MatchOption result (IsDone kernel.new watches.old watches.new) (IsBroken kernel.new watches.old watches.new) }
    ensures added { Propagates kernel.old kernel.new }
{
    let fallen = next_fallen(kernel, watches.cursor());
    watches.begin(fallen);
    while watches.has_work() {
        match step(kernel, watches, fallen) {
            Some(number) => {
                give_back(kernel, watches, fallen);
                return Some(number);
            }
            None => {}
        }
    }
    None
}
