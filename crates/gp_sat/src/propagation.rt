ghost use Rattle.std.specs.Prelude.{◌≡◌, ◌+◌, ◌<◌, ◌≤◌, Some, length};
ghost use Rattle.gp_sat.specs.State.{IsAttached, clause_at, assigned, with_literal};
ghost use Rattle.gp_sat.specs.Sound.{IsSound};
ghost use Rattle.gp_sat.specs.Changes.{Propagates, IsPropagated};
ghost use Rattle.gp_sat.specs.Choosing.{IsAdvanced};
ghost use Rattle.gp_sat.specs.Stepping.{IsReady};
ghost use Rattle.gp_sat.specs.Looking.{IsUnit};

use crate::kernel::{Kernel, lay};
use crate::pending::{link_next, look_at_short};
use crate::walk::walk;
use crate::watches::Watches;
use gp_clause::Lit;

/// What a propagation came to: the trail is closed at the present level, or the clause of a number is false.
#[derive(Clone, Copy, PartialEq, Eq)]
pub enum Propagated {
    Quiet,
    False(u32),
}

// What one step of a propagation came to.
#[derive(Clone, Copy, PartialEq, Eq)]
pub(crate) enum Passed {
    Quiet,
    False(u32),
    Forced,
}

impl Kernel {
    // Assigns the last literal of a unit clause.
    pub(crate) fn force(&mut self, lit: Lit, number: u32)
        requires named { lit.variable < length self.old.values }
        requires attached { IsAttached self.old.clauses number }
        requires unit { IsUnit (assigned self.old) (clause_at self.old.clauses number) lit }
        ensures added { Propagates self.old self.new }
        ensures is { self.new ≡ with_literal self.old lit self.old.level (Some number) }
        ensures sound { IsSound self.new }
        ensures longer { length self.new.trail ≡ length self.old.trail + 1 }
        ensures within { length self.new.trail ≤ length self.new.values }
    {
        let level = self.level;
        lay(&mut self.values, &mut self.trail, lit, level, Some(number));
    }
}

// Links the next clause, looks at the next short one, or walks the slots of the next literal that fell.
fn advance(kernel: &mut Kernel, watches: &mut Watches) -> Passed
    requires { IsReady kernel.old watches.old }
    ensures advanced { IsAdvanced kernel.old kernel.new watches.old watches.new result }
    ensures added { Propagates kernel.old kernel.new }
{
    if watches.linked() < kernel.clause_count() as usize {
        return match link_next(kernel, watches) {
            Some(number) => Passed::False(number),
            None => Passed::Forced,
        };
    }
    if watches.shorts_left() {
        return match look_at_short(kernel, watches) {
            Some(number) => Passed::False(number),
            None => Passed::Forced,
        };
    }
    if watches.cursor() < kernel.trail().len() {
        return match walk(kernel, watches) {
            Some(number) => Passed::False(number),
            None => Passed::Forced,
        };
    }
    Passed::Quiet
}

// Assigns what unit clauses force until nothing changes.
pub(crate) fn run(kernel: &mut Kernel, watches: &mut Watches) -> Propagated
    requires { IsReady kernel.old watches.old }
    ensures ready { IsReady kernel.new watches.new }
    ensures answer { IsPropagated kernel.new result }
    ensures end { result ≡ Propagated.Quiet → length kernel.new.trail ≤ watches.new.cursor }
    ensures added { Propagates kernel.old kernel.new }
{
    loop {
        match advance(kernel, watches) {
            Passed::Quiet => return Propagated::Quiet,
            Passed::False(number) => return Propagated::False(number),
            Passed::Forced => {}
        }
    }
}
