ghost use Rattle.std.specs.Prelude.{◌≡◌, List};
ghost use Rattle.gp_window.specs.WindowForm.{WindowForm};
ghost use Rattle.gp_constraint.specs.declared.symbol.SymbolicLit.{SymbolicLit as SymbolicLitForm};
ghost use Rattle.gp_constraint.specs.Limited.{IsAdded};
ghost use Rattle.gp_constraint.specs.Points.{points_of};
ghost use Rattle.gp_constraint.specs.Signed.{AreSigned};

use crate::fault::Full;
use crate::limited::LimitedClauses;
use crate::points::Points;
use gp_window::Window;

/// Further clauses of a window, which a crate above puts behind its own. In none of them has a symbol both signs.
pub trait Family {
    /// The clauses, in order.
    ghost clauses: { Self → WindowForm → List (List SymbolicLitForm) };

    /// Adds them all, unless with them there are too many.
    fn add(&self, window: &Window, points: &Points, into: &mut LimitedClauses) -> Result<(), Full>
        requires { points.now ≡ points_of window.now }
        ensures adds { IsAdded result into.old into.new (clauses self.now window.now) }
        ensures signed { AreSigned (clauses self.now window.now) };
}
