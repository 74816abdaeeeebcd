ghost use Rattle.std.specs.Prelude.{◌≡◌, ◌≢◌, Err};
ghost use Rattle.gp_linked.specs.Due.{sized_due};

use gp_constraint::{ExtendedProblem, base};
use gp_link::{LinkFault, link_problem};
use gp_window::Window;
use std::alloc::Global;

// The problem of a window and the next, where neither the window nor the link is too large.
pub(crate) fn problem_of(
    alloc: Global,
    window: Window,
    next: &Window,
) -> Result<ExtendedProblem, LinkFault>
    ensures { result ≢ Err LinkFault.Memory → result ≡ sized_due window next.now }
{
    let encoded = base(alloc, window)?;
    link_problem(alloc, encoded, next)
}
