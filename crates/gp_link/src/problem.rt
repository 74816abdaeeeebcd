ghost use Rattle.std.specs.Prelude.{◌≡◌, ◌≢◌, Err, IfOk};
ghost use Rattle.gp_clause.specs.Problem.{IsValidProblem};
ghost use Rattle.gp_link.specs.LinkProblem.{link_due};

use crate::fault::LinkFault;
use crate::link::Link;
use gp_constraint::{Encoded, ExtendedProblem, extended, extensions_mean};
use gp_window::Window;
use std::alloc::Global;

/// The problem of a window and the next: its clauses, and behind them those of the link.
pub fn link_problem(
    alloc: Global,
    encoded: Encoded,
    next: &Window,
) -> Result<ExtendedProblem, LinkFault>
    ensures due { result ≢ Err LinkFault.Memory → result ≡ link_due encoded next.now }
    ensures valid { IfOk result (λ extended. IsValidProblem extended.problem) }
{
    extensions_mean();
    let _ = encoded.window();
    linked(alloc, encoded, next)
}

fn linked(alloc: Global, encoded: Encoded, next: &Window) -> Result<ExtendedProblem, LinkFault>
    ensures { result ≢ Err LinkFault.Memory → result ≡ link_due encoded next.now }
{
    let link = Link { alloc, next };
    Ok(extended(alloc, encoded, &link)?)
}
