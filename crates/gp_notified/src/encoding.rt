ghost use Rattle.std.specs.Prelude.{◌≡◌, ◌≢◌, Err, IfOk, None, Some};
ghost use Rattle.gp_notified.specs.Due.{left_out_by, signals_due};

use gp_analysis::{EncodeFault, LeftOut, TooLarge};
use gp_constraint::base;
use gp_notify::{NotifyFault, NotifyProblem, extend};
use gp_window::Window;
use std::alloc::Global;

/// A window with the constraints of its signals behind its own.
pub(crate) fn problem_of(alloc: Global, window: Window) -> Result<NotifyProblem, NotifyFault>
    ensures { result ≢ Err NotifyFault.Memory → result ≡ signals_due window }
{
    let encoded = base(alloc, window)?;
    extend(alloc, encoded)
}

/// The same, where the window is not left out.
pub(crate) fn encode(alloc: Global, window: Window) -> Result<NotifyProblem, EncodeFault>
    ensures window { IfOk result (λ extended. extended ≡ window) }
    ensures fits { IfOk result (λ _. left_out_by (signals_due window) ≡ None) }
    ensures left { (why : _) → result ≡ Err (EncodeFault.LeftOut why) → left_out_by (signals_due window) ≡ Some why }
{
    match problem_of(alloc, window) {
        Ok(extended) => Ok(extended),
        Err(NotifyFault::Unpaired(_)) => Err(EncodeFault::LeftOut(LeftOut::Unasked)),
        Err(NotifyFault::TooLarge { events, clauses }) => {
            Err(EncodeFault::LeftOut(LeftOut::TooLarge(TooLarge { events, clauses })))
        }
        Err(NotifyFault::Memory) => Err(EncodeFault::Memory),
    }
}
