ghost use Rattle.std.specs.Prelude.{◌≡◌, Err, IfOk, None, Some};
ghost use Rattle.gp_constraint.specs.Encoded.{base_due};
ghost use Rattle.gp_patterns.specs.Question.{is_large, left_out_in};

use gp_analysis::{EncodeFault, LeftOut, TooLarge};
use gp_constraint::{BaseFault, Encoded, MOST_POINTS, base};
use gp_window::Window;
use std::alloc::Global;

/// A window with its constraints, where they are not too large. For any question whose problem of a window is its base.
pub fn encode_window(alloc: Global, window: Window) -> Result<Encoded, EncodeFault>
    ensures window { IfOk result (λ encoded. encoded ≡ window) }
    ensures fits { IfOk result (λ _. left_out_in (base_due window) ≡ None) }
    ensures left { (why : _) → result ≡ Err (EncodeFault.LeftOut why) → left_out_in (base_due window) ≡ Some why }
{
    match base(alloc, window) {
        Ok(encoded) => Ok(encoded),
        Err(BaseFault::TooLarge { events, clauses }) => {
            let large = TooLarge { events, clauses };
            Err(EncodeFault::LeftOut(LeftOut::TooLarge(large)))
        }
        Err(BaseFault::Memory) => Err(EncodeFault::Memory),
    }
}

/// Whether a window has too many events to be encoded. For any question whose problem of a window has its base.
pub fn is_large(window: &Window) -> bool
    ensures { result ≡ is_large window.now }
{
    let mut room = MOST_POINTS;
    for segment in window.segments() {
        match room.checked_sub(segment.len()) {
            Some(less) => room = less,
            None => return true,
        }
    }
    false
}
