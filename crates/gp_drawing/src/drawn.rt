ghost use Rattle.std.specs.Prelude.{◌≡◌, ◌<◌, ◌^◌, length, IfOk};
ghost use Rattle.gp_drawing.specs.Arrows.{arrows_of};
ghost use Rattle.gp_drawing.specs.Bars.{bars_of};
ghost use Rattle.gp_drawing.specs.Drawing.{drawing_of};
ghost use Rattle.gp_drawing.specs.Rows.{rows_of};

use crate::arrows::arrows_of;
use crate::bars::bars_of;
use crate::drawing::Drawing;
use crate::rows::rows_of;
use gp_story::{Part, Story};
use gp_window::Window;
use std::alloc::{AllocError, Global};

/// Draws a story of a window. A story of 2^32 parts or more wants more memory than there is.
///
/// It takes the time of the story's lines, but for the table of events that are told alone, and looks at all events
/// between where a lock is taken and where it is given back.
pub fn draw(alloc: Global, window: &Window, story: &Story) -> Result<Drawing, AllocError>
    ensures { IfOk result (λ drawing. drawing ≡ drawing_of window.now story.now) }
{
    let parts = story.parts.as_slice();
    if parts.len() > u32::MAX as usize {
        return Err(AllocError);
    }
    draw_parts(alloc, window, parts)
}

fn draw_parts(alloc: Global, window: &Window, parts: &[Part]) -> Result<Drawing, AllocError>
    requires { length parts.now < 2 ^ 32 }
    ensures { IfOk result (λ drawing. drawing ≡ drawing_of window.now (record { parts = parts.now })) }
{
    let rows = rows_of(alloc, parts)?;
    let bars = bars_of(alloc, window, parts)?;
    let arrows = arrows_of(alloc, window, parts)?;
    Ok(Drawing { rows, bars, arrows })
}
