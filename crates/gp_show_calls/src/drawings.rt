ghost use Rattle.std.specs.Prelude.{◌≡◌, ◌++◌, IfOk, OnOk};
ghost use Rattle.gp_drawing.specs.Drawing.{drawing_of};
ghost use Rattle.gp_drawing.specs.Escaped.{escaped};

use gp_drawing::Drawing;
use gp_story::Story;
use gp_window::Window;
use std::alloc::{AllocError, Global};

/// As `gp_drawing::draw`.
pub fn draw(alloc: Global, window: &Window, story: &Story) -> Result<Drawing, AllocError>
    ensures { IfOk result (λ drawing. drawing ≡ drawing_of window.now story.now) }
{
    gp_drawing::draw(alloc, window, story)
}

/// As `gp_drawing::put_escaped`.
pub fn put_escaped(text: &mut Vec<u8>, bytes: &[u8]) -> Result<(), AllocError>
    ensures { OnOk result (text.new.items ≡ text.old.items ++ escaped bytes.now) }
{
    gp_drawing::put_escaped(text, bytes)
}
