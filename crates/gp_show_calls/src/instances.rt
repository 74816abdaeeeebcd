ghost use Rattle.std.specs.Prelude.{◌≡◌, ◌++◌, OnOk};
ghost use Rattle.gp_text.specs.Spelling.{spelling};
ghost use Rattle.gp_view.specs.Answered.{form_of};
ghost use Rattle.gp_view.specs.Text.{answered_lines};

use gp_place::Beside;
use gp_view::Answered;
use std::alloc::AllocError;

/// As `gp_view::put_answered`.
pub fn put_answered(
    text: &mut Vec<u8>,
    beside: &Beside,
    answered: &Answered<'_>,
) -> Result<(), AllocError>
    ensures { OnOk result (text.new.items ≡ text.old.items ++ spelling (answered_lines beside.now (form_of answered.now))) }
{
    gp_view::put_answered(text, beside, answered)
}
