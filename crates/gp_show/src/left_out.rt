ghost use Rattle.std.specs.Prelude.{◌≡◌, ◌++◌, ◌∷◌, [], OnOk, flat_map, map};
ghost use Rattle.gp_text.specs.Spelling.{spelling};
ghost use Rattle.gp_show.specs.Show.{left_out_line, left_out_lines, left_out_part, left_out_text};

use gp_beside::{NoteFault, put_fault};
use gp_drawing::put_between;
use gp_values::put_left_out;
use gp_words::Style;
use std::alloc::AllocError;

/// Puts which files beside a report are left out.
pub fn add_left_out(
    text: &mut Vec<u8>,
    style: Style,
    faults: &[NoteFault],
) -> Result<(), AllocError>
    ensures { OnOk result (text.new.items ≡ text.old.items ++ left_out_text style faults.now) }
{
    match style {
        Style::Text => add_lines(text, faults),
        Style::Page => add_parts(text, faults),
        Style::Json => put_left_out(text, faults),
        Style::Sarif => gp_sarif::put_left_out(text, faults),
    }
}

fn add_lines(text: &mut Vec<u8>, faults: &[NoteFault]) -> Result<(), AllocError>
    ensures { OnOk result (text.new.items ≡ text.old.items ++ spelling (left_out_lines faults.now)) }
{
    let Some((first, others)) = faults.split_first() else {
        return Ok(());
    };
    text.push(b'\n')?;
    add_line(text, *first)?;
    add_each_line(text, others)
}

fn add_each_line(text: &mut Vec<u8>, faults: &[NoteFault]) -> Result<(), AllocError>
    ensures { OnOk result (text.new.items ≡ text.old.items ++ spelling (map left_out_line faults.now)) }
{
    for fault in faults {
        add_line(text, *fault)?;
    }
    Ok(())
}

#[tactic(auto, unfolding(crate::specs::Show::left_out_line))]
fn add_line(text: &mut Vec<u8>, fault: NoteFault) -> Result<(), AllocError>
    ensures { OnOk result (text.new.items ≡ text.old.items ++ spelling (left_out_line fault ∷ [])) }
{
    put_fault(text, fault)?;
    text.push(b'\n')?;
    Ok(())
}

fn add_parts(text: &mut Vec<u8>, faults: &[NoteFault]) -> Result<(), AllocError>
    ensures { OnOk result (text.new.items ≡ text.old.items ++ flat_map left_out_part faults.now) }
{
    for fault in faults {
        add_part(text, *fault)?;
    }
    Ok(())
}

#[tactic(auto, unfolding(crate::specs::Show::left_out_part))]
fn add_part(text: &mut Vec<u8>, fault: NoteFault) -> Result<(), AllocError>
    ensures { OnOk result (text.new.items ≡ text.old.items ++ left_out_part fault) }
{
    let mut words = Vec::new(*text.allocator());
    put_fault(&mut words, fault)?;
    put_between(text, b"<p>", words.as_slice(), b"</p>\n")
}
