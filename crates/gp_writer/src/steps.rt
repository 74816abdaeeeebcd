ghost use Rattle.std.specs.Prelude.{◌≡◌, [], ◌∷◌, ◌++◌, OnOk, decimal, flat_map, length, map};
ghost use Rattle.gp_text.specs.Spelling.{spelling};
ghost use Rattle.gp_writer.specs.Lines.{in_lines};
ghost use Rattle.gp_writer.specs.Spelled.{lit_word};
ghost use Rattle.gp_writer.specs.Steps.{step_lines};

use crate::lines::{put_line, put_list};
use gp_certificate::Step;
use gp_clause::Lit;
use std::alloc::AllocError;

/// Puts a line of a keyword and how many steps there are, then the steps.
pub fn put_steps(text: &mut Vec<u8>, keyword: &[u8], steps: &[Step]) -> Result<(), AllocError>
    ensures { OnOk result (text.new.items ≡ text.old.items ++ spelling ((keyword.now ∷ decimal (length steps.now) ∷ []) ∷ flat_map step_lines steps.now)) }
{
    put_line(text, keyword, &[steps.len() as u64])?;
    put_each_step(text, steps)
}

/// Puts the lines of each step, without a line before them that tells how many there are.
pub fn put_each_step(text: &mut Vec<u8>, steps: &[Step]) -> Result<(), AllocError>
    ensures { OnOk result (text.new.items ≡ text.old.items ++ spelling (flat_map step_lines steps.now)) }
{
    for step in steps {
        put_step(text, step)?;
    }
    Ok(())
}

fn put_step(text: &mut Vec<u8>, step: &Step) -> Result<(), AllocError>
    ensures { OnOk result (text.new.items ≡ text.old.items ++ spelling (step_lines step.now)) }
{
    let lits = step.clause.lits();
    let hints = step.hints.as_slice();
    put_line(text, b"step", &[lits.len() as u64, hints.len() as u64])?;
    put_lists(text, lits, hints)
}

#[tactic(auto, using(crate::specs::LinesLaws::lines_put))]
fn put_lists(text: &mut Vec<u8>, lits: &[Lit], hints: &[u32]) -> Result<(), AllocError>
    ensures { OnOk result (text.new.items ≡ text.old.items ++ spelling (in_lines (map lit_word lits.now) ++ in_lines (map decimal hints.now))) }
{
    put_list(text, lits)?;
    put_list(text, hints)
}
