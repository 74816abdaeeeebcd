ghost use Rattle.std.specs.Prelude.{◌≡◌, Ok, IfOk, map};
ghost use Rattle.gp_derivation.specs.Numbering.{moved, with_hints};
ghost use Rattle.gp_raise.specs.Raised.{raised};

use gp_base::Row;
use gp_certificate::{Certificate, Step};
use std::alloc::{AllocError, Global};

/// The certificate told over `gained` shared steps, which its problem of so many clauses numbers before its own. Numbers
/// that no longer fit 32 bits are want of memory, since as many steps as they count would not fit.
pub fn raise(
    alloc: Global,
    clauses: usize,
    gained: usize,
    certificate: Certificate,
) -> Result<Certificate, AllocError>
    ensures raised { IfOk result (λ made. made ≡ raised clauses gained certificate) }
    ensures untouched { gained ≡ 0 → result ≡ Ok certificate }
{
    if gained == 0 {
        return Ok(certificate);
    }
    let steps = raise_steps(alloc, clauses, gained, certificate.steps)?;
    Ok(Certificate { steps })
}

fn raise_steps(
    alloc: Global,
    clauses: usize,
    gained: usize,
    steps: Row<Step>,
) -> Result<Row<Step>, AllocError>
    ensures { IfOk result (λ made. made ≡ map (with_hints (moved clauses gained)) steps) }
{
    let mut made = Vec::new(alloc);
    for step in steps.into_vec() {
        made.push(raise_step(alloc, clauses, gained, step)?)?;
    }
    Ok(Row::from_vec(made))
}

fn raise_step(alloc: Global, clauses: usize, gained: usize, step: Step) -> Result<Step, AllocError>
    ensures { IfOk result (λ made. made ≡ with_hints (moved clauses gained) step) }
{
    let Step { clause, hints } = step;
    let mut made = Vec::new(alloc);
    for hint in hints.as_slice() {
        made.push(raise_hint(clauses, gained, *hint)?)?;
    }
    Ok(Step {
        clause,
        hints: Row::from_vec(made),
    })
}

fn raise_hint(clauses: usize, gained: usize, hint: u32) -> Result<u32, AllocError>
    ensures { IfOk result (λ made. made ≡ moved clauses gained hint) }
{
    if (hint as usize) < clauses {
        return Ok(hint);
    }
    let Ok(gained) = u32::try_from(gained) else {
        return Err(AllocError);
    };
    hint.checked_add(gained).ok_or(AllocError)
}
