ghost use Rattle.std.specs.Prelude.{◌≡◌, ◌≤◌, IfOk, length};
ghost use Rattle.gp_analysis.specs.Runs.{PartAll};

use std::alloc::{AllocError, Global};

// Neighbouring windows: the number of the first, and how many they are.
#[derive(Clone, Copy)]
pub(crate) struct Run {
    pub(crate) first: u32,
    pub(crate) count: u32,
}

// So many windows, parted into so many runs. No run has two windows more than another.
pub(crate) fn runs_of(alloc: Global, epochs: u32, count: u32) -> Result<Vec<Run>, AllocError>
    requires count { (1 ≤ count) × (count ≤ epochs) }
    requires epochs { epochs ≤ 4096 }
    ensures len { IfOk result (λ runs. length runs.items ≡ count) }
    ensures parted { IfOk result (λ runs. PartAll epochs runs.items) }
{
    let mut runs = Vec::new(alloc);
    let mut first = 1;
    for made in 0..count {
        let left = epochs + 1 - first;
        let own = left / (count - made);
        runs.push(Run { first, count: own })?;
        first += own;
    }
    Ok(runs)
}
