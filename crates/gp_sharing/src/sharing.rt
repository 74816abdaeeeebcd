ghost use Rattle.std.specs.Prelude.{◌≡◌, ◌+◌, ◌<◌, ◌^◌, [], IfOk, OnOk, length};
ghost use Rattle.gp_sharing.specs.Moving.{PlacesFit, first_own, front_of, place_of, with_certificate, with_moved, with_steps};

use crate::moving::{are_movable, moved_step, moves};
use crate::shared_list::SharedList;
use crate::sizes::Sizes;
use gp_certificate::Step;
use std::alloc::{AllocError, Global};

impl SharedList {
    /// Shares those steps of a certificate that move: each is put at the end, unless an equal one stands in the list.
    pub fn share(&mut self, alloc: Global, sizes: Sizes, steps: &[Step]) -> Result<(), AllocError>
        requires { sizes.clauses + length self.old + length steps.now < 2 ^ 31 }
        ensures { OnOk result (self.new ≡ with_certificate sizes self.old steps.now) }
    {
        if !are_movable(sizes.first_own(), steps) {
            return Ok(());
        }
        share_steps(alloc, sizes, self, front_of(steps))
    }
}

// All steps but the last.
pub(crate) fn front_of(steps: &[Step]) -> &[Step]
    ensures { result.now ≡ front_of steps.now }
{
    &steps[..steps.len().saturating_sub(1)]
}

fn share_steps(
    alloc: Global,
    sizes: Sizes,
    list: &mut SharedList,
    steps: &[Step],
) -> Result<(), AllocError>
    requires { sizes.clauses + length list.old + length steps.now < 2 ^ 31 }
    ensures { OnOk result (list.new ≡ with_steps sizes list.old [] steps.now) }
{
    let mut places = Vec::new(alloc);
    for step in steps {
        let place = share_step(alloc, sizes, list, places.as_slice(), step)?;
        places.push(place)?;
    }
    Ok(())
}

// Shares a step where it moves. Its place, where those before it have these.
fn share_step(
    alloc: Global,
    sizes: Sizes,
    list: &mut SharedList,
    places: &[Option<u32>],
    step: &Step,
) -> Result<Option<u32>, AllocError>
    requires few { length list.old < 2 ^ 31 }
    requires fit { PlacesFit sizes places.now }
    ensures list { OnOk result (list.new ≡ with_moved sizes list.old places.now step.now) }
    ensures place { IfOk result (λ place. place ≡ place_of sizes list.new places.now step.now) }
{
    if !moves(sizes, places, step) {
        return Ok(None);
    }
    let moved = moved_step(alloc, sizes, places, step)?;
    Ok(Some(list.add(alloc, moved)?))
}
