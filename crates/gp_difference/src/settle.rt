ghost use Rattle.std.specs.Prelude.{◌≡◌, ℕ, ◌+◌, ◌^◌, ◌<◌, ◌≤◌, ◌⊎◌, pos, ◌+ℤ◌, ◌≤ℤ◌, length, false, All, MatchBool};
ghost use Rattle.gp_difference.specs.Places.{place_at};
ghost use Rattle.gp_difference.specs.Placement.{IsAtRest, StandsFrom};
ghost use Rattle.gp_difference.specs.Lower.{IsInput};
ghost use Rattle.gp_difference.specs.Settle.{SomeBelow, NoneIsBelow, RefreshGives, SettleGives};

use crate::bounds::Bounds;
use crate::lower::{Tried, try_edge};
use crate::placement::Placement;
use gp_clause::Edge;

/// Where a place is below this, the places are made anew.
const LOWEST: i64 = -(1 << 62);

/// Whether some place is below the limit.
pub fn any_below(places: &[i64], limit: i64) -> bool
    ensures { MatchBool result (SomeBelow places.now limit) (NoneIsBelow places.now limit) }
{
    for &place in places {
        if place < limit {
            return true;
        }
    }
    false
}

/// Makes the places anew where one was low before they moved, and says whether one is low now.
fn refresh(run: &mut Placement, low: bool) -> bool
    requires rest { IsAtRest run.old }
    requires few { length run.old.places ≤ 65536 }
    requires bottom { (v : ℕ) → pos 0 ≤ℤ (place_at run.old.places v +ℤ pos (2 ^ 62 + 2 ^ 29)) }
    requires top { (v : ℕ) → place_at run.old.places v ≤ℤ pos 0 }
    requires small { All (λ point. point < length run.old.places) run.old.fallen }
    requires others { low ≡ false → (v : ℕ) → StandsFrom run.old.fallen 0 v ⊎ (pos 0 ≤ℤ (place_at run.old.places v +ℤ pos (2 ^ 62))) }
    ensures gives { RefreshGives run.old.places run.new.places result low }
    ensures rest { IsAtRest run.new }
{
    if low {
        run.make_anew();
        return false;
    }
    run.fell_below(LOWEST)
}

/// Moves the places so that they keep the edge too, or gives the length of a walk that closes a negative cycle with
/// it. It visits the points that fall and the bounds out of them alone, unless a place was low.
pub fn settle(bounds: &Bounds, edge: Edge, run: &mut Placement, low: &mut bool) -> Option<usize>
    requires input { IsInput bounds.now.bounds edge run.old.places }
    requires points { bounds.now.points ≡ length run.old.places }
    requires low { low.old ≡ false → (v : ℕ) → pos 0 ≤ℤ (place_at run.old.places v +ℤ pos (2 ^ 62)) }
    requires rest { IsAtRest run.old }
    ensures gives { SettleGives bounds.now.bounds edge run.old.places low.old run.new.walk run.new.places low.new result }
    ensures size { length run.new.places ≡ length run.old.places }
    ensures rest { IsAtRest run.new }
{
    match try_edge(bounds, edge, run) {
        Tried::Closed(count) => Some(count),
        Tried::Unchanged => {
            if *low {
                run.make_anew();
                *low = false;
            }
            None
        }
        Tried::Lowered => {
            *low = refresh(run, *low);
            None
        }
    }
}
