ghost use Rattle.std.specs.Prelude.{◌≡◌, ◌^◌, ◌↔◌, IsTrue, pos, ◌+ℤ◌, ◌≤ℤ◌, ◌<ℤ◌};
ghost use Rattle.gp_clause.specs.Edge.{Keeps};
ghost use Rattle.gp_difference.specs.Places.{place_at};

use gp_clause::Edge;

/// Whether the places keep an edge. A point that has no place stands at 0.
pub fn keeps(places: &[i64], edge: Edge) -> bool
    ensures { IsTrue result ↔ Keeps (place_at places.now) edge }
{
    place_of(places, edge.a) - place_of(places, edge.b) <= i128::from(edge.c)
}

// The place of a point.
fn place_of(places: &[i64], point: u32) -> i128
    ensures place { result ≡ place_at places.now point }
    ensures low { pos 0 ≤ℤ (result +ℤ pos (2 ^ 63)) }
    ensures high { result <ℤ pos (2 ^ 63) }
{
    match places.get(point as usize) {
        Some(place) => i128::from(*place),
        None => 0,
    }
}
