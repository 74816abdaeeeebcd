ghost use Rattle.std.specs.Prelude.{◌≡◌, ◌↔◌, IsTrue, true, slice_get};
ghost use Rattle.gp_search.specs.Bounds.{KeepsSome};
ghost use Rattle.gp_clause.specs.Kind.{bound_at};
ghost use Rattle.gp_search.specs.Inside.{all_kinds};

use crate::asked::Asked;
use gp_clause::{Edge, Kind, Lit};
use gp_difference::keeps;

// The kind of a variable, if it has one.
fn kind_of(asked: &Asked<'_>, variable: u32) -> Option<Kind>
    ensures { result ≡ slice_get (all_kinds asked.now.problem.now asked.now.query.now) variable }
{
    let place = variable as usize;
    let first = asked.problem.kinds.len();
    if place < first {
        asked.problem.kinds.as_slice().get(place).copied()
    } else {
        asked.query.locals.as_slice().get(place - first).copied()
    }
}

// What a literal says of the places.
pub(crate) fn bound(asked: &Asked<'_>, lit: Lit) -> Option<Edge>
    ensures { result ≡ bound_at (all_kinds asked.now.problem.now asked.now.query.now) lit }
{
    match kind_of(asked, lit.variable) {
        Some(kind) => kind.bound(lit.positive),
        None => None,
    }
}

// The side of a variable that the places keep already: its positive literal has a bound, and they keep it.
pub(crate) fn phase(asked: &Asked<'_>, places: &[i64], variable: u32) -> bool
    ensures { IsTrue result ↔ KeepsSome places.now (bound_at (all_kinds asked.now.problem.now asked.now.query.now) (record { variable = variable; positive = true })) }
{
    let lit = Lit {
        variable,
        positive: true,
    };
    match bound(asked, lit) {
        Some(edge) => keeps(places, edge),
        None => false,
    }
}
