ghost use Rattle.std.specs.Prelude.{◌≡◌, ◌<◌, ◌^◌, IfOk, nat_lt};
ghost use Rattle.std.specs.List.{list_all};
ghost use Rattle.gp_sharing.specs.Moving.{PlacesFit, are_movable, moved_step, moves, names_shared, place_at, rests_on_earlier, shared_number};

use crate::sizes::Sizes;
use gp_base::Row;
use gp_certificate::Step;
use gp_clause::Lit;
use std::alloc::{AllocError, Global};

// Whether the steps of a certificate may move, the first of which has this number.
pub(crate) fn are_movable(first: u64, steps: &[Step]) -> bool
    requires { first < 2 ^ 33 }
    ensures { result ≡ are_movable first steps.now }
{
    for (own, step) in steps.iter().enumerate() {
        if !rests_on_earlier(first + own as u64, step) {
            return false;
        }
    }
    true
}

fn rests_on_earlier(number: u64, step: &Step) -> bool
    ensures { result ≡ rests_on_earlier number step.now }
{
    let hints = step.hints.as_slice();
    !hints.is_empty() && are_below(number, hints)
}

fn are_below(number: u64, hints: &[u32]) -> bool
    ensures { result ≡ list_all (λ hint. nat_lt hint number) hints.now }
{
    hints.iter().all(|hint| u64::from(*hint) < number)
}

// Whether a step moves, where those before it have these places.
pub(crate) fn moves(sizes: Sizes, places: &[Option<u32>], step: &Step) -> bool
    ensures { result ≡ moves sizes places.now step.now }
{
    are_base_variables(sizes.variables, step.clause.lits())
        && all_name_shared(sizes, places, step.hints.as_slice())
}

fn are_base_variables(variables: u32, lits: &[Lit]) -> bool
    ensures { result ≡ list_all (λ lit. nat_lt lit.variable variables) lits.now }
{
    lits.iter().all(|lit| lit.variable < variables)
}

fn all_name_shared(sizes: Sizes, places: &[Option<u32>], hints: &[u32]) -> bool
    ensures { result ≡ list_all (names_shared sizes places.now) hints.now }
{
    hints.iter().all(|hint| names_shared(sizes, places, *hint))
}

fn names_shared(sizes: Sizes, places: &[Option<u32>], hint: u32) -> bool
    ensures { result ≡ names_shared sizes places.now hint }
{
    let first = sizes.first_own();
    let hint = u64::from(hint);
    hint < first || place_at(places, (hint - first) as usize).is_some()
}

// The place to which an own step moved.
fn place_at(places: &[Option<u32>], own: usize) -> Option<u32>
    ensures { result ≡ place_at places.now own }
{
    match places.get(own) {
        Some(place) => *place,
        None => None,
    }
}

// A step that moves, as it stands in the shared list.
pub(crate) fn moved_step(
    alloc: Global,
    sizes: Sizes,
    places: &[Option<u32>],
    step: &Step,
) -> Result<Step, AllocError>
    requires { PlacesFit sizes places.now }
    ensures { IfOk result (λ moved. moved ≡ moved_step sizes places.now step.now) }
{
    let mut hints = Vec::new(alloc);
    for hint in step.hints.as_slice() {
        hints.push(shared_number(sizes, places, *hint))?;
    }
    Ok(Step {
        clause: step.clause.clone()?,
        hints: Row::from_vec(hints),
    })
}

// The number in the shared list of what a hint names.
fn shared_number(sizes: Sizes, places: &[Option<u32>], hint: u32) -> u32
    requires { PlacesFit sizes places.now }
    ensures { result ≡ shared_number sizes places.now hint }
{
    let first = sizes.first_own();
    if u64::from(hint) < first {
        return hint;
    }
    let own = (u64::from(hint) - first) as usize;
    sizes.clauses + place_at(places, own).unwrap_or(0)
}
