ghost use Rattle.std.specs.Prelude.{◌≡◌, ◌+◌, ◌<◌, ◌≤◌, ◌^◌, [], ◌∷◌, ◌++◌, if◌then◌else◌, ℕ, true, IfOk, OnOk, All, drop, is_none, length, map, slice_index_or, unwrap_or};
ghost use Rattle.std.specs.Option.{option_map_or};
ghost use Rattle.gp_derivation.specs.Numbering.{with_hints};
ghost use Rattle.gp_sharing.specs.Moving.{PlacesFit, RoomFor, are_movable, by_numbers, compacted_steps, first_own, new_number, own_number, place_at, place_of, places_of, raised, staying};

use crate::moving::{are_movable, moved_step, moves};
use crate::shared_list::SharedList;
use crate::sharing::front_of;
use crate::sizes::Sizes;
use gp_base::Row;
use gp_certificate::Step;
use std::alloc::{AllocError, Global};

/// The steps of a certificate over the whole list, after it was shared: those that moved are left out, and all hints are
/// renumbered.
pub fn compact_steps(
    alloc: Global,
    sizes: Sizes,
    list: &SharedList,
    steps: Row<Step>,
) -> Result<Row<Step>, AllocError>
    requires { RoomFor sizes list.now (length steps) }
    ensures { IfOk result (λ made. made ≡ compacted_steps sizes list.now steps) }
{
    if are_movable(sizes.first_own(), steps.as_slice()) {
        return keep_staying(alloc, sizes, list, steps);
    }
    let gained = list.as_slice().len() as u32 - sizes.shared;
    raise_steps(alloc, sizes, gained, steps)
}

// The steps that stay, with their new numbers.
fn keep_staying(
    alloc: Global,
    sizes: Sizes,
    list: &SharedList,
    steps: Row<Step>,
) -> Result<Row<Step>, AllocError>
    requires few { sizes.clauses + length list.now + length steps < 2 ^ 32 }
    requires movable { are_movable (first_own sizes) steps ≡ true }
    ensures { IfOk result (λ made. made ≡ map (with_hints (new_number sizes (length list.now) (places_of sizes list.now steps))) (staying (places_of sizes list.now steps) steps)) }
{
    let places = places_of(alloc, sizes, list, steps.as_slice())?;
    let size = list.as_slice().len() as u32;
    let numbers = own_numbers(alloc, sizes, size, places.as_slice())?;
    renumber_staying(alloc, sizes, places.as_slice(), numbers.as_slice(), steps)
}

// The places of the steps of a certificate.
fn places_of(
    alloc: Global,
    sizes: Sizes,
    list: &SharedList,
    steps: &[Step],
) -> Result<Vec<Option<u32>>, AllocError>
    requires { sizes.clauses + length list.now < 2 ^ 32 }
    ensures places { IfOk result (λ places. places.items ≡ places_of sizes list.now steps.now) }
    ensures fit { IfOk result (λ places. PlacesFit sizes places.items) }
{
    let mut places = Vec::new(alloc);
    for step in front_of(steps) {
        let place = place_of(alloc, sizes, list, places.as_slice(), step)?;
        places.push(place)?;
    }
    Ok(places)
}

// The place of a step, where those before it have these.
fn place_of(
    alloc: Global,
    sizes: Sizes,
    list: &SharedList,
    places: &[Option<u32>],
    step: &Step,
) -> Result<Option<u32>, AllocError>
    requires { PlacesFit sizes places.now }
    ensures { IfOk result (λ place. place ≡ place_of sizes list.now places.now step.now) }
{
    if !moves(sizes, places, step) {
        return Ok(None);
    }
    let moved = moved_step(alloc, sizes, places, step)?;
    list.first_place(alloc, &moved)
}

// The new numbers of the own steps that have these places, over a shared list of this size.
fn own_numbers(
    alloc: Global,
    sizes: Sizes,
    size: u32,
    places: &[Option<u32>],
) -> Result<Vec<u32>, AllocError>
    requires fit { PlacesFit sizes places.now }
    requires few { sizes.clauses + size + length places.now < 2 ^ 32 }
    ensures count { IfOk result (λ numbers. length numbers.items ≡ length places.now) }
    ensures each { IfOk result (λ numbers. (own : ℕ) → own < length places.now → slice_index_or numbers.items own 0 ≡ own_number sizes size places.now own) }
{
    let mut numbers = Vec::new(alloc);
    let mut next = sizes.clauses + size;
    for place in places {
        numbers.push(number_at(sizes, *place, next))?;
        next = next_after(*place, next);
    }
    Ok(numbers)
}

// The number of a step with this place, or of the next one that stays.
fn number_at(sizes: Sizes, place: Option<u32>, next: u32) -> u32
    requires { sizes.clauses + unwrap_or place 0 < 2 ^ 32 }
    ensures { result ≡ option_map_or (λ at. sizes.clauses + at) place next }
{
    match place {
        Some(at) => sizes.clauses + at,
        None => next,
    }
}

fn next_after(place: Option<u32>, next: u32) -> u32
    requires { next + 1 < 2 ^ 32 }
    ensures { result ≡ next + (if is_none place then 1 else 0) }
{
    match place {
        Some(_at) => next,
        None => next + 1,
    }
}

// The steps that stay where the others have places, with hints by these numbers of the own steps.
fn renumber_staying(
    alloc: Global,
    sizes: Sizes,
    places: &[Option<u32>],
    numbers: &[u32],
    steps: Row<Step>,
) -> Result<Row<Step>, AllocError>
    requires movable { are_movable (first_own sizes) steps ≡ true }
    requires count { length steps ≤ length numbers.now + 1 }
    ensures { IfOk result (λ made. made ≡ map (with_hints (by_numbers sizes numbers.now)) (staying places.now steps)) }
{
    let mut made = Vec::new(alloc);
    let mut later = places;
    for step in steps.into_vec() {
        let (place, rest) = next_place(later);
        later = rest;
        keep(alloc, sizes, place, numbers, step, &mut made)?;
    }
    Ok(Row::from_vec(made))
}

// The place of the next step, and the later places.
fn next_place(places: &[Option<u32>]) -> (Option<u32>, &[Option<u32>])
    ensures place { result.0 ≡ place_at places.now 0 }
    ensures later { result.1.now ≡ drop 1 places.now }
{
    match places.split_first() {
        Some((place, later)) => (*place, later),
        None => (None, &[]),
    }
}

// Puts a step that has no place.
fn keep(
    alloc: Global,
    sizes: Sizes,
    place: Option<u32>,
    numbers: &[u32],
    step: Step,
    made: &mut Vec<Step>,
) -> Result<(), AllocError>
    requires { All (λ hint. hint < first_own sizes + length numbers.now) step.hints }
    ensures { OnOk result (made.new.items ≡ made.old.items ++ map (with_hints (by_numbers sizes numbers.now)) (staying (place ∷ []) (step ∷ []))) }
{
    match place {
        Some(_at) => Ok(()),
        None => {
            made.push(renumber(alloc, sizes, numbers, step)?)?;
            Ok(())
        }
    }
}

fn renumber(alloc: Global, sizes: Sizes, numbers: &[u32], step: Step) -> Result<Step, AllocError>
    requires { All (λ hint. hint < first_own sizes + length numbers.now) step.hints }
    ensures { IfOk result (λ made. made ≡ with_hints (by_numbers sizes numbers.now) step) }
{
    let Step { clause, hints } = step;
    let mut made = Vec::new(alloc);
    for hint in hints.as_slice() {
        made.push(by_numbers(sizes, numbers, *hint))?;
    }
    Ok(Step {
        clause,
        hints: Row::from_vec(made),
    })
}

fn by_numbers(sizes: Sizes, numbers: &[u32], hint: u32) -> u32
    requires { hint < first_own sizes + length numbers.now }
    ensures { result ≡ by_numbers sizes numbers.now hint }
{
    let first = sizes.first_own();
    if u64::from(hint) < first {
        return hint;
    }
    numbers[(u64::from(hint) - first) as usize]
}

// The steps of a certificate that is not movable, where the shared list gained so many.
fn raise_steps(
    alloc: Global,
    sizes: Sizes,
    gained: u32,
    steps: Row<Step>,
) -> Result<Row<Step>, AllocError>
    ensures { IfOk result (λ made. made ≡ map (with_hints (raised sizes gained)) steps) }
{
    let mut made = Vec::new(alloc);
    for step in steps.into_vec() {
        made.push(raise_step(alloc, sizes, gained, step)?)?;
    }
    Ok(Row::from_vec(made))
}

fn raise_step(alloc: Global, sizes: Sizes, gained: u32, step: Step) -> Result<Step, AllocError>
    ensures { IfOk result (λ made. made ≡ with_hints (raised sizes gained) step) }
{
    let Step { clause, hints } = step;
    let mut made = Vec::new(alloc);
    for hint in hints.as_slice() {
        made.push(raised(sizes, gained, *hint))?;
    }
    Ok(Step {
        clause,
        hints: Row::from_vec(made),
    })
}

fn raised(sizes: Sizes, gained: u32, hint: u32) -> u32
    ensures { result ≡ raised sizes gained hint }
{
    if u64::from(hint) < sizes.first_own() {
        return hint;
    }
    hint.checked_add(gained).unwrap_or(hint)
}
