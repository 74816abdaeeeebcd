ghost use Rattle.std.specs.Prelude.{◌≡◌, ◌≢◌, Err, nat_lt};
ghost use Rattle.std.specs.List.{list_all, list_any};
ghost use Rattle.gp_property.specs.Atoms.{atom_count};
ghost use Rattle.gp_property.specs.Checks.{all_end, are_defined, are_regions, are_well_used, checked_pattern, checked_regions, closers, has_too_many, is_begin_shape, is_defined, is_end_shape, is_number, is_region, is_well_used, is_wide, openers};

use crate::atoms::{PatternAtom, atoms_from};
use crate::fault::PropertyFault;
use crate::property::{EventDef, MOST_ATOMS, MOST_GROUPED, PatternStep, Shape};
use gp_text::Name;
use std::alloc::Global;

/// The numbers that a region may have.
const REGION_NUMBERS: [u8; 9] = [1, 2, 3, 4, 5, 6, 7, 8, 9];

/// The first rule that the pattern on the line of this number breaks, after its form is right.
#[tactic(auto, unfolding(crate::specs::Checks::checked_pattern))]
pub fn check_pattern(
    alloc: Global,
    number: u32,
    events: &[EventDef],
    pattern: &[PatternStep],
) -> Result<(), PropertyFault>
    ensures { result ≢ Err PropertyFault.Memory → result ≡ checked_pattern number events.now pattern.now }
{
    if has_too_many(pattern) {
        return Err(PropertyFault::TooManyAtoms(number));
    }
    if !are_defined(events, pattern) {
        return Err(PropertyFault::UnknownEvent(number));
    }
    let atoms = atoms_from(alloc, events, pattern)?;
    check_regions(number, atoms.as_slice())
}

fn check_regions(number: u32, atoms: &[PatternAtom]) -> Result<(), PropertyFault>
    ensures { result ≡ checked_regions number atoms.now }
{
    if are_well_used(atoms) {
        Ok(())
    } else {
        Err(PropertyFault::RegionUse(number))
    }
}

fn has_too_many(pattern: &[PatternStep]) -> bool
    ensures { result ≡ has_too_many pattern.now }
{
    has_more_atoms(pattern) || has_wide_step(pattern)
}

fn has_more_atoms(pattern: &[PatternStep]) -> bool
    ensures { result ≡ nat_lt 6 (atom_count pattern.now) }
{
    let mut left = MOST_ATOMS;
    for step in pattern {
        if step.atoms.len() > left {
            return true;
        }
        left -= step.atoms.len();
    }
    false
}

fn has_wide_step(pattern: &[PatternStep]) -> bool
    ensures { result ≡ list_any is_wide pattern.now }
{
    pattern.iter().any(|step| step.atoms.len() > MOST_GROUPED)
}

fn are_defined(events: &[EventDef], pattern: &[PatternStep]) -> bool
    ensures { result ≡ are_defined events.now pattern.now }
{
    pattern.iter().all(|step| are_defined_in(events, step))
}

fn are_defined_in(events: &[EventDef], step: &PatternStep) -> bool
    ensures { result ≡ list_all (λ atom. is_defined events.now atom.event) step.now.atoms }
{
    step.atoms
        .as_slice()
        .iter()
        .all(|atom| is_defined(events, &atom.event))
}

/// Whether an event of this name is defined.
pub fn is_defined(events: &[EventDef], name: &Name) -> bool
    ensures { result ≡ is_defined events.now name.now }
{
    events.iter().any(|event| event.name == *name)
}

fn are_well_used(atoms: &[PatternAtom]) -> bool
    ensures { result ≡ are_well_used atoms.now }
{
    REGION_NUMBERS
        .iter()
        .all(|number| is_well_used(atoms, *number))
}

fn is_well_used(atoms: &[PatternAtom], number: u8) -> bool
    ensures { result ≡ is_well_used atoms.now number }
{
    match (openers(atoms, number), closers(atoms, number)) {
        (0, 0) => true,
        (1, 1) => are_regions(atoms, number),
        _ => false,
    }
}

fn openers(atoms: &[PatternAtom], number: u8) -> usize
    ensures { result ≡ openers atoms.now number }
{
    atoms
        .iter()
        .filter(|atom| is_number(number, atom.opens))
        .count()
}

fn closers(atoms: &[PatternAtom], number: u8) -> usize
    ensures { result ≡ closers atoms.now number }
{
    atoms
        .iter()
        .filter(|atom| is_number(number, atom.closes))
        .count()
}

fn are_regions(atoms: &[PatternAtom], number: u8) -> bool
    ensures { result ≡ are_regions atoms.now number }
{
    atoms.iter().all(|opener| !is_number(number, opener.opens) || all_end(atoms, number, opener))
}

fn all_end(atoms: &[PatternAtom], number: u8, opener: &PatternAtom) -> bool
    ensures { result ≡ all_end atoms.now number opener.now }
{
    atoms.iter().all(|closer| !is_number(number, closer.closes) || is_region(opener, closer))
}

fn is_number(number: u8, mark: Option<u8>) -> bool
    ensures { result ≡ is_number number mark }
{
    match mark {
        Some(found) => found == number,
        None => false,
    }
}

fn is_region(opener: &PatternAtom, closer: &PatternAtom) -> bool
    ensures { result ≡ is_region opener.now closer.now }
{
    is_begin_shape(&opener.shape)
        && is_end_shape(&closer.shape)
        && opener.thread_var == closer.thread_var
        && opener.step < closer.step
}

fn is_begin_shape(shape: &Shape) -> bool
    ensures { result ≡ is_begin_shape shape.now }
{
    matches!(shape, Shape::Begin(_))
}

fn is_end_shape(shape: &Shape) -> bool
    ensures { result ≡ is_end_shape shape.now }
{
    matches!(shape, Shape::End(_))
}
