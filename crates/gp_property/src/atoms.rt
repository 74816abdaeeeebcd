ghost use Rattle.std.specs.Prelude.{◌≡◌, ◌++◌, IfOk, OnOk, flat_map, option_map};
ghost use Rattle.gp_property.specs.Atoms.{atoms_from, atoms_of, placed, placed_with, shape_named};

use crate::property::{Atom, EventDef, PatternStep, Property, Shape};
use gp_base::Row;
use gp_text::Name;
use std::alloc::{AllocError, Global};

/// An atom of a pattern with its place there, and with what its event has to be like.
#[derive(Drop)]
pub struct PatternAtom {
    /// The number of its step, from 0.
    pub step: usize,
    pub shape: Shape,
    pub thread_var: Name,
    /// The number of the region that it opens.
    pub opens: Option<u8>,
    /// The number of the region that it closes.
    pub closes: Option<u8>,
}

/// The atoms of a property, in the order of its pattern.
pub fn atoms_of(alloc: Global, property: &Property) -> Result<Row<PatternAtom>, AllocError>
    ensures { IfOk result (λ atoms. atoms ≡ atoms_of property.now) }
{
    atoms_from(alloc, property.events(), property.pattern())
}

/// The atoms of these steps whose events are defined, in order.
pub fn atoms_from(
    alloc: Global,
    events: &[EventDef],
    pattern: &[PatternStep],
) -> Result<Row<PatternAtom>, AllocError>
    ensures { IfOk result (λ atoms. atoms ≡ atoms_from events.now 0 pattern.now) }
{
    let mut atoms = Row::new(alloc);
    for (number, step) in pattern.iter().enumerate() {
        add_step(&mut atoms, events, number, step.atoms.as_slice())?;
    }
    Ok(atoms)
}

fn add_step(
    row: &mut Row<PatternAtom>,
    events: &[EventDef],
    step: usize,
    atoms: &[Atom],
) -> Result<(), AllocError>
    ensures { OnOk result (row.new ≡ row.old ++ flat_map (placed events.now step) atoms.now) }
{
    for atom in atoms {
        add_atom(row, step, atom, shape_named(events, &atom.event))?;
    }
    Ok(())
}

fn add_atom(
    row: &mut Row<PatternAtom>,
    step: usize,
    atom: &Atom,
    shape: Option<&Shape>,
) -> Result<(), AllocError>
    ensures { OnOk result (row.new ≡ row.old ++ placed_with step atom.now (option_map (λ s. s.now) shape.entry)) }
{
    match shape {
        Some(shape) => row.push(PatternAtom {
            step,
            shape: shape.clone()?,
            thread_var: atom.thread_var,
            opens: atom.opens,
            closes: atom.closes,
        }),
        None => Ok(()),
    }
}

fn shape_named<'a>(events: &'a [EventDef], name: &Name) -> Option<&'a Shape>
    ensures { option_map (λ shape. shape.now) result ≡ shape_named events.now name.now }
{
    for event in events {
        if event.name == *name {
            return Some(&event.shape);
        }
    }
    None
}
