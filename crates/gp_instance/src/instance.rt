ghost use Rattle.std.specs.Prelude.{◌≡◌, ◌≢◌, [], map, Err, IfOk};
ghost use Rattle.gp_instance.specs.Instances.{due_instances, numbered};
ghost use Rattle.gp_instance.specs.Search.{candidates_of, first_instances, search};

use crate::dead_ends::DeadEnds;
use crate::search::{first_domains, search};
use crate::segments::Segments;
use gp_base::Row;
use gp_property::{PatternAtom, Property, atoms_of};
use gp_window::{EventId, Window};
use std::alloc::{AllocError, Global};
use thiserror::Error;

/// The most instances of a property in a window that are listed.
pub const MOST_INSTANCES: usize = 10_000;

/// An instance of a property in a window.
#[derive(Drop)]
pub struct Instance {
    /// The number of the property in its file, from 0.
    pub property: u32,
    /// One event for each atom, in the order of the pattern.
    pub events: Row<EventId>,
}

/// Why the instances are not listed.
#[derive(Clone, Copy, Debug, PartialEq, Eq, Error)]
pub enum InstancesFault {
    /// There are more than 10,000.
    #[error("too many instances")]
    TooMany,
    #[error("out of memory")]
    Memory,
}

impl From<AllocError> for InstancesFault {
    ghost use Rattle.std.specs.Prelude.{◌≡◌};
    ghost use Rattle.gp_instance.specs.declared.instance.InstancesFault.TheVariants.{Memory};

    ghost from_gives = { λ _ e. e ≡ Memory };

    fn from(_error: AllocError) -> InstancesFault {
        InstancesFault::Memory
    }
}

/// All instances of a property in a window, in lexicographic order of their events by thread and
/// index; `number` is the number of the property.
///
/// This is a depth-first search with forward checking, over events that have partners: before it each
/// two atoms lose the events whose thread, place, region and parameters no event of the other fits, in
/// the order of n log n for n events. After each choice every later atom keeps only the events that
/// may stand beside those chosen, and a choice is given up at once after which an atom has none left,
/// some thread variables have fewer threads in all than they are, or just those events are left from
/// which nothing came before. It stops one instance past the limit. For a pattern of k atoms the worst
/// case is still of the order of n to the power of k, where what is left differs each time.
pub fn instances(
    alloc: Global,
    window: &Window,
    property: &Property,
    number: u32,
) -> Result<Row<Instance>, InstancesFault>
    ensures { result ≢ Err InstancesFault.Memory → result ≡ due_instances window.now property.now number }
{
    let atoms = atoms_of(alloc, property)?;
    let found = found(alloc, window, atoms.as_slice(), number)?;
    if found.len() > MOST_INSTANCES {
        return Err(InstancesFault::TooMany);
    }
    Ok(found)
}

/// The instances of a property with these atoms, up to one more than are listed.
fn found(
    alloc: Global,
    window: &Window,
    atoms: &[PatternAtom],
    number: u32,
) -> Result<Row<Instance>, AllocError>
    ensures { IfOk result (λ found. found ≡ first_instances [] (map (numbered number) (search window.now.segments atoms.now (map (candidates_of window.now.segments) atoms.now)))) }
{
    let mut found = Row::new(alloc);
    let segments = Segments::new(alloc, window)?;
    if let Some(domains) = first_domains(&segments, atoms)? {
        let mut dead_ends = DeadEnds::new(&segments, atoms);
        search(
            &mut dead_ends,
            number,
            atoms,
            domains.as_slice(),
            &[],
            &mut found,
        )?;
    }
    Ok(found)
}
