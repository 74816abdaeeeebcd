ghost use Rattle.std.specs.Prelude.{◌≡◌, IfOk};
ghost use Rattle.gp_instance.specs.Search.{chosen_of, end_if_opened};

use crate::candidate::bindings_with;
use crate::segments::Segments;
use gp_base::Row;
use gp_property::PatternAtom;
use gp_text::Name;
use gp_window::EventId;
use std::alloc::AllocError;

/// An event that was chosen for an atom, with what the events of later atoms are tested against.
#[derive(Drop)]
pub struct Chosen {
    pub step: usize,
    pub thread_var: Name,
    pub opens: Option<u8>,
    pub closes: Option<u8>,
    pub id: EventId,
    /// The parameters of the atom with the names that they stand for.
    pub bindings: Row<(Name, Name)>,
    /// The index of the end of the region that the atom opens.
    pub region_end: Option<usize>,
}

/// This event, chosen for the atom.
pub fn chosen_of(segments: &Segments, atom: &PatternAtom, id: EventId) -> Result<Chosen, AllocError>
    ensures { IfOk result (λ chosen. chosen ≡ chosen_of segments.now atom.now id) }
{
    let alloc = segments.alloc();
    Ok(Chosen {
        step: atom.step,
        thread_var: atom.thread_var,
        opens: atom.opens,
        closes: atom.closes,
        id,
        bindings: bindings_with(alloc, &atom.shape, segments.event(id))?,
        region_end: end_if_opened(segments, atom.opens, id),
    })
}

fn end_if_opened(segments: &Segments, opens: Option<u8>, id: EventId) -> Option<usize>
    ensures { result ≡ end_if_opened segments.now opens id }
{
    match opens {
        Some(_) => segments.end_of(id),
        None => None,
    }
}
