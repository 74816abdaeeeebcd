ghost use Rattle.std.specs.Prelude.{◌≡◌, ◌++◌, ◌<◌, ◌^◌, filter, map, if◌then◌else◌, ◌∷◌, [], IfOk, OnOk, length};
ghost use Rattle.std.specs.List.{list_all};
ghost use Rattle.std.specs.Option.{option_copied};
ghost use Rattle.gp_instance.specs.Instance.{bindings_with, fits_shape};
ghost use Rattle.gp_instance.specs.Instances.{ids_from, ids_in, ids_of};
ghost use Rattle.gp_instance.specs.Pairs.{all_pairs};
ghost use Rattle.gp_instance.specs.Instance.{agree};
ghost use Rattle.gp_instance.specs.Search.{candidates_of, is_candidate, unless_dead};

use crate::segments::Segments;
use crate::shape::{bindings_of, has_shape};
use gp_base::Row;
use gp_property::{PatternAtom, Shape};
use gp_text::Name;
use gp_trace::Event;
use gp_window::EventId;
use std::alloc::{AllocError, Global};

/// For each atom the events that it may stand for by itself, `None` where an atom has none.
pub fn candidates(
    segments: &Segments,
    atoms: &[PatternAtom],
) -> Result<Option<Row<Row<EventId>>>, AllocError>
    ensures { IfOk result (λ domains. domains ≡ unless_dead (map (candidates_of segments.now) atoms.now)) }
{
    let alloc = segments.alloc();
    let mut domains = Row::new(alloc);
    for atom in atoms {
        let ids = candidates_of(segments, atom)?;
        if ids.is_empty() {
            return Ok(None);
        }
        domains.push(ids)?;
    }
    Ok(Some(domains))
}

fn candidates_of(segments: &Segments, atom: &PatternAtom) -> Result<Row<EventId>, AllocError>
    ensures { IfOk result (λ ids. ids ≡ candidates_of segments.now atom.now) }
{
    let alloc = segments.alloc();
    let mut ids = Row::new(alloc);
    let threads = segments.threads();
    for (place, segment) in threads.iter().enumerate() {
        let thread = place as u32 + 1;
        add_candidates(segments, atom, thread, segment.as_slice(), &mut ids)?;
    }
    Ok(ids)
}

/// Adds those of a thread's events that the atom may stand for by itself.
fn add_candidates(
    segments: &Segments,
    atom: &PatternAtom,
    thread: u32,
    segment: &[Event],
    ids: &mut Row<EventId>,
) -> Result<(), AllocError>
    requires { length segment.now < 2 ^ 32 }
    ensures { OnOk result (ids.new ≡ ids.old ++ filter (is_candidate segments.now atom.now) (ids_in thread 0 segment.now)) }
{
    for (index, _event) in segment.iter().enumerate() {
        let id = EventId {
            thread,
            index: index as u32,
        };
        let keep = is_candidate(segments, atom, id)?;
        keep_id(ids, id, keep)?;
    }
    Ok(())
}

/// Adds an event where it is to be kept.
pub fn keep_id(ids: &mut Row<EventId>, id: EventId, keep: bool) -> Result<(), AllocError>
    ensures { OnOk result (ids.new ≡ ids.old ++ (if keep then id ∷ [] else [])) }
{
    if !keep {
        return Ok(());
    }
    ids.push(id)
}

#[tactic(auto, unfolding(crate::specs::Search::is_candidate))]
fn is_candidate(segments: &Segments, atom: &PatternAtom, id: EventId) -> Result<bool, AllocError>
    ensures { IfOk result (λ kept. kept ≡ is_candidate segments.now atom.now id) }
{
    let alloc = segments.alloc();
    let event = segments.event(id);
    if !fits_shape(&atom.shape, event) {
        return Ok(false);
    }
    let bindings = bindings_with(alloc, &atom.shape, event)?;
    Ok(all_pairs_agree(bindings.as_slice()))
}

fn fits_shape(shape: &Shape, event: Option<&Event>) -> bool
    ensures { result ≡ fits_shape shape.now (option_copied event.entry) }
{
    match event {
        Some(event) => has_shape(shape, event),
        None => false,
    }
}

/// What the parameters of an atom's shape stand for in its event.
pub fn bindings_with(
    alloc: Global,
    shape: &Shape,
    event: Option<&Event>,
) -> Result<Row<(Name, Name)>, AllocError>
    ensures { IfOk result (λ bindings. bindings ≡ bindings_with shape.now (option_copied event.entry)) }
{
    match event {
        Some(event) => bindings_of(alloc, shape, event),
        None => Ok(Row::new(alloc)),
    }
}

fn all_pairs_agree(bindings: &[(Name, Name)]) -> bool
    ensures { result ≡ all_pairs agree bindings.now }
{
    for (place, one) in bindings.iter().enumerate() {
        if !agree_with(one, &bindings[place + 1..]) {
            return false;
        }
    }
    true
}

/// Whether each parameter that is equal to this one stands for the same name.
fn agree_with(one: &(Name, Name), others: &[(Name, Name)]) -> bool
    ensures { result ≡ list_all (agree one.now) others.now }
{
    others.iter().all(|other| agree(one, other))
}

/// Whether two parameters, where they are equal, stand for the same name.
pub fn agree(one: &(Name, Name), other: &(Name, Name)) -> bool
    ensures { result ≡ agree one.now other.now }
{
    one.0 != other.0 || one.1 == other.1
}
