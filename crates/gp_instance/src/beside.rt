ghost use Rattle.std.specs.Prelude.{◌≡◌, ◌++◌, filter, length, IfOk, OnOk};
ghost use Rattle.std.specs.List.{list_all};
ghost use Rattle.std.specs.Option.{option_copied};
ghost use Rattle.gp_instance.specs.Instance.{agree, bindings_with, closes, is_at, is_same_mark};
ghost use Rattle.gp_instance.specs.Search.{agrees_along, all_agree, ends_region, keeps_thread, may_stand, narrowed, opens_region, rises_from, unless_dead};
ghost use Rattle.gp_instance.specs.Shape.{binding_of};

use crate::candidate::{agree, keep_id};
use crate::chosen::Chosen;
use crate::segments::Segments;
use crate::shape::{names_of, terms_of};
use gp_base::Row;
use gp_property::{PatternAtom, Shape, Term};
use gp_text::Name;
use gp_trace::Event;
use gp_window::EventId;
use std::alloc::{AllocError, Global};

/// For each later atom those of its events that may stand beside the chosen one, `None` where an
/// atom has none left.
pub fn narrowed(
    segments: &Segments,
    chosen: &Chosen,
    atoms: &[PatternAtom],
    domains: &[Row<EventId>],
) -> Result<Option<Row<Row<EventId>>>, AllocError>
    requires { length domains.now ≡ length atoms.now }
    ensures { IfOk result (λ kept. kept ≡ unless_dead (narrowed segments.now chosen.now atoms.now domains.now)) }
{
    let alloc = segments.alloc();
    let mut kept = Row::new(alloc);
    for (place, atom) in atoms.iter().enumerate() {
        let ids = beside(segments, chosen, atom, domains[place].as_slice())?;
        if ids.is_empty() {
            return Ok(None);
        }
        kept.push(ids)?;
    }
    Ok(Some(kept))
}

fn beside(
    segments: &Segments,
    chosen: &Chosen,
    atom: &PatternAtom,
    ids: &[EventId],
) -> Result<Row<EventId>, AllocError>
    ensures { IfOk result (λ kept. kept ≡ filter (may_stand segments.now chosen.now atom.now) ids.now) }
{
    let alloc = segments.alloc();
    let mut kept = Row::new(alloc);
    for id in ids {
        let keep = may_stand(segments, chosen, atom, *id);
        keep_id(&mut kept, *id, keep)?;
    }
    Ok(kept)
}

/// Whether an event of a later atom may stand beside the chosen one.
#[tactic(auto, unfolding(crate::specs::Search::may_stand))]
fn may_stand(segments: &Segments, chosen: &Chosen, atom: &PatternAtom, id: EventId) -> bool
    ensures { result ≡ may_stand segments.now chosen.now atom.now id }
{
    keeps_thread(chosen, atom, id)
        && chosen.id != id
        && rises_from(chosen, atom, id)
        && ends_region(chosen, atom, id)
        && opens_region(segments, chosen, atom, id)
        && all_agree(chosen.bindings.as_slice(), &atom.shape, segments.event(id))
}

fn keeps_thread(chosen: &Chosen, atom: &PatternAtom, id: EventId) -> bool
    ensures { result ≡ keeps_thread chosen.now atom.now id }
{
    let same = chosen.id.thread == id.thread;
    if chosen.thread_var == atom.thread_var {
        same
    } else {
        !same
    }
}

fn rises_from(chosen: &Chosen, atom: &PatternAtom, id: EventId) -> bool
    ensures { result ≡ rises_from chosen.now atom.now id }
{
    chosen.id.thread != id.thread || chosen.step == atom.step || chosen.id.index < id.index
}

fn ends_region(chosen: &Chosen, atom: &PatternAtom, id: EventId) -> bool
    ensures { result ≡ ends_region chosen.now atom.now id }
{
    !is_same_mark(chosen.opens, atom.closes)
        || (chosen.id.thread == id.thread && is_at(chosen.region_end, id.index))
}

fn opens_region(segments: &Segments, chosen: &Chosen, atom: &PatternAtom, id: EventId) -> bool
    ensures { result ≡ opens_region segments.now chosen.now atom.now id }
{
    !is_same_mark(atom.opens, chosen.closes) || closes(segments, id, chosen.id)
}

fn closes(segments: &Segments, begin: EventId, end: EventId) -> bool
    ensures { result ≡ closes segments.now begin end }
{
    begin.thread == end.thread && is_at(segments.end_of(begin), end.index)
}

/// Whether two marks have the same number.
pub fn is_same_mark(one: Option<u8>, other: Option<u8>) -> bool
    ensures { result ≡ is_same_mark one other }
{
    match (one, other) {
        (Some(one), Some(other)) => one == other,
        _ => false,
    }
}

fn is_at(found: Option<usize>, index: u32) -> bool
    ensures { result ≡ is_at found index }
{
    match found {
        Some(found) => found == index as usize,
        None => false,
    }
}

/// Whether the parameters of a shape stand for the same names in its event as these.
fn all_agree(bindings: &[(Name, Name)], shape: &Shape, event: Option<&Event>) -> bool
    ensures { result ≡ all_agree bindings.now (bindings_with shape.now (option_copied event.entry)) }
{
    match event {
        Some(event) => each_agrees(bindings, terms_of(shape), names_of(event)),
        None => true,
    }
}

fn each_agrees(bindings: &[(Name, Name)], terms: &[Term], names: &[Name]) -> bool
    ensures { result ≡ list_all (λ binding. agrees_along binding terms.now names.now) bindings.now }
{
    bindings
        .iter()
        .all(|binding| agrees_along(binding, terms, names))
}

fn agrees_along(binding: &(Name, Name), terms: &[Term], names: &[Name]) -> bool
    ensures { result ≡ agrees_along binding.now terms.now names.now }
{
    terms
        .iter()
        .zip(names)
        .all(|(term, name)| agrees_at(binding, term, name))
}

fn agrees_at(binding: &(Name, Name), term: &Term, name: &Name) -> bool
    ensures { result ≡ list_all (agree binding.now) (binding_of (term.now, name.now)) }
{
    match term {
        Term::Param(parameter) => agree(binding, &(*parameter, *name)),
        Term::Is(_) | Term::Any => true,
    }
}
