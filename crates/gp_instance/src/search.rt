ghost use Rattle.std.specs.Prelude.{◌≡◌, ◌++◌, ◌∷◌, [], ◌≤◌, length, map, IfOk, OnOk};
ghost use Rattle.std.specs.List.{list_any};
ghost use Rattle.gp_instance.specs.DeadEnds.{last_of};
ghost use Rattle.gp_instance.specs.Instances.{numbered};
ghost use Rattle.gp_instance.specs.Search.{Leaves, candidates_of, chosen_of, first_instances, instance_after, is_dead, narrowed, search, unless_dead};

use crate::beside::narrowed;
use crate::candidate::candidates;
use crate::chosen::chosen_of;
use crate::dead_ends::DeadEnds;
use crate::instance::{Instance, MOST_INSTANCES};
use crate::segments::Segments;
use crate::thinning::thinned;
use crate::threads::unless_crowded;
use gp_base::Row;
use gp_property::PatternAtom;
use gp_window::EventId;
use std::alloc::{AllocError, Global};

/// Adds all instances that begin with the events of `front` and go on with events of each atom's
/// domain, until there is one more than are listed. What was left for the last atoms, and nothing came
/// of it, is not searched again.
pub fn search(
    dead_ends: &mut DeadEnds<'_>,
    number: u32,
    atoms: &[PatternAtom],
    domains: &[Row<EventId>],
    front: &[EventId],
    found: &mut Row<Instance>,
) -> Result<(), AllocError>
    requires same { length domains.now ≡ length atoms.now }
    requires last { last_of (length atoms.now) dead_ends.old.1 ≡ atoms.now }
    requires room { length found.old ≤ 10001 }
    ensures ends { OnOk result (dead_ends.new ≡ dead_ends.old) }
    ensures found { OnOk result (found.new ≡ first_instances found.old (map (instance_after number front.now) (search dead_ends.old.0 atoms.now domains.now))) }
{
    let alloc = dead_ends.segments().alloc();
    let Some((atom, later)) = atoms.split_first() else {
        return add(alloc, number, front, found);
    };
    let Some((ids, others)) = domains.split_first() else {
        return Ok(());
    };
    let ids = ids.as_slice();
    for id in ids {
        if found.len() > MOST_INSTANCES {
            return Ok(());
        }
        if let Some(left) = after_choice(dead_ends, atom, *id, later, others)? {
            let longer = extended(alloc, front, *id)?;
            let before = found.len();
            search(
                dead_ends,
                number,
                later,
                left.as_slice(),
                longer.as_slice(),
                found,
            )?;
            if found.len() == before {
                dead_ends.keep(left)?;
            }
        }
    }
    Ok(())
}

/// For each atom the events with which the search begins, `None` where that leaves no instance.
pub fn first_domains(
    segments: &Segments,
    atoms: &[PatternAtom],
) -> Result<Option<Row<Row<EventId>>>, AllocError>
    ensures { IfOk result (λ left. Leaves segments.now atoms.now (map (candidates_of segments.now) atoms.now) left) }
{
    let alloc = segments.alloc();
    match thin_candidates(segments, atoms)? {
        Some(domains) => unless_crowded(alloc, atoms, domains),
        None => Ok(None),
    }
}

/// For each atom the events that it may stand for by itself and that have partners, `None` where an
/// atom has none.
fn thin_candidates(
    segments: &Segments,
    atoms: &[PatternAtom],
) -> Result<Option<Row<Row<EventId>>>, AllocError>
    ensures { IfOk result (λ left. Leaves segments.now atoms.now (map (candidates_of segments.now) atoms.now) left) }
{
    let found = candidates(segments, atoms)?;
    let Some(domains) = found else {
        return Ok(None);
    };
    let thin = thinned(segments, atoms, domains)?;
    Ok(unless_dead(thin))
}

/// The events of each atom, where each atom has one.
fn unless_dead(domains: Row<Row<EventId>>) -> Option<Row<Row<EventId>>>
    ensures { result ≡ unless_dead domains }
{
    if some_dead(domains.as_slice()) {
        return None;
    }
    Some(domains)
}

fn some_dead(domains: &[Row<EventId>]) -> bool
    ensures { result ≡ list_any is_dead domains.now }
{
    domains.iter().any(|ids| ids.is_empty())
}

/// What is left for each later atom after this choice, `None` where an atom has nothing left, or it is
/// known that nothing comes of it.
fn after_choice(
    dead_ends: &DeadEnds<'_>,
    atom: &PatternAtom,
    id: EventId,
    later: &[PatternAtom],
    others: &[Row<EventId>],
) -> Result<Option<Row<Row<EventId>>>, AllocError>
    requires same { length others.now ≡ length later.now }
    requires last { last_of (length later.now) dead_ends.now.1 ≡ later.now }
    ensures { IfOk result (λ left. Leaves dead_ends.now.0 later.now (narrowed dead_ends.now.0 (chosen_of dead_ends.now.0 atom.now id) later.now others.now) left) }
{
    let segments = dead_ends.segments();
    let left = alive_after(segments, atom, id, later, others)?;
    Ok(dead_ends.unless_met(left))
}

/// What is left for each later atom after this choice, `None` where an atom has nothing left.
fn alive_after(
    segments: &Segments,
    atom: &PatternAtom,
    id: EventId,
    later: &[PatternAtom],
    others: &[Row<EventId>],
) -> Result<Option<Row<Row<EventId>>>, AllocError>
    requires { length others.now ≡ length later.now }
    ensures { IfOk result (λ left. Leaves segments.now later.now (narrowed segments.now (chosen_of segments.now atom.now id) later.now others.now) left) }
{
    let alloc = segments.alloc();
    let chosen = chosen_of(segments, atom, id)?;
    match narrowed(segments, &chosen, later, others)? {
        Some(left) => unless_crowded(alloc, later, left),
        None => Ok(None),
    }
}

fn extended(alloc: Global, front: &[EventId], id: EventId) -> Result<Row<EventId>, AllocError>
    ensures { IfOk result (λ longer. longer ≡ front.now ++ id ∷ []) }
{
    let mut longer = Row::from_vec(Vec::from_slice(alloc, front)?);
    longer.push(id)?;
    Ok(longer)
}

/// Adds the instance of these events, where there is room.
#[tactic(auto, using(crate::specs::LimitLaws::one_more))]
fn add(
    alloc: Global,
    number: u32,
    events: &[EventId],
    found: &mut Row<Instance>,
) -> Result<(), AllocError>
    requires { length found.old ≤ 10001 }
    ensures { OnOk result (found.new ≡ first_instances found.old (numbered number events.now ∷ [])) }
{
    if found.len() > MOST_INSTANCES {
        return Ok(());
    }
    found.push(Instance {
        property: number,
        events: Row::from_vec(Vec::from_slice(alloc, events)?),
    })
}
