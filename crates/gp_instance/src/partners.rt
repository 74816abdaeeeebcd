ghost use Rattle.std.specs.Prelude.{◌≡◌, ℕ, List, All, IfOk, OnOk, filter};
ghost use Rattle.gp_instance.specs.Partners.{Counts, IsHeld, across, is_bound, may_pair, reaches, reaches_some, span_at};

use crate::candidate::keep_id;
use crate::key::{Key, key_of, names_of_id};
use crate::link::{Link, Side, place_on};
use crate::segments::Segments;
use crate::span::{Span, widened};
use gp_base::Row;
use gp_text::Name;
use gp_window::EventId;
use std::alloc::AllocError;
use std::collections::BTreeMap;

/// The events of an atom, seen as partners of those of another one: for each key the first and the
/// last that has it.
#[derive(Drop)]
pub struct Partners {
    /// Some event lacks a name, so that every event may have it as a partner.
    pub free: bool,
    pub spans: BTreeMap<Key, Span>,
}

/// The events of the atom on this side, as partners of those of the other atom.
pub fn partners_of(
    segments: &Segments,
    link: &Link,
    side: Side,
    ids: &[EventId],
) -> Result<Partners, AllocError>
    ensures { IfOk result (λ partners. All (Counts segments.now link.now side partners) ids.now) }
{
    let alloc = segments.alloc();
    let mut partners = Partners {
        free: false,
        spans: BTreeMap::new(alloc),
    };
    for id in ids {
        add_partner(segments, link, side, *id, &mut partners)?;
    }
    Ok(partners)
}

fn add_partner(
    segments: &Segments,
    link: &Link,
    side: Side,
    id: EventId,
    partners: &mut Partners,
) -> Result<(), AllocError>
    ensures here { OnOk result (Counts segments.now link.now side partners.new id) }
    ensures kept { OnOk result ((other : EventId) → Counts segments.now link.now side partners.old other → Counts segments.now link.now side partners.new other) }
{
    if !is_bound(side, link.shared.as_slice(), names_of_id(segments, id)) {
        partners.free = true;
        return Ok(());
    }
    let key = key_of(segments, link, side, id)?;
    hold(&mut partners.spans, key, id)?;
    Ok(())
}

/// Takes an event into the span of its key.
fn hold(spans: &mut BTreeMap<Key, Span>, key: Key, id: EventId) -> Result<(), AllocError>
    ensures here { OnOk result (IsHeld spans.new key id) }
    ensures kept { OnOk result ((other_key : List ℕ) (other : EventId) → IsHeld spans.old other_key other → IsHeld spans.new other_key other) }
{
    let span = widened(span_at(spans, &key), id);
    spans.insert(key, span)?;
    Ok(())
}

fn span_at(spans: &BTreeMap<Key, Span>, key: &Key) -> Option<Span>
    ensures { result ≡ span_at spans.now key.now }
{
    spans.get(key).copied()
}

/// Whether an event has a name at each shared place.
fn is_bound(side: Side, shared: &[(usize, usize)], names: &[Name]) -> bool
    ensures { result ≡ is_bound side shared.now names.now }
{
    shared
        .iter()
        .all(|places| place_on(side, *places) < names.len())
}

/// Those of the events that may have a partner among these.
pub fn pairable(
    segments: &Segments,
    link: &Link,
    side: Side,
    ids: &[EventId],
    partners: &Partners,
) -> Result<Row<EventId>, AllocError>
    ensures { IfOk result (λ kept. kept ≡ filter (may_pair segments.now link.now side partners.now) ids.now) }
{
    let alloc = segments.alloc();
    let mut kept = Row::new(alloc);
    for id in ids {
        let keep = may_pair(segments, link, side, partners, *id)?;
        keep_id(&mut kept, *id, keep)?;
    }
    Ok(kept)
}

#[tactic(auto, unfolding(crate::specs::Partners::may_pair))]
fn may_pair(
    segments: &Segments,
    link: &Link,
    side: Side,
    partners: &Partners,
    id: EventId,
) -> Result<bool, AllocError>
    ensures { IfOk result (λ may. may ≡ may_pair segments.now link.now side partners.now id) }
{
    if !is_bound(side, link.shared.as_slice(), names_of_id(segments, id)) {
        return Ok(true);
    }
    let key = key_of(segments, link, side, id)?;
    let span = span_at(&partners.spans, &key);
    Ok(partners.free || reaches_some(link, side, id, span))
}

fn reaches_some(link: &Link, side: Side, id: EventId, span: Option<Span>) -> bool
    ensures { result ≡ reaches_some link.now side id span }
{
    match span {
        Some(span) => reaches(link, side, id, span),
        None => false,
    }
}

/// Whether some event of the span may stand beside an event of the atom on this side, by its thread
/// and its place in it.
fn reaches(link: &Link, side: Side, id: EventId, span: Span) -> bool
    ensures { result ≡ reaches link.now side id span }
{
    if !link.same_thread {
        return span.first.thread != id.thread || span.last.thread != id.thread;
    }
    if link.same_step {
        return span.first != id || span.last != id;
    }
    match side {
        Side::First => id.is_less(span.last),
        Side::Second => span.first.is_less(id),
    }
}
