ghost use Rattle.std.specs.Prelude.{◌≡◌, ◌<◌, IfOk, OnOk, length};
ghost use Rattle.gp_instance.specs.Partners.{IsLink, KeepsPartnered, has_partner};
ghost use Rattle.gp_instance.specs.Search.{FindsSame};

use crate::link::{Link, Side, across, link_of};
use crate::partners::{pairable, partners_of};
use crate::segments::Segments;
use gp_base::Row;
use gp_property::PatternAtom;
use gp_window::EventId;
use std::alloc::AllocError;

/// The events of each atom without those that have no partner among the events of some other atom.
/// That is done for each two atoms, in rounds, until a round takes nothing out, or there were as many
/// rounds as atoms.
pub fn thinned(
    segments: &Segments,
    atoms: &[PatternAtom],
    domains: Row<Row<EventId>>,
) -> Result<Row<Row<EventId>>, AllocError>
    requires { length domains ≡ length atoms.now }
    ensures { IfOk result (λ thin. FindsSame segments.now atoms.now domains thin) }
{
    let mut thin = domains;
    for _round in 0..atoms.len() {
        if !thin_round(segments, atoms, &mut thin)? {
            return Ok(thin);
        }
    }
    Ok(thin)
}

/// Thins by each two atoms, and tells whether an event was taken out.
fn thin_round(
    segments: &Segments,
    atoms: &[PatternAtom],
    domains: &mut Row<Row<EventId>>,
) -> Result<bool, AllocError>
    requires { length domains.old ≡ length atoms.now }
    ensures { OnOk result (FindsSame segments.now atoms.now domains.old domains.new) }
{
    let mut taken = false;
    for second in 0..atoms.len() {
        let some = thin_before(segments, atoms, second, domains)?;
        taken = taken || some;
    }
    Ok(taken)
}

/// Thins by this atom and each earlier one.
fn thin_before(
    segments: &Segments,
    atoms: &[PatternAtom],
    second: usize,
    domains: &mut Row<Row<EventId>>,
) -> Result<bool, AllocError>
    requires below { second < length atoms.now }
    requires long { length domains.old ≡ length atoms.now }
    ensures { OnOk result (FindsSame segments.now atoms.now domains.old domains.new) }
{
    let mut taken = false;
    for first in 0..second {
        let earlier = thin_first(segments, atoms, (first, second), domains)?;
        let later = thin_second(segments, atoms, (first, second), domains)?;
        taken = taken || earlier || later;
    }
    Ok(taken)
}

/// Takes those of the first atom's events out that have no partner among those of the second.
fn thin_first(
    segments: &Segments,
    atoms: &[PatternAtom],
    places: (usize, usize),
    domains: &mut Row<Row<EventId>>,
) -> Result<bool, AllocError>
    requires order { places.0 < places.1 }
    requires below { places.1 < length atoms.now }
    requires long { length domains.old ≡ length atoms.now }
    ensures { OnOk result (FindsSame segments.now atoms.now domains.old domains.new) }
{
    let alloc = segments.alloc();
    let first = places.0;
    let second = places.1;
    let link = link_of(alloc, &atoms[first], &atoms[second])?;
    let rows = domains.as_slice();
    let ids = rows[first].as_slice();
    let others = rows[second].as_slice();
    let kept = with_partners(segments, &link, Side::First, ids, others)?;
    let taken = kept.len() < ids.len();
    domains.set(first, kept);
    Ok(taken)
}

/// Takes those of the second atom's events out that have no partner among those of the first.
fn thin_second(
    segments: &Segments,
    atoms: &[PatternAtom],
    places: (usize, usize),
    domains: &mut Row<Row<EventId>>,
) -> Result<bool, AllocError>
    requires order { places.0 < places.1 }
    requires below { places.1 < length atoms.now }
    requires long { length domains.old ≡ length atoms.now }
    ensures { OnOk result (FindsSame segments.now atoms.now domains.old domains.new) }
{
    let alloc = segments.alloc();
    let first = places.0;
    let second = places.1;
    let link = link_of(alloc, &atoms[first], &atoms[second])?;
    let rows = domains.as_slice();
    let ids = rows[second].as_slice();
    let others = rows[first].as_slice();
    let kept = with_partners(segments, &link, Side::Second, ids, others)?;
    let taken = kept.len() < ids.len();
    domains.set(second, kept);
    Ok(taken)
}

/// Those of an atom's events that may have a partner among those of the other atom.
fn with_partners(
    segments: &Segments,
    link: &Link,
    side: Side,
    ids: &[EventId],
    others: &[EventId],
) -> Result<Row<EventId>, AllocError>
    ensures { IfOk result (λ kept. (first second : PatternAtom) → IsLink first second link.now → KeepsPartnered (has_partner segments.now first second side others.now) ids.now kept) }
{
    let partners = partners_of(segments, link, across(side), others)?;
    pairable(segments, link, side, ids, &partners)
}
