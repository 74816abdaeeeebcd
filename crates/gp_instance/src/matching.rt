ghost use Rattle.std.specs.Prelude.{◌≡◌, ◌↔◌, ◌+◌, ◌<◌, [], length, None, IfSome, IsTrue};
ghost use Rattle.std.specs.List.{list_all};
ghost use Rattle.gp_property.specs.Atoms.{atom_count};
ghost use Rattle.gp_instance.specs.Matches.{all_before, begins_with_group, follow, groups_of, is_before, is_before_all, matches_events, place_of, stands_together};
ghost use Rattle.gp_window.specs.Ids.{contains_event};

use crate::instance::Instance;
use gp_property::{PatternStep, Property};
use gp_window::{EventId, Schedule, contains_event};

/// Whether an instance has one event for each atom of a property.
pub fn is_one_for_each(property: &Property, instance: &Instance) -> bool
    ensures { IsTrue result ↔ (length instance.now.events ≡ atom_count property.now.pattern) }
{
    match left_after(instance.events.len(), property.pattern()) {
        Some(left) => left == 0,
        None => false,
    }
}

/// How many of so many events are left after one for each atom of a pattern, where there are enough.
fn left_after(events: usize, pattern: &[PatternStep]) -> Option<usize>
    ensures enough { IfSome result (λ left. left + atom_count pattern.now ≡ events) }
    ensures short { result ≡ None → events < atom_count pattern.now }
{
    let mut left = events;
    for step in pattern {
        if step.atoms.len() > left {
            return None;
        }
        left -= step.atoms.len();
    }
    Some(left)
}

/// Whether a schedule matches an instance: all its events are in the schedule, each event of a step
/// stands before each event of the next step, and the events of a group stand at neighbouring
/// places, in any order. The schedule is one in which no event stands twice.
pub fn matches(property: &Property, instance: &Instance, schedule: &Schedule) -> bool
    requires { length instance.now.events ≡ atom_count property.now.pattern }
    ensures { result ≡ matches_events property.now instance.now.events schedule.now.events }
{
    let pattern = property.pattern();
    let events = instance.events.as_slice();
    let schedule = schedule.events.as_slice();
    all_among(schedule, events)
        && are_in_order(pattern, events, schedule)
        && stand_together(pattern, events, schedule)
}

fn all_among(schedule: &[EventId], events: &[EventId]) -> bool
    ensures { result ≡ list_all (contains_event schedule.now) events.now }
{
    events.iter().all(|id| contains_event(schedule, *id))
}

/// Whether the steps follow one another in the schedule.
fn are_in_order(pattern: &[PatternStep], events: &[EventId], schedule: &[EventId]) -> bool
    requires { length events.now ≡ atom_count pattern.now }
    ensures { result ≡ follow schedule.now [] (groups_of pattern.now events.now) }
{
    let mut before: &[EventId] = &[];
    let mut rest = events;
    for step in pattern {
        let (group, more) = rest.split_at(step.atoms.len());
        if !all_before(schedule, before, group) {
            return false;
        }
        before = group;
        rest = more;
    }
    true
}

fn all_before(schedule: &[EventId], earlier: &[EventId], later: &[EventId]) -> bool
    ensures { result ≡ all_before schedule.now earlier.now later.now }
{
    earlier
        .iter()
        .all(|one| is_before_all(schedule, *one, later))
}

fn is_before_all(schedule: &[EventId], one: EventId, later: &[EventId]) -> bool
    ensures { result ≡ is_before_all schedule.now one later.now }
{
    later.iter().all(|other| is_before(place_of(schedule, one), place_of(schedule, *other)))
}

fn place_of(schedule: &[EventId], id: EventId) -> Option<usize>
    ensures { result ≡ place_of schedule.now id }
{
    schedule.iter().position(|other| *other == id)
}

fn is_before(earlier: Option<usize>, later: Option<usize>) -> bool
    ensures { result ≡ is_before earlier later }
{
    match (earlier, later) {
        (Some(earlier), Some(later)) => earlier < later,
        _ => false,
    }
}

/// Whether the events of each group stand next to one another in the schedule.
fn stand_together(pattern: &[PatternStep], events: &[EventId], schedule: &[EventId]) -> bool
    requires { length events.now ≡ atom_count pattern.now }
    ensures { result ≡ list_all (λ group. stands_together group schedule.now) (groups_of pattern.now events.now) }
{
    let mut rest = events;
    for step in pattern {
        let (group, more) = rest.split_at(step.atoms.len());
        if !stands_together(group, schedule) {
            return false;
        }
        rest = more;
    }
    true
}

fn stands_together(group: &[EventId], schedule: &[EventId]) -> bool
    ensures { result ≡ stands_together group.now schedule.now }
{
    for start in 0..schedule.len() {
        if begins_with_group(group, &schedule[start..]) {
            return true;
        }
    }
    group.is_empty()
}

fn begins_with_group(group: &[EventId], schedule: &[EventId]) -> bool
    ensures { result ≡ begins_with_group group.now schedule.now }
{
    group.len() <= schedule.len() && all_among(group, &schedule[..group.len()])
}
