ghost use Rattle.std.specs.Prelude.{◌≡◌, IsTrue, List, length, zip};
ghost use Rattle.std.specs.Cmp.Lexicographic.{pointwise};
ghost use Rattle.std.specs.List.{list_all};
ghost use Rattle.gp_window.specs.Ids.{is_same};
ghost use Rattle.gp_instance.specs.DeadEnds.{IsDeadEnd, last_of};
ghost use Rattle.gp_instance.specs.Search.{Leaves};

use crate::segments::Segments;
use gp_base::Row;
use gp_property::PatternAtom;
use gp_window::EventId;
use std::alloc::AllocError;
use std::marker::Model;

/// The most dead ends that are kept, whose sums are all looked at for each choice.
const MOST_DEAD_ENDS: usize = 4_096;

/// The most events that they have in all, of 8 bytes each.
const MOST_EVENTS: usize = 1_048_576;

/// The prime of the hash of Fowler, Noll and Vo for 64 bits.
const PRIME: u64 = 1_099_511_628_211;

/// The dead ends that a search for the instances of a pattern met: the events that were left for each of its last atoms, where no
/// choice of them completes an instance. They are the nogoods of constraint search (Dechter, *Enhancement schemes for constraint
/// processing: backjumping, learning, and cutset decomposition*, 1990), told by what is left and not by what was chosen. Contracts see
/// the events of the window and the atoms of the pattern.
#[derive(Drop)]
pub struct DeadEnds<'a> {
    segments: &'a Segments<'a>,
    atoms: &'a [PatternAtom],
    met: Row<DeadEnd>,
    /// How many events there is room for.
    room: usize,
}

/// The events that were left for each of the last atoms, with a sum of them that tells most others apart.
#[derive(Drop)]
pub struct DeadEnd {
    pub sum: u64,
    pub domains: Row<Row<EventId>>,
}

impl<'a> Model for DeadEnds<'a> {
    ghost use Rattle.std.specs.Prelude.{All, List};
    ghost use Rattle.gp_trace.specs.declared.event.Event.{Event};
    ghost use Rattle.gp_property.specs.declared.atoms.PatternAtom.{PatternAtom};
    ghost use Rattle.gp_instance.specs.DeadEnds.{IsDeadEnd};

    ghost Value = { List (List Event) × List PatternAtom };

    ghost view = { λ ends. (ends.segments.now, ends.atoms.now) };

    ghost invariant = { λ ends. All (λ met. IsDeadEnd ends.segments.now ends.atoms.now met.domains) ends.met };
}

impl<'a> DeadEnds<'a> {
    /// None is met yet.
    pub fn new(segments: &'a Segments<'a>, atoms: &'a [PatternAtom]) -> DeadEnds<'a>
        ensures { result ≡ (segments.now, atoms.now) }
    {
        DeadEnds {
            segments,
            atoms,
            met: Row::new(segments.alloc()),
            room: MOST_EVENTS,
        }
    }

    pub fn segments(&self) -> &'a Segments<'a>
        ensures { result.now ≡ self.now.0 }
    {
        self.segments
    }

    /// What is left for the last atoms, where it is no dead end that was met, in the time of those that are kept and of the events of
    /// those that leave as much.
    pub fn unless_met(&self, left: Option<Row<Row<EventId>>>) -> Option<Row<Row<EventId>>>
        ensures { (atoms : List PatternAtom) (due : List (List EventId)) → last_of (length atoms) self.now.1 ≡ atoms
            → Leaves self.now.0 atoms due left → Leaves self.now.0 atoms due result }
    {
        let domains = left?;
        if self.has(domains.as_slice()) {
            return None;
        }
        Some(domains)
    }

    fn has(&self, domains: &[Row<EventId>]) -> bool
        ensures { IsTrue result → IsDeadEnd self.now.0 self.now.1 domains.now }
    {
        let sum = sum_of(domains);
        self.met.as_slice().iter().any(|met| met.sum == sum
            && are_same(met.domains.as_slice(), domains))
    }

    /// Keeps a dead end, where there is room for one more.
    pub fn keep(&mut self, domains: Row<Row<EventId>>) -> Result<(), AllocError>
        requires { IsDeadEnd self.old.0 self.old.1 domains }
        ensures { self.new ≡ self.old }
    {
        let Some(room) = self.room.checked_sub(count_of(domains.as_slice())) else {
            return Ok(());
        };
        if self.met.len() >= MOST_DEAD_ENDS {
            return Ok(());
        }
        self.room = room;
        let sum = sum_of(domains.as_slice());
        self.met.push(DeadEnd { sum, domains })
    }
}

/// How many events these are, as far as there are numbers.
fn count_of(domains: &[Row<EventId>]) -> usize {
    let mut count = 0usize;
    for ids in domains {
        count = count.saturating_add(ids.len());
    }
    count
}

/// A sum of the events that are left for each atom.
fn sum_of(domains: &[Row<EventId>]) -> u64 {
    let mut sum = domains.len() as u64;
    for ids in domains {
        sum = sum_on(sum, ids.as_slice());
    }
    sum
}

/// A sum with these events too.
fn sum_on(before: u64, ids: &[EventId]) -> u64 {
    let mut sum = (before ^ ids.len() as u64).wrapping_mul(PRIME);
    for id in ids {
        sum = (sum ^ id.thread as u64).wrapping_mul(PRIME);
        sum = (sum ^ id.index as u64).wrapping_mul(PRIME);
    }
    sum
}

/// Whether the same events, in the same order, are left for each atom.
fn are_same(ones: &[Row<EventId>], others: &[Row<EventId>]) -> bool
    ensures { IsTrue result → ones.now ≡ others.now }
{
    ones.len() == others.len() && have_same_events(ones, others)
}

fn have_same_events(ones: &[Row<EventId>], others: &[Row<EventId>]) -> bool
    ensures { result ≡ list_all (λ pair. pointwise is_same pair.0 pair.1) (zip ones.now others.now) }
{
    ones.iter()
        .zip(others)
        .all(|(one, other)| are_equal(one.as_slice(), other.as_slice()))
}

fn are_equal(ones: &[EventId], others: &[EventId]) -> bool
    ensures { result ≡ pointwise is_same ones.now others.now }
{
    ones == others
}
