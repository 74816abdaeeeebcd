ghost use Rattle.std.specs.Prelude.{◌≡◌, ◌++◌, IfOk, OnOk, slice_get};
ghost use Rattle.gp_window.specs.Events.{event_in};
ghost use Rattle.gp_instance.specs.Partners.{index_part, key_of, name_part, names_with, region_index, shared_names, thread_index};

use crate::link::{Link, Side, opener, place_on};
use crate::segments::Segments;
use crate::shape::names_of;
use gp_base::Row;
use gp_text::Name;
use gp_window::EventId;
use std::alloc::AllocError;
use std::cmp::Ordering;
use std::marker::Model;

/// What an event and its partner have in common, as a row of numbers.
#[derive(Drop)]
pub struct Key {
    numbers: Row<usize>,
}

impl Model for Key {
    ghost use Rattle.std.specs.Prelude.{List, ℕ};

    ghost Value = { List ℕ };

    ghost view = { λ key. key.numbers };
}

impl PartialEq for Key {
    ghost use Rattle.std.specs.Prelude.{nat_eq};
    ghost use Rattle.std.specs.Cmp.{partial_equiv_from_equiv};
    ghost use Rattle.std.specs.Cmp.Lexicographic.{pointwise, nat_list_eq_equiv};

    ghost eq = { pointwise nat_eq };

    ghost laws = { partial_equiv_from_equiv nat_list_eq_equiv };

    fn eq(&self, other: &Key) -> bool {
        self.numbers.as_slice() == other.numbers.as_slice()
    }
}

impl Eq for Key {
    ghost use Rattle.std.specs.Cmp.Lexicographic.{nat_list_eq_equiv};

    ghost laws = { nat_list_eq_equiv };
}

impl Ord for Key {
    ghost use Rattle.std.specs.Ordering.{nat_cmp};
    ghost use Rattle.std.specs.Cmp.Lexicographic.{slice_cmp, nat_list_cmp_total};
    ghost use Rattle.std.specs.Cmp.Rules.{comparing};
    ghost use Rattle.std.proofs.Common.{rules};

    ghost cmp = { slice_cmp nat_cmp };

    ghost total = { nat_list_cmp_total };

    ghost matches_partial_cmp = { Prim.search (comparing, rules) };

    ghost matches_eq = { Prim.search (comparing, rules) };

    fn cmp(&self, other: &Key) -> Ordering {
        self.numbers.as_slice().cmp(other.numbers.as_slice())
    }
}

impl PartialOrd for Key {
    ghost use Rattle.std.specs.Ordering.{as_partial_cmp, nat_cmp};
    ghost use Rattle.std.specs.Cmp.Lexicographic.{slice_cmp, texts_po};

    ghost partial_cmp = { as_partial_cmp (slice_cmp nat_cmp) };

    ghost laws = { texts_po };

    fn partial_cmp(&self, other: &Key) -> Option<Ordering> {
        Some(self.cmp(other))
    }
}

/// What an event of the atom on this side has in common with its partners: the thread, where the
/// thread variables are equal; the end of the region, where one atom closes what the other opens; and
/// what each shared parameter stands for.
#[tactic(auto, unfolding(crate::specs::Partners::key_of))]
pub fn key_of(segments: &Segments, link: &Link, side: Side, id: EventId) -> Result<Key, AllocError>
    ensures { IfOk result (λ key. key ≡ key_of segments.now link.now side id) }
{
    let alloc = segments.alloc();
    let mut numbers = Row::new(alloc);
    add_index(&mut numbers, thread_index(link.same_thread, id))?;
    add_index(&mut numbers, region_index(segments, opener(link), side, id))?;
    add_names(
        &mut numbers,
        side,
        link.shared.as_slice(),
        names_of_id(segments, id),
    )?;
    Ok(Key { numbers })
}

/// The names of an event, where there is one.
pub fn names_of_id<'a>(segments: &'a Segments<'_>, id: EventId) -> &'a [Name]
    ensures { result.now ≡ names_with (event_in segments.now id) }
{
    match segments.event(id) {
        Some(event) => names_of(event),
        None => &[],
    }
}

fn thread_index(same_thread: bool, id: EventId) -> Option<usize>
    ensures { result ≡ thread_index same_thread id }
{
    if same_thread {
        Some(id.thread as usize)
    } else {
        None
    }
}

/// The index of the end of the region that one of two atoms opens and the other closes.
fn region_index(segments: &Segments, opener: Option<Side>, side: Side, id: EventId) -> Option<usize>
    ensures { result ≡ region_index segments.now opener side id }
{
    match (opener?, side) {
        (Side::First, Side::First) | (Side::Second, Side::Second) => { segments.end_of(id) }
        (Side::First, Side::Second) | (Side::Second, Side::First) => Some(id.index as usize),
    }
}

fn add_index(numbers: &mut Row<usize>, index: Option<usize>) -> Result<(), AllocError>
    ensures { OnOk result (numbers.new ≡ numbers.old ++ index_part index) }
{
    match index {
        Some(index) => numbers.push(index),
        None => Ok(()),
    }
}

/// Adds the names at the shared places, each closed by a zero.
fn add_names(
    numbers: &mut Row<usize>,
    side: Side,
    shared: &[(usize, usize)],
    names: &[Name],
) -> Result<(), AllocError>
    ensures { OnOk result (numbers.new ≡ numbers.old ++ shared_names side shared.now names.now) }
{
    for places in shared {
        add_name(numbers, names, place_on(side, *places))?;
    }
    Ok(())
}

/// Adds the name at a place, where there is one, and a zero.
fn add_name(numbers: &mut Row<usize>, names: &[Name], place: usize) -> Result<(), AllocError>
    ensures { OnOk result (numbers.new ≡ numbers.old ++ name_part (slice_get names.now place)) }
{
    let Some(name) = names.get(place) else {
        return Ok(());
    };
    add_bytes(numbers, name.as_bytes())?;
    numbers.push(0)
}

fn add_bytes(numbers: &mut Row<usize>, bytes: &[u8]) -> Result<(), AllocError>
    ensures { OnOk result (numbers.new ≡ numbers.old ++ bytes.now) }
{
    for byte in bytes {
        numbers.push(usize::from(*byte))?;
    }
    Ok(())
}
