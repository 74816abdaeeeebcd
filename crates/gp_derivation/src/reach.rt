ghost use Rattle.std.specs.Prelude.{◌≡◌, ℕ, ◌+◌, ◌<◌, ◌↔◌, ◌⊎◌, [], ◌∷◌, Some, length, IfOk, OnOk, MatchOption, All, AllPairs, Contains, IsPermutation, slice_get};
ghost use Rattle.gp_derivation.specs.Numbering.{CanBeNumbered, NamesEarlier};
ghost use Rattle.gp_derivation.specs.Reach.{AreReached, IsReached, rests_on as hints_of};
ghost use Rattle.gp_derivation.specs.Room.{HasNoSmallCone, HasSmallCone, Leaves, whole_room};
ghost use Rattle.gp_derivation.specs.declared.log.LogEntry.{LogEntry};

use crate::log::{LogEntry, Origin};
use crate::room::Room;
use gp_certificate::Step;
use gp_clause::Problem;
use std::alloc::{AllocError, Global};
use std::collections::BTreeSet;

// The places of the entries on which a step with these hints rests, in the order of the log.
pub(crate) fn reached(
    alloc: Global,
    base_clauses: u32,
    log: &[LogEntry],
    hints: &[u32],
) -> Result<Vec<u32>, AllocError>
    requires within { All (λ hint. hint < base_clauses + length log.now) hints.now }
    requires entries { (place : ℕ) (entry : LogEntry) → slice_get log.now place ≡ Some entry → NamesEarlier base_clauses place entry.step entry.origin }
    ensures { IfOk result (λ places. AreReached base_clauses log.now hints.now places.items) }
{
    let places = descend(alloc, base_clauses, log, hints)?;
    Ok(turned(places))
}

// The places of the entries on which a step rests, where its cone is small. It stops where the entries that were visited
// leave no room.
pub(crate) fn small_reach(
    alloc: Global,
    problem: &Problem,
    log: &[LogEntry],
    last: &Step,
) -> Result<Option<Vec<u32>>, AllocError>
    requires { CanBeNumbered (length problem.now.clauses) log.now last.now }
    ensures { IfOk result (λ found. MatchOption found (HasNoSmallCone problem.now log.now last.now) (λ places. HasSmallCone problem.now log.now last.now places.items)) }
{
    match Room::whole().after_clause(problem.kinds.len(), &last.clause) {
        None => Ok(None),
        Some(room) => descend_within(alloc, problem, log, last, room),
    }
}

// The same with what the step itself leaves of a room.
fn descend_within(
    alloc: Global,
    problem: &Problem,
    log: &[LogEntry],
    last: &Step,
    mut room: Room,
) -> Result<Option<Vec<u32>>, AllocError>
    requires numbered { CanBeNumbered (length problem.now.clauses) log.now last.now }
    requires left { Leaves (length problem.now.kinds) whole_room (last.now.clause ∷ []) room }
    ensures { IfOk result (λ found. MatchOption found (HasNoSmallCone problem.now log.now last.now) (λ places. HasSmallCone problem.now log.now last.now places.items)) }
{
    let base_clauses = problem.clauses.len() as u32;
    let mut places = Vec::new(alloc);
    let mut todo = BTreeSet::new(alloc);
    queue(&mut todo, base_clauses, last.hints.as_slice())?;
    let mut bound = log.len();
    while let Some(place) = todo.pop_last() {
        bound = place as usize;
        let entry = &log[bound];
        let Some(left) = room.after_entry(problem.kinds.len(), entry) else {
            return Ok(None);
        };
        room = left;
        queue(&mut todo, base_clauses, rests_on(entry))?;
        places.push(place)?;
    }
    Ok(Some(turned(places)))
}

// Places in the order of the log.
fn turned(mut places: Vec<u32>) -> Vec<u32>
    requires { AllPairs (λ a b. b < a) places.items }
    ensures rising { AllPairs (λ a b. a < b) result.items }
    ensures same { IsPermutation places.items result.items }
{
    places.as_mut_slice().reverse();
    places
}

// The same places, the last one first: what the hints name is visited from the end of the log on, with what its own hints
// name.
fn descend(
    alloc: Global,
    base_clauses: u32,
    log: &[LogEntry],
    hints: &[u32],
) -> Result<Vec<u32>, AllocError>
    requires within { All (λ hint. hint < base_clauses + length log.now) hints.now }
    requires entries { (place : ℕ) (entry : LogEntry) → slice_get log.now place ≡ Some entry → NamesEarlier base_clauses place entry.step entry.origin }
    ensures falling { IfOk result (λ places. AllPairs (λ a b. b < a) places.items) }
    ensures reached { IfOk result (λ places. (place : ℕ) → Contains places.items place ↔ IsReached base_clauses log.now hints.now place) }
{
    let mut places = Vec::new(alloc);
    let mut todo = BTreeSet::new(alloc);
    queue(&mut todo, base_clauses, hints)?;
    let mut bound = log.len();
    while let Some(place) = todo.pop_last() {
        bound = place as usize;
        queue(&mut todo, base_clauses, rests_on(&log[bound]))?;
        places.push(place)?;
    }
    Ok(places)
}

// Queues the places of the entries that the hints name.
fn queue(todo: &mut BTreeSet<u32>, base_clauses: u32, hints: &[u32]) -> Result<(), AllocError>
    ensures { OnOk result ((place : ℕ) → Contains todo.new.keys place ↔ (Contains todo.old.keys place ⊎ Contains hints.now (base_clauses + place))) }
{
    for hint in hints {
        queue_one(todo, base_clauses, *hint)?;
    }
    Ok(())
}

// Queues the place of the entry that a hint names, if it names one.
fn queue_one(todo: &mut BTreeSet<u32>, base_clauses: u32, hint: u32) -> Result<(), AllocError>
    ensures { OnOk result ((place : ℕ) → Contains todo.new.keys place ↔ (Contains todo.old.keys place ⊎ (hint ≡ base_clauses + place))) }
{
    if hint < base_clauses {
        return Ok(());
    }
    todo.insert(hint - base_clauses)?;
    Ok(())
}

// The hints by which an entry rests on others.
fn rests_on(entry: &LogEntry) -> &[u32]
    ensures { result.now ≡ hints_of entry.now.step entry.now.origin }
{
    match entry.origin {
        Origin::Learned => entry.step.hints.as_slice(),
        Origin::Taken { .. } => &[],
    }
}
