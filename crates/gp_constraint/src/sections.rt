ghost use Rattle.std.specs.Prelude.{◌≡◌, ℕ, suc, ◌++◌, ◌∷◌, ◌&&◌, [], List, IfOk, OnOk, if◌then◌else◌, find, flat_map, nat_lt};
ghost use Rattle.std.specs.Str.{bytes_eq};
ghost use Rattle.gp_constraint.specs.Limited.{IsAdded};
ghost use Rattle.gp_constraint.specs.Sections.{ends_hold, exclude, gives_back, same_mode, sections};
ghost use Rattle.gp_constraint.specs.SectionTables.{section_at, sections_between, sections_in, sections_on};
ghost use Rattle.gp_constraint.specs.Tables.{entry_at};

use crate::action::Action;
use crate::adding::preceded;
use crate::fault::Full;
use crate::groups::Groups;
use crate::limited::LimitedClauses;
use crate::point::Point;
use crate::points::Points;
use crate::section::Section;
use crate::term::{executed, first};
use gp_base::Row;
use gp_text::Name;
use gp_trace::{LockMode, LockUse};
use std::alloc::{AllocError, Global};

pub fn exclude(mode: LockMode, other: LockMode) -> bool
    ensures { result ≡ exclude mode other }
{
    !matches!((mode, other), (LockMode::Shared, LockMode::Shared))
}

fn same_mode(mode: LockMode, other: LockMode) -> bool
    ensures { result ≡ same_mode mode other }
{
    matches!(
        (mode, other),
        (LockMode::Shared, LockMode::Shared) | (LockMode::Exclusive, LockMode::Exclusive)
    )
}

fn gives_back(mode: LockMode, lock: &Name, action: &Action) -> bool
    ensures { result ≡ gives_back mode lock.now action.now }
{
    match action {
        Action::Lock(LockUse::GiveBack(other, again)) => again == lock && same_mode(*other, mode),
        _ => false,
    }
}

fn ends_hold(mode: LockMode, lock: &Name, thread: u32, from: u64, p: &Point) -> bool
    ensures { result ≡ ends_hold mode lock.now thread from p.now }
{
    p.id.thread == thread && from <= u64::from(p.id.index) && gives_back(mode, lock, &p.action)
}

/// The first of these events by which the thread, from an index on, gives the lock back.
pub fn first_end(
    points: &[Point],
    mode: LockMode,
    lock: &Name,
    thread: u32,
    from: u64,
) -> Option<Point>
    ensures { result ≡ find (ends_hold mode lock.now thread from) points.now }
{
    for p in points {
        if ends_hold(mode, lock, thread, from, p) {
            return Some(*p);
        }
    }
    None
}

/// Of two sections of one lock in different threads, not both of readers, one ends before the other begins.
pub fn sections(alloc: Global, clauses: &mut LimitedClauses, points: &Points) -> Result<(), Full>
    ensures { IsAdded result clauses.old clauses.new (sections points.now) }
{
    let all = sections_in(alloc, points)?;
    let by_lock = by_lock(alloc, all.as_slice())?;
    sections_each(clauses, &by_lock, all.as_slice())
}

fn sections_each(
    clauses: &mut LimitedClauses,
    by_lock: &Groups<Section>,
    all: &[Section],
) -> Result<(), Full>
    requires { (lock : List ℕ) → entry_at by_lock.now lock ≡ sections_on lock all.now }
    ensures { IsAdded result clauses.old clauses.new (flat_map (λ a. flat_map (sections_between a) (sections_on a.lock all.now)) all.now) }
{
    for a in all {
        sections_with(clauses, by_lock.at(&a.lock), a)?;
    }
    Ok(())
}

fn sections_with(clauses: &mut LimitedClauses, others: &[Section], a: &Section) -> Result<(), Full>
    ensures { IsAdded result clauses.old clauses.new (flat_map (sections_between a.now) others.now) }
{
    for c in others {
        between(clauses, a, c)?;
    }
    Ok(())
}

fn between(clauses: &mut LimitedClauses, a: &Section, c: &Section) -> Result<(), Full>
    ensures { IsAdded result clauses.old clauses.new (sections_between a.now c.now) }
{
    if !are_apart(a, c) {
        return Ok(());
    }
    let a_begins = executed(&a.begin, false);
    let c_begins = executed(&c.begin, false);
    let a_first = [a_begins, c_begins, first(&a.begin, &c.begin, false)];
    preceded(clauses, &a_first, a.end, &c.begin)?;
    let c_first = [a_begins, c_begins, first(&a.begin, &c.begin, true)];
    preceded(clauses, &c_first, c.end, &a.begin)
}

fn are_apart(a: &Section, c: &Section) -> bool
    ensures { result ≡ (exclude a.now.mode c.now.mode && nat_lt a.now.begin.id.thread c.now.begin.id.thread) }
{
    exclude(a.mode, c.mode) && a.begin.id.thread < c.begin.id.thread
}

fn sections_in(alloc: Global, points: &Points) -> Result<Row<Section>, AllocError>
    ensures { IfOk result (λ sections. sections ≡ sections_in points.now) }
{
    let mut sections = Row::new(alloc);
    for p in points.as_slice() {
        push_section(&mut sections, points, p)?;
    }
    Ok(sections)
}

fn push_section(sections: &mut Row<Section>, points: &Points, p: &Point) -> Result<(), AllocError>
    ensures { OnOk result (sections.new ≡ sections.old ++ section_at points.now p.now) }
{
    match p.action {
        Action::Lock(LockUse::Take(mode, lock)) => sections.push(Section {
            begin: *p,
            mode,
            lock,
            end: end_of(points, mode, &lock, p),
        }),
        _ => Ok(()),
    }
}

fn end_of(points: &Points, mode: LockMode, lock: &Name, p: &Point) -> Option<Point>
    ensures { result ≡ find (ends_hold mode lock.now p.now.id.thread (suc p.now.id.index)) points.now }
{
    let from = u64::from(p.id.index) + 1;
    first_end(points.uses_of(lock), mode, lock, p.id.thread, from)
}

fn by_lock(alloc: Global, sections: &[Section]) -> Result<Groups<Section>, AllocError>
    ensures { IfOk result (λ groups. (lock : List ℕ) → entry_at groups lock ≡ sections_on lock sections.now) }
{
    let mut groups = Groups::new(alloc);
    for s in sections {
        groups.push(s.lock, *s)?;
    }
    Ok(groups)
}
