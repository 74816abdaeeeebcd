ghost use Rattle.std.specs.Prelude.{◌≡◌, ◌++◌, ◌∷◌, [], ◌-◌, ◌==◌, length, take, IfOk, Ok, Err, Some, is_some, if◌then◌else◌, OnOk};
ghost use Rattle.gp_trace.specs.LockUse.{held_after_use};
ghost use Rattle.gp_trace.specs.Rules.{after, at_first, check, in_line, is_held_as, is_innermost, lock_fault};

use crate::event::Event;
use crate::fault::TraceFault;
use crate::lock_use::{LockMode, LockUse};
use gp_base::{Row, Table};
use gp_text::Name;
use std::alloc::{AllocError, Global};

/// The locks that a thread holds, and the regions that it has begun and not ended, innermost last.
#[derive(Drop)]
pub struct Standing {
    pub held: Table<Name, LockMode>,
    pub begun: Row<Name>,
}

impl Standing {
    /// That of a thread that has done nothing, which takes no memory.
    pub fn at_first(alloc: Global) -> Standing
        ensures { result ≡ at_first }
    {
        Standing {
            held: Table::new(alloc),
            begun: Row::new(alloc),
        }
    }
}

/// Whether the thread may do this event in this line.
pub fn check(thread: u32, line: u32, standing: &Standing, event: &Event) -> Result<(), TraceFault>
    ensures { result ≡ check thread line standing.now event.now }
{
    match event {
        Event::Start(other) | Event::Join(other) => check_other(thread, line, *other),
        Event::End(region) => check_end(line, standing, region),
        _ => check_lock(line, &standing.held, event.lock_use()),
    }
}

fn check_other(thread: u32, line: u32, other: u32) -> Result<(), TraceFault>
    ensures { result ≡ (if other == thread then Err (TraceFault.NameSelf line) else Ok tt) }
{
    if other == thread {
        return Err(TraceFault::NameSelf(line));
    }
    Ok(())
}

fn check_end(line: u32, standing: &Standing, region: &Name) -> Result<(), TraceFault>
    ensures { result ≡ (if is_innermost standing.now.begun region.now then Ok tt else Err (TraceFault.RegionUnmatched line)) }
{
    if is_innermost(standing.begun.as_slice(), region) {
        return Ok(());
    }
    Err(TraceFault::RegionUnmatched(line))
}

fn is_innermost(begun: &[Name], region: &Name) -> bool
    ensures { result ≡ is_innermost begun.now region.now }
{
    match begun.last() {
        Some(innermost) => innermost == region,
        None => false,
    }
}

fn check_lock(
    line: u32,
    held: &Table<Name, LockMode>,
    lock_use: Option<LockUse>,
) -> Result<(), TraceFault>
    ensures { result ≡ in_line line (lock_fault held.now lock_use) }
{
    match lock_use {
        Some(lock_use) => check_use(line, held, &lock_use),
        None => Ok(()),
    }
}

fn check_use(line: u32, held: &Table<Name, LockMode>, lock_use: &LockUse) -> Result<(), TraceFault>
    ensures { result ≡ in_line line (lock_fault held.now (Some lock_use.now)) }
{
    match lock_use {
        LockUse::Take(_, lock) => check_take(line, held.get(lock).copied()),
        LockUse::GiveBack(mode, lock) => check_give_back(line, *mode, held.get(lock).copied()),
    }
}

fn check_take(line: u32, held: Option<LockMode>) -> Result<(), TraceFault>
    ensures { result ≡ (if is_some held then Err (TraceFault.AcquireHeld line) else Ok tt) }
{
    if held.is_some() {
        return Err(TraceFault::AcquireHeld(line));
    }
    Ok(())
}

fn check_give_back(line: u32, mode: LockMode, held: Option<LockMode>) -> Result<(), TraceFault>
    ensures { result ≡ (if is_held_as mode held then Ok tt else Err (TraceFault.ReleaseUnheld line)) }
{
    match (mode, held) {
        (LockMode::Exclusive, Some(LockMode::Exclusive)) => Ok(()),
        (LockMode::Shared, Some(LockMode::Shared)) => Ok(()),
        _ => Err(TraceFault::ReleaseUnheld(line)),
    }
}

/// Where the thread stands after the event.
pub fn after(standing: Standing, event: &Event) -> Result<Standing, AllocError>
    ensures { IfOk result (λ next. next ≡ after standing event.now) }
{
    match event {
        Event::Begin(region) => with_region(standing, region),
        Event::End(_) => Ok(without_innermost(standing)),
        _ => after_use(standing, event.lock_use()),
    }
}

fn after_use(standing: Standing, lock_use: Option<LockUse>) -> Result<Standing, AllocError>
    ensures { IfOk result (λ next. next ≡ record standing { held = held_after_use standing.held lock_use }) }
{
    let Standing { mut held, begun } = standing;
    if let Some(lock_use) = lock_use {
        use_lock(&mut held, &lock_use)?;
    }
    Ok(Standing { held, begun })
}

fn use_lock(held: &mut Table<Name, LockMode>, lock_use: &LockUse) -> Result<(), AllocError>
    ensures { OnOk result (held.new ≡ held_after_use held.old (Some lock_use.now)) }
{
    match lock_use {
        LockUse::Take(mode, lock) => held.put(*lock, *mode),
        LockUse::GiveBack(_, lock) => {
            held.remove(lock);
            Ok(())
        }
    }
}

fn with_region(standing: Standing, region: &Name) -> Result<Standing, AllocError>
    ensures { IfOk result (λ next. next ≡ record standing { begun = standing.begun ++ region.now ∷ [] }) }
{
    let Standing { held, mut begun } = standing;
    begun.push(*region)?;
    Ok(Standing { held, begun })
}

fn without_innermost(standing: Standing) -> Standing
    ensures { result ≡ record standing { begun = take (length standing.begun - 1) standing.begun } }
{
    let Standing { held, begun } = standing;
    let mut begun = begun.into_vec();
    begun.truncate(begun.len().saturating_sub(1));
    Standing {
        held,
        begun: Row::from_vec(begun),
    }
}
