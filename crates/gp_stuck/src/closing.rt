ghost use Rattle.std.specs.Prelude.{◌≡◌, ◌==◌, ◌&&◌, ℕ, List, Contains, not, true, IfOk, OnOk};
ghost use Rattle.gp_trace.specs.LockUse.{mode_held};
ghost use Rattle.gp_constraint.specs.Tables.{entry_at};
ghost use Rattle.gp_stuck.specs.declared.link.Closer.{Closer};
ghost use Rattle.gp_stuck.specs.declared.link.Step.{Step};
ghost use Rattle.gp_stuck.specs.Closing.{HasStep, HaveClosers, HaveSteps, IsCloser, IsStep, has_other, is_behind};
ghost use Rattle.gp_stuck.specs.Cycle.{keeps_out};

use crate::event::exclude;
use crate::link::{Closer, Link, Others, Step};
use gp_base::Table;
use gp_constraint::Groups;
use gp_text::Name;
use gp_trace::LockMode;
use std::alloc::{AllocError, Global};

/// Whether a lock cannot be taken so, where these are held.
pub fn keeps_out(held: &Table<Name, LockMode>, mode: LockMode, lock: &Name) -> bool
    ensures { result ≡ keeps_out mode (mode_held held.now lock.now) }
{
    match held.get(lock) {
        Some(own) => exclude(*own, mode),
        None => false,
    }
}

/// By lock, the threads greater than the first that hold it while they wait for one of these locks. In the time of the links.
pub fn closers_of(
    alloc: Global,
    first: u32,
    held: &Table<Name, LockMode>,
    links: &[Link],
) -> Result<Groups<Closer>, AllocError>
    ensures { IfOk result (λ closers. HaveClosers first held.now links.now closers) }
{
    let mut closers = Groups::new(alloc);
    for link in links {
        add_closer(first, held, link, &mut closers)?;
    }
    Ok(closers)
}

fn add_closer(
    first: u32,
    held: &Table<Name, LockMode>,
    link: &Link,
    closers: &mut Groups<Closer>,
) -> Result<(), AllocError>
    ensures kept { OnOk result ((lock : List ℕ) (closer : Closer) → Contains (entry_at closers.old lock) closer → Contains (entry_at closers.new lock) closer) }
    ensures added { OnOk result (IsCloser first held.now closers.new link.now) }
{
    if link.thread <= first {
        return Ok(());
    }
    if !keeps_out(held, link.wanted, &link.lock) {
        return Ok(());
    }
    let closer = Closer {
        thread: link.thread,
        mode: link.mode,
    };
    closers.push(link.held, closer)
}

/// By lock, the threads greater than the first that hold it while they wait for one that closes. In the time of the links and,
/// at most, of the threads that close behind each.
pub fn steps_of(
    alloc: Global,
    first: u32,
    closers: &Groups<Closer>,
    links: &[Link],
) -> Result<Groups<Step>, AllocError>
    ensures { IfOk result (λ steps. HaveSteps first closers.now links.now steps) }
{
    let mut steps = Groups::new(alloc);
    for link in links {
        add_step(first, closers, link, &mut steps)?;
    }
    Ok(steps)
}

fn add_step(
    first: u32,
    closers: &Groups<Closer>,
    link: &Link,
    steps: &mut Groups<Step>,
) -> Result<(), AllocError>
    ensures kept { OnOk result ((lock : List ℕ) (step : Step) → Contains (entry_at steps.old lock) step → Contains (entry_at steps.new lock) step) }
    ensures added { OnOk result (IsStep first closers.now steps.new link.now) }
{
    if link.thread <= first {
        return Ok(());
    }
    let others = others_of(link, closers.at(&link.lock));
    put_step(link, others, steps)
}

fn put_step(link: &Link, others: Others, steps: &mut Groups<Step>) -> Result<(), AllocError>
    ensures kept { OnOk result ((lock : List ℕ) (step : Step) → Contains (entry_at steps.old lock) step → Contains (entry_at steps.new lock) step) }
    ensures added { OnOk result ((thread : ℕ) → has_other others thread ≡ true → HasStep (entry_at steps.new link.now.held) link.now thread) }
{
    if let Others::Nobody = others {
        return Ok(());
    }
    let step = Step {
        thread: link.thread,
        mode: link.mode,
        others,
    };
    steps.push(link.held, step)
}

/// Those of these threads that may come behind a link.
fn others_of(link: &Link, closers: &[Closer]) -> Others
    ensures { (closer : Closer) → Contains closers.now closer → is_behind link.now closer ≡ true → has_other result closer.thread ≡ true }
{
    let mut others = Others::Nobody;
    for closer in closers {
        others = with_other(others, link, closer);
    }
    others
}

fn with_other(others: Others, link: &Link, closer: &Closer) -> Others
    ensures kept { (thread : ℕ) → has_other others thread ≡ true → has_other result thread ≡ true }
    ensures added { is_behind link.now closer.now ≡ true → has_other result closer.now.thread ≡ true }
{
    if !is_behind(link, closer) {
        return others;
    }
    match others {
        Others::Nobody => Others::One(closer.thread),
        Others::One(thread) => one_or_several(thread, closer.thread),
        Others::Several => Others::Several,
    }
}

fn one_or_several(one: u32, other: u32) -> Others
    ensures one { has_other result one ≡ true }
    ensures other { has_other result other ≡ true }
{
    if one == other {
        Others::One(one)
    } else {
        Others::Several
    }
}

fn is_behind(link: &Link, closer: &Closer) -> bool
    ensures { result ≡ is_behind link.now closer.now }
{
    exclude(closer.mode, link.wanted) && link.thread != closer.thread
}
