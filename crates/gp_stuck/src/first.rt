ghost use Rattle.std.specs.Prelude.{◌≡◌, true, Contains, OnOk};
ghost use Rattle.gp_window.specs.Formed.{IsFormed};
ghost use Rattle.gp_stuck.specs.Closing.{IsFirst};
ghost use Rattle.gp_stuck.specs.Links.{AreLinked, IsHolding};
ghost use Rattle.gp_stuck.specs.Search.{takers_of};

use crate::closing::{closers_of, steps_of};
use crate::holding::{Holding, go_to};
use crate::link::{Closer, Link, Step};
use crate::waiting::Waiting;
use gp_constraint::Groups;
use gp_window::EventId;
use std::alloc::{AllocError, Global};

/// An event that cycles may begin with, and by lock the threads that hold it and wait for what the event's thread holds, and those that
/// hold it and wait for what these hold.
#[derive(Drop)]
pub struct First {
    pub holding: Holding,
    pub closers: Groups<Closer>,
    pub steps: Groups<Step>,
    /// Whether chains are narrowed by these; else nothing stands in them.
    pub narrows: bool,
}

/// Goes to the next first event.
pub fn begin_with(
    alloc: Global,
    waiting: &Waiting,
    links: &[Link],
    id: EventId,
    first: &mut First,
) -> Result<(), AllocError>
    requires formed { IsFormed waiting.now }
    requires linked { first.old.narrows ≡ true → AreLinked waiting.now (takers_of waiting.now) links.now }
    requires among { Contains (takers_of waiting.now) id }
    requires holding { IsHolding waiting.now first.old.holding }
    ensures narrows { first.new.narrows ≡ first.old.narrows }
    ensures there { OnOk result (first.new.holding.id ≡ id) }
    ensures first { OnOk result (IsFirst waiting.now first.new) }
{
    go_to(alloc, waiting.window(), id, &mut first.holding)?;
    if !first.narrows {
        return Ok(());
    }
    let closers = closers_of(alloc, id.thread, &first.holding.held, links)?;
    let steps = steps_of(alloc, id.thread, &closers, links)?;
    first.closers = closers;
    first.steps = steps;
    Ok(())
}
