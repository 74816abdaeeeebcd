ghost use Rattle.std.specs.Prelude.{◌≡◌, ◌≢◌, [], map, true, Err, IfOk, OnOk};
ghost use Rattle.gp_instance.specs.Instances.{numbered};
ghost use Rattle.gp_instance.specs.Search.{first_instances};
ghost use Rattle.gp_window.specs.Formed.{IsFormed};
ghost use Rattle.gp_stuck.specs.Cycles.{due_cycles};
ghost use Rattle.gp_stuck.specs.Links.{AreLinked, IsHolding};
ghost use Rattle.gp_stuck.specs.Search.{found_cycles, takers_of};

use crate::first::{First, begin_with};
use crate::holding::first_holding;
use crate::link::Link;
use crate::links::{MOST_LINKS, links_of};
use crate::search::{MOST_CYCLES, extend_first};
use crate::waiting::Waiting;
use gp_base::Row;
use gp_constraint::Groups;
use gp_instance::{Instance, InstancesFault};
use gp_window::{Window, windows_are_formed};
use std::alloc::{AllocError, Global};

/// All cycles of a window, in lexicographic order of their events by thread and index.
///
/// First one walk over the events notes which locks a thread holds at each that takes one: that takes the
/// time of the events, and of the locks held at those that take one. A second walk notes, seldom twice, the ways to
/// wait: which thread takes which lock while it holds which other. Of these, for each event that takes a lock while
/// its thread holds another, two tables are made: which threads wait for what is held there, and which for these. The
/// search then goes from that event over those alone that hold the lock that is waited for, and enters one only where
/// the tables have threads that close the chain with the events that are left of four, so that all that it enters
/// stands in a cycle. It stops one cycle past the limit. The worst case is of the order of n times w for n notes and w
/// ways to wait, by the tables, and of n for each event of a cycle that is listed; where there are more than 16,384 ways to
/// wait, as where a thread holds hundreds of locks at once, no tables are made, and it is of the order of n to the power of 5.
pub fn cycles(alloc: Global, window: &Window) -> Result<Row<Instance>, InstancesFault>
    ensures { result ≢ Err InstancesFault.Memory → result ≡ due_cycles window.now }
{
    let waiting = Waiting::of(alloc, window)?;
    let found = found(alloc, &waiting)?;
    if found.len() > MOST_CYCLES {
        return Err(InstancesFault::TooMany);
    }
    Ok(found)
}

/// The cycles of a window, up to one more than are listed.
fn found(alloc: Global, waiting: &Waiting) -> Result<Row<Instance>, AllocError>
    ensures { IfOk result (λ found. found ≡ first_instances [] (map (numbered 0) (found_cycles waiting.now))) }
{
    let window = waiting.window();
    windows_are_formed();
    window.comes_from_recording();
    let links = links_of(alloc, waiting)?;
    let holding = first_holding(alloc, window)?;
    let mut first = First {
        holding,
        closers: Groups::new(alloc),
        steps: Groups::new(alloc),
        narrows: links.len() <= MOST_LINKS,
    };
    let mut found = Row::new(alloc);
    find_all(alloc, waiting, links.as_slice(), &mut first, &mut found)?;
    Ok(found)
}

fn find_all(
    alloc: Global,
    waiting: &Waiting,
    links: &[Link],
    first: &mut First,
    found: &mut Row<Instance>,
) -> Result<(), AllocError>
    requires formed { IsFormed waiting.now }
    requires linked { first.old.narrows ≡ true → AreLinked waiting.now (takers_of waiting.now) links.now }
    requires holding { IsHolding waiting.now first.old.holding }
    requires nothing { found.old ≡ [] }
    ensures { OnOk result (found.new ≡ first_instances [] (map (numbered 0) (found_cycles waiting.now))) }
{
    for id in waiting.starts() {
        if found.len() > MOST_CYCLES {
            return Ok(());
        }
        begin_with(alloc, waiting, links, *id, first)?;
        extend_first(alloc, waiting, links, first, found)?;
    }
    Ok(())
}
