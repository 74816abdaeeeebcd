ghost use Rattle.std.specs.Prelude.{◌≡◌, ◌==◌, ◌&&◌, ℕ, List, Some, ◌≤◌, Contains, IfOk, OnOk, length};
ghost use Rattle.std.specs.List.{list_any};
ghost use Rattle.gp_trace.specs.declared.lock_use.LockMode.{LockMode};
ghost use Rattle.gp_trace.specs.LockUse.{mode_held};
ghost use Rattle.gp_window.specs.Formed.{IsFormed};
ghost use Rattle.gp_stuck.specs.declared.link.Link.{Link};
ghost use Rattle.gp_stuck.specs.Links.{AreLinked, IsHolding, IsLink, is_same_link, link_of};
ghost use Rattle.gp_stuck.specs.Search.{takers_of};

use crate::event::{same_mode, use_at};
use crate::holding::{Holding, first_holding, go_to};
use crate::link::Link;
use crate::waiting::Waiting;
use gp_base::Row;
use gp_text::Name;
use gp_trace::{LockMode, LockUse};
use gp_window::{Window, windows_are_formed};
use std::alloc::{AllocError, Global};

/// How many links are looked at before one more is added: so one is added again where as many others came in between.
const LOOKED_AT: usize = 256;

/// With more links than these, as where a thread holds hundreds of locks at once, chains are searched as they come.
pub const MOST_LINKS: usize = 16_384;

/// Each way in which an event of a window waits, at least once, unless they are too many.
pub fn links_of(alloc: Global, waiting: &Waiting) -> Result<Row<Link>, AllocError>
    ensures { IfOk result (λ links. length links ≤ 16384 → AreLinked waiting.now (takers_of waiting.now) links) }
{
    let window = waiting.window();
    windows_are_formed();
    window.comes_from_recording();
    let mut holding = first_holding(alloc, window)?;
    let mut links = Row::new(alloc);
    link_all(alloc, waiting, &mut holding, &mut links)?;
    Ok(links)
}

fn link_all(
    alloc: Global,
    waiting: &Waiting,
    holding: &mut Holding,
    links: &mut Row<Link>,
) -> Result<(), AllocError>
    requires formed { IsFormed waiting.now }
    requires holding { IsHolding waiting.now holding.old }
    ensures { OnOk result (length links.new ≤ 16384 → AreLinked waiting.now (takers_of waiting.now) links.new) }
{
    let window = waiting.window();
    for id in waiting.starts() {
        if links.len() > MOST_LINKS {
            return Ok(());
        }
        go_to(alloc, window, *id, holding)?;
        link_event(window, holding, links)?;
    }
    Ok(())
}

/// Adds how this event waits.
fn link_event(window: &Window, holding: &Holding, links: &mut Row<Link>) -> Result<(), AllocError>
    requires { IsHolding window.now holding.now }
    ensures kept { OnOk result ((link : Link) → Contains links.old link → Contains links.new link) }
    ensures linked { OnOk result ((link : Link) → IsLink window.now link holding.now.id → Contains links.new link) }
{
    let Some(lock_use) = use_at(window, holding.id) else {
        return Ok(());
    };
    match lock_use {
        LockUse::Take(wanted, lock) => link_held(holding, lock, wanted, links),
        LockUse::GiveBack(..) => Ok(()),
    }
}

/// Adds that the thread waits so for this lock while it holds each of its own.
fn link_held(
    holding: &Holding,
    lock: Name,
    wanted: LockMode,
    links: &mut Row<Link>,
) -> Result<(), AllocError>
    ensures kept { OnOk result ((link : Link) → Contains links.old link → Contains links.new link) }
    ensures linked { OnOk result ((held : List ℕ) (mode : LockMode) → mode_held holding.now.held held ≡ Some mode → Contains links.new (link_of holding.now.id.thread lock wanted (held, mode))) }
{
    for (held, mode) in holding.held.iter() {
        let link = Link {
            thread: holding.id.thread,
            held: *held,
            mode: *mode,
            lock,
            wanted,
        };
        add_link(links, link)?;
    }
    Ok(())
}

/// Adds a link, unless it is one of the last.
fn add_link(links: &mut Row<Link>, link: Link) -> Result<(), AllocError>
    ensures kept { OnOk result ((one : Link) → Contains links.old one → Contains links.new one) }
    ensures there { OnOk result (Contains links.new link) }
{
    let from = links.len().saturating_sub(LOOKED_AT);
    if has_link(&links.as_slice()[from..], &link) {
        return Ok(());
    }
    links.push(link)
}

fn has_link(links: &[Link], link: &Link) -> bool
    ensures { result ≡ list_any (λ one. is_same_link one link.now) links.now }
{
    links.iter().any(|one| is_same_link(one, link))
}

fn is_same_link(one: &Link, other: &Link) -> bool
    ensures { result ≡ is_same_link one.now other.now }
{
    one.thread == other.thread
        && one.held == other.held
        && same_mode(one.mode, other.mode)
        && one.lock == other.lock
        && same_mode(one.wanted, other.wanted)
}
